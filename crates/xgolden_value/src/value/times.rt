//! Both times and dates.

use asn1_types::{GeneralizedTime, UTCTime};
use der_core::Structure;
use names_core::UtcDate;
use std::alloc::Global;
use x509_types::Time;
use xgolden::{Args, Line, Unanswered, number_of};

/// The fields of a date and time, which may not exist.
#[derive(Clone, Copy)]
struct Fields {
    year: u16,
    month: u8,
    day: u8,
    hour: u8,
    minute: u8,
    second: u8,
}

impl Fields {
    fn from_words(words: &[&str]) -> Result<Fields, Unanswered> {
        let [year, month, day, hour, minute, second] = words else {
            return Err(Unanswered::NoCall);
        };
        Ok(Fields {
            year: number_of(year)?,
            month: number_of(month)?,
            day: number_of(day)?,
            hour: number_of(hour)?,
            minute: number_of(minute)?,
            second: number_of(second)?,
        })
    }

    fn generalized(self) -> Option<GeneralizedTime> {
        GeneralizedTime::new(
            self.year,
            self.month,
            self.day,
            self.hour,
            self.minute,
            self.second,
        )
    }

    fn utc(self) -> Option<UTCTime> {
        UTCTime::new(
            self.year,
            self.month,
            self.day,
            self.hour,
            self.minute,
            self.second,
        )
    }

    fn date(self) -> Option<UtcDate> {
        UtcDate::new(
            self.year,
            self.month,
            self.day,
            self.hour,
            self.minute,
            self.second,
        )
    }
}

/// Prints the output for a call on times and dates.
pub fn print(alloc: Global, call: &str, args: Args<'_>, line: &mut Line) {
    match (call, args.octets) {
        ("generalized_content", [Some(contents)]) => print_generalized(
            GeneralizedTime::from_content(contents),
            line,
        ),
        ("utc_content", [Some(contents)]) => print_utc(UTCTime::from_content(contents), line),
        ("date_of", [Some(element)]) => print_date_at(alloc, element, line),
        _ => match print_fields_of(alloc, call, args.words, line) {
            Ok(()) => {}
            Err(why) => line.lose(why),
        },
    }
}

/// Prints the output for a call on fields of dates and times.
fn print_fields_of(
    alloc: Global,
    call: &str,
    words: &[&str],
    line: &mut Line,
) -> Result<(), Unanswered> {
    match call {
        "generalized" => print_generalized(Fields::from_words(words)?.generalized(), line),
        "utc" => print_utc(Fields::from_words(words)?.utc(), line),
        "date" => print_date(alloc, Fields::from_words(words)?.date(), line),
        "day" => print_date(alloc, day(words)?, line),
        "order" => print_order(words, line)?,
        _ => return Err(Unanswered::NoCall),
    }
    Ok(())
}

/// The first second of a day, which may not exist.
fn day(words: &[&str]) -> Result<Option<UtcDate>, Unanswered> {
    let [year, month, day] = words else {
        return Err(Unanswered::NoCall);
    };
    Ok(UtcDate::ymd(number_of(year)?, number_of(month)?, number_of(day)?))
}

/// The date of an element, which is a Time in a certificate.
fn print_date_at(alloc: Global, element: &[u8], line: &mut Line) {
    match Time::from_der(alloc, element) {
        Ok(time) => print_date(alloc, Some(UtcDate::from(time)), line),
        Err(error) => line.shown(&error),
    }
}

/// The text, the fields and the contents octets of a time.
fn print_generalized(time: Option<GeneralizedTime>, line: &mut Line) {
    match time {
        Some(time) => print_moment(time, line),
        None => line.word("none"),
    }
}

fn print_moment(time: GeneralizedTime, line: &mut Line) {
    line.shown(&time);
    print_fields(time, line);
    line.octets(time.to_content().as_slice());
}

fn print_fields(time: GeneralizedTime, line: &mut Line) {
    line.shown(&time.year());
    line.shown(&time.month());
    line.shown(&time.day());
    line.shown(&time.hour());
    line.shown(&time.minute());
    line.shown(&time.second());
}

/// The text, the fields and the contents octets of a time, and the contents octets of the
/// GeneralizedTime of the same second.
fn print_utc(time: Option<UTCTime>, line: &mut Line) {
    let Some(time) = time else {
        return line.word("none");
    };
    line.shown(&time);
    print_fields(*time, line);
    line.octets(time.to_content().as_slice());
    line.octets(GeneralizedTime::from(time).to_content().as_slice());
}

/// The text of a date, its GeneralizedTime, the contents octets of its UTCTime, and its Time in a
/// certificate.
fn print_date(alloc: Global, date: Option<UtcDate>, line: &mut Line) {
    let Some(date) = date else {
        return line.word("none");
    };
    line.shown(&date);
    print_moment(GeneralizedTime::from(date), line);
    match date.utc_time() {
        Some(time) => line.octets(time.to_content().as_slice()),
        None => line.word("none"),
    }
    print_certificate_time(alloc, date, line);
}

/// The octets of a certificate's Time for a date, and the date that is read from them.
fn print_certificate_time(alloc: Global, date: UtcDate, line: &mut Line) {
    match Time::from(date).to_der(alloc) {
        Ok(octets) => {
            line.octets(&octets);
            print_time_at(alloc, &octets, line);
        }
        Err(error) => line.shown(&error),
    }
}

fn print_time_at(alloc: Global, octets: &[u8], line: &mut Line) {
    match Time::from_der(alloc, octets) {
        Ok(time) => line.shown(&UtcDate::from(time)),
        Err(error) => line.shown(&error),
    }
}

/// The order of two dates, both ways.
fn print_order(fields: &[&str], line: &mut Line) -> Result<(), Unanswered> {
    let (first, second) = fields.split_at_checked(6).ok_or(Unanswered::NoCall)?;
    let (first, second) = (date_of(first)?, date_of(second)?);
    line.named(&first.cmp(&second));
    line.named(&second.cmp(&first));
    Ok(())
}

fn date_of(fields: &[&str]) -> Result<UtcDate, Unanswered> {
    Fields::from_words(fields)?.date().ok_or(Unanswered::NoCall)
}
