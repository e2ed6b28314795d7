//! Dates with a time of day, in UTC.

ghost use Rattle.std.specs.Prelude.{◌≡◌, ◌↔◌, [], ◌∷◌, IsSome, IfSome, Some};
ghost use Rattle.asn1_types.specs.declared.generalized_time.GeneralizedTime.{GeneralizedTime};
ghost use Rattle.asn1_types.specs.Calendar.{IsCalendarDate, IsMoment, IsUtcYear};
ghost use Rattle.asn1_types.specs.Time.{generalized_fields, time_text, utc_fields, year_of};
ghost use Rattle.names_core.specs.UtcDate.{time_fields, IsTimeOf};

use asn1_types::{GeneralizedTime, Time, UTCTime};
use std::fmt;
use std::marker::Model;
use std::ops::Deref;

/// A moment of the years 0 to 9999 in UTC, to the second. Contracts see its GeneralizedTime. Dates
/// are ordered by year, month, day, hour, minute and second.
#[derive(Clone, Copy, PartialEq, Eq, PartialOrd, Ord, Hash, Debug)]
pub struct UtcDate {
    time: GeneralizedTime,
}

impl Model for UtcDate {
    ghost Value = { GeneralizedTime };

    ghost view = { λ date. date.time };

    ghost inverse = { λ time. record { time = time } };
}

impl UtcDate {
    /// The date with these fields, `None` exactly if the moment doesn't exist.
    pub fn new(year: u16, month: u8, day: u8, hour: u8, minute: u8, second: u8) -> Option<Self>
        ensures exists { IsSome result ↔ IsMoment year month day hour minute second }
        ensures given { IfSome result
            (λ date. generalized_fields date ≡ year ∷ month ∷ day ∷ hour ∷ minute ∷ second ∷ []) }
    {
        let time = GeneralizedTime::new(year, month, day, hour, minute, second)?;
        Some(UtcDate { time })
    }

    /// The first second of a day, `None` exactly if the day doesn't exist.
    pub fn ymd(year: u16, month: u8, day: u8) -> Option<Self>
        ensures exists { IsSome result ↔ IsCalendarDate year month day }
        ensures given { IfSome result
            (λ date. generalized_fields date ≡ year ∷ month ∷ day ∷ 0 ∷ 0 ∷ 0 ∷ []) }
    {
        UtcDate::new(year, month, day, 0, 0, 0)
    }

    /// The date as a UTCTime, `None` exactly if the year isn't in 1950 to 2049.
    pub fn utc_time(&self) -> Option<UTCTime>
        ensures exists { IsSome result ↔ IsUtcYear (year_of self.now) }
        ensures given { IfSome result (λ time. utc_fields time ≡ generalized_fields self.now) }
    {
        UTCTime::new(
            self.year(),
            self.month(),
            self.day(),
            self.hour(),
            self.minute(),
            self.second(),
        )
    }
}

/// The fields of the date.
impl Deref for UtcDate {
    type Target = GeneralizedTime;

    ghost deref_gives = { λ date time. time ≡ date };

    fn deref(&self) -> &GeneralizedTime {
        &self.time
    }
}

impl From<GeneralizedTime> for UtcDate {
    ghost from_gives = { λ time date. date ≡ time };

    fn from(time: GeneralizedTime) -> UtcDate {
        UtcDate { time }
    }
}

impl From<UtcDate> for GeneralizedTime {
    ghost from_gives = { λ date time. time ≡ date };

    fn from(date: UtcDate) -> GeneralizedTime {
        date.time
    }
}

impl From<UTCTime> for UtcDate {
    ghost from_gives = { λ time date. generalized_fields date ≡ utc_fields time };

    fn from(time: UTCTime) -> UtcDate {
        UtcDate {
            time: GeneralizedTime::from(time),
        }
    }
}

/// The moment of a time in either form.
impl From<Time> for UtcDate {
    ghost from_gives = { λ time date. generalized_fields date ≡ time_fields time };

    fn from(time: Time) -> UtcDate {
        match time {
            Time::Utc(time) => UtcDate::from(time),
            Time::Generalized(time) => UtcDate::from(time),
        }
    }
}

/// The date as the time of a certificate: a UTCTime exactly in the years 1950 to 2049.
impl From<UtcDate> for Time {
    ghost from_gives = { IsTimeOf };

    fn from(date: UtcDate) -> Time {
        match date.utc_time() {
            Some(time) => Time::Utc(time),
            None => Time::Generalized(date.time),
        }
    }
}

impl fmt::Display for UtcDate {
    ghost output = { λ date. Some (time_text date) };

    fn fmt<W: fmt::Write>(&self, f: &mut fmt::Formatter<W>) -> fmt::Result {
        self.time.fmt(f)
    }
}
