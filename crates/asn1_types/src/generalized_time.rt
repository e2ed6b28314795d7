//! Times with a year of four digits.

ghost use Rattle.std.specs.Prelude.{◌≡◌, ◌≢◌, ◌↔◌, [], ◌∷◌, IsSome, IfSome, MatchOption, Some};
ghost use Rattle.asn1_types.specs.Calendar.{IsMoment};

use crate::calendar::is_moment;
use crate::digits::{digits_of, number_at};
use crate::utc_time::UTCTime;
use std::fmt;

/// A GeneralizedTime of certificates: UTC, years 0 to 9999, to the second (X.690 11.7, RFC 5280
/// 4.1.2.5.2).
#[derive(Clone, Copy, PartialEq, Eq, PartialOrd, Ord, Hash, Debug)]
pub struct GeneralizedTime {
    year: u16,
    month: u8,
    day: u8,
    hour: u8,
    minute: u8,
    second: u8,
    pub ghost exists: { IsMoment year month day hour minute second },
}

impl GeneralizedTime {
    ghost use Rattle.asn1_types.specs.declared.generalized_time.GeneralizedTime.{GeneralizedTime};
    ghost use Rattle.asn1_types.specs.Time.{generalized_contents, generalized_fields};

    /// The time with these fields, `None` exactly if the moment doesn't exist.
    pub fn new(year: u16, month: u8, day: u8, hour: u8, minute: u8, second: u8) -> Option<Self>
        ensures exists { IsSome result ↔ IsMoment year month day hour minute second }
        ensures given { IfSome result
            (λ time. generalized_fields time ≡ year ∷ month ∷ day ∷ hour ∷ minute ∷ second ∷ []) }
    {
        if !is_moment(year, month, day, hour, minute, second) {
            return None;
        }
        Some(GeneralizedTime {
            year,
            month,
            day,
            hour,
            minute,
            second,
        })
    }

    /// The time with these contents octets, `None` exactly if they aren't those of a time.
    pub fn from_content(bytes: &[u8]) -> Option<Self>
        ensures read { MatchOption result
            ((time : GeneralizedTime) → bytes.now ≢ generalized_contents time)
            (λ time. bytes.now ≡ generalized_contents time) }
        ensures only { (time : GeneralizedTime)
            → bytes.now ≡ generalized_contents time → result ≡ Some time }
    {
        if bytes.len() != 15 || bytes[14] != b'Z' {
            return None;
        }
        let century = u16::from(number_at(bytes, 0)?);
        let of_century = u16::from(number_at(bytes, 2)?);
        GeneralizedTime::new(
            100 * century + of_century,
            number_at(bytes, 4)?,
            number_at(bytes, 6)?,
            number_at(bytes, 8)?,
            number_at(bytes, 10)?,
            number_at(bytes, 12)?,
        )
    }

    /// The contents octets.
    pub fn to_content(&self) -> [u8; 15]
        ensures { result ≡ generalized_contents self.now }
    {
        let [c1, c2] = digits_of((self.year / 100) as u8);
        let [y1, y2] = digits_of((self.year % 100) as u8);
        let [month1, month2] = digits_of(self.month);
        let [day1, day2] = digits_of(self.day);
        let [h1, h2] = digits_of(self.hour);
        let [m1, m2] = digits_of(self.minute);
        let [s1, s2] = digits_of(self.second);
        [
            c1, c2, y1, y2, month1, month2, day1, day2, h1, h2, m1, m2, s1, s2, b'Z',
        ]
    }

    /// The year, from 0 to 9999.
    pub fn year(&self) -> u16
        ensures { result ≡ self.now.year }
    {
        self.year
    }

    /// The month, from 1 for January to 12.
    pub fn month(&self) -> u8
        ensures { result ≡ self.now.month }
    {
        self.month
    }

    /// The day of the month, from 1.
    pub fn day(&self) -> u8
        ensures { result ≡ self.now.day }
    {
        self.day
    }

    /// The hour, from 0 to 23.
    pub fn hour(&self) -> u8
        ensures { result ≡ self.now.hour }
    {
        self.hour
    }

    /// The minute, from 0 to 59.
    pub fn minute(&self) -> u8
        ensures { result ≡ self.now.minute }
    {
        self.minute
    }

    /// The second, from 0 to 59.
    pub fn second(&self) -> u8
        ensures { result ≡ self.now.second }
    {
        self.second
    }
}

impl From<UTCTime> for GeneralizedTime {
    ghost use Rattle.asn1_types.specs.Time.{generalized_fields, utc_fields};

    ghost from_gives = { λ utc time. generalized_fields time ≡ utc_fields utc };

    fn from(utc: UTCTime) -> GeneralizedTime {
        *utc
    }
}

impl fmt::Display for GeneralizedTime {
    ghost use Rattle.asn1_types.specs.Time.{time_text};

    ghost output = { λ time. Some (time_text time) };

    fn fmt<W: fmt::Write>(&self, f: &mut fmt::Formatter<W>) -> fmt::Result {
        write!(
            f,
            "{:04}-{:02}-{:02} {:02}:{:02}:{:02}",
            self.year, self.month, self.day, self.hour, self.minute, self.second
        )
    }
}
