//! Times with a year of two digits.

ghost use Rattle.std.specs.Prelude.{◌≡◌, ◌≢◌, ◌↔◌, ◌%◌, ◌<◌, [], ◌∷◌, IsSome, IfSome, MatchOption, Some};
ghost use Rattle.asn1_types.specs.Calendar.{IsMoment, IsUtcYear};

use crate::GeneralizedTime;
use crate::digits::{digits_of, number_at};
use std::fmt;
use std::ops::Deref;

/// A UTCTime of certificates: UTC, years 1950 to 2049, to the second (X.690 11.8, RFC 5280
/// 4.1.2.5.1). It has the fields of a GeneralizedTime.
#[derive(Clone, Copy, PartialEq, Eq, PartialOrd, Ord, Hash, Debug)]
pub struct UTCTime {
    time: GeneralizedTime,
    pub ghost of_years: { IsUtcYear time.year },
}

// The year with these last two digits.
fn full_year(last_digits: u8) -> u16
    requires { last_digits < 100 }
    ensures of_years { IsUtcYear result }
    ensures digits { result % 100 ≡ last_digits }
{
    if last_digits < 50 {
        2000 + u16::from(last_digits)
    } else {
        1900 + u16::from(last_digits)
    }
}

impl UTCTime {
    ghost use Rattle.asn1_types.specs.declared.utc_time.UTCTime.{UTCTime};
    ghost use Rattle.asn1_types.specs.Time.{utc_contents, utc_fields};

    /// The time with these fields, `None` exactly if the moment doesn't exist or the year isn't in
    /// 1950 to 2049.
    #[inline(always)]
    pub fn new(year: u16, month: u8, day: u8, hour: u8, minute: u8, second: u8) -> Option<UTCTime>
        ensures exists { IsSome result
            ↔ (IsMoment year month day hour minute second × IsUtcYear year) }
        ensures given { IfSome result
            (λ time. utc_fields time ≡ year ∷ month ∷ day ∷ hour ∷ minute ∷ second ∷ []) }
    {
        if year < 1950 || year > 2049 {
            return None;
        }
        let time = GeneralizedTime::new(year, month, day, hour, minute, second)?;
        Some(UTCTime { time })
    }

    /// The time with these contents octets, `None` exactly if they aren't those of a time.
    pub fn from_content(bytes: &[u8]) -> Option<Self>
        ensures read { MatchOption result
            ((time : UTCTime) → bytes.now ≢ utc_contents time)
            (λ time. bytes.now ≡ utc_contents time) }
        ensures only { (time : UTCTime)
            → bytes.now ≡ utc_contents time → result ≡ Some time }
    {
        if bytes.len() != 13 || bytes[12] != b'Z' {
            return None;
        }
        let last_digits = number_at(bytes, 0)?;
        UTCTime::new(
            full_year(last_digits),
            number_at(bytes, 2)?,
            number_at(bytes, 4)?,
            number_at(bytes, 6)?,
            number_at(bytes, 8)?,
            number_at(bytes, 10)?,
        )
    }

    /// The contents octets.
    pub fn to_content(&self) -> [u8; 13]
        ensures { result ≡ utc_contents self.now }
    {
        let [
            _,
            _,
            y1,
            y2,
            month1,
            month2,
            day1,
            day2,
            h1,
            h2,
            m1,
            m2,
            s1,
            s2,
            z,
        ] = self.time.to_content();
        [
            y1, y2, month1, month2, day1, day2, h1, h2, m1, m2, s1, s2, z,
        ]
    }
}

/// The fields of the time.
impl Deref for UTCTime {
    type Target = GeneralizedTime;

    ghost deref_gives = { λ utc time. time ≡ utc.time };

    fn deref(&self) -> &GeneralizedTime {
        &self.time
    }
}

impl fmt::Display for UTCTime {
    ghost use Rattle.asn1_types.specs.Time.{time_text};

    ghost output = { λ utc. Some (time_text utc.time) };

    fn fmt<W: fmt::Write>(&self, f: &mut fmt::Formatter<W>) -> fmt::Result {
        self.time.fmt(f)
    }
}
