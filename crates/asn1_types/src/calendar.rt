//! Which moments exist. `jiff_core`, the part of `jiff` with the calendar, decides.

ghost use Rattle.std.specs.Prelude.{◌≡◌, ◌↔◌, IsTrue};
ghost use Rattle.asn1_types.specs.Calendar.{IsCalendarDate, IsMoment};

use jiff_core::civil::Date;

/// Whether the moment exists. A second above 59 is refused before `jiff_core` is called.
pub fn is_moment(year: u16, month: u8, day: u8, hour: u8, minute: u8, second: u8) -> bool
    ensures { IsTrue result ↔ IsMoment year month day hour minute second }
{
    hour <= 23 && minute <= 59 && second <= 59 && is_calendar_date(year, month, day)
}

fn is_calendar_date(year: u16, month: u8, day: u8) -> bool
    ensures { IsTrue result ↔ IsCalendarDate year month day }
{
    match (i16::try_from(year), i8::try_from(month), i8::try_from(day)) {
        (Ok(year), Ok(month), Ok(day)) => Date::new(year, month, day).is_ok(),
        _ => false,
    }
}
