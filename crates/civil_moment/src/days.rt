//! Days of the proleptic Gregorian calendar, by their year, month and day.
ghost use Rattle.std.specs.Prelude.{◌≡◌, ◌↔◌, ◌+◌, ◌≤◌, IsTrue, pos};
ghost use Rattle.jiff.specs.Words.{IsYmd};
ghost use Rattle.jiff_core.specs.Calendar.{days_from_civil, days_in_month, weekday_number, IsCivilDate};
ghost use Rattle.civil_moment.specs.Days.{IsDay, days_from_2000};

use jiff::civil::{self, Date};

/// Whether the calendar has this day.
pub(crate) fn exists(year: u16, month: u8, day: u8) -> bool
    requires { year ≤ 9999 }
    ensures { IsTrue result ↔ IsCivilDate (pos year) month day }
{
    if month > 12 || day > 31 {
        return false;
    }
    Date::new(year as i16, month as i8, day as i8).is_ok()
}

/// How many days a month has.
pub(crate) fn days_of_month(year: u16, month: u8) -> u8
    requires year { year ≤ 9999 }
    requires from { 1 ≤ month }
    requires to { month ≤ 12 }
    ensures { result ≡ days_in_month (pos year) month }
{
    civil::date(year as i16, month as i8, 1).days_in_month() as u8
}

/// The day of the week, 1 for Monday to 7 for Sunday.
pub(crate) fn weekday_of(year: u16, month: u8, day: u8) -> u8
    requires { IsDay year month day }
    ensures { result ≡ weekday_number (days_from_civil (pos year) month day) + 1 }
{
    date_of(year, month, day).weekday().to_monday_one_offset() as u8
}

/// The date of a day that the calendar has.
fn date_of(year: u16, month: u8, day: u8) -> Date
    requires { IsDay year month day }
    ensures { IsYmd (pos year) (pos month) (pos day) result }
{
    civil::date(year as i16, month as i8, day as i8)
}

/// How many days after 1 January 2000.
pub(crate) fn day_number(year: u16, month: u8, day: u8) -> u32
    requires { IsDay year month day }
    ensures value { pos result ≡ days_from_2000 year month day }
    ensures bound { result ≤ 7_304_483 }
{
    let first = date_of(2000, 1, 1).to_plain();
    let date = date_of(year, month, day).to_plain();
    date.days_since_min() - first.days_since_min()
}
