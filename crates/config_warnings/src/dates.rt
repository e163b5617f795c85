//! Whether a calendar has the date that an execution time names (IEC 62056-6-2, date and time formats).
ghost use Rattle.std.specs.Prelude.{◌≡◌, ◌≤◌, ◌+◌, pos, map};
ghost use Rattle.jiff.specs.Words.{IsYmd};
ghost use Rattle.jiff_core.specs.Calendar.{days_from_civil, days_in_month, weekday_number, IsCivilDate};
ghost use Rattle.cosem_data.specs.View.{tree};
ghost use Rattle.meter_theory.specs.Times as times;
ghost use Rattle.config_warnings.specs.Dates as spec;

use cosem_data::data::Data;
use jiff::civil::{self, Date};

/// A field that is not specified.
const ANY: u8 = 0xFF;

/// A year that is not specified.
const ANY_YEAR: u16 = 0xFFFF;

/// The day of a date that is the last of its month.
const LAST_DAY: u8 = 0xFE;

/// The day of a date that is the second last of its month.
const SECOND_LAST_DAY: u8 = 0xFD;

/// A year with 29 February, in which every month has as many days as it ever has.
const LEAP_YEAR: u16 = 2000;

/// A date as an execution time gives it.
#[derive(Clone, Copy)]
struct GivenDate {
    year: u16,
    month: u8,
    day: u8,
    weekday: u8,
}

impl GivenDate {
    ghost use Rattle.std.specs.Prelude.{◌≡◌, false, true};
    ghost use Rattle.config_warnings.specs.Dates as spec;

    /// Whether no calendar has it.
    fn is_nowhere(self) -> bool
        ensures { result ≡ spec.is_nowhere self }
    {
        self.says_day() && (self.lacks_day() || self.has_other_weekday())
    }

    /// Whether it says a month and a day of it, in a year up to 9999 or in any.
    fn says_day(self) -> bool
        ensures { result ≡ spec.says_day self }
    {
        (self.year <= 9999 || self.year == ANY_YEAR)
            && (1 <= self.month && self.month <= 12)
            && (1 <= self.day && self.day != ANY)
    }

    /// The year in which its day is looked for.
    fn year_in(self) -> u16
        ensures { result ≡ spec.year_in self }
    {
        if self.year == ANY_YEAR {
            LEAP_YEAR
        } else {
            self.year
        }
    }

    /// The last day of its month.
    fn last_day(self) -> u8
        requires { spec.says_day self ≡ true }
        ensures { result ≡ spec.last_day self }
    {
        days_of_month(self.year_in(), self.month)
    }

    /// The number of its day in its month.
    fn day_in(self) -> u8
        requires { spec.says_day self ≡ true }
        ensures { result ≡ spec.day_in self }
    {
        match self.day {
            LAST_DAY => self.last_day(),
            SECOND_LAST_DAY => self.last_day() - 1,
            day => day,
        }
    }

    /// Whether its month doesn't have its day.
    fn lacks_day(self) -> bool
        requires { spec.says_day self ≡ true }
        ensures { result ≡ spec.lacks_day self }
    {
        self.last_day() < self.day_in()
    }

    /// Whether it gives another weekday than that of its day.
    fn has_other_weekday(self) -> bool
        requires says { spec.says_day self ≡ true }
        requires has { spec.lacks_day self ≡ false }
        ensures { result ≡ spec.has_other_weekday self }
    {
        self.year != ANY_YEAR
            && self.weekday != ANY
            && self.weekday != weekday_of(self.year, self.month, self.day_in())
    }
}

/// How many days a month has.
fn days_of_month(year: u16, month: u8) -> u8
    requires year { year ≤ 9999 }
    requires from { 1 ≤ month }
    requires to { month ≤ 12 }
    ensures { result ≡ days_in_month (pos year) month }
{
    civil::date(year as i16, month as i8, 1).days_in_month() as u8
}

/// The day of the week, 1 for Monday to 7 for Sunday.
fn weekday_of(year: u16, month: u8, day: u8) -> u8
    requires year { year ≤ 9999 }
    requires day { IsCivilDate (pos year) month day }
    ensures { result ≡ weekday_number (days_from_civil (pos year) month day) + 1 }
{
    date_of(year, month, day).weekday().to_monday_one_offset() as u8
}

/// The date of a day that the calendar has.
fn date_of(year: u16, month: u8, day: u8) -> Date
    requires year { year ≤ 9999 }
    requires day { IsCivilDate (pos year) month day }
    ensures { IsYmd (pos year) (pos month) (pos day) result }
{
    civil::date(year as i16, month as i8, day as i8)
}

/// Whether an execution time names a date that no calendar has. Of another value it is false.
pub(crate) fn names_no_date(time: &Data) -> bool
    ensures { result ≡ spec.names_no_date (tree time.now) }
{
    match date_bytes(time) {
        [high, low, month, day, weekday] => {
            let date = GivenDate {
                year: u16::from(*high) * 256 + u16::from(*low),
                month: *month,
                day: *day,
                weekday: *weekday,
            };
            date.is_nowhere()
        }
        _ => false,
    }
}

/// The date of an execution time: two bytes of the year, month, day and weekday. Of another value it may be empty.
fn date_bytes(time: &Data) -> &[u8]
    ensures { result.now ≡ times.date_bytes (tree time.now) }
{
    match parts_of(time) {
        [_, date, ..] => octets_of(date),
        _ => &[],
    }
}

/// The parts of a structure, none of any other value.
fn parts_of(value: &Data) -> &[Data]
    ensures { map tree result.now ≡ times.parts_of (tree value.now) }
{
    match value {
        Data::Structure(parts) => parts.as_slice(),
        _ => &[],
    }
}

/// The bytes of an octet-string, none of any other value.
fn octets_of(value: &Data) -> &[u8]
    ensures { result.now ≡ times.octets_of (tree value.now) }
{
    match value {
        Data::OctetString(bytes) => bytes.as_slice(),
        _ => &[],
    }
}
