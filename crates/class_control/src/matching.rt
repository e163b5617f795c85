//! The moments that an element of execution_time names, and so when a single action schedule is due (IEC 62056-6-2, date
//! and time formats, Single action schedule).
ghost use Rattle.std.specs.Prelude.{◌≡◌, get_or, map};
ghost use Rattle.cosem_data.specs.View.{tree};
ghost use Rattle.meter_theory.specs.Times as theory;
ghost use Rattle.meter_theory.specs.Value.{elements};

use crate::judge::elements_of;
use crate::times::{
    ANY, ANY_YEAR, LAST_DAY, SECOND_LAST_DAY, date_bytes, day_of, month_of, time_bytes, year_of,
};
use civil_moment::moment::Moment;
use cosem_data::data::Data;

/// The byte at this place, 0 where there is none.
pub(crate) fn byte_at(bytes: &[u8], place: usize) -> u8
    ensures { result ≡ get_or bytes.now place 0 }
{
    match bytes.get(place) {
        Some(byte) => *byte,
        None => 0,
    }
}

/// Whether a field is not specified, or is this number.
fn matches_field(field: u8, number: u8) -> bool
    ensures { result ≡ theory.matches_field field number }
{
    field == ANY || field == number
}

/// Whether the year of the bytes of a date is not specified, or is that of the moment.
fn matches_year(date: &[u8], moment: Moment) -> bool
    ensures { result ≡ theory.matches_year date.now moment }
{
    let year = year_of(date);
    year == ANY_YEAR || year == moment.year
}

/// Whether a day is not specified, or is that of the moment, by its number or as the last or the second last of the month.
fn matches_day(day: u8, moment: Moment) -> bool
    ensures { result ≡ theory.matches_day day moment }
{
    let last = moment.last_day();
    matches_field(day, moment.day)
        || (day == LAST_DAY && moment.day == last)
        || (day == SECOND_LAST_DAY && moment.day + 1 == last)
}

/// Whether the bytes of a time name the hour, minute and second of the moment, which has no hundredths.
fn matches_time(time: &[u8], moment: Moment) -> bool
    ensures { result ≡ theory.matches_time time.now moment }
{
    matches_field(byte_at(time, 0), moment.hour)
        && matches_field(byte_at(time, 1), moment.minute)
        && matches_field(byte_at(time, 2), moment.second)
        && matches_field(byte_at(time, 3), 0)
}

/// Whether the bytes of a date name the day of the moment: its year, month, day and weekday.
fn matches_date(date: &[u8], moment: Moment) -> bool
    ensures { result ≡ theory.matches_date date.now moment }
{
    matches_year(date, moment)
        && matches_field(month_of(date), moment.month)
        && matches_day(day_of(date), moment)
        && matches_field(byte_at(date, 4), moment.weekday())
}

/// Whether an element of execution_time names the moment: each field of its time and its date is not specified or is the
/// moment's, whose hundredths are 0, and day FE is the last and FD the second last of its month (IEC 62056-6-2, date and
/// time formats). A field that a value lacks, where it is no such element, is taken as 0.
pub fn matches(value: &Data, moment: &Moment) -> bool
    ensures { result ≡ theory.matches (tree value.now) moment.now }
{
    matches_time(time_bytes(value), *moment) && matches_date(date_bytes(value), *moment)
}

/// Whether one of these values names the moment.
fn any_matches(values: &[Data], moment: Moment) -> bool
    ensures { result ≡ theory.is_schedule_due (map tree values.now) moment }
{
    values.iter().any(|value| matches(value, &moment))
}

/// Whether a schedule with this execution_time is due at the moment: some element names it (`matches`), and none does where
/// there is no element (IEC 62056-6-2, Single action schedule).
pub fn is_due(times: &Data, moment: Moment) -> bool
    ensures { result ≡ theory.is_schedule_due (elements (tree times.now)) moment }
{
    any_matches(elements_of(times), moment)
}
