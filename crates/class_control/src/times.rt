//! The elements of execution_time of a single action schedule (IEC 62056-6-2, date and time formats, Single action
//! schedule).
ghost use Rattle.std.specs.Prelude.{◌≡◌, map, not};
ghost use Rattle.std.specs.List.{list_all};
ghost use Rattle.std.specs.Str.{bytes_eq};
ghost use Rattle.cosem_data.specs.View.{tree};
ghost use Rattle.meter_theory.specs.Times as theory;

use cosem_data::data::Data;
use meter_theory::limits::EXECUTION_TIMES;

/// A field of a time or a date that is not specified (IEC 62056-6-2, date and time formats).
pub(crate) const ANY: u8 = 0xFF;

/// A year that is not specified (IEC 62056-6-2, date and time formats).
pub(crate) const ANY_YEAR: u16 = 0xFFFF;

/// The day of a date that is the last of its month (IEC 62056-6-2, date and time formats).
pub(crate) const LAST_DAY: u8 = 0xFE;

/// The day of a date that is the second last of its month (IEC 62056-6-2, date and time formats).
pub(crate) const SECOND_LAST_DAY: u8 = 0xFD;

/// The parts of a structure, none of any other value.
pub(crate) fn parts_of(value: &Data) -> &[Data]
    ensures { map tree result.now ≡ theory.parts_of (tree value.now) }
{
    match value {
        Data::Structure(parts) => parts.as_slice(),
        _ => &[],
    }
}

/// The bytes of an octet-string, none of any other value.
pub(crate) fn octets_of(value: &Data) -> &[u8]
    ensures { result.now ≡ theory.octets_of (tree value.now) }
{
    match value {
        Data::OctetString(bytes) => bytes.as_slice(),
        _ => &[],
    }
}

/// The time of an element of execution_time: hour, minute, second and hundredths. Of another value it may be empty.
pub(crate) fn time_bytes(value: &Data) -> &[u8]
    ensures { result.now ≡ theory.time_bytes (tree value.now) }
{
    match parts_of(value) {
        [time, ..] => octets_of(time),
        _ => &[],
    }
}

/// The date of an element of execution_time: two bytes of the year, month, day and weekday. Of another value it may be
/// empty.
pub(crate) fn date_bytes(value: &Data) -> &[u8]
    ensures { result.now ≡ theory.date_bytes (tree value.now) }
{
    match parts_of(value) {
        [_, date, ..] => octets_of(date),
        _ => &[],
    }
}

/// Whether a field is at most this, or not specified.
pub(crate) fn is_at_most(limit: u8, field: u8) -> bool
    ensures { result ≡ theory.is_at_most limit field }
{
    field <= limit || field == ANY
}

/// Whether a field lies between these, or is not specified.
fn is_between(low: u8, high: u8, field: u8) -> bool
    ensures { result ≡ theory.is_between low high field }
{
    low <= field && field <= high || field == ANY
}

/// Whether these are the bytes of a time: hour, minute and second in their ranges and hundredths 0, or not specified.
fn is_time(time: &[u8]) -> bool
    ensures { result ≡ theory.is_time time.now }
{
    match time {
        [hour, minute, second, hundredths] => {
            is_at_most(23, *hour)
                && is_at_most(59, *minute)
                && is_at_most(59, *second)
                && is_at_most(0, *hundredths)
        }
        _ => false,
    }
}

/// The year of the bytes of a date, 0 where there are none.
pub(crate) fn year_of(date: &[u8]) -> u16
    ensures { result ≡ theory.year_of date.now }
{
    match date {
        [high, low, ..] => u16::from(*high) * 256 + u16::from(*low),
        [high] => u16::from(*high) * 256,
        [] => 0,
    }
}

/// Whether these are the bytes of a date: year, month, day and weekday in their ranges or not specified, the day also
/// the last or the second last of its month.
fn is_date(date: &[u8]) -> bool
    ensures { result ≡ theory.is_date date.now }
{
    let year = year_of(date);
    match date {
        [_, _, month, day, weekday] => {
            (year <= 9999 || year == ANY_YEAR)
                && is_between(1, 12, *month)
                && (is_between(1, 31, *day) || *day == SECOND_LAST_DAY || *day == LAST_DAY)
                && is_between(1, 7, *weekday)
        }
        _ => false,
    }
}

/// Whether a value is an element of execution_time: a structure of a time and a date, each an octet-string whose fields are
/// in their ranges or not specified, hundredths 0 (IEC 62056-6-2, date and time formats).
pub fn is_execution_time(value: &Data) -> bool
    ensures { result ≡ theory.is_execution_time (tree value.now) }
{
    parts_of(value).len() == 2 && is_time(time_bytes(value)) && is_date(date_bytes(value))
}

/// The month of the bytes of a date, 0 where there is none.
pub(crate) fn month_of(date: &[u8]) -> u8
    ensures { result ≡ theory.month_of date.now }
{
    match date {
        [_, _, month, ..] => *month,
        _ => 0,
    }
}

/// The day of the bytes of a date, 0 where there is none.
pub(crate) fn day_of(date: &[u8]) -> u8
    ensures { result ≡ theory.day_of date.now }
{
    match date {
        [_, _, _, day, ..] => *day,
        _ => 0,
    }
}

/// Whether the year, the month or the day of an element is not specified (own profile: a weekday does not count).
fn is_wildcard(value: &Data) -> bool
    ensures { result ≡ theory.is_wildcard (tree value.now) }
{
    let date = date_bytes(value);
    year_of(date) == ANY_YEAR || month_of(date) == ANY || day_of(date) == ANY
}

/// Whether each value is an element of execution_time.
fn are_all_times(values: &[Data]) -> bool
    ensures { result ≡ list_all theory.is_execution_time (map tree values.now) }
{
    values.iter().all(is_execution_time)
}

/// Whether each element has this time of day.
fn have_time(time: &[u8], values: &[Data]) -> bool
    ensures { result ≡ list_all (λ v. bytes_eq time.now (theory.time_bytes v)) (map tree values.now) }
{
    values.iter().all(|value| time == time_bytes(value))
}

/// Whether no element leaves its year, month or day unspecified.
fn have_no_wildcard(values: &[Data]) -> bool
    ensures { result ≡ list_all (λ v. not (theory.is_wildcard v)) (map tree values.now) }
{
    values.iter().all(|value| !is_wildcard(value))
}

/// Whether all elements have the time of the first.
fn are_equal_times(values: &[Data]) -> bool
    ensures { result ≡ theory.are_equal_times (map tree values.now) }
{
    match values {
        [] => true,
        [first, rest @ ..] => have_time(time_bytes(first), rest),
    }
}

/// Whether a type allows so many elements: type 1 one, any other at most `EXECUTION_TIMES` (own profile).
fn is_number_for(execution_type: u8, number: usize) -> bool
    ensures { result ≡ theory.is_number_for execution_type number }
{
    if execution_type == 1 {
        number == 1
    } else {
        number <= EXECUTION_TIMES
    }
}

/// Whether the times of day are those that a type allows: of types 2 and 3 one.
fn is_time_for(execution_type: u8, values: &[Data]) -> bool
    ensures { result ≡ theory.is_time_for execution_type (map tree values.now) }
{
    !(execution_type == 2 || execution_type == 3) || are_equal_times(values)
}

/// Whether the dates are those that a type allows: of types 2 and 4 no wildcards.
fn is_date_for(execution_type: u8, values: &[Data]) -> bool
    ensures { result ≡ theory.is_date_for execution_type (map tree values.now) }
{
    !(execution_type == 2 || execution_type == 4) || have_no_wildcard(values)
}

/// Whether these are the elements of an execution_time of this type, from 1 to 5: each is one (`is_execution_time`), type 1
/// has exactly one and any other at most `EXECUTION_TIMES`, types 2 and 3 have one time of day, and types 2 and 4 no year, month
/// or day that is not specified (IEC 62056-6-2, Single action schedule, type; own profile).
pub fn are_execution_times(execution_type: u8, values: &[Data]) -> bool
    ensures { result ≡ theory.are_execution_times execution_type (map tree values.now) }
{
    are_all_times(values)
        && is_number_for(execution_type, values.len())
        && is_time_for(execution_type, values)
        && is_date_for(execution_type, values)
}
