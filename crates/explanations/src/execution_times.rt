//! What is wrong with a text that is to be the hex text of the time and date of an execution (own profile).

use crate::hexes::digit_cause;
use cosem_data::memory::Memory;
use std::alloc::Global;

/// A field that isn't specified, and matches anything.
const ANY: u8 = 0xFF;

/// Why a text is no hex text of a time and a date. The error is that memory was refused.
pub(crate) fn time_cause(alloc: Global, text: &str) -> Result<String, Memory> {
    match hex::decode(alloc, text.as_bytes()) {
        Ok(bytes) => bytes_cause(alloc, &bytes),
        Err(fault) => digit_cause(alloc, fault),
    }
}

/// Why bytes are no time and date. The error is that memory was refused.
fn bytes_cause(alloc: Global, bytes: &[u8]) -> Result<String, Memory> {
    let [
        hour,
        minute,
        second,
        hundredths,
        high,
        low,
        month,
        day,
        _weekday,
    ] = bytes
    else {
        let count = bytes.len();
        return Ok(format!(in alloc; "a time and a date are nine bytes, and these are {count}")?);
    };
    let year = 256 * u16::from(*high) + u16::from(*low);
    let words = if !is_between(0, 23, *hour) {
        "the hour is past 23"
    } else if !is_between(0, 59, *minute) {
        "the minute is past 59"
    } else if !is_between(0, 59, *second) {
        "the second is past 59"
    } else if !is_between(0, 0, *hundredths) {
        "the hundredths of a second are neither 00 nor FF"
    } else if 9999 < year && year != u16::MAX {
        "the year is past 9999 and isn't FFFF"
    } else if !is_between(1, 12, *month) {
        "the month is none of 1 to 12"
    } else if !is_between(1, 31, *day) && *day != 0xFD && *day != 0xFE {
        "the day of the month is none of 1 to 31, FD and FE"
    } else {
        "the day of the week is none of 1 to 7"
    };
    Ok(String::from_str(alloc, words)?)
}

/// Whether a field lies between these, or is any.
fn is_between(least: u8, most: u8, field: u8) -> bool {
    (least <= field && field <= most) || field == ANY
}
