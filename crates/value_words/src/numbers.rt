//! Reading numbers in decimal.
ghost use Rattle.std.specs.Prelude.{◌≡◌, ◌<◌, ◌≤◌, ◌+ℤ◌, ◌≤ℤ◌, ◌<ℤ◌, ◌^◌, pos, not, length, position, IfSome, IfOk};
ghost use Rattle.std.specs.Char.{is_ascii_digit};
ghost use Rattle.value_words.specs.Stopping.{Reads, front, past};
ghost use Rattle.value_words.specs.WordReading as spec;
ghost use Rattle.value_words.specs.WordReading.{unsigned_at, signed_at};

use crate::marks::behind;
use crate::stop::{Stop, stop_at};

/// The value with one digit more, if it is a digit and the value is then at most this.
fn with_digit(most: u64, value: u64, digit: u8) -> Option<u64>
    ensures value { result ≡ spec.with_digit most value digit }
    ensures most { IfSome result (λ n. n ≤ most) }
{
    if !digit.is_ascii_digit() {
        return None;
    }
    let more = value.checked_mul(10)?.checked_add(u64::from(digit - b'0'))?;
    if more <= most { Some(more) } else { None }
}

/// The number up to the most that a text is in decimal, without leading zeros.
pub fn number_in(most: u64, text: &[u8]) -> Option<u64>
    ensures value { result ≡ spec.number_in most text.now }
    ensures most { IfSome result (λ n. n ≤ most) }
{
    let (first, rest) = text.split_first()?;
    if *first == b'0' && !rest.is_empty() {
        return None;
    }
    let mut value = 0;
    for digit in text {
        value = with_digit(most, value, *digit)?;
    }
    Some(value)
}

/// The place of the first byte that is no digit.
fn end_of_digits(text: &[u8]) -> Option<usize>
    ensures first { result ≡ position (λ b. not (is_ascii_digit b)) text.now }
    ensures within { IfSome result (λ k. k < length text.now) }
{
    text.iter().position(|byte| !byte.is_ascii_digit())
}

/// The digits in front, and what stands behind them.
fn digits_of(text: &[u8]) -> (&[u8], &[u8])
    ensures front { result.0.now ≡ front is_ascii_digit text.now }
    ensures past { result.1.now ≡ past is_ascii_digit text.now }
{
    match end_of_digits(text) {
        Some(count) => text.split_at(count),
        None => text.split_at(text.len()),
    }
}

/// An unsigned number up to the most, and what stands behind its digits (own profile).
///
/// # Errors
/// The stop in front of the text, if no such number is there.
#[tactic(auto, unfolding(crate::specs::WordReading::unsigned_at))]
pub fn unsigned_of<A: Copy>(asked: A, most: u64, text: &[u8]) -> Result<(u64, &[u8]), Stop<A>>
    ensures read { Reads (λ x. (x.0, x.1.now)) result (unsigned_at asked most text.now) }
    ensures most { IfOk result (λ x. x.0 ≤ most) }
{
    let (digits, rest) = digits_of(text);
    match number_in(most, digits) {
        Some(number) => Ok((number, rest)),
        None => Err(stop_at(text, asked)),
    }
}

/// The number below zero, down to -half, that a text of digits is behind a minus sign.
fn negative_in(half: u64, text: &[u8]) -> Option<i64>
    requires { half ≤ 2 ^ 63 }
    ensures value { result ≡ spec.negative_in half text.now }
    ensures least { IfSome result (λ z. (z <ℤ pos 0) × (pos 0 ≤ℤ (z +ℤ pos half))) }
{
    let number = number_in(half, text)?;
    if number == 0 {
        return None;
    }
    Some(-1 - (number - 1) as i64)
}

/// The number below zero that stands behind its minus sign, or the stop in front of the sign.
fn negative_of<'a, A: Copy>(
    asked: A,
    half: u64,
    text: &[u8],
    behind: &'a [u8],
) -> Result<(i64, &'a [u8]), Stop<A>>
    requires { half ≤ 2 ^ 63 }
    ensures read { Reads (λ x. (x.0, x.1.now)) result (spec.signed_step asked half text.now (Some behind.now)) }
    ensures least { IfOk result (λ x. (x.0 <ℤ pos 0) × (pos 0 ≤ℤ (x.0 +ℤ pos half))) }
{
    let (digits, rest) = digits_of(behind);
    match negative_in(half, digits) {
        Some(number) => Ok((number, rest)),
        None => Err(stop_at(text, asked)),
    }
}

/// A signed number from -half up to half - 1, and what stands behind its digits (own profile).
///
/// # Errors
/// The stop in front of the text, if no such number is there.
#[tactic(auto, unfolding(crate::specs::WordReading::signed_at))]
pub fn signed_of<A: Copy>(asked: A, half: u64, text: &[u8]) -> Result<(i64, &[u8]), Stop<A>>
    requires some { 0 < half }
    requires few { half ≤ 2 ^ 63 }
    ensures read { Reads (λ x. (x.0, x.1.now)) result (signed_at asked half text.now) }
    ensures range { IfOk result (λ x. (x.0 <ℤ pos half) × (pos 0 ≤ℤ (x.0 +ℤ pos half))) }
{
    if let Some(rest) = behind(b"-", text) {
        return negative_of(asked, half, text, rest);
    }
    let (number, rest) = unsigned_of(asked, half - 1, text)?;
    Ok((number as i64, rest))
}
