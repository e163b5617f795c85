//! Reading bytes, in hex digits and in quotes.
ghost use Rattle.std.specs.Prelude.{◌≡◌, ◌<◌, not, length, position, IfSome};
ghost use Rattle.value_words.specs.Words as words;
ghost use Rattle.value_words.specs.Stopping.{Reads, front, past};
ghost use Rattle.value_words.specs.WordReading as spec;
ghost use Rattle.value_words.specs.WordReading.{octets_at, letter_at, letters_at, quoted_at};

use crate::fault::Asked;
use crate::marks::mark_of;
use crate::stop::{Stop, stop_at};
use cosem_data::bytes::Bytes;
use hex::FromHexError;
use std::alloc::Global;

/// The value of an upper-case hex digit.
fn digit_value(digit: u8) -> Option<u8>
    ensures value { result ≡ spec.digit_value digit }
    ensures small { IfSome result (λ n. n < 16) }
{
    match digit {
        b'0'..=b'9' => Some(digit - b'0'),
        b'A'..=b'F' => Some(digit - b'A' + 10),
        _ => None,
    }
}

/// Whether a byte is an upper-case hex digit.
fn is_digit(byte: u8) -> bool
    ensures { result ≡ spec.is_digit byte }
{
    digit_value(byte).is_some()
}

/// The place of the first byte that is no upper-case hex digit.
fn end_of_digits(text: &[u8]) -> Option<usize>
    ensures first { result ≡ position (λ b. not (spec.is_digit b)) text.now }
    ensures within { IfSome result (λ k. k < length text.now) }
{
    text.iter().position(|byte| !is_digit(*byte))
}

/// The upper-case hex digits in front, and what stands behind them.
fn digits_of(text: &[u8]) -> (&[u8], &[u8])
    ensures front { result.0.now ≡ front spec.is_digit text.now }
    ensures past { result.1.now ≡ past spec.is_digit text.now }
{
    match end_of_digits(text) {
        Some(count) => text.split_at(count),
        None => text.split_at(text.len()),
    }
}

/// `-` for no bytes, or upper-case hex digits, two a byte.
#[tactic(auto, unfolding(crate::specs::WordReading::octets_at))]
pub(crate) fn octets_of(alloc: Global, text: &[u8]) -> Result<(Bytes, &[u8]), Stop<Asked>>
    ensures { Reads (λ x. (x.0, x.1.now)) result (octets_at text.now) }
{
    if let [b'-', rest @ ..] = text {
        return Ok((Bytes::new(Vec::new(alloc)), rest));
    }
    let (digits, rest) = digits_of(text);
    if digits.is_empty() {
        return Err(stop_at(text, Asked::HexDigits));
    }
    match hex::decode(alloc, digits) {
        Ok(bytes) => Ok((Bytes::new(bytes), rest)),
        Err(FromHexError::OutOfMemory) => Err(Stop::Memory),
        Err(_) => Err(stop_at(text, Asked::HexDigits)),
    }
}

/// Whether a byte stands for itself between quotes.
pub(crate) fn is_plain(byte: u8) -> bool
    ensures { result ≡ words.is_plain byte }
{
    32 <= byte && byte <= 126 && byte != b'"' && byte != b'\\'
}

/// The byte that two digits behind `\x` stand for, if it doesn't stand for itself.
fn escaped(high: u8, low: u8) -> Option<u8>
    ensures { result ≡ spec.escaped 92 120 high low }
{
    let byte = 16 * digit_value(high)? + digit_value(low)?;
    if is_plain(byte) { None } else { Some(byte) }
}

/// One byte between quotes, or none at the closing quote.
#[tactic(auto, unfolding(crate::specs::WordReading::letter_at))]
fn letter_of(text: &[u8]) -> Result<(Option<u8>, &[u8]), Stop<Asked>>
    ensures { Reads (λ x. (x.0, x.1.now)) result (letter_at text.now) }
{
    match text {
        [b'"', rest @ ..] => Ok((None, rest)),
        [b'\\', b'x', high, low, rest @ ..] => match escaped(*high, *low) {
            Some(byte) => Ok((Some(byte), rest)),
            None => Err(stop_at(text, Asked::Letter)),
        },
        [byte, rest @ ..] if is_plain(*byte) => Ok((Some(*byte), rest)),
        _ => Err(stop_at(text, Asked::Letter)),
    }
}

/// Bytes between quotes and the closing quote.
fn letters_of(alloc: Global, text: &[u8]) -> Result<(Vec<u8>, &[u8]), Stop<Asked>>
    ensures { Reads (λ x. (x.0.items, x.1.now)) result (letters_at (length text.now) text.now) }
{
    let mut letters = Vec::new(alloc);
    let mut rest = text;
    for _ in 0..text.len() {
        let (letter, after) = letter_of(rest)?;
        rest = after;
        match letter {
            Some(byte) => letters.push(byte)?,
            None => return Ok((letters, rest)),
        }
    }
    Err(stop_at(rest, Asked::Letter))
}

/// Bytes in quotes.
#[tactic(auto, unfolding(crate::specs::WordReading::quoted_at))]
pub(crate) fn quoted_of(alloc: Global, text: &[u8]) -> Result<(Bytes, &[u8]), Stop<Asked>>
    ensures { Reads (λ x. (x.0, x.1.now)) result (quoted_at text.now) }
{
    let rest = mark_of(Asked::Quote, b"\"", text)?;
    let (letters, rest) = letters_of(alloc, rest)?;
    Ok((Bytes::new(letters), rest))
}
