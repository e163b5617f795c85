//! Whole texts, line by line.
ghost use Rattle.std.specs.Prelude.{◌≡◌, ◌<◌, ◌==◌, ◌∷◌, [], IfNone, IfOk, IfSome, codes, length, position};
ghost use Rattle.std.specs.List.{list_any, slice_split};
ghost use Rattle.value_words.specs.Stopping as words;
ghost use Rattle.value_words.specs.Stopping.{Reads};
ghost use Rattle.step_words.specs.Texts as spec;
ghost use Rattle.step_words.specs.Texts.{Gives, encoded, decoded, encoded_values, decoded_values};

use crate::fault::{Asked, TextFault};
use crate::head::Head;
use crate::replies::decoded_reply;
use crate::runs::{Run, run_of};
use crate::steps::{decoded_step, encoded_step, hex_behind, input_words};
use cosem_data::memory::Memory;
use std::alloc::Global;
use value_words::marks::behind;
use value_words::stop::Stop;

/// Which way a text is translated (own profile).
#[derive(Clone, Copy, Debug)]
pub enum Way {
    /// Steps in words are made into step lines in hex.
    Encode,
    /// Step lines and replies in hex are made into words.
    Decode,
    /// Values in words are made into their encodings in hex.
    EncodeValues,
    /// Encodings of values in hex are made into words.
    DecodeValues,
}

const HASH: u8 = b'#';

const RETURN: u8 = b'\r';

const NEWLINE: u8 = b'\n';

const UNREADABLE: &[u8] = b": unreadable";

/// A copy of a text.
fn copy_of(alloc: Global, text: &[u8]) -> Result<Vec<u8>, Memory>
    ensures { IfOk result (λ x. x.items ≡ text.now) }
{
    let mut copy = Vec::new(alloc);
    copy.extend_from_slice(text)?;
    Ok(copy)
}

/// Whether a line is `line N: unreadable`.
fn is_unreadable(text: &[u8]) -> bool
    ensures { result ≡ spec.unreadable_step (words.behind (codes "line ") text.now) }
{
    match behind(b"line ", text) {
        Some(rest) => run_of(Run::Digits, rest).1 == UNREADABLE,
        None => false,
    }
}

/// Whether a line is one that a run tells besides replies.
fn is_told(text: &[u8]) -> bool
    ensures { result ≡ spec.is_told text.now }
{
    behind(b"config C", text).is_some() || is_unreadable(text)
}

/// Whether a text has a space.
fn has_space(text: &[u8]) -> bool
    ensures { result ≡ list_any (λ c. c == 32) text.now }
{
    text.iter().any(|byte| *byte == b' ')
}

/// The words of a line in hex.
fn words_of(alloc: Global, text: &[u8]) -> Result<Vec<u8>, Stop<Asked>>
    ensures { Reads (λ x. x.items) result (spec.made_of Way.Decode text.now) }
{
    match decoded_step(alloc, text) {
        Err(Stop::At(left, asked)) => {
            if is_told(text) {
                return Ok(copy_of(alloc, text)?);
            }
            if has_space(text) {
                return Err(Stop::At(left, asked));
            }
            decoded_reply(alloc, text)
        }
        made => made,
    }
}

/// What is made of a line that says something.
fn made_of(alloc: Global, way: Way, text: &[u8]) -> Result<Vec<u8>, Stop<Asked>>
    ensures { Reads (λ x. x.items) result (spec.made_of way text.now) }
{
    match way {
        Way::Encode => encoded_step(alloc, text),
        Way::Decode => words_of(alloc, text),
        Way::EncodeValues => hex_behind(alloc, Head::Input, text),
        Way::DecodeValues => input_words(alloc, text),
    }
}

/// Whether the byte 0D ends the text, as some editors put it before a newline.
fn ends_in_return(text: &[u8]) -> bool
    ensures { result ≡ spec.ends_in_return text.now }
{
    match text.last() {
        Some(last) => *last == RETURN,
        None => false,
    }
}

/// What is made of a line.
fn line_of(alloc: Global, way: Way, text: &[u8]) -> Result<Vec<u8>, Stop<Asked>>
    ensures { Reads (λ x. x.items) result (spec.line_at way text.now) }
{
    let Some((first, _)) = text.split_first() else {
        return Ok(Vec::new(alloc));
    };
    if *first == HASH {
        return Ok(copy_of(alloc, text)?);
    }
    match made_of(alloc, way, text) {
        Err(Stop::At(_, _)) if ends_in_return(text) => Err(Stop::At(1, Asked::Newline)),
        made => made,
    }
}

/// What is made of the line with this number.
fn numbered(alloc: Global, way: Way, number: u64, line: &[u8]) -> Result<Vec<u8>, TextFault>
    ensures { Gives (λ x. x.items) result (spec.placed number
        (length line.now) (spec.line_at way line.now)) }
{
    match line_of(alloc, way, line) {
        Ok(made) => Ok(made),
        Err(Stop::Memory) => Err(TextFault::Memory),
        Err(Stop::At(left, asked)) => Err(TextFault::At {
            line: number,
            column: line.len().saturating_sub(left) as u64 + 1,
            asked,
        }),
    }
}

/// The place of the first newline.
fn end_of_line(text: &[u8]) -> Option<usize>
    ensures first { result ≡ position (λ b. b == 10) text.now }
    ensures within { IfSome result (λ k. k < length text.now) }
{
    text.iter().position(|byte| *byte == NEWLINE)
}

/// The first line and what stands behind its newline, where it has one.
fn first_line(text: &[u8]) -> Option<(&[u8], &[u8])>
    ensures last { IfNone result (slice_split (λ b. b == 10) text.now ≡ text.now ∷ []) }
    ensures more { IfSome result (λ x. slice_split (λ b. b == 10) text.now
        ≡ x.0.now ∷ slice_split (λ b. b == 10) x.1.now) }
    ensures shorter { IfSome result (λ x. length x.1.now < length text.now) }
{
    let Some(end) = end_of_line(text) else {
        return None;
    };
    Some((&text[..end], &text[end + 1..]))
}

/// What is made of a text.
fn translated(alloc: Global, way: Way, text: &[u8]) -> Result<Vec<u8>, TextFault>
    ensures { Gives (λ x. x.items) result (spec.text_at way text.now) }
{
    let mut made = Vec::new(alloc);
    let mut rest = text;
    let mut number = 1u64;
    while let Some((line, behind)) = first_line(rest) {
        let line = numbered(alloc, way, number, line)?;
        let Ok(()) = made.extend_from_slice(&line) else {
            return Err(TextFault::Memory);
        };
        let Ok(()) = made.push(NEWLINE) else {
            return Err(TextFault::Memory);
        };
        rest = behind;
        number += 1;
    }
    let last = numbered(alloc, way, number, rest)?;
    let Ok(()) = made.extend_from_slice(&last) else {
        return Err(TextFault::Memory);
    };
    Ok(made)
}

/// Makes steps in words into step lines in hex, a line of each: `manager get 3/1.0.1.8.0.255/2` into
/// `manager C001C100030100010800FF0200` (own profile; the APDUs are those of IEC 62056-5-3).
///
/// Empty lines and lines that begin with `#` stand as they are, and the text ends as it did, with a newline or without one.
///
/// # Errors
/// `At` with the first line of which no step line is made, the first place in it where something else stands than what is
/// asked, and what is asked there; `Memory` where memory is refused. Nothing is made of the other lines then.
#[tactic(auto, unfolding(crate::specs::Texts::encoded))]
pub fn encode_text(alloc: Global, text: &[u8]) -> Result<Vec<u8>, TextFault>
    // What is made, or the fault, is what the definition gives.
    ensures exact { Gives (λ x. x.items) result (encoded text.now) }
{
    translated(alloc, Way::Encode, text)
}

/// Makes step lines in hex, or lines of replies, into words (own profile; the APDUs are those of IEC 62056-5-3).
///
/// Empty lines, lines that begin with `#` and what a run tells besides replies stand as they are, and the text ends as it did,
/// with a newline or without one.
///
/// # Errors
/// `At` with the first line of which no words are made, the first place in it where something else stands than what is asked,
/// and what is asked there; `Memory` where memory is refused. Nothing is made of the other lines then.
#[tactic(auto, unfolding(crate::specs::Texts::decoded))]
pub fn decode_text(alloc: Global, text: &[u8]) -> Result<Vec<u8>, TextFault>
    // What is made, or the fault, is what the definition gives.
    ensures exact { Gives (λ x. x.items) result (decoded text.now) }
{
    translated(alloc, Way::Decode, text)
}

/// Makes values in words into their encodings in hex, a line of each: `long-unsigned 17` into `120011` (own profile; the kinds are
/// those of IEC 62056-6-2, the encoding A-XDR).
///
/// Empty lines and lines that begin with `#` stand as they are, and the text ends as it did, with a newline or without one.
///
/// # Errors
/// `At` with the first line that is no value which a meter can be sent, the first place in it where something else stands than what
/// is asked, and what is asked there; `Memory` where memory is refused. Nothing is made of the other lines then.
#[tactic(auto, unfolding(crate::specs::Texts::encoded_values))]
pub fn encode_values(alloc: Global, text: &[u8]) -> Result<Vec<u8>, TextFault>
    // What is made, or the fault, is what the definition gives.
    ensures exact { Gives (λ x. x.items) result (encoded_values text.now) }
{
    translated(alloc, Way::EncodeValues, text)
}

/// Makes the encodings of values in hex into words, a line of each: `120011` into `long-unsigned 17` (own profile; the kinds are
/// those of IEC 62056-6-2, the encoding A-XDR).
///
/// Empty lines and lines that begin with `#` stand as they are, and the text ends as it did, with a newline or without one.
///
/// # Errors
/// `At` with the first line that isn't the hex digits of one value, its first place, and what is asked there; `Memory` where memory
/// is refused. Nothing is made of the other lines then.
#[tactic(auto, unfolding(crate::specs::Texts::decoded_values))]
pub fn decode_values(alloc: Global, text: &[u8]) -> Result<Vec<u8>, TextFault>
    // What is made, or the fault, is what the definition gives.
    ensures exact { Gives (λ x. x.items) result (decoded_values text.now) }
{
    translated(alloc, Way::DecodeValues, text)
}
