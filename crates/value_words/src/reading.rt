//! Reading values in words, from left to right.
ghost use Rattle.std.specs.Prelude.{◌≡◌, ℕ, ◌≤◌, length, take, drop, map, IfOk, IfErr};
ghost use Rattle.cosem_data.specs.View.{tree};
ghost use Rattle.value_words.specs.Words.{value_words};
ghost use Rattle.value_words.specs.Stopping.{Reads};
ghost use Rattle.value_words.specs.WordReading.{Gives, truth_at, part_end_at, parts_at, list_at, content_at, value_within, value_at, placed, IsPlaceWithin};

use crate::fault::{Asked, ValueFault};
use crate::kinds::kind_of;
use crate::marks::{behind, mark_of};
use crate::numbers::{signed_of, unsigned_of};
use crate::stop::{Stop, stop_at};
use crate::strings::{octets_of, quoted_of};
use cosem_data::data::{Data, Items};
use cosem_data::kind::Kind;
use std::alloc::Global;

/// How deep a value may be nested (own profile).
const DEEPEST: u8 = 16;

/// True or false.
#[tactic(auto, unfolding(crate::specs::WordReading::truth_at))]
fn truth_of(text: &[u8]) -> Result<(bool, &[u8]), Stop<Asked>>
    ensures { Reads (λ x. (x.0, x.1.now)) result (truth_at text.now) }
{
    if let Some(rest) = behind(b"true", text) {
        return Ok((true, rest));
    }
    match behind(b"false", text) {
        Some(rest) => Ok((false, rest)),
        None => Err(stop_at(text, Asked::Truth)),
    }
}

/// A value that is nested at most `depth`.
#[cycle(read)]
#[tactic(auto, unfolding(crate::specs::WordReading::value_within))]
fn value_of(alloc: Global, depth: u8, text: &[u8]) -> Result<(Data, &[u8]), Stop<Asked>>
    ensures { Reads (λ x. (tree x.0, x.1.now)) result (value_within depth text.now) }
{
    let (kind, rest) = kind_of(text)?;
    content_of(alloc, depth, kind, rest)
}

/// What stands behind the word of the kind.
#[cycle(read)]
#[tactic(auto, unfolding(crate::specs::WordReading::content_at))]
fn content_of(
    alloc: Global,
    depth: u8,
    kind: Kind,
    text: &[u8],
) -> Result<(Data, &[u8]), Stop<Asked>>
    ensures { Reads (λ x. (tree x.0, x.1.now)) result (content_at (list_at depth) kind text.now) }
{
    match kind {
        Kind::NullData => Ok((Data::NullData, text)),
        Kind::Array => {
            let (items, rest) = list_of(alloc, depth, text)?;
            Ok((Data::Array(items), rest))
        }
        Kind::Structure => {
            let (items, rest) = list_of(alloc, depth, text)?;
            Ok((Data::Structure(items), rest))
        }
        Kind::Boolean => {
            let (truth, rest) = truth_of(text)?;
            Ok((Data::Boolean(truth), rest))
        }
        Kind::DoubleLong => {
            let (number, rest) = signed_of(Asked::Number, 1 << 31, text)?;
            Ok((Data::DoubleLong(number as i32), rest))
        }
        Kind::DoubleLongUnsigned => {
            let (number, rest) = unsigned_of(Asked::Number, u64::from(u32::MAX), text)?;
            Ok((Data::DoubleLongUnsigned(number as u32), rest))
        }
        Kind::OctetString => {
            let (bytes, rest) = octets_of(alloc, text)?;
            Ok((Data::OctetString(bytes), rest))
        }
        Kind::VisibleString => {
            let (bytes, rest) = quoted_of(alloc, text)?;
            Ok((Data::VisibleString(bytes), rest))
        }
        Kind::Integer => {
            let (number, rest) = signed_of(Asked::Number, 1 << 7, text)?;
            Ok((Data::Integer(number as i8), rest))
        }
        Kind::Long => {
            let (number, rest) = signed_of(Asked::Number, 1 << 15, text)?;
            Ok((Data::Long(number as i16), rest))
        }
        Kind::Unsigned => {
            let (number, rest) = unsigned_of(Asked::Number, u64::from(u8::MAX), text)?;
            Ok((Data::Unsigned(number as u8), rest))
        }
        Kind::LongUnsigned => {
            let (number, rest) = unsigned_of(Asked::Number, u64::from(u16::MAX), text)?;
            Ok((Data::LongUnsigned(number as u16), rest))
        }
        Kind::Long64 => {
            let (number, rest) = signed_of(Asked::Number, 1 << 63, text)?;
            Ok((Data::Long64(number), rest))
        }
        Kind::Long64Unsigned => {
            let (number, rest) = unsigned_of(Asked::Number, u64::MAX, text)?;
            Ok((Data::Long64Unsigned(number), rest))
        }
        Kind::Enumerated => {
            let (number, rest) = unsigned_of(Asked::Number, u64::from(u8::MAX), text)?;
            Ok((Data::Enumerated(number as u8), rest))
        }
    }
}

/// The parts of an array or a structure that may be nested `depth` deep.
#[cycle(read)]
#[tactic(auto, unfolding(crate::specs::WordReading::list_at, crate::specs::WordReading::value_within))]
fn list_of(alloc: Global, depth: u8, text: &[u8]) -> Result<(Items, &[u8]), Stop<Asked>>
    ensures { Reads (λ x. (x.0, x.1.now)) result (list_at depth text.now) }
{
    if depth == 0 {
        return Err(stop_at(text, Asked::Depth));
    }
    let rest = mark_of(Asked::OpenBrace, b"{ ", text)?;
    if let Some(after) = behind(b"}", rest) {
        return Ok((Items::new(Vec::new(alloc)), after));
    }
    let (parts, rest) = parts_of(alloc, depth - 1, rest)?;
    Ok((Items::new(parts), rest))
}

/// What stands behind a part, and whether it ends the list.
#[tactic(auto, unfolding(crate::specs::WordReading::part_end_at))]
fn part_end_of(text: &[u8]) -> Result<(bool, &[u8]), Stop<Asked>>
    ensures { Reads (λ x. (x.0, x.1.now)) result (part_end_at text.now) }
{
    if let Some(rest) = behind(b" }", text) {
        return Ok((true, rest));
    }
    match behind(b", ", text) {
        Some(rest) => Ok((false, rest)),
        None => Err(stop_at(text, Asked::CommaOrBrace)),
    }
}

/// Values with `, ` between them, up to the closing brace, each nested at most `depth`.
#[cycle(read)]
fn parts_of(alloc: Global, depth: u8, text: &[u8]) -> Result<(Vec<Data>, &[u8]), Stop<Asked>>
    ensures { Reads (λ x. (map tree x.0.items, x.1.now)) result (parts_at (value_within depth) (length text.now) text.now) }
{
    let mut parts = Vec::new(alloc);
    let mut rest = text;
    for _ in 0..text.len() {
        let (part, after) = value_of(alloc, depth, rest)?;
        parts.push(part)?;
        let (is_last, after) = part_end_of(after)?;
        rest = after;
        if is_last {
            return Ok((parts, rest));
        }
    }
    Err(stop_at(rest, Asked::Kind))
}

/// The fault of a stop, by its place from the front of a text that is so long.
fn fault_of(long: usize, stop: Stop<Asked>) -> ValueFault
    ensures fault { placed {A = ℕ} long (Err stop) ≡ Err result }
    ensures place { IsPlaceWithin long result }
{
    match stop {
        Stop::Memory => ValueFault::Memory,
        Stop::At(left, asked) => ValueFault::At {
            place: long.saturating_sub(left),
            asked,
        },
    }
}

/// Reads the value in words that stands in front of a text, nested at most 16, and tells how many bytes it takes (own profile).
///
/// A number ends where its digits end, and the bytes of an octet-string where upper-case hex digits end. What stands behind the
/// value is not looked at. Memory is asked for as the parts and letters come, never by a count that was read.
///
/// # Errors
/// `At` with the first place from the left where something else stands than what the grammar asks, and what is asked there;
/// `Memory` where memory is refused.
pub fn read_value(alloc: Global, text: &[u8]) -> Result<(Data, usize), ValueFault>
    ensures used { IfOk result (λ x. x.1 ≤ length text.now) }
    // The bytes that it takes are the words of the value.
    ensures words { IfOk result (λ x. take x.1 text.now ≡ value_words (tree x.0)) }
    // The place of a fault is in the text, or at its end.
    ensures place { IfErr result (IsPlaceWithin (length text.now)) }
    // What is read, or the fault, is what the definition gives.
    ensures exact { Gives (λ x. (tree x.0, drop x.1 text.now)) result (value_at 16 text.now) }
{
    match value_of(alloc, DEEPEST, text) {
        Ok((value, rest)) => Ok((value, text.len() - rest.len())),
        Err(stop) => Err(fault_of(text.len(), stop)),
    }
}
