//! Reading values, from left to right.
ghost use Rattle.std.specs.Prelude.{◌≡◌, ◌≢◌, ◌≤◌, ◌++◌, List, ℕ, length, take, drop, map, IfOk, IfErr, MatchResult};
ghost use Rattle.std.specs.Int.{w8, w16, w32, w64};
ghost use Rattle.cosem_data.specs.Tree.{Tree, trees, depth};
ghost use Rattle.cosem_data.specs.View.{tree};
ghost use Rattle.cosem_axdr.specs.Grammar.{IsEncoding, BeginsWith, BeginsWithNone};
ghost use Rattle.cosem_axdr.specs.Laws.{IsFirstFault};
ghost use Rattle.cosem_axdr.specs.Reading.{Gives, unsigned_at, signed_at, length_at, string_at, parts_at, content_at, items_at, data_at};

use crate::fault::ReadFault;
use crate::tag::kind_of;
use cosem_data::bytes::Bytes;
use cosem_data::data::{Data, Items};
use cosem_data::kind::Kind;
use std::alloc::Global;

/// How deep a value may be nested (own profile).
const DEEPEST: u8 = 16;

fn u8_at(bytes: &[u8]) -> Result<(u8, &[u8]), ReadFault>
    ensures { Gives (λ x. (x.0, x.1.now)) result (unsigned_at w8 bytes.now) }
{
    match bytes {
        [] => Err(ReadFault::Short),
        [byte, rest @ ..] => Ok((*byte, rest)),
    }
}

fn u16_at(bytes: &[u8]) -> Result<(u16, &[u8]), ReadFault>
    ensures { Gives (λ x. (x.0, x.1.now)) result (unsigned_at w16 bytes.now) }
{
    if bytes.len() < 2 {
        return Err(ReadFault::Short);
    }
    let (front, rest) = bytes.split_at(2);
    Ok((u16::from_be_bytes([front[0], front[1]]), rest))
}

fn u32_at(bytes: &[u8]) -> Result<(u32, &[u8]), ReadFault>
    ensures { Gives (λ x. (x.0, x.1.now)) result (unsigned_at w32 bytes.now) }
{
    if bytes.len() < 4 {
        return Err(ReadFault::Short);
    }
    let (front, rest) = bytes.split_at(4);
    let number = u32::from_be_bytes([front[0], front[1], front[2], front[3]]);
    Ok((number, rest))
}

fn u64_at(bytes: &[u8]) -> Result<(u64, &[u8]), ReadFault>
    ensures { Gives (λ x. (x.0, x.1.now)) result (unsigned_at w64 bytes.now) }
{
    if bytes.len() < 8 {
        return Err(ReadFault::Short);
    }
    let (front, rest) = bytes.split_at(8);
    let number = u64::from_be_bytes([
        front[0], front[1], front[2], front[3], front[4], front[5], front[6], front[7],
    ]);
    Ok((number, rest))
}

fn i8_at(bytes: &[u8]) -> Result<(i8, &[u8]), ReadFault>
    ensures { Gives (λ x. (x.0, x.1.now)) result (signed_at w8 bytes.now) }
{
    let (number, rest) = u8_at(bytes)?;
    Ok((number.cast_signed(), rest))
}

fn i16_at(bytes: &[u8]) -> Result<(i16, &[u8]), ReadFault>
    ensures { Gives (λ x. (x.0, x.1.now)) result (signed_at w16 bytes.now) }
{
    let (number, rest) = u16_at(bytes)?;
    Ok((number.cast_signed(), rest))
}

fn i32_at(bytes: &[u8]) -> Result<(i32, &[u8]), ReadFault>
    ensures { Gives (λ x. (x.0, x.1.now)) result (signed_at w32 bytes.now) }
{
    let (number, rest) = u32_at(bytes)?;
    Ok((number.cast_signed(), rest))
}

fn i64_at(bytes: &[u8]) -> Result<(i64, &[u8]), ReadFault>
    ensures { Gives (λ x. (x.0, x.1.now)) result (signed_at w64 bytes.now) }
{
    let (number, rest) = u64_at(bytes)?;
    Ok((number.cast_signed(), rest))
}

/// A length or a count in any of its forms.
#[tactic(auto, unfolding(crate::specs::Reading::length_at))]
fn length_of(bytes: &[u8]) -> Result<(u32, &[u8]), ReadFault>
    ensures { Gives (λ x. (x.0, x.1.now)) result (length_at bytes.now) }
{
    let (first, rest) = u8_at(bytes)?;
    match first {
        0..=127 => Ok((u32::from(first), rest)),
        0x81 => {
            let (length, rest) = u8_at(rest)?;
            Ok((u32::from(length), rest))
        }
        0x82 => {
            let (length, rest) = u16_at(rest)?;
            Ok((u32::from(length), rest))
        }
        0x83 => {
            if rest.len() < 3 {
                return Err(ReadFault::Short);
            }
            let (front, rest) = rest.split_at(3);
            let length = u32::from_be_bytes([0, front[0], front[1], front[2]]);
            Ok((length, rest))
        }
        0x84 => u32_at(rest),
        _ => Err(ReadFault::Length),
    }
}

/// A length and that many bytes.
#[tactic(auto, unfolding(crate::specs::Reading::string_at))]
fn string_of(alloc: Global, bytes: &[u8]) -> Result<(Bytes, &[u8]), ReadFault>
    ensures { Gives (λ x. (x.0, x.1.now)) result (string_at bytes.now) }
{
    let (len, rest) = length_of(bytes)?;
    let len = len as usize;
    if rest.len() < len {
        return Err(ReadFault::Short);
    }
    let (text, rest) = rest.split_at(len);
    Ok((Bytes::new(Vec::from_slice(alloc, text)?), rest))
}

/// A value that is nested at most `depth`.
#[cycle(read)]
#[tactic(auto, unfolding(crate::specs::Reading::data_at, crate::specs::Reading::content_at))]
fn data_of(alloc: Global, depth: u8, bytes: &[u8]) -> Result<(Data, &[u8]), ReadFault>
    ensures { Gives (λ x. (tree x.0, x.1.now)) result (data_at depth bytes.now) }
{
    let [first, rest @ ..] = bytes else {
        return Err(ReadFault::Short);
    };
    match kind_of(*first) {
        None => Err(ReadFault::UnknownTag),
        Some(kind) => content_of(alloc, depth, kind, rest),
    }
}

/// What stands behind the tag of the kind.
#[cycle(read)]
#[tactic(auto, unfolding(crate::specs::Reading::content_at))]
fn content_of(
    alloc: Global,
    depth: u8,
    kind: Kind,
    bytes: &[u8],
) -> Result<(Data, &[u8]), ReadFault>
    ensures { Gives (λ x. (tree x.0, x.1.now)) result (content_at (items_at depth) kind bytes.now) }
{
    match kind {
        Kind::NullData => Ok((Data::NullData, bytes)),
        Kind::Array => {
            let (items, rest) = items_of(alloc, depth, bytes)?;
            Ok((Data::Array(items), rest))
        }
        Kind::Structure => {
            let (items, rest) = items_of(alloc, depth, bytes)?;
            Ok((Data::Structure(items), rest))
        }
        Kind::Boolean => {
            let (byte, rest) = u8_at(bytes)?;
            Ok((Data::Boolean(byte != 0), rest))
        }
        Kind::DoubleLong => {
            let (number, rest) = i32_at(bytes)?;
            Ok((Data::DoubleLong(number), rest))
        }
        Kind::DoubleLongUnsigned => {
            let (number, rest) = u32_at(bytes)?;
            Ok((Data::DoubleLongUnsigned(number), rest))
        }
        Kind::OctetString => {
            let (text, rest) = string_of(alloc, bytes)?;
            Ok((Data::OctetString(text), rest))
        }
        Kind::VisibleString => {
            let (text, rest) = string_of(alloc, bytes)?;
            Ok((Data::VisibleString(text), rest))
        }
        Kind::Integer => {
            let (number, rest) = i8_at(bytes)?;
            Ok((Data::Integer(number), rest))
        }
        Kind::Long => {
            let (number, rest) = i16_at(bytes)?;
            Ok((Data::Long(number), rest))
        }
        Kind::Unsigned => {
            let (number, rest) = u8_at(bytes)?;
            Ok((Data::Unsigned(number), rest))
        }
        Kind::LongUnsigned => {
            let (number, rest) = u16_at(bytes)?;
            Ok((Data::LongUnsigned(number), rest))
        }
        Kind::Long64 => {
            let (number, rest) = i64_at(bytes)?;
            Ok((Data::Long64(number), rest))
        }
        Kind::Long64Unsigned => {
            let (number, rest) = u64_at(bytes)?;
            Ok((Data::Long64Unsigned(number), rest))
        }
        Kind::Enumerated => {
            let (number, rest) = u8_at(bytes)?;
            Ok((Data::Enumerated(number), rest))
        }
    }
}

/// A count and that many parts, of an array or a structure that may be nested `depth` deep.
#[cycle(read)]
#[tactic(auto, unfolding(crate::specs::Reading::items_at, crate::specs::Reading::data_at))]
fn items_of(alloc: Global, depth: u8, bytes: &[u8]) -> Result<(Items, &[u8]), ReadFault>
    ensures { Gives (λ x. (x.0, x.1.now)) result (items_at depth bytes.now) }
{
    if depth == 0 {
        return Err(ReadFault::TooDeep);
    }
    let (count, rest) = length_of(bytes)?;
    let (parts, rest) = parts_of(alloc, depth - 1, count, rest)?;
    Ok((Items::new(parts), rest))
}

/// So many values, one after the other, each nested at most `depth`.
#[cycle(read)]
fn parts_of(
    alloc: Global,
    depth: u8,
    count: u32,
    bytes: &[u8],
) -> Result<(Vec<Data>, &[u8]), ReadFault>
    ensures { Gives (λ x. (map tree x.0.items, x.1.now)) result
        (parts_at (data_at depth) count bytes.now) }
{
    let mut parts = Vec::new(alloc);
    let mut rest = bytes;
    for _ in 0..count {
        let (part, after) = data_of(alloc, depth, rest)?;
        parts.push(part)?;
        rest = after;
    }
    Ok((parts, rest))
}

/// The value in front of the bytes, nested at most 16, and what is behind it.
fn front_of(alloc: Global, bytes: &[u8]) -> Result<(Data, &[u8]), ReadFault>
    ensures found { IfOk result (λ x. BeginsWith bytes.now (tree x.0) x.1.now) }
    ensures only { (t : Tree) (rest : List ℕ) → BeginsWith bytes.now t rest →
        MatchResult result (λ x. (tree x.0 ≡ t) × (x.1.now ≡ rest)) (λ e. e ≡ ReadFault.Memory) }
    ensures exact { Gives (λ x. (tree x.0, x.1.now)) result (data_at 16 bytes.now) }
{
    data_of(alloc, DEEPEST, bytes)
}

/// Reads the value in front of the bytes (IEC 62056-5-3, type `Data` in A-XDR), nested at most 16, and tells how many bytes it takes.
///
/// Bytes behind the value are not looked at. Lengths and counts are read in any form, and a boolean's byte other than 00 is true (own profile).
/// Memory is asked for as the parts and letters come, never by a count that was read.
///
/// # Errors
/// The fault at the first bad byte from the left, or `Short` where no byte is bad and some are missing; `Memory` where memory is refused.
pub fn read_data(alloc: Global, bytes: &[u8]) -> Result<(Data, usize), ReadFault>
    ensures used { IfOk result (λ x. x.1 ≤ length bytes.now) }
    // The bytes used are an encoding of the value, nested at most 16, and stand in front.
    ensures found { IfOk result (λ x. BeginsWith bytes.now (tree x.0) (drop x.1 bytes.now)
        × IsEncoding (tree x.0) (take x.1 bytes.now)) }
    // An encoding in front of the bytes is read, unless memory runs out.
    ensures only { (t : Tree) (front rest : List ℕ) → IsEncoding t front → depth t ≤ 16 →
        bytes.now ≡ front ++ rest → MatchResult result (λ x. (tree x.0 ≡ t) × (x.1 ≡ length front))
        (λ e. e ≡ ReadFault.Memory) }
    // Where a fault is told, no encoding stands in front.
    ensures none { IfErr result (λ e. e ≢ ReadFault.Memory → BeginsWithNone bytes.now) }
    // The fault is that of the first bad byte from the left; Short is told where no byte is bad and some are missing.
    ensures first { IfErr result (IsFirstFault bytes.now) }
    // The same by the function that reads from left to right.
    ensures exact { Gives (λ x. (tree x.0, drop x.1 bytes.now)) result (data_at 16 bytes.now) }
{
    let (value, rest) = front_of(alloc, bytes)?;
    Ok((value, bytes.len() - rest.len()))
}
