//! Step lines: those in words made of those in hex, and the other way round.
ghost use Rattle.std.specs.Prelude.{◌≡◌, ◌++◌, [], IfOk, OnErr, OnOk, is_ok};
ghost use Rattle.std.specs.Result.{result_unwrap_or};
ghost use Rattle.hex.specs.Hex.{encode_upper};
ghost use Rattle.cosem_data.specs.View.{tree};
ghost use Rattle.cosem_axdr.specs.Canonical.{canonical, HasLengths};
ghost use Rattle.value_words.specs.Stopping.{Reads};
ghost use Rattle.step_words.specs.RequestReading as reading;
ghost use Rattle.step_words.specs.RequestWords as requests;
ghost use Rattle.step_words.specs.StepLines as spec;

use crate::asking::{asked_bytes, words_in};
use crate::fault::Asked;
use crate::head::{Head, head_of, is_seconds};
use crate::parts::{end_of, value_of};
use cosem_axdr::writing::write_data;
use cosem_data::data::Data;
use cosem_data::memory::Memory;
use std::alloc::Global;
use value_text::value::{bytes_in, value_in};
use value_words::stop::{Stop, stop_at};
use value_words::writing::push_value;

/// The bytes in upper-case hex.
pub(crate) fn hex_of(alloc: Global, bytes: &[u8]) -> Result<Vec<u8>, Memory>
    ensures { IfOk result (λ x. x.items ≡ encode_upper bytes.now) }
{
    Ok(hex::encode_upper(alloc, bytes)?.into_bytes())
}

/// The encoding of a value in upper-case hex.
fn hex_of_value(alloc: Global, value: &Data) -> Result<Vec<u8>, Memory>
    requires { HasLengths (tree value.now) }
    ensures { IfOk result (λ x. x.items ≡ encode_upper (canonical (tree value.now))) }
{
    let mut bytes = Vec::new(alloc);
    write_data(value, &mut bytes)?;
    hex_of(alloc, &bytes)
}

/// The bytes of what a client named `tick` asks.
fn named_tick_bytes(alloc: Global, text: &[u8]) -> Result<Vec<u8>, Stop<Asked>>
    ensures { Reads (λ x. x.items) result (spec.or_seconds (reading.asked_bytes text.now)) }
{
    match asked_bytes(alloc, text) {
        // A person who types `tick 0` means seconds.
        Err(Stop::At(left, Asked::Service)) => Err(Stop::At(left, Asked::SecondsOrService)),
        read => read,
    }
}

/// The hex digits of what a client named `tick` asks.
#[tactic(auto, unfolding(crate::specs::StepLines::hex_at))]
fn hex_of_named_tick(alloc: Global, text: &[u8]) -> Result<Vec<u8>, Stop<Asked>>
    ensures { Reads (λ x. x.items) result (spec.hex_at Head.NamedTick text.now) }
{
    let digits = hex_of(alloc, &named_tick_bytes(alloc, text)?)?;
    if is_seconds(&digits) {
        // `tick apdu 12` would become `tick 12`, which is decoded as twelve seconds.
        return Err(stop_at(&digits, Asked::NoSeconds));
    }
    Ok(digits)
}

/// The hex of what stands in words behind the front of a step line.
#[tactic(auto, unfolding(crate::specs::StepLines::hex_at))]
pub(crate) fn hex_behind(alloc: Global, head: Head, text: &[u8]) -> Result<Vec<u8>, Stop<Asked>>
    ensures { Reads (λ x. x.items) result (spec.hex_at head text.now) }
{
    match head {
        Head::Input => {
            let (value, rest) = value_of(alloc, text)?;
            end_of(rest)?;
            Ok(hex_of_value(alloc, &value)?)
        }
        Head::Client => Ok(hex_of(alloc, &asked_bytes(alloc, text)?)?),
        Head::NamedTick => hex_of_named_tick(alloc, text),
        Head::Whole => Ok(Vec::new(alloc)),
    }
}

/// The text up to what is left of it, with another text behind.
fn with_rest(alloc: Global, text: &[u8], left: &[u8], rest: &[u8]) -> Result<Vec<u8>, Memory>
    ensures { IfOk result (λ x. x.items ≡ spec.up_to text.now left.now ++ rest.now) }
{
    let mut line = Vec::new(alloc);
    line.extend_from_slice(&text[..text.len().saturating_sub(left.len())])?;
    line.extend_from_slice(rest)?;
    Ok(line)
}

/// The step line in hex of a step in words.
#[tactic(auto, unfolding(crate::specs::StepLines::encoded_step))]
pub(crate) fn encoded_step(alloc: Global, text: &[u8]) -> Result<Vec<u8>, Stop<Asked>>
    ensures { Reads (λ x. x.items) result (spec.encoded_step text.now) }
{
    let (head, rest) = head_of(text)?;
    let hex = hex_behind(alloc, head, rest)?;
    Ok(with_rest(alloc, text, rest, &hex)?)
}

/// What a client asks by its bytes, in words.
fn ask_words(alloc: Global, bytes: &[u8]) -> Result<Vec<u8>, Memory>
    ensures { IfOk result (λ x. x.items ≡ spec.ask_words bytes.now) }
{
    match words_in(alloc, bytes)? {
        Some(words) => Ok(words),
        None => apdu_words(alloc, bytes),
    }
}

/// An APDU in upper-case hex, behind its word.
pub(crate) fn apdu_words(alloc: Global, bytes: &[u8]) -> Result<Vec<u8>, Memory>
    ensures { IfOk result (λ x. x.items ≡ requests.apdu_words bytes.now) }
{
    let mut words = Vec::new(alloc);
    words.extend_from_slice(b"apdu ")?;
    words.extend_from_slice(&hex_of(alloc, bytes)?)?;
    Ok(words)
}

/// The words of an input in hex digits.
#[tactic(auto, unfolding(crate::specs::StepLines::words_at))]
pub(crate) fn input_words(alloc: Global, text: &[u8]) -> Result<Vec<u8>, Stop<Asked>>
    ensures { Reads (λ x. x.items) result (spec.words_at Head.Input text.now) }
{
    let Some(value) = value_in(alloc, text)? else {
        return Err(stop_at(text, Asked::Encoding));
    };
    let mut words = Vec::new(alloc);
    push_value(alloc, &value, &mut words)?;
    Ok(words)
}

/// The words of what a client asks in hex digits.
#[tactic(auto, unfolding(crate::specs::StepLines::words_at))]
fn client_words(alloc: Global, text: &[u8]) -> Result<Vec<u8>, Stop<Asked>>
    ensures { Reads (λ x. x.items) result (spec.words_at Head.Client text.now) }
{
    match bytes_in(alloc, text)? {
        Some(bytes) if !bytes.is_empty() => Ok(ask_words(alloc, &bytes)?),
        _ => Err(stop_at(text, Asked::HexDigits)),
    }
}

/// The words of what stands in hex behind the front of a step line.
#[tactic(auto, unfolding(crate::specs::StepLines::words_at))]
fn words_behind(alloc: Global, head: Head, text: &[u8]) -> Result<Vec<u8>, Stop<Asked>>
    ensures { Reads (λ x. x.items) result (spec.words_at head text.now) }
{
    match head {
        Head::Input => input_words(alloc, text),
        Head::Client | Head::NamedTick => client_words(alloc, text),
        Head::Whole => Ok(Vec::new(alloc)),
    }
}

/// The step in words of a step line in hex.
#[tactic(auto, unfolding(crate::specs::StepLines::decoded_step))]
pub(crate) fn decoded_step(alloc: Global, text: &[u8]) -> Result<Vec<u8>, Stop<Asked>>
    ensures { Reads (λ x. x.items) result (spec.decoded_step text.now) }
{
    let (head, rest) = head_of(text)?;
    let words = words_behind(alloc, head, rest)?;
    Ok(with_rest(alloc, text, rest, &words)?)
}

/// Puts the step in words of a step line in hex behind a text, and says whether the line is one (own profile).
///
/// # Errors
/// `Memory` where memory is refused; the text is then as it was.
pub fn push_step(alloc: Global, line: &[u8], text: &mut Vec<u8>) -> Result<bool, Memory>
    ensures told { IfOk result (λ told. told ≡ is_ok (spec.decoded_step line.now)) }
    ensures ok { OnOk result (text.new.items
        ≡ text.old.items ++ result_unwrap_or (spec.decoded_step line.now) []) }
    ensures err { OnErr result (text.new.items ≡ text.old.items) }
{
    match decoded_step(alloc, line) {
        Ok(words) => {
            text.extend_from_slice(&words)?;
            Ok(true)
        }
        Err(Stop::Memory) => Err(Memory),
        Err(Stop::At(_, _)) => Ok(false),
    }
}
