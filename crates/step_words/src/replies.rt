//! Writing replies in words.
ghost use Rattle.std.specs.Prelude.{◌≡◌, ◌++◌, IfOk, Ok, OnErr, OnOk, option_map};
ghost use Rattle.cosem_data.specs.View.{tree};
ghost use Rattle.cosem_axdr.specs.Reading.{data_at};
ghost use Rattle.value_text.specs.Texts as texts;
ghost use Rattle.value_words.specs.Stopping.{Reads};
ghost use Rattle.step_words.specs.ReplyWords as spec;

use crate::fault::Asked;
use crate::requests::push_invoke;
use crate::steps::apdu_words;
use cosem_axdr::fault::ReadFault;
use cosem_axdr::reading::read_data;
use cosem_data::data::Data;
use cosem_data::memory::Memory;
use std::alloc::Global;
use value_text::value::bytes_in;
use value_words::stop::{Stop, stop_at};
use value_words::writing::push_value;

/// The tags of the responses, and of an exception-response.
const GET_RESPONSE: u8 = 0xC4;

const SET_RESPONSE: u8 = 0xC5;

const ACTION_RESPONSE: u8 = 0xC7;

const EXCEPTION_RESPONSE: u8 = 0xD8;

/// The form for one attribute or method, in one APDU.
const NORMAL: u8 = 1;

/// A result and its number (IEC 62056-5-3, Data-Access-Result). None where the number is of no result that a meter answers.
pub fn result_words(code: u8) -> Option<&'static [u8]>
    ensures { option_map (λ x. x.now) result ≡ spec.result_words code }
{
    let words: &[u8] = match code {
        0 => b"success (0)",
        2 => b"temporary-failure (2)",
        3 => b"read-write-denied (3)",
        4 => b"object-undefined (4)",
        9 => b"object-class-inconsistent (9)",
        12 => b"type-unmatched (12)",
        13 => b"scope-of-access-violated (13)",
        250 => b"other-reason (250)",
        _ => return None,
    };
    Some(words)
}

/// What was wrong with the state (IEC 62056-5-3, exception-response).
fn state_words(code: u8) -> Option<&'static [u8]>
    ensures { option_map (λ x. x.now) result ≡ spec.state_words code }
{
    match code {
        1 => Some(b"service-not-allowed"),
        2 => Some(b"service-unknown"),
        _ => None,
    }
}

/// What was wrong with the service (IEC 62056-5-3, exception-response).
fn service_words(code: u8) -> Option<&'static [u8]>
    ensures { option_map (λ x. x.now) result ≡ spec.service_words code }
{
    let words: &[u8] = match code {
        1 => b"operation-not-possible",
        2 => b"service-not-supported",
        3 => b"other-reason",
        4 => b"pdu-too-long",
        5 => b"deciphering-error",
        6 => b"invocation-counter-error",
        _ => return None,
    };
    Some(words)
}

/// A copy of words, if there are any.
fn copied(alloc: Global, words: Option<&[u8]>) -> Result<Option<Vec<u8>>, Memory>
    ensures { IfOk result (λ found. option_map (λ x. x.items) found
        ≡ option_map (λ x. x.now) words.entry) }
{
    let Some(words) = words else {
        return Ok(None);
    };
    let mut copy = Vec::new(alloc);
    copy.extend_from_slice(words)?;
    Ok(Some(copy))
}

/// An exception-response by the names of its two errors.
fn exception_words(alloc: Global, state: u8, service: u8) -> Result<Option<Vec<u8>>, Memory>
    ensures { IfOk result (λ found. option_map (λ x. x.items) found
        ≡ spec.exception_words state service) }
{
    let (Some(state), Some(service)) = (state_words(state), service_words(service)) else {
        return Ok(None);
    };
    let mut words = Vec::new(alloc);
    words.extend_from_slice(b"exception ")?;
    words.extend_from_slice(state)?;
    words.push(b' ')?;
    words.extend_from_slice(service)?;
    Ok(Some(words))
}

/// A value that was read, where nothing stands behind it.
fn whole(value: Data, rest: &[u8]) -> Option<Data>
    ensures { option_map tree result ≡ texts.whole (Ok (tree value, rest.now)) }
{
    match rest {
        [] => Some(value),
        [..] => None,
    }
}

/// The value that bytes are to their end.
fn value_of(alloc: Global, bytes: &[u8]) -> Result<Option<Data>, Memory>
    ensures { IfOk result (λ found. option_map tree found ≡ texts.whole (data_at 16 bytes.now)) }
{
    match read_data(alloc, bytes) {
        Ok((value, used)) => Ok(whole(value, &bytes[used..])),
        Err(ReadFault::Memory) => Err(Memory),
        Err(_) => Ok(None),
    }
}

/// The words of the value that bytes are to their end.
fn shown_words(alloc: Global, bytes: &[u8]) -> Result<Option<Vec<u8>>, Memory>
    ensures { IfOk result (λ found. option_map (λ x. x.items) found ≡ spec.shown_words bytes.now) }
{
    let Some(value) = value_of(alloc, bytes)? else {
        return Ok(None);
    };
    let mut words = Vec::new(alloc);
    push_value(alloc, &value, &mut words)?;
    Ok(Some(words))
}

/// A result alone.
fn code_words(alloc: Global, rest: &[u8]) -> Result<Option<Vec<u8>>, Memory>
    ensures { IfOk result (λ found. option_map (λ x. x.items) found ≡ spec.code_words rest.now) }
{
    match rest {
        [code] => copied(alloc, result_words(*code)),
        _ => Ok(None),
    }
}

/// A result without a return parameter.
fn action_words(alloc: Global, rest: &[u8]) -> Result<Option<Vec<u8>>, Memory>
    ensures { IfOk result (λ found. option_map (λ x. x.items) found ≡ spec.action_words rest.now) }
{
    match rest {
        [code, 0] => copied(alloc, result_words(*code)),
        _ => Ok(None),
    }
}

/// A value or a result.
fn got_words(alloc: Global, rest: &[u8]) -> Result<Option<Vec<u8>>, Memory>
    ensures { IfOk result (λ found. option_map (λ x. x.items) found ≡ spec.got_words rest.now) }
{
    match rest {
        [0, rest @ ..] => shown_words(alloc, rest),
        [1, rest @ ..] => code_words(alloc, rest),
        _ => Ok(None),
    }
}

/// What a service answers.
fn answer_words(alloc: Global, tag: u8, rest: &[u8]) -> Result<Option<Vec<u8>>, Memory>
    ensures { IfOk result (λ found. option_map (λ x. x.items) found ≡ spec.answer_words tag rest.now) }
{
    match tag {
        GET_RESPONSE => got_words(alloc, rest),
        SET_RESPONSE => code_words(alloc, rest),
        ACTION_RESPONSE => action_words(alloc, rest),
        _ => Ok(None),
    }
}

/// The invoke byte behind words, if there are any.
fn invoked(alloc: Global, invoke: u8, words: Option<Vec<u8>>) -> Result<Option<Vec<u8>>, Memory>
    ensures { IfOk result (λ found. option_map (λ x. x.items) found
        ≡ spec.invoked invoke (option_map (λ x. x.items) words)) }
{
    let Some(mut words) = words else {
        return Ok(None);
    };
    push_invoke(alloc, invoke, &mut words)?;
    Ok(Some(words))
}

/// The words of a response or of an exception-response, if it has any.
fn response_words(alloc: Global, bytes: &[u8]) -> Result<Option<Vec<u8>>, Memory>
    ensures { IfOk result (λ found. option_map (λ x. x.items) found ≡ spec.response_words bytes.now) }
{
    let [tag, form, invoke, rest @ ..] = bytes else {
        return Ok(None);
    };
    if *tag == EXCEPTION_RESPONSE {
        return if rest.is_empty() {
            exception_words(alloc, *form, *invoke)
        } else {
            Ok(None)
        };
    }
    if *form != NORMAL {
        return Ok(None);
    }
    let words = answer_words(alloc, *tag, rest)?;
    invoked(alloc, *invoke, words)
}

/// The words of a reply.
fn reply_words(alloc: Global, bytes: &[u8]) -> Result<Vec<u8>, Memory>
    ensures { IfOk result (λ x. x.items ≡ spec.reply_words bytes.now) }
{
    match response_words(alloc, bytes)? {
        Some(words) => Ok(words),
        None => apdu_words(alloc, bytes),
    }
}

/// Puts the words of a reply behind a text, as `success (0)`; of any other APDU these are `apdu HEX` (own profile, by the names
/// of IEC 62056-5-3).
///
/// # Errors
/// `Memory` where memory is refused; the text is then as it was.
pub(crate) fn push_reply(alloc: Global, apdu: &[u8], text: &mut Vec<u8>) -> Result<(), Memory>
    ensures ok { OnOk result (text.new.items ≡ text.old.items ++ spec.reply_words apdu.now) }
    ensures err { OnErr result (text.new.items ≡ text.old.items) }
{
    let words = reply_words(alloc, apdu)?;
    text.extend_from_slice(&words)?;
    Ok(())
}

/// The words of a reply in hex.
#[tactic(auto, unfolding(crate::specs::ReplyWords::decoded_reply))]
pub(crate) fn decoded_reply(alloc: Global, text: &[u8]) -> Result<Vec<u8>, Stop<Asked>>
    ensures { Reads (λ x. x.items) result (spec.decoded_reply text.now) }
{
    match bytes_in(alloc, text)? {
        Some(bytes) if !bytes.is_empty() => Ok(reply_words(alloc, &bytes)?),
        _ => Err(stop_at(text, Asked::HexDigits)),
    }
}
