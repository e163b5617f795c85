//! Reading requests in words, and the bytes of what a client asks.
ghost use Rattle.std.specs.Prelude.{◌≡◌, ◌≤◌, ◌<◌, IfOk, IfSome, option_map};
ghost use Rattle.cosem_data.specs.View.{tree, data_of};
ghost use Rattle.class_profile.specs.SelectionView.{descriptor_view};
ghost use Rattle.xdlms_services.specs.Requests.{IsWritableValue, IsWritableParameter, IsDescriptorInRange, IsArgumentInRange, CanAsk, request_bytes};
ghost use Rattle.value_words.specs.Stopping.{Reads};
ghost use Rattle.step_words.specs.RequestReading as spec;

use crate::fault::Asked;
use crate::parts::{end_of, name_of, value_of};
use crate::requests::{BY_ENTRY, USUAL_INVOKE, request_words};
use crate::runs::{Run, run_of};
use class_profile::selection::EntryDescriptor;
use cosem_data::data::{Data, Items};
use cosem_data::memory::Memory;
use hex::FromHexError;
use meter_theory::refs::Descriptor;
use object_model::argument::Argument;
use std::alloc::Global;
use value_words::marks::{behind, mark_of};
use value_words::numbers::{number_in, signed_of, unsigned_of};
use value_words::stop::{Stop, stop_at};
use xdlms_services::{ApduFault, Request, read_apdu, write_request};

/// Class, logical name and index.
#[tactic(auto, unfolding(crate::specs::RequestReading::descriptor_at))]
fn descriptor_of(text: &[u8]) -> Result<(Descriptor, &[u8]), Stop<Asked>>
    ensures read { Reads (λ x. (x.0, x.1.now)) result (spec.descriptor_at text.now) }
    ensures ranges { IfOk result (λ x. IsDescriptorInRange x.0) }
{
    let (class_id, rest) = unsigned_of(Asked::Class, 65_535, text)?;
    let rest = mark_of(Asked::Slash, b"/", rest)?;
    let (name, rest) = name_of(rest)?;
    let rest = mark_of(Asked::Slash, b"/", rest)?;
    let (index, rest) = signed_of(Asked::Index, 128, rest)?;
    let named = Descriptor {
        class_id: class_id as u16,
        name,
        index: index as i8,
    };
    Ok((named, rest))
}

/// Two numbers up to the most, with two dots between them.
#[tactic(auto, unfolding(crate::specs::RequestReading::pair_at))]
fn pair_of(asked: Asked, most: u64, text: &[u8]) -> Result<((u64, u64), &[u8]), Stop<Asked>>
    ensures read { Reads (λ x. (x.0, x.1.now)) result (spec.pair_at asked most text.now) }
    ensures most { IfOk result (λ x. (x.0.0 ≤ most) × (x.0.1 ≤ most)) }
{
    let (from, rest) = unsigned_of(asked, most, text)?;
    let rest = mark_of(Asked::Dots, b"..", rest)?;
    let (to, rest) = unsigned_of(asked, most, rest)?;
    Ok(((from, to), rest))
}

/// Entries and columns.
#[tactic(auto, unfolding(crate::specs::RequestReading::entries_at))]
fn entries_of(text: &[u8]) -> Result<(EntryDescriptor, &[u8]), Stop<Asked>>
    ensures { Reads (λ x. (descriptor_view x.0, x.1.now)) result (spec.entries_at text.now) }
{
    let ((from_entry, to_entry), rest) = pair_of(Asked::Entry, u64::from(u32::MAX), text)?;
    let rest = mark_of(Asked::Columns, b" columns ", rest)?;
    let ((from_column, to_column), rest) = pair_of(Asked::Column, 65_535, rest)?;
    let entries = EntryDescriptor {
        from_entry: from_entry as u32,
        to_entry: to_entry as u32,
        from_selected_value: from_column as u16,
        to_selected_value: to_column as u16,
    };
    Ok((entries, rest))
}

/// The parameter of a selection by entry.
fn parameter_of(alloc: Global, entries: EntryDescriptor) -> Result<Argument, Memory>
    ensures is { IfOk result (λ x. x
        ≡ Argument.Value (data_of (spec.parameter_of (descriptor_view entries)))) }
    ensures sent { IfOk result (λ x. IsWritableValue x × IsArgumentInRange x) }
{
    let parts = vec![in alloc;
        Data::DoubleLongUnsigned(entries.from_entry),
        Data::DoubleLongUnsigned(entries.to_entry),
        Data::LongUnsigned(entries.from_selected_value),
        Data::LongUnsigned(entries.to_selected_value),
    ]?;
    Ok(Argument::Value(Data::Structure(Items::new(parts))))
}

/// A selection by entry, or none.
#[tactic(auto, unfolding(crate::specs::RequestReading::selection_at))]
fn selection_of(alloc: Global, text: &[u8]) -> Result<(Option<(u8, Argument)>, &[u8]), Stop<Asked>>
    ensures read { Reads (λ x. (x.0, x.1.now)) result (spec.selection_at text.now) }
    ensures writable { IfOk result (λ x. IfSome x.0 (λ s. IsWritableValue s.1)) }
    ensures ranges { IfOk result (λ x. IfSome x.0 (λ s. (s.0 < 256) × IsArgumentInRange s.1)) }
{
    let Some(rest) = behind(b" entries ", text) else {
        return Ok((None, text));
    };
    let (entries, rest) = entries_of(rest)?;
    Ok((Some((BY_ENTRY, parameter_of(alloc, entries)?)), rest))
}

/// A value.
#[tactic(auto, unfolding(crate::specs::RequestReading::argument_at))]
fn argument_of(alloc: Global, text: &[u8]) -> Result<(Argument, &[u8]), Stop<Asked>>
    ensures read { Reads (λ x. (x.0, x.1.now)) result (spec.argument_at text.now) }
    ensures sent { IfOk result (λ x. IsWritableValue x.0 × IsArgumentInRange x.0) }
{
    let (value, rest) = value_of(alloc, text)?;
    Ok((Argument::Value(value), rest))
}

/// A value behind a space.
#[tactic(auto, unfolding(crate::specs::RequestReading::given_at))]
fn given_of(alloc: Global, text: &[u8]) -> Result<(Argument, &[u8]), Stop<Asked>>
    ensures read { Reads (λ x. (x.0, x.1.now)) result (spec.given_at text.now) }
    ensures sent { IfOk result (λ x. IsWritableValue x.0 × IsArgumentInRange x.0) }
{
    argument_of(alloc, mark_of(Asked::Space, b" ", text)?)
}

/// A value behind a space, or nothing.
#[tactic(auto, unfolding(crate::specs::RequestReading::parameter_at))]
fn given_or_absent(alloc: Global, text: &[u8]) -> Result<(Argument, &[u8]), Stop<Asked>>
    ensures read { Reads (λ x. (x.0, x.1.now)) result (spec.parameter_at text.now) }
    ensures sent { IfOk result (λ x. IsWritableParameter x.0 × IsArgumentInRange x.0) }
{
    if text.is_empty() || behind(b" invoke ", text).is_some() {
        return Ok((Argument::Absent, text));
    }
    given_of(alloc, text)
}

/// The invoke byte that digits are, unless it is the one that has no words.
fn invoke_in(digits: &[u8]) -> Option<u8>
    ensures { result ≡ spec.invoke_in digits.now }
{
    let invoke = number_in(255, digits)? as u8;
    if invoke == USUAL_INVOKE {
        None
    } else {
        Some(invoke)
    }
}

/// The invoke byte at the end of a line.
#[tactic(auto, unfolding(crate::specs::RequestReading::invoke_at))]
fn invoke_of(text: &[u8]) -> Result<u8, Stop<Asked>>
    ensures { Reads (λ x. x) result (spec.invoke_at text.now) }
{
    let Some(rest) = behind(b" invoke ", text) else {
        return if text.is_empty() {
            Ok(USUAL_INVOKE)
        } else {
            Err(stop_at(text, Asked::InvokeOrEnd))
        };
    };
    let (digits, end) = run_of(Run::Digits, rest);
    let Some(invoke) = invoke_in(digits) else {
        return Err(stop_at(rest, Asked::Invoke));
    };
    end_of(end)?;
    Ok(invoke)
}

/// A GET, behind its word.
#[tactic(auto, unfolding(crate::specs::RequestReading::get_at))]
fn get_of(alloc: Global, text: &[u8]) -> Result<Request, Stop<Asked>>
    ensures read { Reads (λ x. x) result (spec.get_at text.now) }
    ensures sent { IfOk result (λ x. CanAsk x) }
{
    let (attribute, rest) = descriptor_of(text)?;
    let (selection, rest) = selection_of(alloc, rest)?;
    let invoke = invoke_of(rest)?;
    Ok(Request::Get {
        invoke,
        attribute,
        selection,
    })
}

/// A SET, behind its word.
#[tactic(auto, unfolding(crate::specs::RequestReading::set_at))]
fn set_of(alloc: Global, text: &[u8]) -> Result<Request, Stop<Asked>>
    ensures read { Reads (λ x. x) result (spec.set_at text.now) }
    ensures sent { IfOk result (λ x. CanAsk x) }
{
    let (attribute, rest) = descriptor_of(text)?;
    let (value, rest) = given_of(alloc, rest)?;
    let invoke = invoke_of(rest)?;
    Ok(Request::Set {
        invoke,
        attribute,
        selected: false,
        value,
    })
}

/// An ACTION, behind its word.
#[tactic(auto, unfolding(crate::specs::RequestReading::act_at))]
fn act_of(alloc: Global, text: &[u8]) -> Result<Request, Stop<Asked>>
    ensures read { Reads (λ x. x) result (spec.act_at text.now) }
    ensures sent { IfOk result (λ x. CanAsk x) }
{
    let (method, rest) = descriptor_of(text)?;
    let (argument, rest) = given_or_absent(alloc, rest)?;
    let invoke = invoke_of(rest)?;
    Ok(Request::Act {
        invoke,
        method,
        argument,
    })
}

/// The words of the request that bytes are, if they are one that has words.
#[tactic(auto, unfolding(crate::specs::RequestReading::words_in))]
pub(crate) fn words_in(alloc: Global, bytes: &[u8]) -> Result<Option<Vec<u8>>, Memory>
    ensures { IfOk result (λ found. option_map (λ words. words.items) found ≡ spec.words_in bytes.now) }
{
    match read_apdu(alloc, bytes) {
        Ok(request) => request_words(alloc, &request),
        Err(ApduFault::Unreadable) => Ok(None),
        Err(ApduFault::Memory) => Err(Memory),
    }
}

/// The bytes that upper-case hex digits are, at least one.
#[tactic(auto, unfolding(crate::specs::RequestReading::bytes_at))]
fn bytes_of(alloc: Global, text: &[u8]) -> Result<(Vec<u8>, &[u8]), Stop<Asked>>
    ensures { Reads (λ x. (x.0.items, x.1.now)) result (spec.bytes_at text.now) }
{
    let (digits, rest) = run_of(Run::Hex, text);
    if digits.is_empty() {
        return Err(stop_at(text, Asked::Bytes));
    }
    match hex::decode(alloc, digits) {
        Ok(bytes) => Ok((bytes, rest)),
        Err(FromHexError::OutOfMemory) => Err(Stop::Memory),
        Err(_) => Err(stop_at(text, Asked::Bytes)),
    }
}

/// The bytes of an APDU that has no other words, behind its word.
#[tactic(auto, unfolding(crate::specs::RequestReading::apdu_at))]
fn apdu_of(alloc: Global, text: &[u8], digits: &[u8]) -> Result<Vec<u8>, Stop<Asked>>
    ensures { Reads (λ x. x.items) result (spec.apdu_at text.now digits.now) }
{
    let (bytes, rest) = bytes_of(alloc, digits)?;
    end_of(rest)?;
    if words_in(alloc, &bytes)?.is_some() {
        return Err(stop_at(text, Asked::Request));
    }
    Ok(bytes)
}

/// The shortest bytes of a request.
fn bytes_of_request(alloc: Global, request: &Request) -> Result<Vec<u8>, Memory>
    requires { CanAsk request.now }
    ensures { IfOk result (λ x. x.items ≡ request_bytes request.now) }
{
    let mut bytes = Vec::new(alloc);
    write_request(request, &mut bytes)?;
    Ok(bytes)
}

/// The bytes of what a client asks.
#[tactic(auto, unfolding(crate::specs::RequestReading::asked_bytes))]
pub(crate) fn asked_bytes(alloc: Global, text: &[u8]) -> Result<Vec<u8>, Stop<Asked>>
    ensures { Reads (λ x. x.items) result (spec.asked_bytes text.now) }
{
    let request = if let Some(rest) = behind(b"get ", text) {
        get_of(alloc, rest)?
    } else if let Some(rest) = behind(b"set ", text) {
        set_of(alloc, rest)?
    } else if let Some(rest) = behind(b"act ", text) {
        act_of(alloc, rest)?
    } else if let Some(digits) = behind(b"apdu ", text) {
        return apdu_of(alloc, text, digits);
    } else {
        return Err(stop_at(text, Asked::Service));
    };
    Ok(bytes_of_request(alloc, &request)?)
}
