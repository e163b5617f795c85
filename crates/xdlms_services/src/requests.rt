//! Writing requests, as a client sends them.
ghost use Rattle.std.specs.Prelude.{◌≡◌, ◌++◌, IfSome, OnErr, OnOk};
ghost use Rattle.cosem_axdr.specs.Canonical.{Extends};
ghost use Rattle.xdlms_services.specs.Grammar.{IsRequest};
ghost use Rattle.xdlms_services.specs.Requests.{front_bytes, argument_bytes, selection_bytes, invocation_bytes, next_bytes, request_bytes, IsWritable, IsWritableValue, IsWritableParameter, CanAsk};

use crate::reading::{ACTION_REQUEST, GET_REQUEST, NEXT, NORMAL, SET_REQUEST};
use crate::request::Request;
use cosem_axdr::writing::write_data;
use cosem_data::memory::Memory;
use meter_theory::refs::Descriptor;
use object_model::argument::Argument;

/// The flag of a selection or a parameter that isn't there.
pub const ABSENT: u8 = 0;

/// The flag of a selection or a parameter that follows.
pub const PRESENT: u8 = 1;

/// Puts the APDU of a request behind what is there: Get-Request-Normal, Get-Request-Next, Set-Request-Normal or
/// Action-Request-Normal of IEC 62056-5-3, each value in its shortest encoding.
///
/// Each value that the request brings along can be written, and is nested at most 16 deep; a SET has
/// no selection.
///
/// # Errors
/// `Memory` where memory is refused; the vector then has what it had before.
#[tactic(auto, using(crate::proofs::Shortest::form_on_ok))]
pub fn write_request(request: &Request, out: &mut Vec<u8>) -> Result<(), Memory>
    requires { CanAsk request.now }
    // Of the forms of the request it is the shortest.
    ensures shortest { OnOk result (out.new.items ≡ out.old.items ++ request_bytes request.now) }
    ensures form { OnOk result (IsRequest request.now (request_bytes request.now)) }
    ensures err { OnErr result (out.new.items ≡ out.old.items) }
{
    let len = out.len();
    let written = put_request(request, out);
    if written.is_err() {
        out.truncate(len);
    }
    written
}

/// The shortest bytes of a request behind what is there. What was put before a refusal stays.
fn put_request(request: &Request, out: &mut Vec<u8>) -> Result<(), Memory>
    requires { IsWritable request.now }
    ensures ok { OnOk result (out.new.items ≡ out.old.items ++ request_bytes request.now) }
    ensures err { OnErr result (Extends out.old.items out.new.items) }
{
    match request {
        Request::Get {
            invoke,
            attribute,
            selection,
        } => {
            put_front(GET_REQUEST, *invoke, attribute, out)?;
            put_selection(selection, out)
        }
        Request::Set {
            invoke,
            attribute,
            value,
            ..
        } => {
            put_front(SET_REQUEST, *invoke, attribute, out)?;
            out.push(ABSENT)?;
            put_value(value, out)
        }
        Request::Act {
            invoke,
            method,
            argument,
        } => {
            put_front(ACTION_REQUEST, *invoke, method, out)?;
            put_parameter(argument, out)
        }
        Request::Next { invoke, block } => put_next(*invoke, *block, out),
    }
}

/// The request for the block after the one with this number.
fn put_next(invoke: u8, block: u32, out: &mut Vec<u8>) -> Result<(), Memory>
    ensures ok { OnOk result (out.new.items ≡ out.old.items ++ next_bytes invoke block) }
    ensures err { OnErr result (Extends out.old.items out.new.items) }
{
    out.extend_from_slice(&[GET_REQUEST, NEXT, invoke])?;
    out.extend_from_slice(&block.to_be_bytes())?;
    Ok(())
}

/// Puts what stands in front of a request, up to the index of what it names: Get-Request-Normal, Set-Request-Normal or
/// Action-Request-Normal of IEC 62056-5-3, by the tag of its service.
///
/// # Errors
/// `Memory` where memory is refused; the vector then begins with what it had before.
pub fn put_front(
    service: u8,
    invoke: u8,
    named: &Descriptor,
    out: &mut Vec<u8>,
) -> Result<(), Memory>
    ensures ok { OnOk result (out.new.items ≡ out.old.items ++ front_bytes service invoke named.now) }
    ensures err { OnErr result (Extends out.old.items out.new.items) }
{
    out.extend_from_slice(&[service, NORMAL, invoke])?;
    out.extend_from_slice(&named.class_id.to_be_bytes())?;
    out.extend_from_slice(&named.name.0)?;
    out.extend_from_slice(&named.index.to_be_bytes())?;
    Ok(())
}

/// The flag of a selection, and the selector and its parameter where there is one.
fn put_selection(selection: &Option<(u8, Argument)>, out: &mut Vec<u8>) -> Result<(), Memory>
    requires { IfSome selection.now (λ s. IsWritableValue s.1) }
    ensures ok { OnOk result (out.new.items ≡ out.old.items ++ selection_bytes selection.now) }
    ensures err { OnErr result (Extends out.old.items out.new.items) }
{
    match selection {
        Some((selector, parameter)) => {
            out.extend_from_slice(&[PRESENT, *selector])?;
            put_value(parameter, out)
        }
        None => {
            out.push(ABSENT)?;
            Ok(())
        }
    }
}

/// The flag of a parameter, and the parameter where there is one.
fn put_parameter(argument: &Argument, out: &mut Vec<u8>) -> Result<(), Memory>
    requires { IsWritableParameter argument.now }
    ensures ok { OnOk result (out.new.items ≡ out.old.items ++ invocation_bytes argument.now) }
    ensures err { OnErr result (Extends out.old.items out.new.items) }
{
    match argument {
        Argument::Absent => {
            out.push(ABSENT)?;
            Ok(())
        }
        _ => {
            out.push(PRESENT)?;
            put_value(argument, out)
        }
    }
}

/// The shortest encoding of a value.
fn put_value(argument: &Argument, out: &mut Vec<u8>) -> Result<(), Memory>
    requires { IsWritableValue argument.now }
    ensures ok { OnOk result (out.new.items ≡ out.old.items ++ argument_bytes argument.now) }
    ensures err { OnErr result (out.new.items ≡ out.old.items) }
{
    match argument {
        Argument::Value(value) => write_data(value, out),
        _ => unreachable!(),
    }
}
