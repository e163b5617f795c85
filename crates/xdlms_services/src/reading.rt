ghost use Rattle.std.specs.Prelude.{◌≡◌, ◌≤◌, length, IfOk, IsErrOf, Err, MatchResult};
ghost use Rattle.xdlms_services.specs.declared.request.Request.{Request as RequestValue};
ghost use Rattle.xdlms_services.specs.Reading.{Reads, front_at, argument_at, request_at, service_of, get_of, set_of, act_of, next_at};
ghost use Rattle.xdlms_services.specs.Grammar.{IsRequest, IsNoRequest};

use crate::request::Request;
use cosem_axdr::fault::ReadFault;
use cosem_axdr::reading::read_data;
use cosem_data::name::LogicalName;
use meter_theory::refs::Descriptor;
use object_model::argument::Argument;
use std::alloc::Global;

/// Why no request was read.
#[derive(Clone, Copy, Debug, PartialEq, Eq)]
pub enum ApduFault {
    /// The bytes are no form of a request.
    Unreadable,
    /// Memory was refused for a request.
    Memory,
}

/// What stands in front of each request.
#[derive(Clone, Copy)]
struct Front {
    service: u8,
    form: u8,
    invoke: u8,
    descriptor: Descriptor,
    flag: u8,
}

/// The tag of a GET (IEC 62056-5-3, Get-Request).
pub(crate) const GET_REQUEST: u8 = 0xC0;

/// The tag of a SET (IEC 62056-5-3, Set-Request).
pub const SET_REQUEST: u8 = 0xC1;

/// The tag of an ACTION (IEC 62056-5-3, Action-Request).
pub const ACTION_REQUEST: u8 = 0xC3;

/// The form for one attribute or method, in one APDU.
pub(crate) const NORMAL: u8 = 1;

/// The form for the next block of a value.
pub(crate) const NEXT: u8 = 2;

/// The request that an APDU is to its end: Get-Request-Normal, Get-Request-Next, Set-Request-Normal or
/// Action-Request-Normal of IEC 62056-5-3.
///
/// A value or a parameter that can't be read is no fault of the APDU. It is `Argument::Unreadable`,
/// and whoever answers the request says which result that has.
#[inline(always)]
pub fn read_apdu(alloc: Global, bytes: &[u8]) -> Result<Request, ApduFault>
    // What is read has this form.
    ensures found { IfOk result (λ request. IsRequest request bytes.now) }
    // A form of a request is read as that request, unless memory runs out.
    ensures only { (request : RequestValue) → IsRequest request bytes.now →
        MatchResult result (λ read. read ≡ request) (λ fault. fault ≡ ApduFault.Memory) }

    // Unreadable are the bytes that are no form of any request, and no others; memory runs out only for a request.
    ensures unreadable { IsErrOf result ApduFault.Unreadable → IsNoRequest bytes.now }
    ensures refused { IsNoRequest bytes.now → IsErrOf result ApduFault.Unreadable }

    // The same as a function of the bytes.
    ensures exact { Reads result (request_at bytes.now) }
{
    request_of(alloc, bytes)
}

/// How many bytes the request for the next block of a value has.
const NEXT_LENGTH: usize = 7;

/// The request that the bytes are, read from left to right.
#[tactic(auto, unfolding(crate::specs::Reading::request_at))]
#[inline(always)]
fn request_of(alloc: Global, bytes: &[u8]) -> Result<Request, ApduFault>
    ensures { Reads result (request_at bytes.now) }
{
    if bytes.len() == NEXT_LENGTH {
        return next_request(bytes);
    }
    if bytes.len() < 13 {
        return Err(ApduFault::Unreadable);
    }
    let front = front_of(bytes);
    let rest = &bytes[13..];
    if front.form == NORMAL {
        service_request(alloc, front, rest)
    } else {
        Err(ApduFault::Unreadable)
    }
}

/// The request for the next block of a value that seven bytes are.
fn next_request(bytes: &[u8]) -> Result<Request, ApduFault>
    requires { length bytes.now ≡ 7 }
    ensures { Reads result (next_at bytes.now) }
{
    if bytes[0] != GET_REQUEST || bytes[1] != NEXT {
        return Err(ApduFault::Unreadable);
    }
    Ok(Request::Next {
        invoke: bytes[2],
        block: u32::from_be_bytes([bytes[3], bytes[4], bytes[5], bytes[6]]),
    })
}

/// What stands in front of a request.
fn front_of(bytes: &[u8]) -> Front
    requires { 13 ≤ length bytes.now }
    ensures { result ≡ front_at bytes.now }
{
    Front {
        service: bytes[0],
        form: bytes[1],
        invoke: bytes[2],
        descriptor: Descriptor {
            class_id: u16::from_be_bytes([bytes[3], bytes[4]]),
            name: LogicalName([bytes[5], bytes[6], bytes[7], bytes[8], bytes[9], bytes[10]]),
            index: bytes[11].cast_signed(),
        },
        flag: bytes[12],
    }
}

/// The request of the service that the front names.
#[inline(always)]
fn service_request(alloc: Global, front: Front, rest: &[u8]) -> Result<Request, ApduFault>
    ensures { Reads result (service_of front rest.now) }
{
    match front.service {
        GET_REQUEST => get_request(alloc, front, rest),
        SET_REQUEST => set_request(alloc, front, rest),
        ACTION_REQUEST => act_request(alloc, front, rest),
        _ => Err(ApduFault::Unreadable),
    }
}

/// Get-Request-Normal behind its front.
#[inline(always)]
fn get_request(alloc: Global, front: Front, rest: &[u8]) -> Result<Request, ApduFault>
    ensures { Reads result (get_of front rest.now) }
{
    let selection = match (front.flag, rest) {
        (0, []) => None,
        (1, [selector, parameter @ ..]) => Some((*selector, argument_of(alloc, parameter)?)),
        _ => return Err(ApduFault::Unreadable),
    };
    Ok(Request::Get {
        invoke: front.invoke,
        attribute: front.descriptor,
        selection,
    })
}

/// Set-Request-Normal behind its front.
fn set_request(alloc: Global, front: Front, rest: &[u8]) -> Result<Request, ApduFault>
    ensures { Reads result (set_of front rest.now) }
{
    let value = match front.flag {
        0 => argument_of(alloc, rest)?,
        1 => Argument::Absent,
        _ => return Err(ApduFault::Unreadable),
    };
    Ok(Request::Set {
        invoke: front.invoke,
        attribute: front.descriptor,
        selected: front.flag == 1,
        value,
    })
}

/// Action-Request-Normal behind its front.
fn act_request(alloc: Global, front: Front, rest: &[u8]) -> Result<Request, ApduFault>
    ensures { Reads result (act_of front rest.now) }
{
    let argument = match (front.flag, rest) {
        (0, []) => Argument::Absent,
        (1, parameter) => argument_of(alloc, parameter)?,
        _ => return Err(ApduFault::Unreadable),
    };
    Ok(Request::Act {
        invoke: front.invoke,
        method: front.descriptor,
        argument,
    })
}

/// The value that the bytes are to their end.
fn argument_of(alloc: Global, bytes: &[u8]) -> Result<Argument, ApduFault>
    ensures ok { IfOk result (λ argument. argument ≡ argument_at bytes.now) }
    ensures err { result ≡ Err ApduFault.Unreadable → ⊥ }
{
    match read_data(alloc, bytes) {
        Ok((value, used)) if used == bytes.len() => Ok(Argument::Value(value)),
        Err(ReadFault::Memory) => Err(ApduFault::Memory),
        _ => Ok(Argument::Unreadable),
    }
}
