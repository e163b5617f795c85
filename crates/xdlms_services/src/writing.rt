ghost use Rattle.std.specs.Prelude.{◌≡◌, ◌++◌, OnErr, OnOk};
ghost use Rattle.meter_theory.specs.Replies as answers;
ghost use Rattle.meter_core.specs.StepView.{shown_of};
ghost use Rattle.xdlms_services.specs.Replies.{CanReply, CanWrite, IsReply, IsResponse, canonical_reply, reply_bytes};
ghost use Rattle.cosem_axdr.specs.Canonical.{HasLengths};
ghost use Rattle.cosem_data.specs.View.{tree};

use class_profile::entries::Entries;
use cosem_axdr::writing::write_data;
use cosem_data::data::Data;
use cosem_data::memory::Memory;
use meter_core::reply::Reply;
use meter_core::shown::Shown;
use meter_theory::access::AccessCode;

/// The services of IEC 62056-5-3 that the meter replies to.
#[derive(Clone, Copy, Debug, PartialEq, Eq)]
pub enum Service {
    /// GET: reads an attribute.
    Get,
    /// SET: writes an attribute.
    Set,
    /// ACTION: invokes a method.
    Act,
}

/// The tags of the replies.
pub(crate) const GET_RESPONSE: u8 = 0xC4;

const SET_RESPONSE: u8 = 0xC5;

const ACTION_RESPONSE: u8 = 0xC7;

/// The form for one attribute or method, in one APDU.
const NORMAL: u8 = 1;

/// The choice of Get-Data-Result: a value, or a Data-Access-Result.
const VALUE: u8 = 0;

const RESULT: u8 = 1;

/// What stands for an optional part that isn't there.
const ABSENT: u8 = 0;

/// Puts the APDU of a reply behind what is there, with the invoke byte of its request: Get-Response-Normal,
/// Set-Response-Normal or Action-Response-Normal of IEC 62056-5-3.
///
/// A value goes into the reply to a GET alone, in its shortest encoding; a result goes into each of
/// them; no APDU tells the quiet reply.
///
/// # Errors
/// `Memory` where memory is refused; the vector then has what it had before.
pub fn write_reply(
    invoke: u8,
    reply: &Reply,
    service: Service,
    out: &mut Vec<u8>,
) -> Result<(), Memory>
    requires { CanWrite service reply.now }
    // Of the forms of the reply it is the shortest.
    ensures shortest { OnOk result (out.new.items
        ≡ out.old.items ++ canonical_reply service invoke reply.now) }
    ensures form { OnOk result (IsReply service invoke reply.now
        (canonical_reply service invoke reply.now)) }
    ensures err { OnErr result (out.new.items ≡ out.old.items) }
{
    match (service, reply) {
        (Service::Get, Reply::Value(value)) => write_value(invoke, value, out),
        (_, Reply::Code(code)) => write_code(invoke, *code, service, out),
        _ => unreachable!(),
    }
}

/// Puts the APDU of the answer to a GET behind what is there: Get-Response-Normal of IEC 62056-5-3, a value in its shortest
/// encoding, which is written from where it stands.
///
/// # Errors
/// `Memory` where memory is refused; the vector then has what it had before.
pub fn write_shown(invoke: u8, shown: &Shown<'_>, out: &mut Vec<u8>) -> Result<(), Memory>
    requires { CanReply Service.Get (shown_of shown.now) }
    ensures shortest { OnOk result (out.new.items
        ≡ out.old.items ++ reply_bytes Service.Get invoke (shown_of shown.now)) }
    ensures form { OnOk result (IsResponse Service.Get invoke
        (shown_of shown.now) (reply_bytes Service.Get invoke (shown_of shown.now))) }
    ensures err { OnErr result (out.new.items ≡ out.old.items) }
{
    match shown {
        Shown::Value(value) => write_value(invoke, value, out),
        Shown::Made(value) => write_value(invoke, value, out),
        Shown::Entries(entries) => write_entries(invoke, entries, out),
        Shown::Code(code) => write_code(invoke, *code, Service::Get, out),
    }
}

/// Puts the APDU of the reply to a GET that found entries of a profile behind what is there.
#[tactic(auto, using(cosem_axdr::proofs::Prefixes::canonical_is_encoding))]
fn write_entries(invoke: u8, entries: &Entries<'_>, out: &mut Vec<u8>) -> Result<(), Memory>
    requires { HasLengths entries.now }
    ensures shortest { OnOk result (out.new.items
        ≡ out.old.items ++ reply_bytes Service.Get invoke (answers.Value entries.now)) }
    ensures form { OnOk result (IsResponse Service.Get invoke
        (answers.Value entries.now) (reply_bytes Service.Get invoke (answers.Value entries.now))) }
    ensures err { OnErr result (out.new.items ≡ out.old.items) }
{
    let len = out.len();
    out.extend_from_slice(&[GET_RESPONSE, NORMAL, invoke, VALUE])?;
    let put = entries.write(out);
    if put.is_err() {
        out.truncate(len);
    }
    put
}

/// Puts the APDU of the reply to a GET that found the value behind what is there: Get-Response-Normal of
/// IEC 62056-5-3, the value in its shortest encoding.
///
/// # Errors
/// `Memory` where memory is refused; the vector then has what it had before.
#[tactic(auto, using(cosem_axdr::proofs::Prefixes::canonical_is_encoding))]
pub fn write_value(invoke: u8, value: &Data, out: &mut Vec<u8>) -> Result<(), Memory>
    requires { HasLengths (tree value.now) }
    ensures shortest { OnOk result (out.new.items
        ≡ out.old.items ++ canonical_reply Service.Get invoke (Reply.Value value.now)) }
    ensures form { OnOk result (IsReply Service.Get invoke
        (Reply.Value value.now) (canonical_reply Service.Get invoke (Reply.Value value.now))) }
    ensures err { OnErr result (out.new.items ≡ out.old.items) }
{
    let len = out.len();
    out.extend_from_slice(&[GET_RESPONSE, NORMAL, invoke, VALUE])?;
    let written = write_data(value, out);
    if written.is_err() {
        out.truncate(len);
    }
    written
}

/// Puts the APDU of the reply that tells a result alone behind what is there: Get-Response-Normal, Set-Response-Normal or
/// Action-Response-Normal of IEC 62056-5-3.
///
/// # Errors
/// `Memory` where memory is refused; the vector then has what it had before.
pub fn write_code(
    invoke: u8,
    code: AccessCode,
    service: Service,
    out: &mut Vec<u8>,
) -> Result<(), Memory>
    ensures shortest { OnOk result (out.new.items
        ≡ out.old.items ++ canonical_reply service invoke (Reply.Code code)) }
    ensures form { IsReply service invoke
        (Reply.Code code) (canonical_reply service invoke (Reply.Code code)) }
    ensures err { OnErr result (out.new.items ≡ out.old.items) }
{
    let code = code.code();
    match service {
        Service::Get => out.extend_from_slice(&[GET_RESPONSE, NORMAL, invoke, RESULT, code])?,
        Service::Set => out.extend_from_slice(&[SET_RESPONSE, NORMAL, invoke, code])?,
        Service::Act => {
            out.extend_from_slice(&[ACTION_RESPONSE, NORMAL, invoke, code, ABSENT])?;
        }
    }
    Ok(())
}
