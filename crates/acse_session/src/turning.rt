//! One APDU of a session: its answer, and what is kept behind it.
ghost use Rattle.std.specs.Prelude.{◌≡◌, ◌≤◌, ◌<◌, true, false, Option, Some, None, Ok, IfOk, OnErr, IfSome, length};
ghost use Rattle.std.specs.Result.{result_ok};
ghost use Rattle.cosem_data.specs.View.{tree};
ghost use Rattle.cosem_axdr.specs.Canonical.{HasLengths};
ghost use Rattle.meter_theory.specs.Replies as answers;
ghost use Rattle.meter_core.specs.StepView.{reply_of};
ghost use Rattle.xdlms_services.specs.Blocks.{start, behind, block_bytes, next_block};
ghost use Rattle.xdlms_services.specs.BlockFaults.{fault_block_bytes};
ghost use Rattle.xdlms_services.specs.Replies.{reply_bytes};
ghost use Rattle.acse_association.specs.Answers.{aare_bytes, rlre_bytes};
ghost use Rattle.acse_association.specs.Judging.{associated};
ghost use Rattle.acse_session.specs.Answering.{not_allowed, unknown, reply_answer, value_answer, next_answer};
ghost use Rattle.xdlms_services.specs.Conversation.{Exchange, Leads, asked_list, answered, CanSend};
ghost use Rattle.acse_session.specs.Keeping.{IsKept};
ghost use Rattle.acse_session.specs.Stepping.{Steps, StepsInside, begun, advanced};
ghost use Rattle.acse_session.specs.Turns.{is_within, if_left, long_value};

use acse_association::{Association, associate, is_aarq, is_rlrq, write_aare, write_rlre};
use cosem_axdr::limits::is_encoded_within;
use cosem_data::data::Data;
use cosem_data::memory::Memory;
use meter_core::reply::Reply;
use meter_theory::access::AccessCode;
use object_model::plan::Plan;
use std::alloc::Global;
use xdlms_services::asker::Asker;
use xdlms_services::asking::{Asking, Exception, write_exception};
use xdlms_services::blocks::{BlockFault, LongGet, fault_block};
use xdlms_services::reading::{ApduFault, read_apdu};
use xdlms_services::request::Request;
use xdlms_services::writing::{Service, write_code, write_value};

/// The answer to an APDU, and what is kept behind it.
#[derive(Drop)]
pub(crate) struct After {
    pub(crate) answer: Vec<u8>,
    pub(crate) association: Option<Association>,
    pub(crate) transfer: Option<LongGet>,
}

/// Answers an APDU, by what is kept of those before it.
pub(crate) fn turn<A: Asker>(
    alloc: Global,
    plan: &Plan,
    association: Option<Association>,
    transfer: Option<LongGet>,
    source: u16,
    apdu: &[u8],
    asker: &mut A,
) -> Result<After, Memory>
    requires kept { IsKept association transfer }
    ensures ok { IfOk result (λ after. (asked : Option Exchange)
        × Leads A.answers asker.old (asked_list asked) asker.new
        × Steps plan.now association transfer
        (record { source = source; apdu = apdu.now; asked = asked; answer = after.answer.items })
        after.association after.transfer) }
    ensures err { OnErr result ((asked : Option Exchange)
        × Leads A.answers asker.old (asked_list asked) asker.new) }
    ensures fits { IfOk result (λ after. (length after.answer.items ≤ 1024)
        × IsKept after.association after.transfer) }
    ensures plan { A.plan_of asker.new ≡ A.plan_of asker.old }
{
    if is_aarq(apdu) {
        return opening(alloc, plan, source, apdu);
    }
    let Some(a) = association else {
        return outside(alloc, None, None);
    };
    if a.source != source {
        return outside(alloc, association, transfer);
    }
    if is_rlrq(apdu) {
        return release(alloc);
    }
    inside(alloc, a, transfer, apdu, asker)
}

/// An AARQ is judged. What was kept is gone.
fn opening(alloc: Global, plan: &Plan, source: u16, apdu: &[u8]) -> Result<After, Memory>
    ensures association { IfOk result (λ after. after.association
        ≡ result_ok (associated plan.now source apdu.now)) }
    ensures transfer { IfOk result (λ after. after.transfer ≡ None) }
    ensures answer { IfOk result (λ after. after.answer.items
        ≡ aare_bytes (associated plan.now source apdu.now)) }
    ensures fits { IfOk result (λ after. (length after.answer.items ≤ 1024)
        × IsKept after.association after.transfer) }
{
    let judged = associate(plan, source, apdu);
    let mut answer = Vec::new(alloc);
    write_aare(&judged, &mut answer)?;
    Ok(After {
        answer,
        association: judged.ok(),
        transfer: None,
    })
}

/// An APDU that is no AARQ comes from outside an association. What was kept stays.
fn outside(
    alloc: Global,
    association: Option<Association>,
    transfer: Option<LongGet>,
) -> Result<After, Memory>
    requires { IsKept association transfer }
    ensures association { IfOk result (λ after. after.association ≡ association) }
    ensures transfer { IfOk result (λ after. after.transfer ≡ transfer) }
    ensures answer { IfOk result (λ after. after.answer.items ≡ not_allowed) }
    ensures fits { IfOk result (λ after. (length after.answer.items ≤ 1024)
        × IsKept after.association after.transfer) }
{
    let mut answer = Vec::new(alloc);
    write_exception(Exception::NotAllowed, &mut answer)?;
    Ok(After {
        answer,
        association,
        transfer,
    })
}

/// The association is released.
fn release(alloc: Global) -> Result<After, Memory>
    ensures association { IfOk result (λ after. after.association ≡ None) }
    ensures transfer { IfOk result (λ after. after.transfer ≡ None) }
    ensures answer { IfOk result (λ after. after.answer.items ≡ rlre_bytes) }
    ensures fits { IfOk result (λ after. (length after.answer.items ≤ 1024)
        × IsKept after.association after.transfer) }
{
    let mut answer = Vec::new(alloc);
    write_rlre(&mut answer)?;
    Ok(After {
        answer,
        association: None,
        transfer: None,
    })
}

/// Answers an APDU of the associated wPort that is no RLRQ.
fn inside<A: Asker>(
    alloc: Global,
    a: Association,
    transfer: Option<LongGet>,
    apdu: &[u8],
    asker: &mut A,
) -> Result<After, Memory>
    requires kept { IsKept (Some a) transfer }
    ensures ok { IfOk result (λ after. (asked : Option Exchange)
        × Leads A.answers asker.old (asked_list asked) asker.new
        × StepsInside a transfer
        (record { source = a.source; apdu = apdu.now; asked = asked; answer = after.answer.items })
        after.transfer) }
    ensures association { IfOk result (λ after. after.association ≡ Some a) }
    ensures err { OnErr result ((asked : Option Exchange)
        × Leads A.answers asker.old (asked_list asked) asker.new) }
    ensures fits { IfOk result (λ after. (length after.answer.items ≤ 1024)
        × IsKept after.association after.transfer) }
    ensures plan { A.plan_of asker.new ≡ A.plan_of asker.old }
{
    match read_apdu(alloc, apdu) {
        Ok(Request::Next { invoke, block }) => next_block(alloc, a, transfer, invoke, block),
        Ok(request) => {
            let Some(asking) = request.into_asking(a.client) else {
                unreachable!()
            };
            let Asking {
                service,
                invoke,
                step,
            } = asking;
            let reply = asker.ask(alloc, step);
            replied(alloc, a, service, invoke, reply)
        }
        Err(ApduFault::Unreadable) => unreadable(alloc, a),
        Err(ApduFault::Memory) => Err(Memory),
    }
}

/// What is no request is answered by an exception, and ends a transfer.
fn unreadable(alloc: Global, a: Association) -> Result<After, Memory>
    requires kept { IsKept (Some a) None }
    ensures association { IfOk result (λ after. after.association ≡ Some a) }
    ensures transfer { IfOk result (λ after. after.transfer ≡ None) }
    ensures answer { IfOk result (λ after. after.answer.items ≡ unknown) }
    ensures fits { IfOk result (λ after. (length after.answer.items ≤ 1024)
        × IsKept after.association after.transfer) }
{
    let mut answer = Vec::new(alloc);
    write_exception(Exception::Unknown, &mut answer)?;
    Ok(After {
        answer,
        association: Some(a),
        transfer: None,
    })
}

/// What the meter replied is sent.
fn replied(
    alloc: Global,
    a: Association,
    service: Service,
    invoke: u8,
    reply: Result<Reply, Memory>,
) -> Result<After, Memory>
    requires kept { IsKept (Some a) None }
    requires sendable { IfOk reply (λ r. CanSend service (reply_of r)) }
    ensures association { IfOk result (λ after. after.association ≡ Some a) }
    ensures transfer { IfOk result (λ after. after.transfer ≡ begun a (long_value a (answered reply))) }
    ensures answer { IfOk result (λ after. after.answer.items
        ≡ reply_answer a service invoke (answered reply)) }
    ensures fits { IfOk result (λ after. (length after.answer.items ≤ 1024)
        × IsKept after.association after.transfer) }
{
    match reply {
        Ok(Reply::Value(value)) => value_answer(alloc, a, invoke, &value),
        Ok(Reply::Code(code)) => code_answer(alloc, a, service, invoke, code),
        Ok(Reply::Quiet) => unreachable!(),
        Err(_) => code_answer(alloc, a, service, invoke, AccessCode::TemporaryFailure),
    }
}

/// A result is sent.
fn code_answer(
    alloc: Global,
    a: Association,
    service: Service,
    invoke: u8,
    code: AccessCode,
) -> Result<After, Memory>
    requires kept { IsKept (Some a) None }
    ensures association { IfOk result (λ after. after.association ≡ Some a) }
    ensures transfer { IfOk result (λ after. after.transfer ≡ None) }
    ensures answer { IfOk result (λ after. after.answer.items
        ≡ reply_bytes service invoke (answers.Code code)) }
    ensures fits { IfOk result (λ after. (length after.answer.items ≤ 1024)
        × IsKept after.association after.transfer) }
{
    let mut answer = Vec::new(alloc);
    write_code(invoke, code, service, &mut answer)?;
    Ok(After {
        answer,
        association: Some(a),
        transfer: None,
    })
}

/// The room that a reply with a value begins with, in which most keep.
const SHORT_LENGTH: usize = 64;

/// How many bytes stand in front of the value in the reply to a GET (IEC 62056-5-3, Get-Response-Normal).
const FRONT_LENGTH: usize = 4;

/// The value that a GET found is sent: in one APDU where the client takes that, else in blocks where it takes these.
fn value_answer(alloc: Global, a: Association, invoke: u8, value: &Data) -> Result<After, Memory>
    requires kept { IsKept (Some a) None }
    requires sendable { CanSend Service.Get (answers.Value (tree value.now)) }
    ensures association { IfOk result (λ after. after.association ≡ Some a) }
    ensures transfer { IfOk result (λ after. after.transfer
        ≡ begun a (long_value a (Ok (answers.Value (tree value.now))))) }
    ensures answer { IfOk result (λ after. after.answer.items ≡ value_answer a invoke (tree value.now)) }
    ensures fits { IfOk result (λ after. (length after.answer.items ≤ 1024)
        × IsKept after.association after.transfer) }
{
    if is_short(a.limit, value) {
        whole_value(alloc, a, invoke, value)
    } else if a.takes_blocks() {
        first_block(alloc, a, invoke, value)
    } else {
        code_answer(alloc, a, Service::Get, invoke, AccessCode::OtherReason)
    }
}

/// Whether the reply with this value keeps within the limit.
fn is_short(limit: u16, value: &Data) -> bool
    requires { 16 ≤ limit }
    ensures { result ≡ is_within limit (tree value.now) }
{
    is_encoded_within(value, usize::from(limit) - FRONT_LENGTH)
}

/// The value is sent in one APDU.
fn whole_value(alloc: Global, a: Association, invoke: u8, value: &Data) -> Result<After, Memory>
    requires kept { IsKept (Some a) None }
    requires lengths { HasLengths (tree value.now) }
    requires short { is_within a.limit (tree value.now) ≡ true }
    ensures association { IfOk result (λ after. after.association ≡ Some a) }
    ensures transfer { IfOk result (λ after. after.transfer ≡ None) }
    ensures answer { IfOk result (λ after. after.answer.items
        ≡ reply_bytes Service.Get invoke (answers.Value (tree value.now))) }
    ensures fits { IfOk result (λ after. (length after.answer.items ≤ 1024)
        × IsKept after.association after.transfer) }
{
    let mut answer = Vec::with_capacity(alloc, SHORT_LENGTH)?;
    write_value(invoke, value, &mut answer)?;
    Ok(After {
        answer,
        association: Some(a),
        transfer: None,
    })
}

/// The first block of the value is sent.
fn first_block(alloc: Global, a: Association, invoke: u8, value: &Data) -> Result<After, Memory>
    requires kept { IsKept (Some a) None }
    requires sendable { CanSend Service.Get (answers.Value (tree value.now)) }
    requires long { is_within a.limit (tree value.now) ≡ false }
    ensures association { IfOk result (λ after. after.association ≡ Some a) }
    ensures transfer { IfOk result (λ after. after.transfer
        ≡ if_left (behind (start (tree value.now) a.limit))) }
    ensures answer { IfOk result (λ after. after.answer.items
        ≡ block_bytes invoke (next_block (start (tree value.now) a.limit))) }
    ensures fits { IfOk result (λ after. (length after.answer.items ≤ 1024)
        × IsKept after.association after.transfer) }
{
    let long = LongGet::new(alloc, value, a.limit)?;
    send_block(alloc, a, long, invoke)
}

/// Answers a request for the block behind the one that it names.
fn next_block(
    alloc: Global,
    a: Association,
    transfer: Option<LongGet>,
    invoke: u8,
    block: u32,
) -> Result<After, Memory>
    requires kept { IsKept (Some a) transfer }
    ensures association { IfOk result (λ after. after.association ≡ Some a) }
    ensures transfer { IfOk result (λ after. after.transfer ≡ advanced block transfer) }
    ensures answer { IfOk result (λ after. after.answer.items ≡ next_answer transfer invoke block) }
    ensures fits { IfOk result (λ after. (length after.answer.items ≤ 1024)
        × IsKept after.association after.transfer) }
{
    let Some(long) = transfer else {
        return no_block(alloc, a, invoke, block, BlockFault::NoLongGet);
    };
    if block == long.number() {
        send_block(alloc, a, long, invoke)
    } else {
        no_block(alloc, a, invoke, block, BlockFault::NumberInvalid)
    }
}

/// The next block is sent.
fn send_block(alloc: Global, a: Association, mut long: LongGet, invoke: u8) -> Result<After, Memory>
    requires kept { IsKept (Some a) (Some long) }
    ensures association { IfOk result (λ after. after.association ≡ Some a) }
    ensures transfer { IfOk result (λ after. after.transfer ≡ if_left (behind long)) }
    ensures answer { IfOk result (λ after. after.answer.items ≡ block_bytes invoke (next_block long)) }
    ensures fits { IfOk result (λ after. (length after.answer.items ≤ 1024)
        × IsKept after.association after.transfer) }
{
    let answer = long.block(alloc, invoke)?;
    Ok(After {
        answer,
        association: Some(a),
        transfer: what_is_left(long),
    })
}

/// The transfer goes on where a block is left.
fn what_is_left(long: LongGet) -> Option<LongGet>
    ensures { result ≡ if_left long }
{
    if long.left() { Some(long) } else { None }
}

/// No block is sent, and the transfer ends.
fn no_block(
    alloc: Global,
    a: Association,
    invoke: u8,
    number: u32,
    fault: BlockFault,
) -> Result<After, Memory>
    requires kept { IsKept (Some a) None }
    ensures association { IfOk result (λ after. after.association ≡ Some a) }
    ensures transfer { IfOk result (λ after. after.transfer ≡ None) }
    ensures answer { IfOk result (λ after. after.answer.items ≡ fault_block_bytes invoke number fault) }
    ensures fits { IfOk result (λ after. (length after.answer.items ≤ 1024)
        × IsKept after.association after.transfer) }
{
    let answer = fault_block(alloc, invoke, number, fault)?;
    Ok(After {
        answer,
        association: Some(a),
        transfer: None,
    })
}
