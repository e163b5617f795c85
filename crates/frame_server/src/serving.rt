//! The frames of a connection are answered, one after another.
ghost use Rattle.std.specs.Prelude.{◌≡◌, ◌≢◌, Err};
ghost use Rattle.frame_server.specs.Serving.{Serves, AnswersOne, AnswersAll, AnswersWholeFrames, EndsAtWrongHeader, EndsInsideFrame, stop_of_fault};

use crate::fault::ServeFault;
use acse_session::session::Session;
use gates::{Gate, Go, Open};
use object_model::plan::Plan;
use std::alloc::Global;
use std::io::{Read, Write};
use tcp_wrapper::fault::WrapFault;
use tcp_wrapper::feeder::Feeder;
use tcp_wrapper::framing::{SERVER_PORT, frame};
use tcp_wrapper::message::Message;
use tcp_wrapper::place::FramePlace;
use whole_writes::write_whole;
use xdlms_services::asker::Asker;

/// How many bytes are read at once at most.
const PIECE: usize = 65536;

/// A seat, by its number, and the gate before which its frames wait.
#[derive(Drop)]
pub struct Seat<'g, G: Gate> {
    /// The number, from 0.
    pub number: usize,
    /// What stands before and behind each answer.
    pub gate: &'g G,
}

/// Answers the frames that the reader gives, one after another, and says how many there were.
///
/// Each frame's answer is written before the next frame is answered, and the answers to all frames of a piece before the next read. It
/// goes to the wPort that the frame came from. The steps that the frames ask are asked of the asker, a meter of the plan.
///
/// # Errors
/// Where a fault ends the connection, the answers to the frames before it were written, but after `Write` what was written breaks off
/// in an answer. After `Write` and `Memory` the step of the frame that was being answered may have been taken. No seat gives up.
pub fn serve<R: Read, W: Write, A: Asker>(
    alloc: Global,
    reader: &mut R,
    writer: &mut W,
    plan: &Plan,
    asker: &mut A,
) -> Result<u64, ServeFault>
    requires { A.plan_of asker.old ≡ plan.now }
    // What was read, written and asked.
    ensures serves { Serves A.answers plan.now
        (record { asker = asker.old; unread = R.remaining reader.old; written = W.contents writer.old })
        (record { asker = asker.new; unread = R.remaining reader.new; written = W.contents writer.new }) result }
    ensures wrong_header { EndsAtWrongHeader (R.remaining reader.old) result }
    ensures cut { EndsInsideFrame (R.remaining reader.old) result }
    ensures whole { AnswersWholeFrames (R.remaining reader.old) result }
    ensures goes_on { result ≢ Err ServeFault.GaveUp }
    ensures plan { A.plan_of asker.new ≡ plan.now }
{
    let seat = Seat {
        number: 0,
        gate: &Open,
    };
    serve_gated(alloc, reader, writer, plan, asker, &seat)
}

/// Answers the frames that the reader gives as `serve` does, at a seat. The gate stands before each frame that was read whole, and is
/// told once its answer was written.
///
/// # Errors
/// As `serve`; and `GaveUp` where the gate had the seat give up, before a frame that was then not answered.
pub fn serve_gated<R: Read, W: Write, A: Asker, G: Gate>(
    alloc: Global,
    reader: &mut R,
    writer: &mut W,
    plan: &Plan,
    asker: &mut A,
    seat: &Seat<'_, G>,
) -> Result<u64, ServeFault>
    requires { A.plan_of asker.old ≡ plan.now }
    // What was read, written and asked.
    ensures serves { Serves A.answers plan.now
        (record { asker = asker.old; unread = R.remaining reader.old; written = W.contents writer.old })
        (record { asker = asker.new; unread = R.remaining reader.new; written = W.contents writer.new }) result }
    ensures wrong_header { EndsAtWrongHeader (R.remaining reader.old) result }
    ensures cut { EndsInsideFrame (R.remaining reader.old) result }
    ensures whole { AnswersWholeFrames (R.remaining reader.old) result }
    ensures gave_up { result ≡ Err ServeFault.GaveUp → G.may_give_up seat.now.gate.now seat.now.number }
    ensures plan { A.plan_of asker.new ≡ plan.now }
{
    answer_input(alloc, reader, writer, plan, asker, seat)
}

/// As `serve_gated`, of which the other clauses follow.
fn answer_input<R: Read, W: Write, A: Asker, G: Gate>(
    alloc: Global,
    reader: &mut R,
    writer: &mut W,
    plan: &Plan,
    asker: &mut A,
    seat: &Seat<'_, G>,
) -> Result<u64, ServeFault>
    requires { A.plan_of asker.old ≡ plan.now }
    ensures serves { Serves A.answers plan.now
        (record { asker = asker.old; unread = R.remaining reader.old; written = W.contents writer.old })
        (record { asker = asker.new; unread = R.remaining reader.new; written = W.contents writer.new }) result }
    ensures gave_up { result ≡ Err ServeFault.GaveUp →
        G.may_give_up seat.now.gate.now seat.now.number }
    ensures plan { A.plan_of asker.new ≡ plan.now }
{
    let mut feeder = Feeder::new(alloc);
    let mut session = Session::new(plan);
    // Where the next frame begins that wasn't answered.
    let mut place = FramePlace::first();
    let mut total = 0u64;
    let mut buffer = [0u8; PIECE];
    for _ in 0..u64::MAX {
        let Ok(count) = reader.read(&mut buffer) else {
            return Err(ServeFault::Read);
        };
        if count == 0 {
            return if feeder.is_idle() {
                Ok(place.frame - 1)
            } else {
                Err(ServeFault::Cut(place))
            };
        }
        let Some(sum) = total.checked_add(count as u64) else {
            return Err(ServeFault::Read);
        };
        total = sum;
        let fed = feeder.feed(alloc, &buffer[..count]);
        answer_all(alloc, writer, &mut session, asker, &fed.frames, seat)?;
        place = place.behind(&fed.frames);
        if let Some(fault) = fed.fault {
            return Err(stop_of(fault, place));
        }
    }
    Err(ServeFault::Read)
}

/// How a connection ends where its stream is read no further than this place.
fn stop_of(fault: WrapFault, place: FramePlace) -> ServeFault
    ensures { result ≡ stop_of_fault fault place }
{
    match fault {
        WrapFault::Memory => ServeFault::Memory,
        other => ServeFault::Wrap(other, place),
    }
}

/// Answers what some frames brought.
fn answer_all<W: Write, A: Asker, G: Gate>(
    alloc: Global,
    writer: &mut W,
    session: &mut Session<'_>,
    asker: &mut A,
    messages: &[Message],
    seat: &Seat<'_, G>,
) -> Result<(), ServeFault>
    requires { A.plan_of asker.old ≡ session.old.plan }
    ensures gave_up { result ≡ Err ServeFault.GaveUp →
        G.may_give_up seat.now.gate.now seat.now.number }
    ensures all { AnswersAll A.answers asker.old asker.new (W.contents writer.old)
        (W.contents writer.new) session.old session.new messages.now result }
    ensures plan { A.plan_of asker.new ≡ A.plan_of asker.old }
    ensures same_plan { session.new.plan ≡ session.old.plan }
{
    for message in messages {
        answer_one(alloc, writer, session, asker, message, seat)?;
    }
    Ok(())
}

/// Answers what a frame brought, once the gate lets it.
fn answer_one<W: Write, A: Asker, G: Gate>(
    alloc: Global,
    writer: &mut W,
    session: &mut Session<'_>,
    asker: &mut A,
    message: &Message,
    seat: &Seat<'_, G>,
) -> Result<(), ServeFault>
    requires { A.plan_of asker.old ≡ session.old.plan }
    ensures gave_up { result ≡ Err ServeFault.GaveUp →
        G.may_give_up seat.now.gate.now seat.now.number }
    ensures one { AnswersOne A.answers asker.old asker.new
        (W.contents writer.old) (W.contents writer.new) session.old session.new message.now result }
    ensures plan { A.plan_of asker.new ≡ A.plan_of asker.old }
    ensures same_plan { session.new.plan ≡ session.old.plan }
{
    if seat.gate.before(seat.number) == Go::GaveUp {
        return Err(ServeFault::GaveUp);
    }
    let Ok(answer) = session.answer(alloc, message.source, message.apdu.as_slice(), asker) else {
        return Err(ServeFault::Memory);
    };
    let Ok(bytes) = frame(alloc, SERVER_PORT, message.source, &answer) else {
        return Err(ServeFault::Memory);
    };
    let Ok(()) = write_whole(writer, &bytes) else {
        return Err(ServeFault::Write);
    };
    seat.gate.after(seat.number);
    Ok(())
}
