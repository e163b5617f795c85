//! The driver of a live meter: inputs, evaluations and moments come as lines (own profile).
ghost use Rattle.std.specs.Prelude.{◌≡◌};
ghost use Rattle.live_server.specs.Driving.{DrivesLine, IsRefused, IsTold, TellsOf, no_step_words, unread_text};

use crate::asking::PortAsker;
use crate::by_line::ByLine;
use crate::notices::{NoStep, Notices};
use cosem_data::memory::Memory;
use line_server::driving::{Left, take_own};
use line_server::fault::LineFault;
use line_server::line::read_line;
use line_server::lines::{AnswersLines, answer_lines};
use meter_core::reply::Reply;
use meter_core::step::Step;
use meter_live::fault::LiveFault;
use meter_live::names::Naming;
use meter_theory::access::AccessCode;
use std::alloc::Global;
use std::io::{self, Read, Write};
use std::marker::Model;
use std::sync::Wait;
use step_keeping::keeper::Keeps;
use xdlms_services::asker::Asker;

/// Takes the steps of a line at a seat, which is told of none of them. A step that is refused for memory is told, and passed
/// over. Contracts see what the share counts, what was told, and the number of the line.
#[derive(Drop)]
struct Taker<'b, N: Naming, W: Wait + Drop, R: Wait, F: Write + Drop, K: Keeps + Drop> {
    seat: PortAsker<'b, N, W, R, K>,
    notices: Notices<F>,
    number: u64,
}

impl<'b, N: Naming, W: Wait + Drop, R: Wait, F: Write + Drop, K: Keeps + Drop> Model
    for Taker<'b, N, W, R, F, K> {
    ghost use Rattle.std.specs.Coded.{codes};
    ghost use Rattle.meter_live.specs.Codes.{tally_code};
    ghost use Rattle.live_server.specs.Driving.{Hand};

    ghost Value = { Hand };

    ghost coded = { Prim.hlevel (codes, tally_code) };

    ghost view = { λ t. record { share = t.seat.share; told = F.contents t.notices.faults; number = t.number } };
}

impl<'b, N: Naming, W: Wait + Drop, R: Wait, F: Write + Drop, K: Keeps + Drop> Asker
    for Taker<'b, N, W, R, F, K> {
    ghost use Rattle.live_server.specs.Driving.{TakesOrTells};

    ghost plan_of = { λ _. N.accepted.plan };

    ghost answers = { TakesOrTells N.accepted.plan };

    // A step that is refused is told, and answered a temporary failure (IEC 62056-5-3, Data-Access-Result), which nobody reads.
    fn ask(&mut self, alloc: Global, step: Step) -> Result<Reply, Memory> {
        match self.seat.take(alloc, step) {
            Ok(reply) => Ok(reply),
            Err(fault) => {
                self.tell(fault);
                Ok(Reply::Code(AccessCode::TemporaryFailure))
            }
        }
    }
}

impl<'b, N: Naming, W: Wait + Drop, R: Wait, F: Write + Drop, K: Keeps + Drop> Taker<
    'b,
    N,
    W,
    R,
    F,
    K,
> {
    /// Tells of a step of the line that was refused.
    fn tell(&mut self, fault: LiveFault)
        ensures { IsRefused self.old self.new }
    {
        match fault {
            LiveFault::Memory | LiveFault::Full => {
                self.notices.tell_memory(self.number);
            }
            LiveFault::NotKept | LiveFault::InDoubt => {
                self.notices.tell_unkept(self.number);
            }
        }
    }
}

/// Takes the meter's own steps from lines, at a seat, which tells of them once behind each line. A line that is no such step,
/// and so the APDU of a client too, is told as `line N: unreadable: ` and the reason, each step that is refused for memory as
/// `line N: memory`, and one that can't be kept as `line N: not kept`; a line that is refused memory before its steps is told as
/// `line N: memory` too. Then the next goes on. What is told takes no memory.
#[derive(Drop)]
pub(crate) struct Driver<'b, N: Naming, W: Wait + Drop, R: Wait, F: Write + Drop, K: Keeps + Drop> {
    taker: Taker<'b, N, W, R, F, K>,
    apdu: Vec<u8>,
}

impl<'b, N: Naming, W: Wait + Drop, R: Wait, F: Write + Drop, K: Keeps + Drop> Driver<
    'b,
    N,
    W,
    R,
    F,
    K,
> {
    /// A driver at this seat, with what it tells by. No line is taken yet.
    pub fn new(alloc: Global, seat: PortAsker<'b, N, W, R, K>, notices: Notices<F>) -> Self
        ensures { result.taker
            ≡ record { share = seat.entry.share; told = F.contents notices.faults; number = 0 } }
    {
        let taker = Taker {
            seat,
            notices,
            number: 0,
        };
        Driver {
            taker,
            apdu: Vec::new(alloc),
        }
    }

    /// Its seat, once all lines were taken.
    pub(crate) fn into_seat(self) -> PortAsker<'b, N, W, R, K>
        ensures { result.share ≡ self.entry.taker.share }
    {
        let Driver { taker, apdu: _apdu } = self;
        let Taker {
            seat,
            notices: _notices,
            number: _,
        } = taker;
        seat
    }

    /// Takes the lines that are read, to their end or to a read that fails, which is told. A line that can't be kept for want of memory
    /// is told and passed over.
    pub(crate) fn take_lines<I: Read + Drop>(&mut self, alloc: Global, lines: &mut ByLine<I>) {
        let is_read = self.take_readable(alloc, lines);
        self.taker.notices.tell_end(is_read);
    }

    /// Takes the lines that are read, and says whether that was to their end.
    fn take_readable<I: Read + Drop>(&mut self, alloc: Global, lines: &mut ByLine<I>) -> bool {
        for _ in 0..u64::MAX {
            match answer_lines(alloc, self, lines, &mut io::sink()) {
                Ok(_) => return true,
                Err(LineFault::Memory) => {}
                Err(_) => return false,
            }
            self.lose_line();
            if lines.end_line().is_err() {
                return false;
            }
        }
        false
    }

    /// Tells of a line that couldn't be kept for want of memory.
    fn lose_line(&mut self) {
        let Taker {
            seat: _,
            notices,
            number,
        } = &mut self.taker;
        *number = number.wrapping_add(1);
        notices.tell_memory(*number);
    }
}

impl<'b, N: Naming, W: Wait + Drop, R: Wait, F: Write + Drop, K: Keeps + Drop> AnswersLines
    for Driver<'b, N, W, R, F, K> {
    ghost use Rattle.std.specs.Prelude.{◌≡◌, []};
    ghost use Rattle.live_server.specs.Driving.{DrivesLine, following};

    // Lines are counted by the driver, since some may be lost. Nothing waits to be written: what is told is written at once.
    ghost answers = { λ old _ line text new. (text ≡ [])
        × DrivesLine N.accepted.plan (following old.taker) line new.taker };

    // No line ends the driver.
    ghost stops = { λ _ _ _ _ _. ⊥ };

    fn answer_line(
        &mut self,
        alloc: Global,
        _number: u64,
        line: &[u8],
        _waiting: &mut Vec<u8>,
    ) -> Result<(), LineFault> {
        let Driver { taker, apdu } = self;
        taker.number = taker.number.wrapping_add(1);
        take_line(alloc, taker, apdu, line);
        taker.seat.tell();
        Ok(())
    }
}

/// Takes the steps of a line, or tells that it has none, or that memory was refused to read it. The room is for an APDU.
fn take_line<N: Naming, W: Wait + Drop, R: Wait, F: Write + Drop, K: Keeps + Drop>(
    alloc: Global,
    taker: &mut Taker<'_, N, W, R, F, K>,
    room: &mut Vec<u8>,
    line: &[u8],
)
    ensures { DrivesLine N.accepted.plan taker.old line.now taker.new }
{
    let plan = taker.seat.plan();
    let Ok(line) = read_line(alloc, plan, line, room) else {
        taker.notices.tell_memory(taker.number);
        return;
    };
    let Ok(left) = take_own(alloc, plan, taker, line) else {
        // No step is an error: the taker tells of those that are refused.
        unreachable!();
    };
    tell_left(taker, &left);
}

/// Tells that a line is no step of the meter itself, where it isn't, and why.
fn tell_left<N: Naming, W: Wait + Drop, R: Wait, F: Write + Drop, K: Keeps + Drop>(
    taker: &mut Taker<'_, N, W, R, F, K>,
    left: &Left<'_>,
)
    ensures { TellsOf left.now taker.old taker.new }
{
    match left {
        Left::Nothing => {}
        Left::Ask(_) => tell_no_step(taker, NoStep::Apdu),
        Left::Unreadable(why) => tell_no_step(taker, NoStep::Unreadable(*why)),
    }
}

/// Tells that the line is no step of the meter itself, and why.
fn tell_no_step<N: Naming, W: Wait + Drop, R: Wait, F: Write + Drop, K: Keeps + Drop>(
    taker: &mut Taker<'_, N, W, R, F, K>,
    why: NoStep,
)
    ensures { IsTold taker.old (unread_text taker.old.number (no_step_words why)) taker.new }
{
    taker.notices.tell_unreadable(taker.number, why);
}
