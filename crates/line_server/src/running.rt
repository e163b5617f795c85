//! A meter that answers lines.
ghost use Rattle.std.specs.Prelude.{◌≡◌, ◌+◌, ◌++◌, ◌⊎◌, List, ℕ, Some, Ok, Err, IfOk, OnErr, OnOk, length};
ghost use Rattle.meter_theory.specs.Plan.{start};
ghost use Rattle.meter_theory.specs.States.{IsState};
ghost use Rattle.meter_theory.specs.Steps.{next};
ghost use Rattle.meter_core.specs.StepView.{step_of};
ghost use Rattle.line_server.specs.Doing.{AnswersAsk, TakesLine};
ghost use Rattle.line_server.specs.Lines.{with_last};
ghost use Rattle.line_server.specs.declared.reason.Reason.{Reason as Why};
ghost use Rattle.line_server.specs.Running.{RunsLines, IsFirstBad, IsAllReadable, IsOther};
ghost use Rattle.line_server.specs.LineMeter.{TellsUnreadable};
ghost use Rattle.line_server.specs.Spelling.{reply_text};

use crate::answering::{Ask, answer};
use crate::driving::take_steps;
use crate::fault::LineFault;
use crate::line::{Line, read_line};
use crate::lines::{AnswersLines, answer_lines};
use crate::reason::Reason;
use crate::text::{put_reply, put_unreadable};
use cosem_data::memory::Memory;
use meter_core::step::Step;
use object_model::meter::Meter;
use object_model::plan::Plan;
use std::alloc::Global;
use std::io::{Read, Write};
use std::marker::Model;
use xdlms_services::asker::Asker;
use xdlms_services::solo::Solo;

/// A meter of a plan alone, which answers lines. Contracts see the plan and the meter.
#[derive(Drop)]
pub struct LineMeter<'a> {
    asker: Solo<'a>,
    room: Room,
}

/// Room for an APDU and its reply, which each line uses again.
#[derive(Drop)]
struct Room {
    apdu: Vec<u8>,
    reply: Vec<u8>,
}

impl<'a> Model for LineMeter<'a> {
    ghost use Rattle.xdlms_services.specs.Solo.{Alone, alone_code};

    ghost Value = { Alone };

    ghost coded = { alone_code };

    ghost view = { λ s. s.asker };
}

impl<'a> LineMeter<'a> {
    /// A meter that begins at the start of the plan.
    pub fn start(alloc: Global, plan: &'a Plan) -> Result<Self, Memory>
        ensures plan { IfOk result (λ x. x.plan ≡ plan.now) }
        ensures meter { IfOk result (λ x. x.meter ≡ start plan.now) }
    {
        plan.known();
        let asker = Solo::new(plan, plan.start(alloc)?);
        let room = Room {
            apdu: Vec::new(alloc),
            reply: Vec::new(alloc),
        };
        Ok(LineMeter { asker, room })
    }

    /// Its plan.
    pub fn plan(&self) -> &'a Plan
        ensures { result.now ≡ self.now.plan }
    {
        self.asker.plan()
    }

    /// The meter as it is now.
    pub fn meter(&self) -> &Meter
        ensures { result.now ≡ self.now.meter }
    {
        self.asker.meter()
    }

    /// Takes a step of the meter itself, of which nothing is written. The only error is that memory was refused, and then nothing
    /// changes.
    pub fn take(&mut self, alloc: Global, step: Step) -> Result<(), Memory>
        ensures ok { OnOk result (self.new
            ≡ record { plan = self.old.plan; meter = next self.old.plan self.old.meter (step_of step) }) }
        ensures err { OnErr result (self.new ≡ self.old) }
    {
        self.asker.ask(alloc, step)?;
        Ok(())
    }

    /// The meter has a value of the declared kind in each cell of its plan.
    pub fn known(&self)
        ensures { IsState self.now.plan self.now.meter }
    {
        self.asker.known();
    }
}

impl<'a> AnswersLines for LineMeter<'a> {
    ghost use Rattle.line_server.specs.LineMeter.{AnswersLine, StopsAtLine};

    ghost answers = { AnswersLine };

    ghost stops = { StopsAtLine };

    fn answer_line(
        &mut self,
        alloc: Global,
        number: u64,
        line: &[u8],
        waiting: &mut Vec<u8>,
    ) -> Result<(), LineFault> {
        let plan = self.asker.plan();
        take_line(
            alloc,
            plan,
            &mut self.asker,
            &mut self.room,
            number,
            line,
            waiting,
        )
    }
}

/// Has a line answered by an asker of the plan, and puts its text behind those that wait.
fn take_line<A: Asker>(
    alloc: Global,
    plan: &Plan,
    asker: &mut A,
    room: &mut Room,
    number: u64,
    line: &[u8],
    waiting: &mut Vec<u8>,
) -> Result<(), LineFault>
    ensures { TakesLine A.answers plan.now asker.old asker.new number line.now waiting.old.items waiting.new.items result }
{
    let Ok(said) = read_line(alloc, plan, line, &mut room.apdu) else {
        return Err(LineFault::Memory);
    };
    match said {
        Line::Ask(ask) => {
            let Ok(()) = answer_ask(alloc, asker, &ask, &mut room.reply, waiting) else {
                return Err(LineFault::Memory);
            };
            Ok(())
        }
        Line::Unreadable(why) => Err(unreadable(alloc, number, why, waiting)),
        own => {
            let Ok(()) = take_steps(alloc, plan, asker, own) else {
                return Err(LineFault::Memory);
            };
            Ok(())
        }
    }
}

/// Ends a run at an unreadable line: its number is told behind the texts that wait, and the fault says why. Where memory is refused
/// for that, this is the fault, and the texts are as they were.
pub fn unreadable(alloc: Global, number: u64, why: Reason, waiting: &mut Vec<u8>) -> LineFault
    ensures { TellsUnreadable number why waiting.old.items waiting.new.items result }
{
    match put_unreadable(alloc, number, waiting) {
        Ok(()) => LineFault::Line(number, why),
        Err(_) => LineFault::Memory,
    }
}

/// Has the APDU of a client answered into the buffer for replies, and puts its line behind the texts that wait.
fn answer_ask<A: Asker>(
    alloc: Global,
    asker: &mut A,
    ask: &Ask<'_>,
    reply: &mut Vec<u8>,
    waiting: &mut Vec<u8>,
) -> Result<(), Memory>
    ensures told { OnOk result ((apdu : List ℕ)
        × AnswersAsk A.answers asker.old ask.now apdu asker.new
        × (waiting.new.items ≡ waiting.old.items ++ reply_text apdu)) }
    ensures err { OnErr result (waiting.new.items ≡ waiting.old.items) }
{
    reply.clear();
    answer(alloc, asker, ask, reply)?;
    put_reply(reply, waiting)
}

/// Answers the lines that the reader gives, by a meter of the plan that begins at its start, and says
/// how many lines there were.
///
/// A line ends with a newline, and the last one may end with the input. `CLIENT HEX` is an APDU of the
/// client with this name; what the meter replies is written as upper case hex in a line of its own.
/// `in NAME HEX` is a value that comes from outside to the object with this name, `eval NAME` the
/// evaluation of a register monitor. `at MOMENT` sets the clock of a meter without a clock object, `tick N` lets
/// so many seconds pass over a configuration of version 2; whenever the clock has moved each object is offered its
/// step, in plan order. Nothing is written of these. An empty line and one that begins with `#` are skipped. Any
/// other line is told by `line N: unreadable`, and ends the run with `LineFault::Line`, which says why.
///
/// One line and one reply are in memory at a time, and the texts that wait to be written: they are written before each
/// read, at the end, and where they are more than 64 KiB. Where a fault ends the run, the lines before it are answered and
/// nothing else was written, but after `Write` what was written breaks off in the text of one line.
pub fn run_lines<R: Read, W: Write>(
    alloc: Global,
    plan: &Plan,
    reader: &mut R,
    writer: &mut W,
) -> Result<u64, LineFault>
    // What was read and written.
    ensures runs { RunsLines plan.now
        (record { unread = R.remaining reader.old; written = W.contents writer.old })
        (record { unread = R.remaining reader.new; written = W.contents writer.new }) result }
    // Where all lines of the input are readable, all are answered.
    ensures readable { (input : List ℕ) (lines : List (List ℕ)) (last : List ℕ) → R.remaining reader.old ≡ Some input →
        IsAllReadable plan.now input lines last → (result ≡ Ok (length (with_last lines last))) ⊎ IsOther result }
    // Where an unreadable line stands first, that is the end.
    ensures unreadable { (input : List ℕ) (lines : List (List ℕ)) (line rest : List ℕ) (why : Why) →
        R.remaining reader.old ≡ Some input →
        IsFirstBad plan.now input lines line rest why → (result ≡ Err (LineFault.Line (length lines + 1) why)) ⊎ IsOther result }
{
    let Ok(mut meter) = LineMeter::start(alloc, plan) else {
        return Err(LineFault::Memory);
    };
    answer_lines(alloc, &mut meter, reader, writer)
}
