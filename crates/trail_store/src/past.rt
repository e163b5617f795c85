//! The steps of a trail's file, handed out again.
ghost use Rattle.std.specs.Prelude.{◌≡◌, ◌∷◌, ◌++◌, ℕ, [], true, Err, IfOk, IfSome, List, Ok, OnOk, is_some, map, nat_le};
ghost use Rattle.std.specs.List.{flat_map};
ghost use Rattle.meter_core.specs.StepView.{step_of};
ghost use Rattle.meter_theory.specs.Plan as plans;
ghost use Rattle.trail_file.specs.Text.{entry_of};
ghost use Rattle.line_server.specs.Answering.{steps_of};
ghost use Rattle.line_server.specs.Running.{tasks_in};
ghost use Rattle.step_keeping.specs.Keeping.{ticks};
ghost use Rattle.trail_lines.specs.Reading.{says};
ghost use Rattle.trail_store.specs.Past as spec;
ghost use Rattle.trail_store.specs.Past.{AreKeptLines, IsFirstUnkept, is_kept_line};
ghost use Rattle.trail_store.specs.Stored.{steps_in};

use cosem_data::memory::Memory;
use line_server::line::Line;
use meter_core::step::Step;
use object_model::plan::Plan;
use std::alloc::Global;
use step_keeping::recalling::Recalls;
use thiserror::Error;
use trail_file::entry::Entry;
use trail_lines::line::{TrailLine, read_trail_line};
use xdlms_services::asking::Asking;

/// What the line of an entry says: seconds that pass, or one other step.
#[derive(Drop)]
pub enum Said {
    /// A second, and so many more.
    Seconds { more: u32 },
    /// A step.
    One(Step),
}

/// Why the steps of a trail's file can't be handed out (own profile).
#[derive(Clone, Copy, Debug, PartialEq, Eq, Drop, Error)]
pub enum PastFault {
    /// Memory was refused.
    #[error("out of memory")]
    Memory,
    /// The line of the entry with this number behind the head, from 1, says no step that is kept.
    #[error("entry {0} says no step")]
    Unreadable(u64),
}

impl From<Memory> for PastFault {
    ghost use Rattle.std.specs.Prelude.{◌≡◌};
    ghost use Rattle.trail_store.specs.declared.past.PastFault.TheVariants.{Memory};

    ghost from_gives = { λ _ fault. fault ≡ Memory };

    fn from(_memory: Memory) -> PastFault {
        PastFault::Memory
    }
}

/// The steps of a trail's file that are still to be handed out.
#[derive(Drop)]
pub struct Past {
    /// How many seconds come first.
    seconds: u32,
    /// What comes behind them, the last first.
    said: Vec<Said>,
}

impl Recalls for Past {
    ghost use Rattle.trail_store.specs.Past.{all_left};

    ghost left = { λ p. all_left p.seconds p.said.items };

    fn recall(&mut self) -> Option<Step> {
        if 0 < self.seconds {
            self.seconds -= 1;
            return Some(Step::Tick);
        }
        match self.said.pop()? {
            Said::Seconds { more } => {
                self.seconds = more;
                Some(Step::Tick)
            }
            Said::One(step) => Some(step),
        }
    }
}

impl Past {
    /// The steps that the entries of a trail's file say, in their order.
    ///
    /// # Errors
    /// `Unreadable` of the first entry whose line says no step that is kept, or memory was refused.
    pub fn of(alloc: Global, plan: &Plan, entries: &[Entry]) -> Result<Past, PastFault>
        ensures steps { IfOk result (λ past. spec.all_left past.seconds past.said.items
            ≡ steps_in plan.now (map entry_of entries.now)) }
        ensures each { OnOk result (AreKeptLines plan.now (map entry_of entries.now)) }
        ensures unreadable { (n : ℕ) → result ≡ Err (PastFault.Unreadable n)
            → IsFirstUnkept plan.now (map entry_of entries.now) n }
    {
        let mut said = Vec::new(alloc);
        let mut room = Vec::new(alloc);
        for (index, entry) in entries.iter().enumerate() {
            if !put_said(alloc, plan, entry.line.as_slice(), &mut room, &mut said)? {
                return Err(PastFault::Unreadable(index as u64 + 1));
            }
        }
        said.reverse();
        Ok(Past { seconds: 0, said })
    }
}

/// Puts what a line says behind what lines before it said, and says whether it says steps that are kept. An APDU is decoded into the
/// room, whatever it holds.
fn put_said(
    alloc: Global,
    plan: &Plan,
    line: &[u8],
    room: &mut Vec<u8>,
    said: &mut Vec<Said>,
) -> Result<bool, Memory>
    ensures kept { IfOk result (λ kept. kept ≡ is_kept_line plan.now line.now) }
    ensures said { result ≡ Ok true
        → flat_map spec.steps_of_said said.new.items ≡ flat_map spec.steps_of_said said.old.items ++ says plan.now line.now }
{
    let Some(one) = said_by(alloc, plan, line, room)? else {
        return Ok(false);
    };
    said.push(one)?;
    Ok(true)
}

/// What a line of a trail says, where it says steps that are kept. An APDU is decoded into the room, whatever it holds.
fn said_by(
    alloc: Global,
    plan: &Plan,
    line: &[u8],
    room: &mut Vec<u8>,
) -> Result<Option<Said>, Memory>
    ensures kept { IfOk result (λ found. is_some found ≡ is_kept_line plan.now line.now) }
    ensures steps { IfOk result (λ found. IfSome found (λ said. spec.steps_of_said said ≡ says plan.now line.now)) }
{
    match read_trail_line(alloc, plan, line, room)? {
        TrailLine::Said(line) => Ok(step_in(alloc, line)?.map(Said::One)),
        TrailLine::SetClock(moment) => Ok(Some(Said::One(Step::ClockAt { moment }))),
        TrailLine::MoveClock(seconds) => Ok(seconds_of(seconds)),
        TrailLine::CaptureIfDue(profile) => Ok(Some(Said::One(Step::CaptureAt { profile }))),
        TrailLine::RunIfDue(schedule) => Ok(Some(Said::One(Step::ScheduleAt { schedule }))),
    }
}

/// So many seconds, where they are any.
fn seconds_of(seconds: u32) -> Option<Said>
    ensures kept { is_some result ≡ nat_le 1 seconds }
    ensures steps { IfSome result (λ said. spec.steps_of_said said ≡ ticks seconds) }
{
    let more = seconds.checked_sub(1)?;
    Some(Said::Seconds { more })
}

/// The one step that a step line says, where that is one that is kept.
fn step_in(alloc: Global, line: Line<'_>) -> Result<Option<Step>, Memory>
    ensures kept { IfOk result (λ found. is_some found ≡ spec.is_kept_step_line line.entry) }
    ensures steps { IfOk result (λ found. IfSome found
        (λ step. (P : plans.Plan) → step_of step ∷ [] ≡ steps_of (tasks_in P line.entry))) }
{
    Ok(match line {
        Line::Input { cell, value } => Some(Step::Input { cell, value }),
        Line::Evaluate(monitor) => Some(Step::Evaluate { monitor }),
        Line::Ask(ask) => match ask.asking(alloc)? {
            Some(asking) => changing(asking),
            None => None,
        },
        Line::Skipped | Line::At(_) | Line::Ticks(_) | Line::Unreadable(_) => None,
    })
}

/// The step that a client asks for, unless it is a GET, which changes nothing.
fn changing(asking: Asking) -> Option<Step>
    ensures kept { is_some result ≡ spec.is_kept_step (step_of asking.step) }
    ensures step { IfSome result (λ step. step_of step ≡ step_of asking.step) }
{
    match asking.step {
        Step::Get { .. } => None,
        step => Some(step),
    }
}
