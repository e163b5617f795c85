//! What lines of a trail say.
ghost use Rattle.std.specs.Prelude.{◌≡◌, ◌<◌, IfOk, IfSome, length};
ghost use Rattle.line_server.specs.Spelling as spelling;
ghost use Rattle.trail_lines.specs.Reading as spec;
ghost use Rattle.trail_lines.specs.Reading.{trail_line_of};

use crate::limits::MOVE_SECONDS;
use crate::words::{CAPTURE_IF_DUE, MOVE_CLOCK, RUN_IF_DUE, SET_CLOCK};
use civil_moment::moment::Moment;
use cosem_data::memory::Memory;
use cosem_data::name::LogicalName;
use line_server::line::{Line, first_space, read_line};
use line_server::reason::Reason;
use object_model::plan::Plan;
use std::alloc::Global;
use value_text::name::name_in;
use value_words::numbers::number_in;

/// What a line of a trail says (own profile).
#[derive(Debug, Drop)]
pub enum TrailLine<'a> {
    /// What it says as a step line.
    Said(Line<'a>),
    /// `set-clock MOMENT`: the clock of a meter without a clock object is set, and no object is offered its step.
    SetClock(Moment),
    /// `move-clock N`: so many seconds pass, 1 to 86400, at which no object is offered its step.
    MoveClock(u32),
    /// `capture-if-due NAME`: the profile with this name looks at the clock, and captures if its period is over.
    CaptureIfDue(LogicalName),
    /// `run-if-due NAME`: the single action schedule with this name looks at the clock, and runs its script if the moment is
    /// one of its times.
    RunIfDue(LogicalName),
}

/// What a line of a trail says; the byte that ends it is no part of it. An APDU is decoded into the room, whatever it holds. The
/// only error is want of memory.
pub fn read_trail_line<'a>(
    alloc: Global,
    plan: &Plan,
    line: &[u8],
    room: &'a mut Vec<u8>,
) -> Result<TrailLine<'a>, Memory>
    ensures { IfOk result (λ x. x ≡ trail_line_of plan.now line.now) }
{
    match own_line(line) {
        Some(own) => Ok(own),
        None => Ok(TrailLine::Said(read_line(alloc, plan, line, room)?)),
    }
}

/// What a line says that begins with a word of the trail alone; None for any other, which says what it says as a step line.
pub fn own_line(line: &[u8]) -> Option<TrailLine<'static>>
    ensures { result ≡ spec.own_at line.now (spelling.first_space line.now) }
{
    own_at(line, first_space(line))
}

/// What a line says that has its first space at this place, and begins with a word of the trail alone.
fn own_at(line: &[u8], space: Option<usize>) -> Option<TrailLine<'static>>
    requires { IfSome space (λ k. k < length line.now) }
    ensures { result ≡ spec.own_at line.now space }
{
    let space = space?;
    own_by(&line[..space], &line[space + 1..])
}

/// What a line says by its first word and what follows the space, if the word is one of the trail alone.
fn own_by(word: &[u8], text: &[u8]) -> Option<TrailLine<'static>>
    ensures { result ≡ spec.own_by word.now text.now }
{
    if word == SET_CLOCK {
        Some(clock_of(Moment::read_bytes(text).ok()))
    } else if word == MOVE_CLOCK {
        Some(seconds_of(seconds_in(text)))
    } else if word == CAPTURE_IF_DUE {
        Some(capture_of(name_in(text)))
    } else if word == RUN_IF_DUE {
        Some(run_of(name_in(text)))
    } else {
        None
    }
}

/// What is said by the moment of a clock that is set, if it is there.
fn clock_of(moment: Option<Moment>) -> TrailLine<'static>
    ensures { result ≡ spec.clock_of moment }
{
    match moment {
        Some(moment) => TrailLine::SetClock(moment),
        None => unreadable(Reason::Moment),
    }
}

/// How many seconds a text moves the clock by, if it is a number from 1 to 86400.
fn seconds_in(text: &[u8]) -> Option<u32>
    ensures { result ≡ spec.seconds_in text.now }
{
    let seconds = number_in(u64::from(MOVE_SECONDS), text)?;
    if seconds >= 1 {
        Some(seconds as u32)
    } else {
        None
    }
}

/// What is said by a number of seconds, if it is there.
fn seconds_of(seconds: Option<u32>) -> TrailLine<'static>
    ensures { result ≡ spec.seconds_of seconds }
{
    match seconds {
        Some(seconds) => TrailLine::MoveClock(seconds),
        None => unreadable(Reason::Seconds),
    }
}

/// What is said by the name of a profile, if it is there.
fn capture_of(profile: Option<LogicalName>) -> TrailLine<'static>
    ensures { result ≡ spec.capture_of profile }
{
    match profile {
        Some(profile) => TrailLine::CaptureIfDue(profile),
        None => unreadable(Reason::Name),
    }
}

/// What is said by the name of a schedule, if it is there.
fn run_of(schedule: Option<LogicalName>) -> TrailLine<'static>
    ensures { result ≡ spec.run_of schedule }
{
    match schedule {
        Some(schedule) => TrailLine::RunIfDue(schedule),
        None => unreadable(Reason::Name),
    }
}

/// A line that is unreadable for this reason.
fn unreadable(why: Reason) -> TrailLine<'static>
    ensures { result ≡ TrailLine.Said (Line.Unreadable why) }
{
    TrailLine::Said(Line::Unreadable(why))
}
