//! What a client could notice of the steps that a line asks for (own profile).
ghost use Rattle.std.specs.Prelude.{◌≡◌, ◌++◌, ◌∷◌, IfOk, OnOk, option_map, option_to_list};
ghost use Rattle.line_server.specs.Answering.{steps_of};
ghost use Rattle.line_server.specs.Running.{tasks_in};
ghost use Rattle.meter_core.specs.Moments.{driven, tick_steps};
ghost use Rattle.meter_core.specs.Moments as moments;
ghost use Rattle.meter_core.specs.StepView.{step_of};
ghost use Rattle.line_notices.specs.Seen as spec;
ghost use Rattle.line_notices.specs.Seen.{first_seen, seen_of};

use cosem_data::memory::Memory;
use flow_checker::check::Checked;
use flow_checker::notice::{Notice, first_notice};
use line_server::line::Line;
use meter_core::moments::offered;
use meter_core::step::Step;
use object_model::object::Object;
use std::alloc::Global;
use step_words::steps::push_step;
use value_text::cell::CellText;

/// A step that a client could notice, and what it could notice first of it.
#[derive(Drop)]
pub(crate) struct Seen {
    step: Step,
    notice: Notice,
}

/// A client that looks on, by its place in the plan that was accepted.
#[derive(Clone, Copy)]
pub(crate) struct Sight<'a> {
    pub(crate) checked: &'a Checked,
    pub(crate) client: u8,
}

/// The first step that a line asks for which the client could notice, if it could notice one. Each second of a line has the same
/// steps, and so they are looked at once. The only error is that memory was refused.
pub(crate) fn line_seen(
    alloc: Global,
    sight: Sight<'_>,
    line: Line<'_>,
) -> Result<Option<Seen>, Memory>
    ensures { IfOk result (λ seen. option_map seen_of seen ≡ first_seen sight.entry.checked.now
        sight.entry.client (steps_of (tasks_in sight.entry.checked.now.plan line.entry))) }
{
    match line {
        Line::Skipped | Line::Unreadable(_) => Ok(None),
        Line::Ask(ask) => match ask.asking(alloc)? {
            Some(asking) => Ok(step_seen(sight, asking.step)),
            None => Ok(None),
        },
        Line::Input { cell, value } => Ok(step_seen(sight, Step::Input { cell, value })),
        Line::Evaluate(monitor) => Ok(step_seen(sight, Step::Evaluate { monitor })),
        Line::At(moment) => Ok(seen_behind(sight, Step::ClockAt { moment })),
        Line::Ticks(seconds) => Ok(seconds_seen(sight, seconds)),
    }
}

/// The first step that is seen of so many seconds.
fn seconds_seen(sight: Sight<'_>, seconds: u16) -> Option<Seen>
    ensures { option_map seen_of result ≡ first_seen sight.entry.checked.now sight.entry.client
        (tick_steps sight.entry.checked.now.plan seconds) }
{
    if seconds == 0 {
        return None;
    }
    seen_behind(sight, Step::Tick)
}

/// The first step that is seen of one that moves the clock, and of those that are then offered to the objects.
fn seen_behind(sight: Sight<'_>, step: Step) -> Option<Seen>
    ensures { option_map seen_of result ≡ first_seen sight.entry.checked.now sight.entry.client
        (step_of step ∷ driven sight.entry.checked.now.plan) }
{
    match step_seen(sight, step) {
        Some(seen) => Some(seen),
        None => driven_seen(sight),
    }
}

/// The first step that is seen of those that are offered to the objects when the clock has moved.
fn driven_seen(sight: Sight<'_>) -> Option<Seen>
    ensures { option_map seen_of result ≡ first_seen sight.entry.checked.now sight.entry.client
        (driven sight.entry.checked.now.plan) }
{
    for object in sight.checked.plan().objects() {
        if let Some(seen) = object_seen(sight, object) {
            return Some(seen);
        }
    }
    None
}

/// The step that is offered to an object when the clock has moved, if it is seen.
fn object_seen(sight: Sight<'_>, object: &Object) -> Option<Seen>
    ensures { option_map seen_of result ≡ first_seen sight.entry.checked.now sight.entry.client
        (option_to_list (moments.offered object.now)) }
{
    step_seen(sight, offered(object)?)
}

/// The step, if it is seen.
fn step_seen(sight: Sight<'_>, step: Step) -> Option<Seen>
    ensures { option_map seen_of result
        ≡ spec.seen_in sight.entry.checked.now sight.entry.client (step_of step) }
{
    let notice = first_notice(sight.checked, sight.client, &step)?;
    Some(Seen { step, notice })
}

/// The line that tells what is seen of a line with this number. The only error is that memory was refused.
pub(crate) fn seen_text(
    alloc: Global,
    number: u64,
    line: &[u8],
    seen: &Seen,
) -> Result<Vec<u8>, Memory>
    ensures { IfOk result (λ text. text.items ≡ spec.seen_text number line.now seen.now) }
{
    let mut text = Vec::new(alloc);
    text.extend_from_slice(format!(in alloc; "line {number}: seen: ")?.as_bytes())?;
    push_notice(alloc, seen.notice, &mut text)?;
    text.extend_from_slice(b" by ")?;
    push_words(alloc, line, &seen.step, &mut text)?;
    text.push(b'\n')?;
    Ok(text)
}

/// Puts the words of a notice behind a text.
fn push_notice(alloc: Global, notice: Notice, text: &mut Vec<u8>) -> Result<(), Memory>
    ensures { OnOk result (text.new.items ≡ text.old.items ++ spec.notice_words notice) }
{
    match notice {
        Notice::Own => text.extend_from_slice(b"its own step")?,
        Notice::InnerClock => text.extend_from_slice(b"the inner clock")?,
        Notice::Cell(cell) => {
            let cell = CellText(cell);
            text.extend_from_slice(format!(in alloc; "{cell}")?.as_bytes())?;
        }
    }
    Ok(())
}

/// Puts the words of a step of a line behind a text: those of the line, or where the line has more steps its own.
fn push_words(alloc: Global, line: &[u8], step: &Step, text: &mut Vec<u8>) -> Result<(), Memory>
    ensures { OnOk result (text.new.items
        ≡ text.old.items ++ spec.step_words line.now (step_of step.now)) }
{
    match step {
        Step::CaptureAt { profile } => {
            text.extend_from_slice(format!(in alloc; "capture {profile}")?.as_bytes())?;
        }
        Step::Evaluate { monitor } => {
            text.extend_from_slice(format!(in alloc; "eval {monitor}")?.as_bytes())?;
        }
        Step::ScheduleAt { schedule } => {
            text.extend_from_slice(format!(in alloc; "schedule {schedule}")?.as_bytes())?;
        }
        Step::Tick => text.extend_from_slice(b"tick")?,
        Step::ClockAt { .. } => text.extend_from_slice(b"clock")?,
        Step::Get { .. } | Step::Set { .. } | Step::Act { .. } | Step::Input { .. } => {
            push_step(alloc, line, text)?;
        }
    }
    Ok(())
}
