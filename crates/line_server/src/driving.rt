//! The steps that a meter takes by itself.
ghost use Rattle.std.specs.Prelude.{◌≡◌, is_some, option_to_list, IfOk, OnOk, OnErr};
ghost use Rattle.line_server.specs.Doing.{TakesAll, StopsBehind};
ghost use Rattle.line_server.specs.Driving.{left_of};
ghost use Rattle.line_server.specs.Running.{own_steps};
ghost use Rattle.meter_core.specs.Moments as spec;
ghost use Rattle.meter_core.specs.Moments.{driven, moment_steps, second_steps, tick_steps};

use crate::answering::Ask;
use crate::line::Line;
use crate::reason::Reason;
use civil_moment::moment::Moment;
use cosem_data::memory::Memory;
use meter_core::moments::offered;
use meter_core::step::Step;
use object_model::object::Object;
use object_model::plan::Plan;
use std::alloc::Global;
use xdlms_services::asker::Asker;

/// What a line says beside the steps of the meter itself that it brings.
#[derive(Debug, Drop)]
pub enum Left<'a> {
    /// Nothing.
    Nothing,
    /// A client sends an APDU.
    Ask(Ask<'a>),
    /// It is no line, and why.
    Unreadable(Reason),
}

/// The asker takes the steps of the meter itself that a line brings, and what else it says is handed out. The error is that
/// memory was refused for one of them, and then those before it were taken.
pub fn take_own<'a, A: Asker>(
    alloc: Global,
    plan: &Plan,
    asker: &mut A,
    line: Line<'a>,
) -> Result<Left<'a>, Memory>
    ensures left { IfOk result (λ left. left ≡ left_of line.entry) }
    ensures taken { OnOk result
        (TakesAll A.answers asker.old (own_steps plan.now line.entry) asker.new) }
    ensures err { OnErr result
        (StopsBehind A.answers asker.old (own_steps plan.now line.entry) asker.new) }
{
    match line {
        Line::Ask(ask) => Ok(Left::Ask(ask)),
        Line::Unreadable(why) => Ok(Left::Unreadable(why)),
        own => {
            take_steps(alloc, plan, asker, own)?;
            Ok(Left::Nothing)
        }
    }
}

/// The asker takes the steps of the meter itself that a line brings, if any. The error is that memory was refused for one of them,
/// and then those before it were taken.
// (never inline: what these steps need room for would else be cleared for each APDU)
#[inline(never)]
pub(crate) fn take_steps<A: Asker>(
    alloc: Global,
    plan: &Plan,
    asker: &mut A,
    line: Line<'_>,
) -> Result<(), Memory>
    ensures taken { OnOk result
        (TakesAll A.answers asker.old (own_steps plan.now line.entry) asker.new) }
    ensures err { OnErr result
        (StopsBehind A.answers asker.old (own_steps plan.now line.entry) asker.new) }
{
    match line {
        Line::Skipped | Line::Ask(_) | Line::Unreadable(_) => {}
        Line::Input { cell, value } => {
            asker.ask(alloc, Step::Input { cell, value })?;
        }
        Line::Evaluate(monitor) => {
            asker.ask(alloc, Step::Evaluate { monitor })?;
        }
        Line::At(moment) => take_moment(alloc, plan, asker, moment)?,
        Line::Ticks(seconds) => take_ticks(alloc, plan, asker, seconds)?,
    }
    Ok(())
}

/// The asker takes the steps of a moment: the clock is set to it, and each object is offered its step (own profile). The error is
/// that memory was refused for one of them, and then those before it were taken.
fn take_moment<A: Asker>(
    alloc: Global,
    plan: &Plan,
    asker: &mut A,
    moment: Moment,
) -> Result<(), Memory>
    ensures taken { OnOk result (TakesAll A.answers asker.old (moment_steps plan.now moment) asker.new) }
    ensures err { OnErr result
        (StopsBehind A.answers asker.old (moment_steps plan.now moment) asker.new) }
{
    asker.ask(alloc, Step::ClockAt { moment })?;
    take_driven(alloc, plan, asker)
}

/// The asker takes the steps of so many seconds, one after another: the clock ticks, and each object is offered its step (own
/// profile). The error is that memory was refused for one of them, and then those before it were taken.
fn take_ticks<A: Asker>(
    alloc: Global,
    plan: &Plan,
    asker: &mut A,
    seconds: u16,
) -> Result<(), Memory>
    ensures taken { OnOk result (TakesAll A.answers asker.old (tick_steps plan.now seconds) asker.new) }
    ensures err { OnErr result
        (StopsBehind A.answers asker.old (tick_steps plan.now seconds) asker.new) }
{
    for _second in 0..seconds {
        take_second(alloc, plan, asker)?;
    }
    Ok(())
}

/// The asker takes the steps of a second: the clock ticks, and each object is offered its step (own profile). The error is that
/// memory was refused for one of them, and then those before it were taken.
fn take_second<A: Asker>(alloc: Global, plan: &Plan, asker: &mut A) -> Result<(), Memory>
    ensures taken { OnOk result (TakesAll A.answers asker.old (second_steps plan.now) asker.new) }
    ensures err { OnErr result (StopsBehind A.answers asker.old (second_steps plan.now) asker.new) }
{
    asker.ask(alloc, Step::Tick)?;
    take_driven(alloc, plan, asker)
}

/// The asker takes the steps that are offered when the clock has moved, object by object in plan order. The error is that memory
/// was refused for one of them, and then those before it were taken.
fn take_driven<A: Asker>(alloc: Global, plan: &Plan, asker: &mut A) -> Result<(), Memory>
    ensures taken { OnOk result (TakesAll A.answers asker.old (driven plan.now) asker.new) }
    ensures err { OnErr result (StopsBehind A.answers asker.old (driven plan.now) asker.new) }
{
    for object in plan.objects() {
        // Most objects are offered none: for them no room is made for a step.
        if is_offered(object) {
            take_offered(alloc, asker, object)?;
        }
    }
    Ok(())
}

/// Whether a step is offered to an object when the clock has moved.
fn is_offered(object: &Object) -> bool
    ensures { result ≡ is_some (spec.offered object.now) }
{
    offered(object).is_some()
}

/// The asker takes the step that is offered to an object, if there is one.
fn take_offered<A: Asker>(alloc: Global, asker: &mut A, object: &Object) -> Result<(), Memory>
    ensures taken { OnOk result
        (TakesAll A.answers asker.old (option_to_list (spec.offered object.now)) asker.new) }
    ensures err { OnErr result
        (StopsBehind A.answers asker.old (option_to_list (spec.offered object.now)) asker.new) }
{
    if let Some(step) = offered(object) {
        asker.ask(alloc, step)?;
    }
    Ok(())
}
