//! What a client could notice of a step of an accepted plan. Nothing here takes memory.
ghost use Rattle.std.specs.Prelude.{◌≡◌, ◌↔◌, ℕ, true, false, find, option_map};
ghost use Rattle.meter_core.specs.StepView.{argument_of, sets_clock, step_of};
ghost use Rattle.cosem_data.specs.View.{tree};
ghost use Rattle.meter_theory.specs.Times.{Moment};
ghost use Rattle.meter_theory.specs.Rights.{cell_of};
ghost use Rattle.meter_theory.specs.Labels.{labelling_of_policy};
ghost use Rattle.meter_theory.specs.Notice as theory;
ghost use Rattle.meter_theory.specs.Notice.{MayNotice, may_put};
ghost use Rattle.meter_theory.specs.Safety.{HasCells, IsQuiet};
ghost use Rattle.meter_theory.specs.States.{IsState};
ghost use Rattle.meter_theory.specs.Steps as steps;
ghost use Rattle.flow_checker.specs.Notices.{learns, notice_of};

use crate::check::Checked;
use crate::learned::first_learned;
use crate::looking::Looking;
use cosem_data::cell::{CellRef, MethodRef};
use cosem_data::data::Data;
use cosem_data::name::LogicalName;
use meter_core::changing::is_change;
use meter_core::step::Step;
use meter_effects::own_steps::takes_input;
use meter_effects::promises::steps_are_noticed;
use meter_effects::walk::{each_of_method, each_of_monitor, each_of_schedule};
use meter_theory::refs::Descriptor;
use object_model::argument::Argument;
use object_model::cells::{Changed, changed_by_write, clock_time, seen};
use object_model::part::Part;

/// What a client could notice of a step (own profile).
#[derive(Clone, Copy, Debug, Drop, PartialEq, Eq)]
pub enum Notice {
    /// The step is its own, and is answered.
    Own,
    /// The inner clock is put, which everybody may learn.
    InnerClock,
    /// The cell may be put, and the client may learn it by the policy.
    Cell(CellRef),
}

/// Whether a step is quiet for a client under the policy of an accepted plan: it isn't the client's, and in no state changes a
/// cell that the client may learn. It is told so unless the step is the client's, or its code or kind lets it run and some cell
/// that it or its scripts can put, guards and values left aside, may be learned by the client (own profile).
pub fn quiet(checked: &Checked, client: u8, step: &Step) -> bool
    ensures quiet { result ≡ true → IsQuiet (HasCells checked.now.plan) checked.now.plan
        (labelling_of_policy checked.now.plan checked.now.policy) client (step_of step.now) }
    ensures quiet_of_kinds { result ≡ true → IsQuiet (IsState checked.now.plan) checked.now.plan
        (labelling_of_policy checked.now.plan checked.now.policy) client (step_of step.now) }
    ensures seen { result ≡ false ↔ MayNotice checked.now.plan
        (labelling_of_policy checked.now.plan checked.now.policy) client (step_of step.now) }
{
    steps_are_noticed();
    first_notice(checked, client, step).is_none()
}

/// The first that a client could notice of a step under the policy of an accepted plan, or None of a step that is quiet for it.
pub fn first_notice(checked: &Checked, client: u8, step: &Step) -> Option<Notice>
    ensures { option_map notice_of result ≡ theory.first_notice checked.now.plan
        (labelling_of_policy checked.now.plan checked.now.policy) client (step_of step.now) }
{
    if step.client() == Some(client) {
        return Some(Notice::Own);
    }
    match step {
        Step::Tick => ticked(checked, client),
        Step::ClockAt { .. } => told_moment(checked),
        _ => first_cell(checked, client, step).map(Notice::Cell),
    }
}

/// Of a second that goes by: everybody may learn the inner clock, and of a clock of the plan the policy says it.
fn ticked(checked: &Checked, client: u8) -> Option<Notice>
    ensures { option_map notice_of result ≡ option_map theory.Changed
        (find (learns checked.now client) (may_put checked.now.plan steps.Tick)) }
{
    match checked.plan().clock() {
        Some(clock) => first_learned(checked, client, &[clock_time(clock)]).map(Notice::Cell),
        None => Some(Notice::InnerClock),
    }
}

/// Of a moment that is told to the meter: it goes to the inner clock, and nowhere where the plan has a clock.
fn told_moment(checked: &Checked) -> Option<Notice>
    ensures { (client : ℕ) (moment : Moment) → option_map notice_of result
        ≡ option_map theory.Changed
        (find (learns checked.now client) (may_put checked.now.plan (steps.ClockAt moment))) }
{
    match checked.plan().clock() {
        Some(_) => None,
        None => Some(Notice::InnerClock),
    }
}

/// The first cell that any other step may put and the client may learn.
fn first_cell(checked: &Checked, client: u8, step: &Step) -> Option<CellRef>
    ensures { sets_clock step.now ≡ false →
        result ≡ find (learns checked.now client) (may_put checked.now.plan (step_of step.now)) }
{
    let plan = checked.plan();
    if !is_change(plan, step) {
        return None;
    }
    match step {
        Step::Get { .. } | Step::Tick | Step::ClockAt { .. } => None,
        Step::Set {
            attribute,
            value,
            ..
        } => first_by_set(checked, client, attribute, value),
        Step::Act {
            method,
            argument,
            ..
        } => first_by_method(checked, client, &method.method(), argument),
        Step::Input { cell, value } => first_by_input(checked, client, cell, value),
        Step::CaptureAt { profile } => first_by_capture(checked, client, *profile),
        Step::Evaluate { monitor } => first_by_evaluation(checked, client, *monitor),
        Step::ScheduleAt { schedule } => first_by_schedule(checked, client, schedule),
    }
}

/// The first cell that a SET that is granted puts and the client may learn.
fn first_by_set(
    checked: &Checked,
    client: u8,
    attribute: &Descriptor,
    value: &Argument,
) -> Option<CellRef>
    ensures { result ≡ find (learns checked.now client)
        (steps.changed (steps.given_value (cell_of attribute.now) (argument_of value.now))) }
{
    match value {
        Argument::Value(_) => first_by_write(checked, client, attribute.attribute()),
        Argument::Absent | Argument::Unreadable => None,
    }
}

/// The first cell that an input puts and the client may learn: none where it isn't taken.
fn first_by_input(checked: &Checked, client: u8, cell: &CellRef, value: &Data) -> Option<CellRef>
    ensures { result ≡ find (learns checked.now client)
        (may_put checked.now.plan (steps.Input cell.now (tree value.now))) }
{
    if !takes_input(checked.plan(), cell, value) {
        return None;
    }
    first_by_write(checked, client, *cell)
}

/// The first cell that a write of this cell changes and the client may learn.
fn first_by_write(checked: &Checked, client: u8, cell: CellRef) -> Option<CellRef>
    ensures { result ≡ find (learns checked.now client) (steps.changed_by_write cell) }
{
    first_learned(checked, client, changed_by_write(cell).as_slice())
}

/// The first cell that a call of the method may change and the client may learn.
fn first_by_method(
    checked: &Checked,
    client: u8,
    method: &MethodRef,
    argument: &Argument,
) -> Option<CellRef>
    ensures { result ≡ find (learns checked.now client) (steps.changed
        (steps.method_effects checked.now.plan method.now (argument_of argument.now))) }
{
    let mut looking = Looking::new(checked, client);
    let Ok(()) = each_of_method(checked.plan(), method, argument, &mut looking);
    looking.found()
}

/// The first cell that a capture of the profile puts and the client may learn, where the plan has such a profile.
fn first_by_capture(checked: &Checked, client: u8, profile: LogicalName) -> Option<CellRef>
    ensures { result
        ≡ find (learns checked.now client) (may_put checked.now.plan (steps.CaptureAt profile)) }
{
    match checked.plan().object_at(&profile)?.part() {
        Part::ProfileGeneric(_) => {
            first_learned(checked, client, Changed::entries(profile).as_slice())
        }
        _ => None,
    }
}

/// The first cell that an evaluation of the register monitor may put and the client may learn: of the scripts of its actions,
/// due or not, and then what it has seen.
fn first_by_evaluation(checked: &Checked, client: u8, monitor: LogicalName) -> Option<CellRef>
    ensures { result
        ≡ find (learns checked.now client) (may_put checked.now.plan (steps.Evaluate monitor)) }
{
    let Part::RegisterMonitor(part) = checked.plan().object_at(&monitor)?.part() else {
        return None;
    };
    let mut looking = Looking::new(checked, client);
    let Ok(()) = each_of_monitor(checked.plan(), &part.actions, &mut looking);
    match looking.found() {
        Some(cell) => Some(cell),
        None => first_learned(checked, client, &[seen(monitor)]),
    }
}

/// The first cell that a script puts which the schedule may run, and the client may learn.
fn first_by_schedule(checked: &Checked, client: u8, schedule: &LogicalName) -> Option<CellRef>
    ensures { result ≡ find (learns checked.now client)
        (may_put checked.now.plan (steps.ScheduleAt schedule.now)) }
{
    let Part::SingleActionSchedule(part) = checked.plan().object_at(schedule)?.part() else {
        return None;
    };
    let mut looking = Looking::new(checked, client);
    let Ok(()) = each_of_schedule(checked.plan(), part, &mut looking);
    looking.found()
}
