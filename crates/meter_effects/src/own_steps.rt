//! What the steps do that a meter takes by itself: the effects of captures, evaluations and schedules, and which inputs are taken.
//! All guards are judged in the state before the step (own profile).
ghost use Rattle.std.specs.Prelude.{◌≡◌, ◌&&◌, [], flat_map, option_map, Some, IfOk, OnOk, IsOk};
ghost use Rattle.cosem_data.specs.View.{tree};
ghost use Rattle.meter_theory.specs.Plan as plans;
ghost use Rattle.meter_theory.specs.Plan.{rule_of};
ghost use Rattle.meter_theory.specs.State.{value};
ghost use Rattle.meter_theory.specs.States.{IsState};
ghost use Rattle.meter_theory.specs.Steps as theory;
ghost use Rattle.meter_theory.specs.Times.{is_capture_due, is_schedule_due};
ghost use Rattle.meter_theory.specs.Value.{count_of, elements};
ghost use Rattle.class_control.specs.PartView.{schedule_part_of, scripts_of_part};
ghost use Rattle.meter_effects.specs.Adds.{Adds, StandsFor};

use crate::scripts::{push_effect, push_script};
use civil_moment::moment::Moment;
use class_control::matching::is_due as is_schedule_due;
use class_control::monitor::Monitor;
use class_control::parts::SchedulePart;
use class_profile::due::is_due as is_capture_due;
use cosem_data::cell::CellRef;
use cosem_data::data::Data;
use cosem_data::memory::Memory;
use meter_theory::refs::ScriptRef;
use object_model::cells::{capture_period, execution_time, seen, thresholds};
use object_model::effect::Effect;
use object_model::held::Held;
use object_model::instance::Instance;
use object_model::meter::Meter;
use object_model::part::Part;
use object_model::plan::Plan;
use std::alloc::Global;

/// Whether the cell is the value of a fed object, and the value may stand there.
pub fn takes_input(plan: &Plan, cell: &CellRef, given: &Data) -> bool
    ensures { result ≡ (theory.is_fed plan.now cell.now
        && theory.meets_some (rule_of plan.now cell.now) (tree given.now)) }
{
    takes_input_at(&plan.instance(&cell.name), cell, given)
}

/// As `takes_input`, of what was looked up at the cell's name.
pub fn takes_input_at(instance: &Instance<'_>, cell: &CellRef, given: &Data) -> bool
    requires { cell.now.name ≡ instance.now.name }
    ensures { result ≡ (theory.is_fed instance.now.plan cell.now
        && theory.meets_some (rule_of instance.now.plan cell.now) (tree given.now)) }
{
    is_fed(instance, cell) && instance.rule(cell.class_id, cell.index, given).is_ok()
}

/// Whether the cell is the value of a fed object.
fn is_fed(instance: &Instance<'_>, cell: &CellRef) -> bool
    requires { cell.now.name ≡ instance.now.name }
    ensures { result ≡ theory.is_fed instance.now.plan cell.now }
{
    match instance.object() {
        Some(object) => {
            object.is_fed() && object.part().class_id() == cell.class_id && cell.index == 2
        }
        None => false,
    }
}

/// The capture of the profile here, if there is one, and it is due at the moment at which the clock stands. The only error is
/// that memory was refused, which without effects it isn't.
pub fn capture_effects(
    alloc: Global,
    instance: &Instance<'_>,
    meter: &Meter,
    moment: Moment,
) -> Result<Vec<Effect>, Memory>
    requires of_plan { IsState instance.now.plan meter.now }
    requires present { moment ≡ theory.present instance.now.plan meter.now }
    ensures ok { IfOk result (λ list. StandsFor instance.now.plan
        (theory.effects_of instance.now.plan meter.now (theory.CaptureAt instance.now.name))
        list.items) }
    ensures none { theory.effects_of instance.now.plan meter.now (theory.CaptureAt instance.now.name)
        ≡ [] → IsOk result }
{
    let mut effects = Vec::new(alloc);
    let Some(_) = instance.profile() else {
        return Ok(effects);
    };
    if !is_period_over(meter, instance, moment) {
        return Ok(effects);
    }
    push_effect(&mut effects, Effect::Capture(instance.name()))?;
    Ok(effects)
}

/// Whether the capture_period of a profile divides the seconds of the moment.
fn is_period_over(meter: &Meter, instance: &Instance<'_>, moment: Moment) -> bool
    requires { IsState instance.now.plan meter.now }
    ensures { result ≡ is_capture_due
        (count_of (value meter.now (plans.capture_period instance.now.name))) moment }
{
    match meter.held(instance, &capture_period(instance.name())) {
        Some(period) => is_capture_due(period.count(), moment),
        None => false,
    }
}

/// The effects of the script of the schedule here, if there is one, and the moment at which the clock stands is one of its
/// times. The only error is that memory was refused, which without effects it isn't.
pub fn schedule_effects(
    alloc: Global,
    instance: &Instance<'_>,
    meter: &Meter,
    moment: Moment,
) -> Result<Vec<Effect>, Memory>
    requires of_plan { IsState instance.now.plan meter.now }
    requires present { moment ≡ theory.present instance.now.plan meter.now }
    ensures ok { IfOk result (λ list. StandsFor instance.now.plan
        (theory.effects_of instance.now.plan meter.now (theory.ScheduleAt instance.now.name))
        list.items) }
    ensures none { theory.effects_of instance.now.plan meter.now (theory.ScheduleAt instance.now.name)
        ≡ [] → IsOk result }
{
    let mut effects = Vec::new(alloc);
    let Some(object) = instance.object() else {
        return Ok(effects);
    };
    let Part::SingleActionSchedule(part) = object.part() else {
        return Ok(effects);
    };
    if !is_time(meter, instance, moment) {
        return Ok(effects);
    }
    push_present(alloc, meter, instance, part, &mut effects)?;
    Ok(effects)
}

/// Adds the effects of the script that a schedule runs now.
fn push_present(
    alloc: Global,
    meter: &Meter,
    schedule: &Instance<'_>,
    part: &SchedulePart,
    effects: &mut Vec<Effect>,
) -> Result<(), Memory>
    requires of_plan { IsState schedule.now.plan meter.now }
    requires part { option_map (λ o. o.part) (plans.object_at schedule.now.plan schedule.now.name)
        ≡ Some (schedule_part_of part.now) }
    ensures ok { OnOk result (Adds schedule.now.plan (theory.effects_of_script schedule.now.plan
        (theory.script_now meter.now schedule.now.name (scripts_of_part part.now)))
        effects.old.items effects.new.items) }
    ensures none { theory.effects_of_script schedule.now.plan
        (theory.script_now meter.now schedule.now.name (scripts_of_part part.now)) ≡ [] → IsOk result }
{
    let present = meter.script_now(schedule, part);
    push_script(alloc, &present.table, present.script, effects)
}

/// Whether the moment is one of the execution_time of a schedule.
fn is_time(meter: &Meter, instance: &Instance<'_>, moment: Moment) -> bool
    requires { IsState instance.now.plan meter.now }
    ensures { result ≡ is_schedule_due
        (elements (value meter.now (plans.execution_time instance.now.name))) moment }
{
    match meter.held(instance, &execution_time(instance.name())) {
        Some(Held::Value(times)) => is_schedule_due(times, moment),
        _ => false,
    }
}

/// The effects of an evaluation of the register monitor here, if there is one: of the scripts that are due, in the order of
/// the thresholds, and then what it remembers. All thresholds are judged before any script runs, and what it remembers is
/// the monitored value before the step. The only error is that memory was refused, which without effects it isn't.
pub fn evaluation_effects(
    alloc: Global,
    instance: &Instance<'_>,
    meter: &Meter,
) -> Result<Vec<Effect>, Memory>
    requires { IsState instance.now.plan meter.now }
    ensures ok { IfOk result (λ list. StandsFor instance.now.plan
        (theory.effects_of instance.now.plan meter.now (theory.Evaluate instance.now.name))
        list.items) }
    ensures none { theory.effects_of instance.now.plan meter.now (theory.Evaluate instance.now.name)
        ≡ [] → IsOk result }
{
    let plan = instance.plan();
    plan.known();
    let name = instance.name();
    let mut effects = Vec::new(alloc);
    let Some(object) = instance.object() else {
        return Ok(effects);
    };
    let Part::RegisterMonitor(part) = object.part() else {
        return Ok(effects);
    };
    let Some(source) = instance.referred(0) else {
        unreachable!();
    };
    let now = meter.value_at(alloc, &source, &part.monitored_value)?;
    let monitor = Monitor {
        thresholds: meter.value_at(alloc, instance, &thresholds(name))?,
        seen: meter.value_at(alloc, instance, &seen(name))?,
    };
    push_scripts(alloc, plan, &monitor.due(alloc, part, &now)?, &mut effects)?;
    push_effect(&mut effects, Effect::Remember(name, now))?;
    Ok(effects)
}

/// Adds the effects of scripts, in their order.
fn push_scripts(
    alloc: Global,
    plan: &Plan,
    scripts: &[ScriptRef],
    effects: &mut Vec<Effect>,
) -> Result<(), Memory>
    ensures { OnOk result (Adds plan.now (flat_map (theory.effects_of_script plan.now) scripts.now)
        effects.old.items effects.new.items) }
{
    for script in scripts {
        push_script(alloc, &plan.instance(&script.table), script.script, effects)?;
    }
    Ok(())
}
