//! What runs a script: monitors, schedules, and clients that may.
ghost use Rattle.std.specs.Prelude.{◌≡◌, ◌∷◌, []};
ghost use Rattle.std.specs.List.{list_any};
ghost use Rattle.meter_theory.specs.Edges.{scripts_named};
ghost use Rattle.meter_theory.specs.Menus.{alternatives};
ghost use Rattle.meter_theory.specs.Sound.{scripts_run_by};
ghost use Rattle.class_control.specs.PartView.{scripts_of_part};
ghost use Rattle.object_model.specs.PartView.{part_of};
ghost use Rattle.config_warnings.specs.Found as spec;

use crate::rights::may_be_executed;
use class_control::parts::SchedulePart;
use meter_theory::refs::{ScriptRef, UpDown};
use object_model::part::Part;
use object_model::plan::Plan;

/// Whether nothing runs the script.
pub(crate) fn is_never_run(plan: &Plan, script: ScriptRef) -> bool
    ensures { result ≡ spec.is_never_run plan.now script }
{
    !(may_be_executed(plan, &script.table) || is_run_by_objects(plan, script))
}

/// Whether a monitor or a schedule of the plan runs the script.
fn is_run_by_objects(plan: &Plan, script: ScriptRef) -> bool
    ensures { result ≡ spec.is_run_by_objects plan.now script }
{
    plan.objects()
        .iter()
        .any(|object| part_runs(object.part(), script))
}

/// Whether an object with this part runs the script.
fn part_runs(part: &Part, script: ScriptRef) -> bool
    ensures { result ≡ list_any (spec.same_script script) (scripts_run_by (part_of part.now)) }
{
    match part {
        Part::RegisterMonitor(part) => actions_run(&part.actions, script),
        Part::SingleActionSchedule(part) => schedule_runs(part, script),
        _ => false,
    }
}

/// Whether one of a monitor's actions runs the script.
fn actions_run(actions: &[UpDown], script: ScriptRef) -> bool
    ensures { result ≡ list_any (spec.same_script script) (scripts_named actions.now) }
{
    actions.iter().any(|action| action_runs(action, script))
}

/// Whether a monitor's action runs the script, up or down.
fn action_runs(action: &UpDown, script: ScriptRef) -> bool
    ensures { result ≡ list_any (spec.same_script script) (scripts_named (action.now ∷ [])) }
{
    is_same(script, action.up) || is_same(script, action.down)
}

/// Whether a schedule runs the script, at the start or by its menu.
fn schedule_runs(part: &SchedulePart, script: ScriptRef) -> bool
    ensures { result
        ≡ list_any (spec.same_script script) (alternatives (scripts_of_part part.now)) }
{
    is_same(script, part.executed_script) || part.menu.iter().any(|other| is_same(script, *other))
}

/// Whether these name the same script.
fn is_same(script: ScriptRef, other: ScriptRef) -> bool
    ensures { result ≡ spec.same_script script other }
{
    script.table == other.table && script.script == other.script
}
