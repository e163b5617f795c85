//! What is allowed in a plan and most likely a slip.
ghost use Rattle.std.specs.Prelude.{◌≡◌, ◌++◌, IfOk, OnOk, flat_map, length, map};
ghost use Rattle.std.specs.List.{range_with_len};
ghost use Rattle.cosem_data.specs.View.{tree};
ghost use Rattle.class_control.specs.ScriptView.{script_of};
ghost use Rattle.object_model.specs.PartView.{part_of};
ghost use Rattle.meter_theory.specs.Steps.{scripts_of};
ghost use Rattle.config_warnings.specs.Found as spec;

use crate::dates::names_no_date;
use crate::rights::has_no_right;
use crate::scripts::is_never_run;
use crate::warning::Warning;
use class_control::judge::elements_of;
use class_control::script::Script;
use cosem_data::data::Data;
use cosem_data::memory::Memory;
use meter_theory::refs::ScriptRef;
use object_model::object::Object;
use object_model::part::Part;
use object_model::plan::Plan;
use std::alloc::Global;

/// All that is so of a plan: execution times that name no date, then clients that have no right, then scripts that nothing runs,
/// each in the order of the plan (own profile). The only error is want of memory.
pub fn warnings(alloc: Global, plan: &Plan) -> Result<Vec<Warning>, Memory>
    ensures { IfOk result (λ all. all.items ≡ spec.warnings_of plan.now) }
{
    let mut all = Vec::new(alloc);
    push_dates(plan.objects(), &mut all)?;
    push_clients(plan, &mut all)?;
    push_scripts(plan, &mut all)?;
    Ok(all)
}

/// Puts a warning behind others, if it is so.
fn push_if(holds: bool, warning: Warning, all: &mut Vec<Warning>) -> Result<(), Memory>
    ensures { OnOk result (all.new.items ≡ all.old.items ++ spec.warns_if holds warning) }
{
    if holds {
        all.push(warning)?;
    }
    Ok(())
}

/// Puts the dates behind others that no calendar has.
fn push_dates(objects: &[Object], all: &mut Vec<Warning>) -> Result<(), Memory>
    ensures { OnOk result (all.new.items
        ≡ all.old.items
        ++ flat_map (λ o. spec.dates_in o.0 (spec.times_of o.1.part)) (spec.placed objects.now)) }
{
    for (place, object) in objects.iter().enumerate() {
        push_dates_of(place, times_of(object.part()), all)?;
    }
    Ok(())
}

/// The execution times of a schedule at the start, none of any other part.
fn times_of(part: &Part) -> &[Data]
    ensures { map tree result.now ≡ spec.times_of (part_of part.now) }
{
    match part {
        Part::SingleActionSchedule(part) => elements_of(&part.start),
        _ => &[],
    }
}

/// Puts the times of the schedule at this place behind others whose dates no calendar has.
fn push_dates_of(object: usize, times: &[Data], all: &mut Vec<Warning>) -> Result<(), Memory>
    ensures { OnOk result (all.new.items
        ≡ all.old.items ++ spec.dates_in object (map tree times.now)) }
{
    for (place, time) in times.iter().enumerate() {
        let warning = Warning::NoSuchDate {
            object,
            time: place,
        };
        push_if(names_no_date(time), warning, all)?;
    }
    Ok(())
}

/// Puts the clients behind others that have no right.
fn push_clients(plan: &Plan, all: &mut Vec<Warning>) -> Result<(), Memory>
    ensures { OnOk result (all.new.items ≡ all.old.items
        ++ flat_map (spec.client_in plan.now) (range_with_len 0 (length plan.now.clients))) }
{
    for client in 0..plan.client_count() {
        let warning = Warning::NoRight {
            client: usize::from(client),
        };
        push_if(has_no_right(plan, client), warning, all)?;
    }
    Ok(())
}

/// Puts the scripts behind others that nothing runs.
fn push_scripts(plan: &Plan, all: &mut Vec<Warning>) -> Result<(), Memory>
    ensures { OnOk result (all.new.items
        ≡ all.old.items
        ++ flat_map (λ o. spec.scripts_in plan.now o.0 o.1.name (scripts_of o.1.part)) (spec.placed plan.now.objects)) }
{
    for (place, object) in plan.objects().iter().enumerate() {
        push_scripts_of(plan, place, object, all)?;
    }
    Ok(())
}

/// Puts the scripts of the object at this place behind others that nothing runs.
fn push_scripts_of(
    plan: &Plan,
    place: usize,
    object: &Object,
    all: &mut Vec<Warning>,
) -> Result<(), Memory>
    ensures { OnOk result (all.new.items ≡ all.old.items
        ++ spec.scripts_in plan.now place object.now.name (scripts_of object.now.part)) }
{
    let table = object.name();
    for (number, script) in scripts_of(object.part()).iter().enumerate() {
        let named = ScriptRef {
            table,
            script: script.id,
        };
        let warning = Warning::NeverRun {
            object: place,
            script: number,
        };
        push_if(is_never_run(plan, named), warning, all)?;
    }
    Ok(())
}

/// The scripts of a script table, none of any other part.
fn scripts_of(part: &Part) -> &[Script]
    ensures { map script_of result.now ≡ scripts_of (part_of part.now) }
{
    match part {
        Part::ScriptTable(part) => &part.scripts,
        _ => &[],
    }
}
