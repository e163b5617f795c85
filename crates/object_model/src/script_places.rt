//! Where the scripts stand that monitors and schedules may run: what a part names is looked for once, when its plan is made.
ghost use Rattle.std.specs.Prelude.{◌≡◌, ◌==◌, ◌<◌, ◌≤◌, ◌++◌, ℕ, length, map, slice_get, IfOk, OnOk, Some};
ghost use Rattle.std.specs.List.{position_from};
ghost use Rattle.meter_theory.specs.Edges.{scripts_named};
ghost use Rattle.meter_theory.specs.declared.limits.TheConstants.{OBJECTS, SCRIPTS};
ghost use Rattle.meter_theory.specs.Lists.{IsIn};
ghost use Rattle.meter_theory.specs.Plan as theory;
ghost use Rattle.meter_theory.specs.Sound.{scripts_run_by};
ghost use Rattle.meter_theory.specs.Steps.{scripts_of};
ghost use Rattle.object_model.specs.PartView.{part_of};
ghost use Rattle.object_model.specs.Tables.{AreReferences, AreScriptsPlaced, number_at, place_of_script};

use crate::object::Object;
use crate::part::Part;
use crate::references::References;
use class_control::script::Script;
use cosem_data::memory::Memory;
use meter_theory::refs::{ScriptRef, UpDown};
use std::alloc::Global;
use std::marker::Model;

/// Where a script stands (IEC 62056-6-2, Script table).
#[derive(Clone, Copy)]
pub struct ScriptPlace {
    /// The number of its table, from 0 in plan order.
    pub table: u16,
    /// Its place among the scripts of its table, from 0; the null script has none.
    pub place: Option<u16>,
}

/// For each object where the scripts stand that its part may have run, in the part's order. Contracts see a list of lists.
#[derive(Drop)]
pub(crate) struct ScriptPlaces {
    places: Vec<Vec<ScriptPlace>>,
}

impl Model for ScriptPlaces {
    ghost use Rattle.std.specs.Prelude.{List, map};
    ghost use Rattle.object_model.specs.declared.script_places.ScriptPlace.{ScriptPlace};

    ghost Value = { List (List ScriptPlace) };

    ghost view = { λ s. map (λ places. places.items) s.places.items };
}

impl ScriptPlaces {
    /// Those of these objects, which refer to each other by these numbers.
    pub(crate) fn new(
        alloc: Global,
        objects: &[Object],
        references: &References,
    ) -> Result<ScriptPlaces, Memory>
        requires bounded { length objects.now ≤ OBJECTS }
        requires few { (o : theory.Object) → IsIn objects.now o → length (scripts_of o.part) ≤ SCRIPTS }
        requires referred { AreReferences (map (λ o. o.name) objects.now) objects.now references.now }
        ensures { IfOk result (λ places. AreScriptsPlaced objects.now places) }
    {
        let mut places = Vec::with_capacity(alloc, objects.len())?;
        let mut scripts = Vec::new(alloc);
        for (number, object) in objects.iter().enumerate() {
            scripts.clear();
            push_scripts(object.part(), &mut scripts)?;
            let numbers = references.of(number as u16);
            let (_, tables) = numbers.split_at(numbers.len() - scripts.len());
            places.push(places_in(alloc, objects, &scripts, tables)?)?;
        }
        Ok(ScriptPlaces { places })
    }

    /// Where the scripts stand that the object with this number may have run.
    pub(crate) fn of(&self, object: u16) -> &[ScriptPlace]
        requires { object < length self.now }
        ensures { slice_get self.now object ≡ Some result.now }
    {
        &self.places[usize::from(object)]
    }
}

/// Where these scripts stand, whose tables have these numbers.
fn places_in(
    alloc: Global,
    objects: &[Object],
    scripts: &[ScriptRef],
    tables: &[u16],
) -> Result<Vec<ScriptPlace>, Memory>
    requires few { (o : theory.Object) → IsIn objects.now o → length (scripts_of o.part) ≤ SCRIPTS }
    requires tables { map Some tables.now ≡ map (λ r. number_at objects.now r.table) scripts.now }
    ensures { IfOk result (λ places. map Some places.items ≡ map (place_of_script objects.now) scripts.now) }
{
    let mut places = Vec::with_capacity(alloc, scripts.len())?;
    for (place, script) in scripts.iter().enumerate() {
        places.push(place_of(objects, tables[place], script))?;
    }
    Ok(places)
}

/// Where a script stands, whose table has this number.
fn place_of(objects: &[Object], table: u16, script: &ScriptRef) -> ScriptPlace
    requires few { (o : theory.Object) → IsIn objects.now o → length (scripts_of o.part) ≤ SCRIPTS }
    requires table { number_at objects.now script.now.table ≡ Some table }
    ensures { Some result ≡ place_of_script objects.now script.now }
{
    let part = objects[usize::from(table)].part();
    ScriptPlace {
        table,
        place: place_among(part, script.script),
    }
}

/// The place of the script with this number among those of a part.
fn place_among(part: &Part, id: u16) -> Option<u16>
    requires { length (scripts_of (part_of part.now)) ≤ SCRIPTS }
    ensures { result ≡ position_from (λ s. s.id == id) 0 (scripts_of (part_of part.now)) }
{
    let Part::ScriptTable(part) = part else {
        return None;
    };
    let place = position_of(&part.scripts, id)?;
    Some(place as u16)
}

/// Where the first script with this number stands.
fn position_of(scripts: &[Script], id: u16) -> Option<usize>
    ensures { result ≡ position_from (λ s. s.id == id) 0 scripts.now }
{
    scripts.iter().position(|script| script.id == id)
}

/// Puts the scripts that a part may have run behind others.
fn push_scripts(part: &Part, scripts: &mut Vec<ScriptRef>) -> Result<(), Memory>
    ensures { OnOk result (scripts.new.items ≡ scripts.old.items ++ scripts_run_by (part_of part.now)) }
{
    match part {
        Part::RegisterMonitor(part) => push_actions(&part.actions, scripts),
        Part::SingleActionSchedule(part) => {
            scripts.push(part.executed_script)?;
            scripts.extend_from_slice(&part.menu)?;
            Ok(())
        }
        _ => Ok(()),
    }
}

/// Puts the scripts of a monitor's actions behind others, that of up before that of down.
fn push_actions(actions: &[UpDown], scripts: &mut Vec<ScriptRef>) -> Result<(), Memory>
    ensures { OnOk result (scripts.new.items ≡ scripts.old.items ++ scripts_named actions.now) }
{
    for action in actions {
        scripts.push(action.up)?;
        scripts.push(action.down)?;
    }
    Ok(())
}
