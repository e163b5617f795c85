//! The alternatives that are present: which cells a profile captures and which script a schedule runs. The plan has the
//! numbers of the objects to which they refer, so no name is looked for.
ghost use Rattle.std.specs.Prelude.{◌≡◌, ℕ, option_map, Some};
ghost use Rattle.cosem_data.specs.View.{tree};
ghost use Rattle.meter_theory.specs.Menus.{capture_objects_value, chosen, script_ref_value};
ghost use Rattle.meter_theory.specs.Plan.{object_at};
ghost use Rattle.meter_theory.specs.Steps.{captures_of};
ghost use Rattle.class_profile.specs.PartView.{captures_of_part};
ghost use Rattle.class_control.specs.PartView.{scripts_of_part};
ghost use Rattle.object_model.specs.Present.{IsPlaced};
ghost use Rattle.object_model.specs.Tables.{AreNumbersOf};

use crate::instance::Instance;
use class_control::menus::place_of;
use class_control::parts::SchedulePart;
use class_profile::menus::is_capture_objects;
use class_profile::profile::ProfilePart;
use cosem_data::cell::CellRef;
use cosem_data::data::Data;

/// The cells that a profile captures, with the numbers of the objects whose they are.
#[derive(Clone, Copy)]
pub(crate) struct Columns<'a> {
    pub(crate) cells: &'a [CellRef],
    pub(crate) numbers: &'a [u16],
}

/// A script that a schedule runs, and where its table stands among those to which the schedule refers.
#[derive(Clone, Copy)]
pub(crate) struct PlacedScript {
    pub(crate) place: usize,
    pub(crate) script: u16,
}

/// A script that a schedule runs, and what the plan has at the name of its table.
#[derive(Drop)]
pub struct PresentScript<'a> {
    pub table: Instance<'a>,
    pub script: u16,
}

/// What a profile captures at the start.
pub(crate) fn configured_columns<'a>(profile: &Instance<'a>, part: &'a ProfilePart) -> Columns<'a>
    requires { captures_of (object_at profile.now.plan profile.now.name)
        ≡ Some (record { captured = captures_of_part part.now; entries = part.now.profile_entries }) }
    ensures cells { result.cells.now ≡ (captures_of_part part.now).configured }
    ensures numbers { AreNumbersOf profile.now.plan result.cells.now result.numbers.now }
{
    let (numbers, _) = profile.references().split_at(part.captured.len());
    Columns {
        cells: &part.captured,
        numbers,
    }
}

/// What a profile captures where its capture_objects has this value.
pub(crate) fn chosen_columns<'a>(
    profile: &Instance<'a>,
    part: &'a ProfilePart,
    objects: &Data,
) -> Columns<'a>
    requires { captures_of (object_at profile.now.plan profile.now.name)
        ≡ Some (record { captured = captures_of_part part.now; entries = part.now.profile_entries }) }
    ensures cells { result.cells.now
        ≡ chosen capture_objects_value (captures_of_part part.now) (tree objects.now) }
    ensures numbers { AreNumbersOf profile.now.plan result.cells.now result.numbers.now }
{
    let (configured, mut others) = profile.references().split_at(part.captured.len());
    for cells in &part.menu {
        let (numbers, rest) = others.split_at(cells.len());
        if is_capture_objects(objects, cells) {
            return Columns { cells, numbers };
        }
        others = rest;
    }
    Columns {
        cells: &part.captured,
        numbers: configured,
    }
}

/// What a schedule runs at the start.
pub(crate) fn configured_script(part: &SchedulePart) -> PlacedScript
    ensures { IsPlaced (scripts_of_part part.now) (scripts_of_part part.now).configured result }
{
    PlacedScript {
        place: 0,
        script: part.executed_script.script,
    }
}

/// What a schedule runs where its executed_script has this value.
pub(crate) fn chosen_script(part: &SchedulePart, value: &Data) -> PlacedScript
    ensures { IsPlaced (scripts_of_part part.now)
        (chosen script_ref_value (scripts_of_part part.now) (tree value.now)) result }
{
    match place_of(&part.menu, value) {
        // The first is that at the start.
        Some(place) => PlacedScript {
            place: place + 1,
            script: part.menu[place].script,
        },
        None => configured_script(part),
    }
}
