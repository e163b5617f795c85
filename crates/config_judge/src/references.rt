//! C9: references to no object, to a table that is no script table, or to a script that isn't there.

ghost use Rattle.std.specs.Prelude.{◌++◌, ◌≡◌, ◌==◌, OnOk};
ghost use Rattle.std.specs.List.{list_any};
ghost use Rattle.config_text.specs.BodyView.{body_text};
ghost use Rattle.config_text.specs.Refusals.{Finds};
ghost use Rattle.config_rules.specs.Names.{object_named, scripts_in};
ghost use Rattle.config_rules.specs.Passes as spec;

use crate::directory::Directory;
use crate::reference_walk::references;
use crate::walk::each;
use config_text::cause::Cause;
use config_text::fault::{ConfigFault, PlacedFault};
use config_text::noting::{note, note_if};
use config_text::parts::{BodyParts, ScriptParts, ScriptRefParts};
use config_text::place::Place;
use config_text::refusal::refuse;
use cosem_data::memory::Memory;
use meter_theory::classes::{Class, is_of_class};
use std::alloc::Global;

/// Notes that the object that is named at a place isn't there, where it isn't.
fn known_object(
    faults: &mut Vec<PlacedFault>,
    directory: &Directory<'_>,
    at: &Place<'_>,
    name: &str,
) -> Result<(), Memory>
    ensures { OnOk result (faults.new.items ≡ faults.old.items
        ++ spec.known_object directory.now.config.now at.now name.now) }
{
    let known = directory.has_object(name);
    note_if(faults, Cause::NoObject, at, ".object", !known)
}

/// The scripts of a script table, none of another object.
pub(crate) fn scripts_in(body: &BodyParts) -> &[ScriptParts]
    ensures { result.now ≡ scripts_in (body_text body.now) }
{
    match body {
        BodyParts::ScriptTable { scripts } => scripts.as_slice(),
        _ => &[],
    }
}

/// The scripts of the object with a name, none where there is no such object.
fn scripts_of<'a>(directory: &Directory<'a>, name: &str) -> &'a [ScriptParts]
    ensures { result.now ≡ spec.scripts_of (object_named directory.now.config.now name.now) }
{
    match directory.object(name) {
        Some(object) => scripts_in(&object.body),
        None => &[],
    }
}

/// Whether one of the scripts has the identifier.
pub(crate) fn has_id(scripts: &[ScriptParts], id: u64) -> bool
    ensures { result ≡ list_any (λ s. s.id == id) scripts.now }
{
    scripts.iter().any(|script| u64::from(script.id) == id)
}

/// Whether a table with these scripts has one with this number. Script 0, which does nothing, is in every table.
fn has_script(scripts: &[ScriptParts], script: i64) -> bool
    ensures { result ≡ spec.has_script scripts.now script }
{
    match u64::try_from(script) {
        Ok(id) => id == 0 || has_id(scripts, id),
        Err(_) => false,
    }
}

/// Notes that a table is no script table, or else that the script isn't in it, where it isn't.
#[tactic(auto, unfolding(config_rules::specs::Passes::known_script))]
fn known_script(
    faults: &mut Vec<PlacedFault>,
    directory: &Directory<'_>,
    later: bool,
    at: &Place<'_>,
    script: &ScriptRefParts,
) -> Result<(), Memory>
    ensures { OnOk result (faults.new.items ≡ faults.old.items
        ++ spec.known_script later directory.now.config.now at.now script.now) }
{
    let table = script.table.as_str();
    let is_table = is_of_class(directory.class(table), Class::ScriptTable);
    if !is_table {
        return note(faults, Cause::NoScriptTable, at, ".table");
    }
    let known = has_script(scripts_of(directory, table), script.script);
    note_if(faults, Cause::NoScript(later), at, ".script", !known)
}

/// Judges whether all that is referred to is there: objects, script tables, and their scripts. `later` is whether identifiers of
/// scripts have faults, which the causes tell.
///
/// # Errors
/// C9 at each reference to no object, to a table that is no script table, or to a script that isn't in its table.
#[tactic(auto, unfolding(config_rules::specs::Passes::known_references_by))]
pub(crate) fn known_references_by(
    alloc: Global,
    directory: &Directory<'_>,
    later: bool,
) -> Result<(), ConfigFault>
    ensures { Finds result (spec.known_references_by later directory.now.config.now) }
{
    let config = directory.config;
    let mut faults = Vec::new(alloc);
    each(
        &mut faults,
        &Place::top(alloc, "object"),
        &config.objects,
        |faults, at, object| {
            references(
                faults,
                at,
                &object.body,
                |faults, at, target| known_object(faults, directory, at, &target.object),
                |faults, at, script| known_script(faults, directory, later, at, script),
            )
        },
    )?;
    each(
        &mut faults,
        &Place::top(alloc, "right"),
        &config.rights,
        |faults, at, right| { known_object(faults, directory, at, &right.object) },
    )?;
    each(
        &mut faults,
        &Place::top(alloc, "label"),
        &config.labels,
        |faults, at, label| { known_object(faults, directory, at, &label.target.object) },
    )?;
    refuse(faults)
}
