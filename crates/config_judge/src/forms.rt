//! C4: names of bad form.

ghost use Rattle.std.specs.Prelude.{◌≡◌, ◌++◌, OnOk};
ghost use Rattle.config_text.specs.Refusals.{Finds};
ghost use Rattle.config_rules.specs.Passes as spec;

use crate::form::is_logical_name;
use crate::reference_walk::references;
use crate::walk::{both_sets, each};
use config_text::cause::Cause;
use config_text::fault::{ConfigFault, PlacedFault};
use config_text::noting::note_if;
use config_text::parts::{ConfigParts, LabelParts, ObjectParts, RightParts, SetsParts};
use config_text::place::Place;
use config_text::refusal::refuse;
use cosem_data::memory::Memory;
use std::alloc::Global;
use value_text::client_name::may_be_named;

/// Notes a logical name of bad form at a key below a place.
fn logical_form(
    faults: &mut Vec<PlacedFault>,
    at: &Place<'_>,
    key: &str,
    name: &str,
) -> Result<(), Memory>
    ensures { OnOk result (faults.new.items ≡ faults.old.items
        ++ spec.logical_form (at.now ++ key.now) name.now) }
{
    note_if(faults, Cause::LogicalForm, at, key, !is_logical_name(name))
}

/// Notes a client's name of bad form at a key below a place, in a configuration of this version.
fn client_form(
    faults: &mut Vec<PlacedFault>,
    version: u8,
    at: &Place<'_>,
    key: &str,
    name: &str,
) -> Result<(), Memory>
    ensures { OnOk result (faults.new.items ≡ faults.old.items
        ++ spec.client_form version (at.now ++ key.now) name.now) }
{
    note_if(
        faults,
        Cause::ClientForm(version),
        at,
        key,
        !may_be_named(version, name.as_bytes()),
    )
}

/// Notes the names of bad form of an object and of what it refers to.
#[tactic(auto, unfolding(config_rules::specs::Passes::object_forms))]
fn object_forms(
    faults: &mut Vec<PlacedFault>,
    at: &Place<'_>,
    object: &ObjectParts,
) -> Result<(), Memory>
    ensures { OnOk result (faults.new.items ≡ faults.old.items ++ spec.object_forms at.now object.now) }
{
    logical_form(faults, at, ".name", &object.name)?;
    references(
        faults,
        at,
        &object.body,
        |faults, at, target| logical_form(faults, at, ".object", &target.object),
        |faults, at, script| logical_form(faults, at, ".table", &script.table),
    )
}

/// Notes the names of clients of bad form in sets.
fn set_forms(
    faults: &mut Vec<PlacedFault>,
    version: u8,
    at: &Place<'_>,
    sets: &SetsParts,
) -> Result<(), Memory>
    ensures { OnOk result (faults.new.items ≡ faults.old.items
        ++ spec.both_sets (spec.client_form version) at.now sets.now) }
{
    both_sets(
        faults,
        at,
        sets,
        |faults, at, name| client_form(faults, version, at, "", name),
    )
}

/// Notes the names of bad form of a right.
#[tactic(auto, unfolding(config_rules::specs::Passes::right_forms))]
fn right_forms(
    faults: &mut Vec<PlacedFault>,
    version: u8,
    at: &Place<'_>,
    right: &RightParts,
) -> Result<(), Memory>
    ensures { OnOk result (faults.new.items ≡ faults.old.items ++ spec.right_forms version at.now right.now) }
{
    client_form(faults, version, at, ".client", right.client.as_str())?;
    logical_form(faults, at, ".object", right.object.as_str())
}

/// Notes the names of bad form of a label.
#[tactic(auto, unfolding(config_rules::specs::Passes::label_forms))]
fn label_forms(
    faults: &mut Vec<PlacedFault>,
    version: u8,
    at: &Place<'_>,
    label: &LabelParts,
) -> Result<(), Memory>
    ensures { OnOk result (faults.new.items ≡ faults.old.items ++ spec.label_forms version at.now label.now) }
{
    logical_form(faults, at, ".object", label.target.object.as_str())?;
    set_forms(faults, version, at, &label.sets)
}

/// Judges the forms of all names.
///
/// # Errors
/// C4 at each logical name and client's name of bad form.
#[tactic(auto, unfolding(config_rules::specs::Passes::forms))]
pub(crate) fn forms(alloc: Global, config: &ConfigParts) -> Result<(), ConfigFault>
    ensures { Finds result (spec.forms config.now) }
{
    let version = config.version;
    let mut faults = Vec::new(alloc);
    each(
        &mut faults,
        &Place::top(alloc, "client"),
        &config.clients,
        |faults, at, client| { client_form(faults, version, at, ".name", &client.name) },
    )?;
    each(
        &mut faults,
        &Place::top(alloc, "object"),
        &config.objects,
        object_forms,
    )?;
    each(
        &mut faults,
        &Place::top(alloc, "right"),
        &config.rights,
        |faults, at, right| { right_forms(faults, version, at, right) },
    )?;
    set_forms(
        &mut faults,
        version,
        &Place::top(alloc, "policy"),
        &config.policy,
    )?;
    each(
        &mut faults,
        &Place::top(alloc, "label"),
        &config.labels,
        |faults, at, label| { label_forms(faults, version, at, label) },
    )?;
    refuse(faults)
}
