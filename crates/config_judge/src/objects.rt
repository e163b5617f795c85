//! C5 and C6: objects with a name that an earlier one has, and of a class that isn't known.

ghost use Rattle.std.specs.Prelude.{◌++◌, ◌≡◌, ◌||◌, OnOk, codes, take};
ghost use Rattle.std.specs.List.{list_any};
ghost use Rattle.std.specs.Str.{bytes_eq};
ghost use Rattle.config_text.specs.Refusals.{Finds};
ghost use Rattle.config_rules.specs.Passes as spec;
ghost use Rattle.config_rules.specs.Walks.{element_place};

use crate::directory::Directory;
use crate::walk::judge_objects;
use config_text::cause::Cause;
use config_text::fault::{ConfigFault, PlacedFault};
use config_text::noting::note_if;
use config_text::parts::{ConfigParts, ObjectParts};
use config_text::place::Place;
use config_text::refusal::refuse;
use cosem_data::memory::Memory;
use meter_theory::classes::is_known;
use std::alloc::Global;

/// The logical name of the current association (IEC 62056-6-2, Association LN).
const CURRENT_ASSOCIATION: &str = "0.0.40.0.0.255";

/// Whether the current association or an object before a place has the name.
fn is_taken(directory: &Directory<'_>, name: &str, place: usize) -> bool
    ensures { result ≡ (bytes_eq (codes "0.0.40.0.0.255") name.now
        || list_any (λ e. bytes_eq e.name name.now) (take place directory.now.config.now.objects)) }
{
    CURRENT_ASSOCIATION == name || directory.has_object_before(name, place)
}

/// Notes that an object's name isn't new at its place, where it isn't.
fn new_object(
    faults: &mut Vec<PlacedFault>,
    alloc: Global,
    directory: &Directory<'_>,
    i: usize,
    object: &ObjectParts,
) -> Result<(), Memory>
    ensures { OnOk result (faults.new.items ≡ faults.old.items
        ++ spec.new_object (take i directory.now.config.now.objects)
        (element_place (codes "object") i) object.now) }
{
    let name = object.name.as_str();
    let taken = is_taken(directory, name, i);
    let cause = if CURRENT_ASSOCIATION == name {
        Cause::Association
    } else {
        Cause::ObjectTwice
    };
    note_if(
        faults,
        cause,
        &Place::top(alloc, "object").element(i),
        ".name",
        taken,
    )
}

/// Judges whether each object's name is new.
///
/// # Errors
/// C5 at each name that an earlier object or the current association has.
#[tactic(auto, unfolding(config_rules::specs::Passes::new_objects, config_rules::specs::Walks::each_after))]
pub(crate) fn new_objects(alloc: Global, directory: &Directory<'_>) -> Result<(), ConfigFault>
    ensures { Finds result (spec.new_objects directory.now.config.now) }
{
    let mut faults = Vec::new(alloc);
    let config = directory.config;
    let objects = config.objects.as_slice();
    for (i, object) in objects.iter().enumerate() {
        new_object(&mut faults, alloc, directory, i, object)?;
    }
    refuse(faults)
}

/// Judges whether each object's class is known in the configuration's version.
///
/// # Errors
/// C6 at each interface class that isn't.
#[tactic(auto, unfolding(config_rules::specs::Passes::known_classes))]
pub(crate) fn known_classes(alloc: Global, config: &ConfigParts) -> Result<(), ConfigFault>
    ensures { Finds result (spec.known_classes config.now) }
{
    judge_objects(alloc, config, |faults, at, object| {
        let known = is_known(config.version, object.class_id);
        note_if(
            faults,
            Cause::ClassUnknown(config.version),
            at,
            ".class",
            !known,
        )
    })
}
