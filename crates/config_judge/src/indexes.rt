//! C10: indexes that the class doesn't have, or that aren't usable where they stand.

ghost use Rattle.std.specs.Prelude.{◌≡◌, ◌++◌, OnOk};
ghost use Rattle.config_text.specs.BodyView.{body_text};
ghost use Rattle.config_text.specs.Refusals.{Finds};
ghost use Rattle.config_text.specs.declared.cause.Use.TheVariants.{Attribute, Method};
ghost use Rattle.config_rules.specs.Passes as spec;
ghost use Rattle.config_rules.specs.Walks as walks;
ghost use Rattle.meter_theory.specs.Classes as classes;

use crate::directory::Directory;
use crate::reference_walk::{each_action, each_capture};
use crate::walk::each;
use config_text::cause::{Cause, Use};
use config_text::fault::{ConfigFault, PlacedFault};
use config_text::noting::note_if;
use config_text::parts::{BodyParts, RightParts};
use config_text::place::Place;
use config_text::refusal::refuse;
use config_text::service::Service;
use cosem_data::memory::Memory;
use meter_theory::classes::{has_attribute, has_method, is_capturable, is_monitorable};
use std::alloc::Global;

/// Notes the indexes in an object's body that aren't usable.
#[tactic(auto, unfolding(config_rules::specs::Passes::usable_indexes))]
fn usable_indexes(
    faults: &mut Vec<PlacedFault>,
    directory: &Directory<'_>,
    at: &Place<'_>,
    body: &BodyParts,
) -> Result<(), Memory>
    ensures { OnOk result (faults.new.items ≡ faults.old.items
        ++ spec.usable_indexes directory.now.config.now at.now (body_text body.now)) }
{
    match body {
        BodyParts::ProfileGeneric { capture, menu, .. } => {
            each_capture(faults, at, capture, menu, |faults, at, capture| {
                let target = &capture.target;
                let class = directory.class(&target.object);
                let usable = is_capturable(class, target.index);
                let cause = Cause::Index(Use::Capturable, class);
                note_if(faults, cause, at, ".index", !usable)
            })
        }
        BodyParts::ScriptTable { scripts } => each_action(
            faults,
            at,
            scripts,
            |faults, at, action| {
                let (name, index) = (&action.target.object, action.target.index);
                let class = directory.class(name);
                let (wanted, usable) = match action.service {
                    Service::Write => (Use::Settable, directory.is_settable(name, index)),
                    Service::Invoke => (Use::Method, has_method(class, index)),
                };
                note_if(faults, Cause::Index(wanted, class), at, ".index", !usable)
            },
        ),
        BodyParts::RegisterMonitor { monitored, .. } => {
            let class = directory.class(&monitored.object);
            let usable = is_monitorable(class, monitored.index);
            let cause = Cause::Index(Use::Monitorable, class);
            note_if(faults, cause, at, ".monitored.index", !usable)
        }
        _ => Ok(()),
    }
}

/// Notes the indexes that aren't those of attributes of a class.
fn attributes_of(
    faults: &mut Vec<PlacedFault>,
    at: &Place<'_>,
    key: &str,
    class: u16,
    indexes: &[u8],
) -> Result<(), Memory>
    ensures { OnOk result (faults.new.items ≡ faults.old.items
        ++ walks.each (spec.right_index Attribute classes.has_attribute class) (at.now ++ key.now) indexes.now) }
{
    each(faults, &at.below(key), indexes, |faults, at, index| {
        let cause = Cause::Index(Use::Attribute, class);
        note_if(faults, cause, at, "", !has_attribute(class, *index))
    })
}

/// Notes the indexes that aren't those of methods of a class.
fn methods_of(
    faults: &mut Vec<PlacedFault>,
    at: &Place<'_>,
    key: &str,
    class: u16,
    indexes: &[u8],
) -> Result<(), Memory>
    ensures { OnOk result (faults.new.items ≡ faults.old.items
        ++ walks.each (spec.right_index Method classes.has_method class) (at.now ++ key.now) indexes.now) }
{
    each(faults, &at.below(key), indexes, |faults, at, index| {
        let cause = Cause::Index(Use::Method, class);
        note_if(faults, cause, at, "", !has_method(class, *index))
    })
}

/// Notes the indexes of a right that the class doesn't have.
#[tactic(auto, unfolding(config_rules::specs::Passes::right_indexes))]
fn right_indexes(
    faults: &mut Vec<PlacedFault>,
    directory: &Directory<'_>,
    at: &Place<'_>,
    right: &RightParts,
) -> Result<(), Memory>
    ensures { OnOk result (faults.new.items ≡ faults.old.items
        ++ spec.right_indexes directory.now.config.now at.now right.now) }
{
    let class = directory.class(right.object.as_str());
    attributes_of(faults, at, ".get", class, right.gets.as_slice())?;
    attributes_of(faults, at, ".set", class, right.sets.as_slice())?;
    methods_of(faults, at, ".act", class, right.acts.as_slice())
}

/// Judges whether each index can be used where it stands: what is captured, set, called and monitored, and what rights
/// are on.
///
/// # Errors
/// C10 at each index that the class doesn't have, or that isn't usable there.
#[tactic(auto, unfolding(config_rules::specs::Passes::known_indexes))]
pub(crate) fn known_indexes(alloc: Global, directory: &Directory<'_>) -> Result<(), ConfigFault>
    ensures { Finds result (spec.known_indexes directory.now.config.now) }
{
    let config = directory.config;
    let mut faults = Vec::new(alloc);
    each(
        &mut faults,
        &Place::top(alloc, "object"),
        &config.objects,
        |faults, at, object| { usable_indexes(faults, directory, at, &object.body) },
    )?;
    each(
        &mut faults,
        &Place::top(alloc, "right"),
        &config.rights,
        |faults, at, right| { right_indexes(faults, directory, at, right) },
    )?;
    refuse(faults)
}
