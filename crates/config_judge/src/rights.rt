//! C12: rights to set what isn't a settable cell.
ghost use Rattle.std.specs.Prelude.{◌≡◌, ◌++◌, OnOk};
ghost use Rattle.config_text.specs.Refusals.{Finds};
ghost use Rattle.config_rules.specs.Passes as passes;

use crate::directory::Directory;
use crate::walk::each;
use config_text::cause::Cause;
use config_text::fault::{ConfigFault, PlacedFault};
use config_text::noting::note_if;
use config_text::parts::RightParts;
use config_text::place::Place;
use config_text::refusal::refuse;
use cosem_data::memory::Memory;
use std::alloc::Global;

/// Notes the indexes that a right lets a client set and that aren't those of settable cells.
fn settable_of(
    faults: &mut Vec<PlacedFault>,
    directory: &Directory<'_>,
    at: &Place<'_>,
    right: &RightParts,
) -> Result<(), Memory>
    ensures { OnOk result (faults.new.items ≡ faults.old.items
        ++ passes.settable_of directory.now.config.now at.now right.now) }
{
    let class = directory.class(&right.object);
    each(
        faults,
        &at.below(".set"),
        &right.sets,
        |faults, at, index| {
            let settable = directory.is_settable(&right.object, *index);
            note_if(faults, Cause::NotSettable(class), at, "", !settable)
        },
    )
}

/// Judges the rights to set.
///
/// # Errors
/// C12 at each index that isn't that of a settable cell.
#[tactic(auto, unfolding(config_rules::specs::Passes::settable_rights))]
pub(crate) fn settable_rights(alloc: Global, directory: &Directory<'_>) -> Result<(), ConfigFault>
    ensures { Finds result (passes.settable_rights directory.now.config.now) }
{
    let config = directory.config;
    let mut faults = Vec::new(alloc);
    each(
        &mut faults,
        &Place::top(alloc, "right"),
        &config.rights,
        |faults, at, right| settable_of(faults, directory, at, right),
    )?;
    refuse(faults)
}
