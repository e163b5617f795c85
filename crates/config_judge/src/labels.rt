//! C17: labels on what is no cell, and second ones for a cell.
ghost use Rattle.std.specs.Prelude.{◌≡◌, ◌++◌, OnOk};
ghost use Rattle.std.specs.List.{list_any};
ghost use Rattle.config_text.specs.Refusals.{Finds};
ghost use Rattle.config_rules.specs.Passes as passes;

use crate::directory::Directory;
use crate::menus::same_target;
use crate::walk::each_new;
use config_text::cause::Cause;
use config_text::fault::{ConfigFault, PlacedFault};
use config_text::noting::note_if;
use config_text::parts::{LabelParts, TargetParts};
use config_text::place::Place;
use config_text::refusal::refuse;
use cosem_data::memory::Memory;
use std::alloc::Global;

/// Whether one of the labels is of this target.
fn has_label(labels: &[LabelParts], target: &TargetParts) -> bool
    ensures { result ≡ list_any (λ e. passes.same_target e.target target.now) labels.now }
{
    labels.iter().any(|e| same_target(&e.target, target))
}

/// Notes that the target of a label is no cell, or that one of the labels before is of it.
fn new_label(
    faults: &mut Vec<PlacedFault>,
    directory: &Directory<'_>,
    earlier: &[LabelParts],
    at: &Place<'_>,
    label: &LabelParts,
) -> Result<(), Memory>
    ensures { OnOk result (faults.new.items ≡ faults.old.items
        ++ passes.new_label directory.now.config.now earlier.now at.now label.now) }
{
    let target = &label.target;
    let is_cell = directory.is_cell(&target.object, target.index);
    let cause = if is_cell {
        Cause::LabelTwice
    } else {
        Cause::NoCell(directory.class(&target.object))
    };
    note_if(
        faults,
        cause,
        at,
        ".index",
        !is_cell || has_label(earlier, target),
    )
}

/// Judges the targets of the labels.
///
/// # Errors
/// C17 at each label that is of no cell, or of a cell that an earlier one is of.
#[tactic(auto, unfolding(config_rules::specs::Passes::new_labels))]
pub(crate) fn new_labels(alloc: Global, directory: &Directory<'_>) -> Result<(), ConfigFault>
    ensures { Finds result (passes.new_labels directory.now.config.now) }
{
    let config = directory.config;
    let mut faults = Vec::new(alloc);
    each_new(
        &mut faults,
        &Place::top(alloc, "label"),
        &config.labels,
        |faults, earlier, at, label| new_label(faults, directory, earlier, at, label),
    )?;
    refuse(faults)
}
