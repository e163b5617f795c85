//! C20: sort methods other than fifo, and parts of attributes captured.
ghost use Rattle.std.specs.Prelude.{◌≡◌, ◌++◌, OnOk, codes};
ghost use Rattle.config_text.specs.BodyView.{body_text};
ghost use Rattle.config_text.specs.Refusals.{Finds};
ghost use Rattle.config_rules.specs.Passes as passes;
ghost use Rattle.config_rules.specs.Walks as walks;

use crate::reference_walk::each_alternative;
use crate::walk::{each, judge_objects};
use config_text::cause::Cause;
use config_text::fault::{ConfigFault, PlacedFault};
use config_text::noting::note_if;
use config_text::parts::{BodyParts, CaptureParts, ConfigParts};
use config_text::place::Place;
use cosem_data::memory::Memory;
use std::alloc::Global;

/// Whether a number is given that is another than the one that is allowed.
fn is_other(only: i64, given: Option<i64>) -> bool
    ensures { result ≡ passes.is_other only given }
{
    match given {
        Some(given) => !(only <= given && given <= only),
        None => false,
    }
}

/// Notes that a part of an attribute is captured, where it isn't the whole.
fn whole_attribute(
    faults: &mut Vec<PlacedFault>,
    at: &Place<'_>,
    capture: &CaptureParts,
) -> Result<(), Memory>
    ensures { OnOk result (faults.new.items ≡ faults.old.items
        ++ passes.whole_attribute at.now capture.now) }
{
    let other = is_other(0, capture.data_index);
    note_if(faults, Cause::DataIndex, at, ".data_index", other)
}

/// Notes the parts of attributes that a profile captures at the start.
fn whole_captures(
    faults: &mut Vec<PlacedFault>,
    at: &Place<'_>,
    captures: &[CaptureParts],
) -> Result<(), Memory>
    ensures { OnOk result (faults.new.items ≡ faults.old.items
        ++ walks.each passes.whole_attribute (at.now ++ codes ".capture") captures.now) }
{
    each(faults, &at.below(".capture"), captures, whole_attribute)
}

#[tactic(auto, unfolding(config_rules::specs::Passes::valid_sorting_in))]
fn valid_sorting_in(
    faults: &mut Vec<PlacedFault>,
    at: &Place<'_>,
    body: &BodyParts,
) -> Result<(), Memory>
    ensures { OnOk result (faults.new.items ≡ faults.old.items
        ++ passes.valid_sorting_in at.now (body_text body.now)) }
{
    match body {
        BodyParts::ProfileGeneric {
            capture,
            sort_method,
            menu,
            ..
        } => {
            whole_captures(faults, at, capture.as_slice())?;
            let other = is_other(1, *sort_method);
            note_if(faults, Cause::SortMethod, at, ".sort_method", other)?;
            each_alternative(faults, at, menu, whole_attribute)
        }
        _ => Ok(()),
    }
}

/// Judges what profiles capture of each attribute, and how they are sorted.
///
/// # Errors
/// C20 at each data_index other than 0 and each sort_method other than 1, fifo.
#[tactic(auto, unfolding(config_rules::specs::Passes::valid_sorting))]
pub(crate) fn valid_sorting(alloc: Global, config: &ConfigParts) -> Result<(), ConfigFault>
    ensures { Finds result (passes.valid_sorting config.now) }
{
    judge_objects(
        alloc,
        config,
        |faults, at, object| valid_sorting_in(faults, at, &object.body),
    )
}
