//! C13: thresholds and actions that differ in number.
ghost use Rattle.config_text.specs.Refusals.{Finds};
ghost use Rattle.config_rules.specs.Passes as passes;

use crate::walk::judge_objects;
use config_text::cause::Cause;
use config_text::fault::ConfigFault;
use config_text::noting::note_if;
use config_text::parts::{BodyParts, ConfigParts};
use std::alloc::Global;

/// Judges the numbers of thresholds and actions.
///
/// # Errors
/// C13 at each monitor that has not one action for each threshold.
#[tactic(auto, unfolding(config_rules::specs::Passes::equal_counts, config_rules::specs::Passes::equal_counts_in))]
pub(crate) fn equal_counts(alloc: Global, config: &ConfigParts) -> Result<(), ConfigFault>
    ensures { Finds result (passes.equal_counts config.now) }
{
    judge_objects(alloc, config, |faults, at, object| match &object.body {
        BodyParts::RegisterMonitor {
            thresholds,
            actions,
            ..
        } => {
            let equal = thresholds.len() == actions.len();
            note_if(faults, Cause::Counts, at, ".action", !equal)
        }
        _ => Ok(()),
    })
}
