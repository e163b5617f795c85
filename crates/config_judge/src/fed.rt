//! C18: objects that are fed whose class has no value that can be.
ghost use Rattle.config_text.specs.Refusals.{Finds};
ghost use Rattle.config_rules.specs.Passes as passes;

use crate::walk::judge_objects;
use config_text::cause::Cause;
use config_text::fault::ConfigFault;
use config_text::noting::note_if;
use config_text::parts::ConfigParts;
use meter_theory::classes::may_be_fed;
use std::alloc::Global;

/// Judges which objects are fed.
///
/// # Errors
/// C18 at each object that is fed and of a class to which inputs from outside don't go.
#[tactic(auto, unfolding(config_rules::specs::Passes::fed_values))]
pub(crate) fn fed_values(alloc: Global, config: &ConfigParts) -> Result<(), ConfigFault>
    ensures { Finds result (passes.fed_values config.now) }
{
    judge_objects(alloc, config, |faults, at, object| {
        let has_input = may_be_fed(object.class_id);
        note_if(faults, Cause::Fed, at, ".fed", object.fed && !has_input)
    })
}
