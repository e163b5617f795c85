//! C19: execution times that the type doesn't allow.
ghost use Rattle.std.specs.Prelude.{◌≡◌, ◌++◌, IfOk, OnOk};
ghost use Rattle.config_text.specs.BodyView.{body_text};
ghost use Rattle.meter_theory.specs.Times.{are_execution_times};
ghost use Rattle.meter_theory.specs.Value.{elements};
ghost use Rattle.config_text.specs.Refusals.{Finds};
ghost use Rattle.config_rules.specs.Passes as passes;
ghost use Rattle.config_rules.specs.PlanOf.{times_value};

use crate::arrays::times_of;
use crate::walk::judge_objects;
use class_control::times::are_execution_times;
use config_text::cause::Cause;
use config_text::fault::{ConfigFault, PlacedFault};
use config_text::hex_value::HexBytes;
use config_text::noting::note_if;
use config_text::parts::{BodyParts, ConfigParts};
use config_text::place::Place;
use cosem_data::memory::Memory;
use std::alloc::Global;

/// Whether times fit the type of a schedule.
fn do_fit(alloc: Global, execution_type: u8, texts: &[HexBytes]) -> Result<bool, Memory>
    ensures { IfOk result (λ fit. fit ≡ are_execution_times execution_type
        (elements (times_value texts.now))) }
{
    let times = times_of(alloc, texts)?;
    Ok(are_execution_times(execution_type, times.as_slice()))
}

#[tactic(auto, unfolding(config_rules::specs::Passes::valid_times_in))]
fn valid_times_in(
    faults: &mut Vec<PlacedFault>,
    at: &Place<'_>,
    body: &BodyParts,
) -> Result<(), Memory>
    ensures { OnOk result (faults.new.items ≡ faults.old.items
        ++ passes.valid_times_in at.now (body_text body.now)) }
{
    match body {
        BodyParts::SingleActionSchedule { kind, times, .. } => {
            let fit = do_fit(at.alloc(), *kind, times)?;
            note_if(faults, Cause::Times(*kind), at, ".times", !fit)
        }
        _ => Ok(()),
    }
}

/// Judges the times of each schedule by its type.
///
/// # Errors
/// C19 at the times of each schedule that don't fit the type.
#[tactic(auto, unfolding(config_rules::specs::Passes::valid_times))]
pub(crate) fn valid_times(alloc: Global, config: &ConfigParts) -> Result<(), ConfigFault>
    ensures { Finds result (passes.valid_times config.now) }
{
    judge_objects(
        alloc,
        config,
        |faults, at, object| valid_times_in(faults, at, &object.body),
    )
}
