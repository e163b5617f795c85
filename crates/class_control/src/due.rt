//! Which scripts of a register monitor are due (IEC 62056-6-2, Register monitor).
ghost use Rattle.std.specs.Prelude.{◌≡◌, [], ◌∷◌, map, IfOk, option_and_then, slice_get};
ghost use Rattle.cosem_data.specs.View.{tree};
ghost use Rattle.cosem_data.specs.Kinds.{number_of};
ghost use Rattle.meter_theory.specs.Steps as theory;
ghost use Rattle.class_control.specs.DueScript.{as_list};

use cosem_data::data::Data;
use cosem_data::memory::Memory;
use meter_theory::refs::{ScriptRef, UpDown};
use std::alloc::Global;

/// The number of the threshold at this place, counted from 0, if there is one that is a number.
fn threshold_at(thresholds: &[Data], place: usize) -> Option<i128>
    ensures { result ≡ option_and_then number_of (slice_get (map tree thresholds.now) place) }
{
    thresholds.get(place)?.number()
}

/// What is due at one threshold, for the number before and the number now: action_up where the number was below the
/// threshold and now is not, action_down the other way (IEC 62056-6-2, Register monitor, action_set; the side of equality
/// is own profile). Nothing is where one of the three is no number.
fn due_at(
    action: &UpDown,
    threshold: Option<i128>,
    before: Option<i128>,
    now: Option<i128>,
) -> Option<ScriptRef>
    ensures { as_list result ≡ theory.due_at action.now threshold before now }
{
    let (threshold, before, now) = (threshold?, before?, now?);
    if before < threshold && threshold <= now {
        Some(action.up)
    } else if threshold <= before && now < threshold {
        Some(action.down)
    } else {
        None
    }
}

/// The scripts that are due, in the order of the thresholds, all judged before any is run (own profile): at each threshold
/// the one of its action, for what was seen of the monitored value and the value now.
pub(crate) fn due_scripts(
    alloc: Global,
    actions: &[UpDown],
    thresholds: &[Data],
    seen: &Data,
    now: &Data,
) -> Result<Vec<ScriptRef>, Memory>
    ensures { IfOk result (λ scripts. scripts.items
        ≡ theory.due_scripts actions.now (map tree thresholds.now) (tree seen.now) (tree now.now)) }
{
    let before = seen.number();
    let now = now.number();
    let mut scripts = Vec::new(alloc);
    for (place, action) in actions.iter().enumerate() {
        let threshold = threshold_at(thresholds, place);
        if let Some(script) = due_at(action, threshold, before, now) {
            scripts.push(script)?;
        }
    }
    Ok(scripts)
}
