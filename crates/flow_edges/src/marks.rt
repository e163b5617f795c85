//! The cells of a plan that scripts change, marked.
ghost use Rattle.std.specs.Prelude.{◌≡◌, IfOk, List, length, map};
ghost use Rattle.meter_theory.specs.declared.refs.ScriptRef.{ScriptRef as ScriptValue};
ghost use Rattle.meter_theory.specs.Edges as theory;
ghost use Rattle.meter_theory.specs.Plan as plans;
ghost use Rattle.meter_theory.specs.Steps.{changed};
ghost use Rattle.object_model.specs.Tables.{AreScriptPlaces};

use crate::script_changes::ScriptChanges;
use cosem_data::memory::Memory;
use object_model::script_places::ScriptPlace;
use std::alloc::Global;

/// For each cell of the plan, which has so many, whether one of the scripts changes it that stand here. The only error is want of
/// memory.
pub(crate) fn changed_by(
    alloc: Global,
    changes: &ScriptChanges<'_>,
    cells: usize,
    places: &[ScriptPlace],
) -> Result<Vec<bool>, Memory>
    requires cells { cells ≡ length (plans.cells changes.now) }
    requires places { (scripts : List ScriptValue) × AreScriptPlaces changes.now scripts places.now }
    ensures { IfOk result (λ marks. (scripts : List ScriptValue) → AreScriptPlaces changes.now scripts places.now
        → marks.items ≡ map (theory.among (changed (theory.scripts_effects changes.now scripts))) (plans.cells changes.now)) }
{
    let mut marks = vec![in alloc; false; cells]?;
    for place in places {
        changes.mark(*place, &mut marks);
    }
    Ok(marks)
}
