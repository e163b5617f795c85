//! Cells of one configuration that another lacks.
ghost use Rattle.std.specs.Prelude.{◌≡◌, ◌++◌, OnOk, filter, map, not};
ghost use Rattle.meter_theory.specs.Plan as plans;
ghost use Rattle.flow_changes.specs.Facts as spec;
ghost use Rattle.flow_changes.specs.Shown.{shown};

use crate::fact::Fact;
use cosem_data::cell::CellRef;
use cosem_data::memory::Memory;
use flow_map::outline::Outline;

/// Puts a fact behind others for each of these cells that a plan lacks.
pub(crate) fn push_cells(
    cells: &[CellRef],
    other_plan: &Outline<'_>,
    facts: &mut Vec<Fact<'_>>,
) -> Result<(), Memory>
    ensures { OnOk result (map shown facts.new.items ≡ map shown facts.old.items
        ++ map spec.HasCell (filter (λ x. not (plans.is_cell other_plan.now x)) cells.now)) }
{
    for cell in cells {
        if !other_plan.is_cell(cell) {
            facts.push(Fact::HasCell(*cell))?;
        }
    }
    Ok(())
}
