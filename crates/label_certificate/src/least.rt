//! The least labels of a plan.
ghost use Rattle.std.specs.Prelude.{◌≡◌, length, map, IfOk};
ghost use Rattle.meter_theory.specs.Edges.{edges};
ghost use Rattle.meter_theory.specs.Labels.{AreLeast};
ghost use Rattle.meter_theory.specs.Plan as theory;
ghost use Rattle.meter_theory.specs.Ways.{set_for};
ghost use Rattle.label_certificate.specs.Granted.{AreGranted};
ghost use Rattle.label_certificate.specs.Least.{AreClosed, AreLinks, arrow_of, labels_of_sets};

use crate::arrows::Arrows;
use crate::closing::close;
use crate::granted::granted_to_cells;
use crate::label_sets::sets_for;
use crate::labels::Labels;
use cosem_data::cell::CellRef;
use cosem_data::clients::ClientSet;
use cosem_data::memory::Memory;
use flow_edges::edges::edge_table;
use flow_edges::table::{EdgeTable, Link};
use meter_theory::flow::{Label, Reach};
use object_model::plan::Plan;
use std::alloc::Global;

/// The least labels of a plan: each cell's sets have the clients that the plan's rights and edges ask for, and no other, so
/// that where these labels are refused for a policy no labels are accepted. The only error is want of memory.
pub fn make_labels(alloc: Global, plan: &Plan) -> Result<Labels, Memory>
    ensures least { IfOk result (λ labels. AreLeast plan.now labels) }
    ensures cells { IfOk result (λ labels. map (λ entry. entry.0) labels ≡ theory.cells plan.now) }
{
    let table = edge_table(alloc, plan)?;
    let granted = granted_to_cells(alloc, plan, table.cells())?;
    least_labels(alloc, plan, &table, &granted)
}

/// The same, where the edges of the plan and what its rights grant are at hand.
pub fn least_labels(
    alloc: Global,
    plan: &Plan,
    table: &EdgeTable,
    granted: &[Label],
) -> Result<Labels, Memory>
    requires table { table.now ≡ record { cells = theory.cells plan.now; edges = edges plan.now } }
    requires granted { AreGranted plan.now granted.now }
    ensures least { IfOk result (λ labels. AreLeast plan.now labels) }
    ensures cells { IfOk result (λ labels. map (λ entry. entry.0) labels ≡ theory.cells plan.now) }
{
    plan.known();
    table.known();
    let links = table.links();
    let influence = flow(alloc, links, Reach::Influence, granted)?;
    let learn = flow(alloc, links, Reach::Learn, granted)?;
    let entries = entries_from(alloc, table.cells(), &influence, &learn)?;
    Ok(Labels::new(entries))
}

/// The least sets above those of labels, for a reach, in which no client is lost along an edge.
fn flow(
    alloc: Global,
    links: &[Link],
    reach: Reach,
    labels: &[Label],
) -> Result<Vec<ClientSet>, Memory>
    requires { AreLinks (length labels.now) links.now }
    ensures { IfOk result (λ sets. AreClosed (map (arrow_of reach) links.now) (map (set_for reach) labels.now) sets.items) }
{
    let mut sets = sets_for(alloc, reach, labels)?;
    close(alloc, &Arrows::new(links, reach), &mut sets)?;
    Ok(sets)
}

/// Each cell with its sets.
fn entries_from(
    alloc: Global,
    cells: &[CellRef],
    influence: &[ClientSet],
    learn: &[ClientSet],
) -> Result<Vec<(CellRef, Label)>, Memory>
    requires influence { length influence.now ≡ length cells.now }
    requires learn { length learn.now ≡ length cells.now }
    ensures { IfOk result (λ entries. entries.items ≡ labels_of_sets cells.now influence.now learn.now) }
{
    let mut entries = Vec::with_capacity(alloc, cells.len())?;
    for (number, cell) in cells.iter().enumerate() {
        let label = Label {
            influence: influence[number],
            learn: learn[number],
        };
        entries.push((*cell, label))?;
    }
    Ok(entries)
}
