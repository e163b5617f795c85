//! Which cells a client may learn by the policy of an accepted plan.
ghost use Rattle.std.specs.Prelude.{◌≡◌, find};
ghost use Rattle.flow_checker.specs.Notices.{learns};

use crate::check::Checked;
use cosem_data::cell::CellRef;
use object_model::cells::is_named;

/// The first of these cells that the client may learn.
pub(crate) fn first_learned(checked: &Checked, client: u8, cells: &[CellRef]) -> Option<CellRef>
    ensures { result ≡ find (learns checked.now client) cells.now }
{
    cells
        .iter()
        .copied()
        .find(|cell| learns(checked, client, cell))
}

/// Whether the client may learn the cell by the policy.
fn learns(checked: &Checked, client: u8, cell: &CellRef) -> bool
    ensures { result ≡ learns checked.now client cell.now }
{
    // No cell that has a name is the inner clock.
    is_named(cell);
    checked.label(cell).learn.has(client)
}
