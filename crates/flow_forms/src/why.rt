//! By which ways a client may influence and learn a cell.
ghost use Rattle.std.specs.Prelude.{◌≡◌, ◌<◌, IfOk, length};
ghost use Rattle.std.specs.List.{position_from};
ghost use Rattle.std.specs.Str.{bytes_eq};
ghost use Rattle.meter_theory.specs.Plan as plans;
ghost use Rattle.value_text.specs.Texts.{cell_text};
ghost use Rattle.flow_forms.specs.Listing.{WritesWhy};

use cosem_data::cell::CellRef;
use cosem_data::memory::Memory;
use flow_map::map::FlowMap;
use flow_ways::ways::Ways;
use flow_ways::why::why_text;
use std::alloc::Global;
use std::io::Write;
use value_text::cell::push_cell;
use whole_writes::fault::ListFault;
use whole_writes::write_whole;

/// Writes what is told of a client and a cell of a plan, by their numbers: for influence and for learn how far the shortest ways lead
/// and whether the policy allows it, and the way that is shown (own profile).
///
/// # Errors
/// Memory was refused, and nothing was written; or a write failed, and a beginning was written.
pub fn write_why<W: Write>(
    alloc: Global,
    map: &FlowMap<'_>,
    client: u8,
    cell: usize,
    writer: &mut W,
) -> Result<(), ListFault>
    requires client { client < length map.now.plan.clients }
    requires cell { cell < length (plans.cells map.now.plan) }
    ensures { WritesWhy map.now.plan map.now.policy client cell (W.contents writer.old) (W.contents writer.new) result }
{
    let ways = Ways::new(alloc, map)?;
    let text = why_text(alloc, &ways, client, cell)?;
    write_whole(writer, &text)?;
    Ok(())
}

/// The number of the cell that is printed so, in plan order, or None where no cell of the plan is. The only error is want of memory.
pub fn cell_printed(alloc: Global, map: &FlowMap<'_>, text: &str) -> Result<Option<usize>, Memory>
    ensures { IfOk result (λ found. found
        ≡ position_from (λ x. bytes_eq (cell_text x) text.now) 0 (plans.cells map.now.plan)) }
{
    for (number, cell) in map.cells().iter().enumerate() {
        if is_printed(alloc, cell, text)? {
            return Ok(Some(number));
        }
    }
    Ok(None)
}

/// Whether a cell is printed so. The only error is want of memory.
fn is_printed(alloc: Global, cell: &CellRef, text: &str) -> Result<bool, Memory>
    ensures { IfOk result (λ same. same ≡ bytes_eq (cell_text cell.now) text.now) }
{
    let mut printed = Vec::new(alloc);
    push_cell(alloc, cell, &mut printed)?;
    Ok(printed.as_slice() == text.as_bytes())
}
