//! Cells by class and attribute.
ghost use Rattle.std.specs.Prelude.{◌≡◌, IfOk, length, map};
ghost use Rattle.std.specs.List.{range_with_len};
ghost use Rattle.flow_map.specs.Grouping as alike;
ghost use Rattle.flow_map.specs.Grouping.{same_at};
ghost use Rattle.flow_picture.specs.Drawn as spec;

use cosem_data::cell::CellRef;
use cosem_data::memory::Memory;
use flow_map::grouping::grouped;
use std::alloc::Global;

/// What the cells of a box have alike where they stand together by class and attribute (own profile).
#[derive(Clone, Copy, PartialEq, Drop)]
pub(crate) struct Kind {
    /// The class.
    pub class_id: u16,
    /// The attribute.
    pub index: u8,
}

/// The numbers of cells, those of one class and attribute together, in the order of the first ones. The only error is want of
/// memory.
pub(crate) fn by_class(alloc: Global, cells: &[CellRef]) -> Result<Vec<Vec<usize>>, Memory>
    ensures { IfOk result (λ groups. map (λ group. group.items) groups.items
        ≡ alike.groups (same_at spec.same_kind cells.now) (range_with_len 0 (length cells.now))) }
{
    let kinds = kinds_of(alloc, cells)?;
    grouped(alloc, &kinds)
}

/// The kinds of cells. The only error is want of memory.
fn kinds_of(alloc: Global, cells: &[CellRef]) -> Result<Vec<Kind>, Memory>
    ensures { IfOk result (λ kinds. kinds.items ≡ map spec.kind_of cells.now) }
{
    let mut kinds = Vec::with_capacity(alloc, cells.len())?;
    for cell in cells {
        kinds.push(Kind {
            class_id: cell.class_id,
            index: cell.index,
        })?;
    }
    Ok(kinds)
}
