//! The picture of a plan.
ghost use Rattle.std.specs.Prelude.{◌≡◌, ◌<◌, IfOk, length, map, string_bytes};
ghost use Rattle.std.specs.List.{All};
ghost use Rattle.meter_theory.specs.Plan as theory;
ghost use Rattle.flow_edges.specs.Table.{cell_at};
ghost use Rattle.flow_picture.specs.Boxes.{IsBox};
ghost use Rattle.flow_picture.specs.Picture as spec;
ghost use Rattle.flow_picture.specs.Picture.{IsDrawn, IsPictureOf, client_at};

use crate::drawing::arrows::{arrows_of, place_of};
use crate::drawing::boxes::boxes_told;
use crate::drawing::drawn::drawn;
use crate::picture::Picture;
use cosem_data::cell::CellRef;
use cosem_data::memory::Memory;
use flow_edges::table::Link;
use flow_map::outline::Outline;
use flow_map::pushing::push_if;
use flow_ways::ways::Ways;
use std::alloc::Global;

/// The picture of the cells of a plan in these groups, each the numbers of cells in plan order: a box for each group of which a cell
/// is an end of an edge, with who may change, read, influence and learn one of its cells, an arrow for each two boxes and cause with
/// edges, and the cells that stand in no box. A number that no cell has is passed over, and one that stands in many groups counts
/// in the first as an end of edges. Past 48 boxes or 160 arrows the cells stand together by class and attribute instead (own
/// profile). The only error is want of memory.
pub fn picture_of(alloc: Global, ways: &Ways<'_>, groups: &[Vec<usize>]) -> Result<Picture, Memory>
    ensures { IfOk result (λ picture. IsPictureOf ways.now.plan (map (λ group. group.items) groups.now) picture) }
{
    let links = ways.map().links();
    let boxes = drawn(alloc, ways, links, groups)?;
    picture_from(alloc, ways, links, &boxes)
}

/// The picture of these boxes and edges, by the numbers of their cells.
fn picture_from(
    alloc: Global,
    ways: &Ways<'_>,
    links: &[Link],
    boxes: &[Vec<usize>],
) -> Result<Picture, Memory>
    requires { All (IsBox (length (theory.cells ways.now.plan))) (map (λ cells. cells.items) boxes.now) }
    ensures { IfOk result (λ picture. IsDrawn ways.now.plan links.now (map (λ cells. cells.items) boxes.now) picture) }
{
    Ok(Picture {
        clients: client_names(alloc, ways.plan())?,
        boxes: boxes_told(alloc, ways, boxes)?,
        arrows: arrows_of(alloc, ways.cells().len(), boxes, links)?,
        alone: alone(alloc, ways.cells(), boxes)?,
    })
}

/// The names of the clients of a plan. The only error is want of memory.
fn client_names(alloc: Global, plan: &Outline<'_>) -> Result<Vec<String>, Memory>
    ensures { IfOk result (λ names. map string_bytes names.items ≡ map (λ client. client.name) plan.now.clients) }
{
    let mut names = Vec::new(alloc);
    for client in 0..plan.client_count() {
        names.push(client_name(alloc, plan, client)?)?;
    }
    Ok(names)
}

/// The name of the client at a place.
fn client_name(alloc: Global, plan: &Outline<'_>, client: u8) -> Result<String, Memory>
    requires { client < length plan.now.clients }
    ensures { IfOk result (λ name. string_bytes name ≡ (client_at plan.now.clients client).name) }
{
    let Some(client) = plan.client(client) else {
        unreachable!();
    };
    Ok(String::from_str(alloc, client.name_text())?)
}

/// The cells that stand in no box. The only error is want of memory.
fn alone(alloc: Global, cells: &[CellRef], boxes: &[Vec<usize>]) -> Result<Vec<CellRef>, Memory>
    ensures { IfOk result (λ alone. alone.items
        ≡ map (cell_at cells.now) (spec.alone_of (length cells.now) (map (λ cells. cells.items) boxes.now))) }
{
    let mut alone = Vec::new(alloc);
    for number in 0..cells.len() {
        let is_alone = place_of(boxes, number).is_none();
        push_if(is_alone, cell_of(cells, number), &mut alone)?;
    }
    Ok(alone)
}

/// The cell with this number.
fn cell_of(cells: &[CellRef], number: usize) -> CellRef
    requires { number < length cells.now }
    ensures { result ≡ cell_at cells.now number }
{
    cells[number]
}
