//! Which cells stand in boxes.
ghost use Rattle.std.specs.Prelude.{◌≡◌, ◌<◌, ◌==◌, ◌||◌, ℕ, IfOk, OnOk, ◌∷◌, ◌++◌, [], cond, false, get_or, length, map};
ghost use Rattle.std.specs.List.{All};
ghost use Rattle.flow_picture.specs.Boxes.{IsBox};
ghost use Rattle.flow_picture.specs.Drawn as spec;

use crate::drawing::arrows::{all_between, first_between};
use crate::drawing::classes::by_class;
use crate::drawing::limits::{ARROWS, BOXES};
use cosem_data::memory::Memory;
use flow_edges::table::Link;
use flow_map::pushing::push_if;
use flow_ways::ways::Ways;
use std::alloc::Global;

/// The numbers of the cells of each box: the given groups of which a cell is an end of an edge, or in place of the given ones those
/// by class and attribute where they make more than 48 boxes or 160 arrows (own profile). The only error is want of memory.
pub(crate) fn drawn(
    alloc: Global,
    ways: &Ways<'_>,
    links: &[Link],
    groups: &[Vec<usize>],
) -> Result<Vec<Vec<usize>>, Memory>
    ensures { IfOk result (λ boxes. map (λ cells. cells.items) boxes.items
        ≡ spec.drawn ways.now.plan links.now (map (λ group. group.items) groups.now)) }
{
    let count = ways.cells().len();
    let ends = ends_of(alloc, count, links)?;
    let boxes = boxes_of(alloc, &ends, groups)?;
    if are_few(alloc, count, links, &boxes)? {
        return Ok(boxes);
    }
    let classes = by_class(alloc, ways.cells())?;
    boxes_of(alloc, &ends, &classes)
}

/// For each of so many cells whether it is an end of an edge. The only error is want of memory.
fn ends_of(alloc: Global, count: usize, links: &[Link]) -> Result<Vec<bool>, Memory>
    ensures size { IfOk result (λ ends. length ends.items ≡ count) }
    ensures ends { IfOk result (λ ends. spec.AreEnds links.now ends.items) }
{
    let mut ends = vec![in alloc; false; count]?;
    for link in links {
        mark(link.source, &mut ends);
        mark(link.target, &mut ends);
    }
    Ok(ends)
}

/// Marks the cell with a number, if there is one.
fn mark(number: usize, ends: &mut [bool])
    ensures size { length ends.new ≡ length ends.old }
    ensures marked { (i : ℕ) → i < length ends.old → get_or ends.new i false ≡ (get_or ends.old i false || (number == i)) }
{
    if number < ends.len() {
        ends[number] = true;
    }
}

/// Whether these boxes of so many cells, and the arrows between them, are few enough to be drawn. The only error is want of memory.
fn are_few(
    alloc: Global,
    count: usize,
    links: &[Link],
    boxes: &[Vec<usize>],
) -> Result<bool, Memory>
    requires { All (IsBox count) (map (λ cells. cells.items) boxes.now) }
    ensures { IfOk result (λ few. few ≡ spec.are_few links.now (map (λ cells. cells.items) boxes.now)) }
{
    if boxes.len() > BOXES {
        return Ok(false);
    }
    let all = all_between(alloc, count, boxes, links)?;
    let ends = first_between(alloc, &all)?;
    Ok(ends.len() <= ARROWS)
}

/// The numbers of each group that are those of cells, where one of them is an end of an edge. The only error is want of memory.
fn boxes_of(alloc: Global, ends: &[bool], groups: &[Vec<usize>]) -> Result<Vec<Vec<usize>>, Memory>
    ensures { IfOk result (λ boxes. map (λ cells. cells.items) boxes.items
        ≡ spec.marked_boxes ends.now (map (λ group. group.items) groups.now)) }
{
    let mut boxes = Vec::new(alloc);
    for group in groups {
        push_box(known_of(alloc, ends.len(), group)?, ends, &mut boxes)?;
    }
    Ok(boxes)
}

/// Puts a box behind others, if one of its cells is an end of an edge. The only error is want of memory.
fn push_box(cells: Vec<usize>, ends: &[bool], boxes: &mut Vec<Vec<usize>>) -> Result<(), Memory>
    ensures { OnOk result (map (λ cells. cells.items) boxes.new.items
        ≡ map (λ cells. cells.items) boxes.old.items
        ++ cond (spec.has_mark ends.now cells.items) (cells.items ∷ []) []) }
{
    if has_mark(ends, &cells) {
        boxes.push(cells)?;
    }
    Ok(())
}

/// The numbers of a group that are those of one of so many cells. The only error is want of memory.
fn known_of(alloc: Global, count: usize, group: &[usize]) -> Result<Vec<usize>, Memory>
    ensures { IfOk result (λ cells. cells.items ≡ spec.known_of count group.now) }
{
    let mut cells = Vec::new(alloc);
    for number in group {
        let is_known = *number < count;
        push_if(is_known, *number, &mut cells)?;
    }
    Ok(cells)
}

/// Whether one of the cells with these numbers is an end of an edge.
fn has_mark(ends: &[bool], cells: &[usize]) -> bool
    ensures { result ≡ spec.has_mark ends.now cells.now }
{
    cells.iter().any(|number| is_marked(ends, *number))
}

/// Whether the cell with this number is an end of an edge.
fn is_marked(ends: &[bool], number: usize) -> bool
    ensures { result ≡ get_or ends.now number false }
{
    match ends.get(number) {
        Some(is_end) => *is_end,
        None => false,
    }
}
