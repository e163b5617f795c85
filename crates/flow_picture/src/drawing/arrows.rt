//! The arrows between boxes.
ghost use Rattle.std.specs.Prelude.{◌≡◌, IfOk, None, get_or, map};
ghost use Rattle.std.specs.List.{All, count_by, list_any, position_from};
ghost use Rattle.flow_map.specs.Grouping.{firsts};
ghost use Rattle.flow_picture.specs.Arrows as spec;
ghost use Rattle.flow_picture.specs.Boxes.{IsBox};

use crate::picture::Arrow;
use cosem_data::memory::Memory;
use flow_edges::table::Link;
use flow_map::pushing::{push_if, push_some};
use meter_theory::flow::Cause;
use std::alloc::Global;

/// From which box to which an edge leads, and why (own profile).
#[derive(Clone, Copy, Drop)]
pub(crate) struct Between {
    /// The number of the box that it leads from.
    pub source: usize,
    /// The number of the box that it leads to.
    pub target: usize,
    /// Its cause.
    pub cause: Cause,
}

/// An arrow for each source, target and cause that edges have, with how many edges do, in the order of their first edges. The
/// only error is want of memory.
pub(crate) fn arrows_of(
    alloc: Global,
    count: usize,
    boxes: &[Vec<usize>],
    links: &[Link],
) -> Result<Vec<Arrow>, Memory>
    requires { All (IsBox count) (map (λ cells. cells.items) boxes.now) }
    ensures { IfOk result (λ arrows. arrows.items ≡ spec.arrows_of (map (λ cells. cells.items) boxes.now) links.now) }
{
    let all = all_between(alloc, count, boxes, links)?;
    let ends = first_between(alloc, &all)?;
    let mut arrows = Vec::with_capacity(alloc, ends.len())?;
    for one in &ends {
        arrows.push(arrow_of(&all, *one))?;
    }
    Ok(arrows)
}

/// From which box to which each edge leads that has both ends in boxes, by the numbers of so many cells. The only error is want of
/// memory.
pub(crate) fn all_between(
    alloc: Global,
    count: usize,
    boxes: &[Vec<usize>],
    links: &[Link],
) -> Result<Vec<Between>, Memory>
    requires { All (IsBox count) (map (λ cells. cells.items) boxes.now) }
    ensures { IfOk result (λ all. all.items ≡ spec.all_between (map (λ cells. cells.items) boxes.now) links.now) }
{
    let places = places_of(alloc, count, boxes)?;
    let mut all = Vec::new(alloc);
    for link in links {
        push_some(between_of(&places, *link), &mut all)?;
    }
    Ok(all)
}

/// From which box to which an edge leads, if both ends stand in boxes, by the places of cells.
fn between_of(places: &[Option<usize>], link: Link) -> Option<Between>
    ensures { result ≡ spec.between_places (get_or places.now link.source None)
        (get_or places.now link.target None) link.cause }
{
    let source = place_at(places, link.source)?;
    let target = place_at(places, link.target)?;
    Some(Between {
        source,
        target,
        cause: link.cause,
    })
}

/// The place of a cell. A number that no cell has stands in no box.
fn place_at(places: &[Option<usize>], number: usize) -> Option<usize>
    ensures { result ≡ get_or places.now number None }
{
    match places.get(number) {
        Some(place) => *place,
        None => None,
    }
}

/// For each of so many cells the number of the first box in which its number stands. The only error is want of memory.
fn places_of(
    alloc: Global,
    count: usize,
    boxes: &[Vec<usize>],
) -> Result<Vec<Option<usize>>, Memory>
    requires { All (IsBox count) (map (λ cells. cells.items) boxes.now) }
    ensures { IfOk result (λ places. spec.ArePlaces (map (λ cells. cells.items) boxes.now) places.items) }
{
    let mut places = Vec::with_capacity(alloc, count)?;
    for number in 0..count {
        places.push(place_of(boxes, number))?;
    }
    Ok(places)
}

/// The number of the first box in which the number of a cell stands.
pub(crate) fn place_of(boxes: &[Vec<usize>], number: usize) -> Option<usize>
    ensures { result ≡ spec.place_of (map (λ cells. cells.items) boxes.now) number }
{
    place_in(boxes, number)
}

/// The number of the first of these boxes in which the number of a cell stands.
fn place_in(boxes: &[Vec<usize>], number: usize) -> Option<usize>
    ensures { result ≡ position_from (λ cells. spec.has_number number cells.items) 0 boxes.now }
{
    boxes.iter().position(|cells| has_number(number, cells))
}

/// Whether the number of a cell stands in a box.
fn has_number(number: usize, cells: &[usize]) -> bool
    ensures { result ≡ spec.has_number number cells.now }
{
    cells.iter().any(|other| *other == number)
}

/// Those of which no earlier one is the same. The only error is want of memory.
pub(crate) fn first_between(alloc: Global, all: &[Between]) -> Result<Vec<Between>, Memory>
    ensures { IfOk result (λ ends. ends.items ≡ firsts spec.same_between all.now) }
{
    let mut ends = Vec::new(alloc);
    for one in all {
        let is_first = !has_same(&ends, *one);
        push_if(is_first, *one, &mut ends)?;
    }
    Ok(ends)
}

/// Whether one is among others.
fn has_same(others: &[Between], one: Between) -> bool
    ensures { result ≡ list_any (λ other. spec.same_between other one) others.now }
{
    others.iter().any(|other| same_between(*other, one))
}

/// The arrow of those that are the same as one.
fn arrow_of(all: &[Between], one: Between) -> Arrow
    ensures { result ≡ spec.arrow_of all.now one }
{
    Arrow {
        source: one.source,
        target: one.target,
        cause: one.cause,
        edges: count(all, one),
    }
}

/// How many are the same as one.
fn count(all: &[Between], one: Between) -> usize
    ensures { result ≡ count_by (spec.same_between one) all.now }
{
    all.iter()
        .filter(|other| same_between(one, **other))
        .count()
}

/// Whether two lead from one box to one other by one cause.
fn same_between(one: Between, other: Between) -> bool
    ensures { result ≡ spec.same_between one other }
{
    one.source == other.source && one.target == other.target && one.cause == other.cause
}
