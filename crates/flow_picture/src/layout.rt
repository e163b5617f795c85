//! Where boxes and arrows stand.
ghost use Rattle.std.specs.Prelude.{◌≡◌, IfOk, length};

use crate::columns::{Ends, columns};
use crate::lines::{ends_of, lines};
use crate::picture::{Arrow, Picture, PictureBox};
use crate::places::Grid;
use crate::sizes::{Size, box_size};
use cosem_data::memory::Memory;
use std::alloc::Global;

/// How far the picture reaches past its last column.
const MARGIN: u32 = 56;

/// Where boxes and arrows of a picture stand, in pixels (own profile).
#[derive(Drop)]
pub struct Layout {
    /// A place for each box.
    pub boxes: Vec<BoxPlace>,
    /// A line for each arrow.
    pub lines: Vec<ArrowLine>,
    /// The width of the picture.
    pub width: u32,
    /// Its height.
    pub height: u32,
}

/// Where a box stands.
#[derive(Clone, Copy, Drop)]
pub struct BoxPlace {
    /// Its left edge.
    pub left: u32,
    /// Its upper edge.
    pub top: u32,
    /// Its width.
    pub width: u32,
    /// Its height.
    pub height: u32,
}

/// The line of an arrow: curves with straight lines between them, from one box to the other.
#[derive(Drop)]
pub struct ArrowLine {
    /// Where it begins.
    pub start: Point,
    /// Its curves but the last, each with the straight line after it.
    pub passes: Vec<Pass>,
    /// Its last curve.
    pub last: Curve,
    /// The tip of its head.
    pub tip: Point,
}

/// A curve, and the straight line after it.
#[derive(Clone, Copy, Drop)]
pub struct Pass {
    /// The curve.
    pub curve: Curve,
    /// How far to the right the straight line leads.
    pub right: i64,
}

/// A curve: a cubic Bézier curve from where the line is.
#[derive(Clone, Copy, Drop)]
pub struct Curve {
    /// The point towards which it leaves.
    pub leaving: Point,
    /// The point from which it arrives.
    pub arriving: Point,
    /// Where it ends.
    pub end: Point,
}

/// A point.
#[derive(Clone, Copy, Drop)]
pub struct Point {
    /// How far to the right it is.
    pub x: i64,
    /// How far down it is.
    pub y: i64,
}

/// Where the boxes and arrows of a picture stand: boxes in columns, so that arrows lead from left to right where they can (own
/// profile). The only error is want of memory.
pub fn lay_out(alloc: Global, picture: &Picture) -> Result<Layout, Memory>
    ensures boxes { IfOk result (λ layout. length layout.boxes.items ≡ length picture.now.boxes.items) }
    ensures lines { IfOk result (λ layout. length layout.lines.items ≡ length picture.now.arrows.items) }
{
    let count = picture.boxes.len();
    let links = links(alloc, &picture.arrows, count)?;
    let sizes = sizes(alloc, &picture.clients, &picture.boxes)?;
    let columns = columns(alloc, count, &links)?;
    let grid = Grid::new(alloc, &sizes, &columns, &links)?;
    Ok(Layout {
        boxes: places(alloc, count, &grid)?,
        lines: lines(alloc, &picture.arrows, count, &grid)?,
        width: grid.right().saturating_add(MARGIN),
        height: grid.bottom,
    })
}

/// Where arrows lead from a box to a box, of which there are so many.
fn links(alloc: Global, arrows: &[Arrow], boxes: usize) -> Result<Vec<Ends>, Memory> {
    let mut links = Vec::new(alloc);
    for arrow in arrows {
        if let Some(ends) = ends_of(arrow, boxes) {
            links.push(ends)?;
        }
    }
    Ok(links)
}

/// How large boxes are.
fn sizes(alloc: Global, clients: &[String], boxes: &[PictureBox]) -> Result<Vec<Size>, Memory> {
    let mut sizes = Vec::new(alloc);
    for shown in boxes {
        sizes.push(box_size(alloc, clients, shown)?)?;
    }
    Ok(sizes)
}

/// A place for each of so many boxes, which are as wide as their columns.
fn places(alloc: Global, count: usize, grid: &Grid) -> Result<Vec<BoxPlace>, Memory>
    ensures { IfOk result (λ places. length places.items ≡ count) }
{
    let mut places = Vec::new(alloc);
    for number in 0..count {
        places.push(place(grid, number))?;
    }
    Ok(places)
}

/// The place of the box with this number.
fn place(grid: &Grid, number: usize) -> BoxPlace {
    let spot = grid.spot(number);
    let column = grid.column(spot.column);
    BoxPlace {
        left: column.left,
        top: spot.top,
        width: column.right.saturating_sub(column.left),
        height: spot.size.height,
    }
}
