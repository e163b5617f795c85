//! The lines of arrows.
ghost use Rattle.std.specs.Prelude.{◌≡◌, IfOk, length};

use crate::columns::Ends;
use crate::layout::{ArrowLine, Curve, Pass, Point};
use crate::picture::Arrow;
use crate::places::{Column, Grid};
use cosem_data::memory::Memory;
use std::alloc::Global;

/// How far before its tip a line ends.
const HEAD: i64 = 7;
/// How far a line that leads back swings out.
const SWING: i64 = 40;

/// Where an arrow leads, if it leads from a box to a box, of which there are so many.
pub(crate) fn ends_of(arrow: &Arrow, boxes: usize) -> Option<Ends> {
    let ends = Ends {
        source: arrow.source,
        target: arrow.target,
    };
    (ends.source < boxes && ends.target < boxes).then_some(ends)
}

/// A line for each arrow between so many boxes; one from or to none is no line. The error is that memory was refused.
pub(crate) fn lines(
    alloc: Global,
    arrows: &[Arrow],
    boxes: usize,
    grid: &Grid,
) -> Result<Vec<ArrowLine>, Memory>
    ensures { IfOk result (λ lines. length lines.items ≡ length arrows.now) }
{
    let mut earlier = Vec::new(alloc);
    let mut lines = Vec::new(alloc);
    for arrow in arrows {
        lines.push(line(alloc, ends_of(arrow, boxes), grid, &mut earlier)?)?;
    }
    Ok(lines)
}

/// The line of an arrow after earlier ones, to which it is added.
fn line(
    alloc: Global,
    ends: Option<Ends>,
    grid: &Grid,
    earlier: &mut Vec<Ends>,
) -> Result<ArrowLine, Memory> {
    let Some(ends) = ends else {
        return Ok(no_line(alloc));
    };
    let alike = earlier.iter().filter(|other| **other == ends).count();
    let back = grid.count_back(earlier);
    earlier.push(ends)?;
    let shift = i64::from(u32::try_from(alike).unwrap_or(0)).saturating_mul(5);
    if grid.goes_on(ends) {
        line_on(alloc, ends, grid, shift)
    } else {
        line_back(alloc, ends, grid, shift, back)
    }
}

/// No line: all its points are one.
fn no_line(alloc: Global) -> ArrowLine {
    let point = Point { x: 0, y: 0 };
    ArrowLine {
        start: point,
        passes: Vec::new(alloc),
        last: curve(point, point),
        tip: point,
    }
}

/// A line to a column further on: curves between columns, and straight lines along the places where it passes them.
fn line_on(alloc: Global, ends: Ends, grid: &Grid, shift: i64) -> Result<ArrowLine, Memory> {
    let start = start(ends, grid, shift);
    let tip = tip(ends, grid, shift);
    let mut passes = Vec::new(alloc);
    let mut at = start;
    let begin = grid.spot(ends.source).column.saturating_add(1);
    let mut number = grid.passage(ends).unwrap_or(0);
    for column in begin..grid.spot(ends.target).column {
        let pass = pass(at, grid.column(column), grid.spot(number).middle(), shift);
        at = Point {
            x: pass.right,
            y: pass.curve.end.y,
        };
        passes.push(pass)?;
        number = number.saturating_add(1);
    }
    Ok(ArrowLine {
        start,
        passes,
        last: curve(at, before_tip(tip)),
        tip,
    })
}

/// Where a line begins: on the right of its source's column.
fn start(ends: Ends, grid: &Grid, shift: i64) -> Point {
    let source = grid.spot(ends.source);
    Point {
        x: i64::from(grid.column(source.column).right),
        y: i64::from(source.middle()).saturating_add(shift),
    }
}

/// The tip of an arrow: on the left of its target's column.
fn tip(ends: Ends, grid: &Grid, shift: i64) -> Point {
    let target = grid.spot(ends.target);
    Point {
        x: i64::from(grid.column(target.column).left),
        y: i64::from(target.middle()).saturating_add(shift),
    }
}

/// Where a line ends: before its tip.
fn before_tip(tip: Point) -> Point {
    Point {
        x: tip.x.saturating_sub(HEAD),
        y: tip.y,
    }
}

/// A curve from a point to a column, and a straight line through it.
fn pass(from: Point, column: Column, middle: u32, shift: i64) -> Pass {
    let to = Point {
        x: i64::from(column.left),
        y: i64::from(middle).saturating_add(shift),
    };
    Pass {
        curve: curve(from, to),
        right: i64::from(column.right),
    }
}

/// A curve from one point to another, level at both.
fn curve(from: Point, to: Point) -> Curve {
    let bend = to.x.saturating_sub(from.x) / 2;
    Curve {
        leaving: Point {
            x: from.x.saturating_add(bend),
            y: from.y,
        },
        arriving: Point {
            x: to.x.saturating_sub(bend),
            y: to.y,
        },
        end: to,
    }
}

/// A line to the same column or an earlier one, above the boxes: the more lines lead back before it, the higher.
fn line_back(
    alloc: Global,
    ends: Ends,
    grid: &Grid,
    shift: i64,
    back: usize,
) -> Result<ArrowLine, Memory> {
    let start = start(ends, grid, shift);
    let tip = tip(ends, grid, shift);
    let top = grid.spot(ends.source).top.min(grid.spot(ends.target).top);
    let rise = 18 + 6 * (back % 11) as i64;
    let over = i64::from(top).saturating_sub(rise);
    let mut passes = Vec::new(alloc);
    passes.push(Pass {
        curve: swing(start, start.x.saturating_add(SWING), over, start.x),
        right: tip.x,
    })?;
    let from = Point { x: tip.x, y: over };
    Ok(ArrowLine {
        start,
        passes,
        last: swing(from, tip.x.saturating_sub(SWING), tip.y, before_tip(tip).x),
        tip,
    })
}

/// A curve that leaves a point sideways, and ends at this height and place.
fn swing(from: Point, side: i64, height: i64, end: i64) -> Curve {
    Curve {
        leaving: Point { x: side, y: from.y },
        arriving: Point { x: side, y: height },
        end: Point { x: end, y: height },
    }
}
