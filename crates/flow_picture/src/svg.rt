//! The text of a picture.
ghost use Rattle.std.specs.Prelude.{◌≡◌, ◌++◌, ◌∷◌, [], IfOk, OnOk, flat_map, length, map, string_bytes};
ghost use Rattle.std.specs.List.{list_any};
ghost use Rattle.meter_theory.specs.Edges.{same_cause};
ghost use Rattle.shown_text.specs.Pieces.{cell, facts, mark};
ghost use Rattle.flow_picture.specs.Svg as spec;
ghost use Rattle.flow_picture.specs.Svg.{IsPicture, Says, arrow_facts, box_facts};

use crate::arrows::put_arrow;
use crate::boxes::put_box;
use crate::layout::{ArrowLine, BoxPlace, Layout, lay_out};
use crate::picture::{Arrow, Picture};
use crate::placed::put_placed;
use cosem_data::cell::CellRef;
use cosem_data::memory::Memory;
use meter_theory::flow::Cause;
use shown_text::pieces::Piece::{self, Cell, Constant, Hole, Mark, Number};
use shown_text::pieces::{put, render};
use std::alloc::Global;
use value_text::edge::word_of;

/// So many cells without edges are named at most.
const MOST_ALONE: usize = 40;

/// What is shown of a picture without arrows.
const NO_EDGES: &str = "<p>There are no edges: each value stays in its cell.</p>\n";
/// Begins the legend.
const LEGEND: &str = "<p>From each cell to those that its value may reach or decide. \
    Choose a client to see what it may change and learn.</p>\n<ul class=\"key\">";
/// Begins a cause of the legend.
const KEY: &str =
    "<li><svg class=\"key-line\" width=\"44\" height=\"8\" aria-hidden=\"true\"><path class=\"";
/// Begins the choice of a client, with that of none.
const CHOICE: &str = "<fieldset class=\"radio\"><legend class=\"free\">Show for</legend>\
    <label class=\"pick\"><input type=\"radio\" name=\"client\" checked> no client</label>\n";
/// Begins the choice of one client.
const CLIENT: &str = "<label class=\"pick\"><input type=\"radio\" name=\"client\" class=\"p";
/// Begins the drawing.
const DRAWING: &str = "\n<div class=\"picture\" tabindex=\"0\" role=\"region\" \
    aria-labelledby=\"picture\"><svg role=\"img\" \
    aria-label=\"Flow between cells; the list of edges says the same\" width=\"";
/// Begins the cells without edges.
const ALONE: &str = "<p>Without edges: ";

/// The text of a picture: its legend, the choice of a client, the drawing, and the cells without edges. Each box and each arrow is
/// drawn once, in its order. The only error is want of memory.
pub fn picture_text(alloc: Global, picture: &Picture) -> Result<String, Memory>
    ensures { IfOk result (λ text. IsPicture picture.now (string_bytes text)) }
{
    let mut text = String::new(alloc);
    if picture.arrows.is_empty() {
        push_no_edges(alloc, &mut text)?;
    } else {
        push_drawn(alloc, picture, &mut text)?;
    }
    Ok(text)
}

/// Prints that there are no edges.
fn push_no_edges(alloc: Global, text: &mut String) -> Result<(), Memory>
    ensures { OnOk result (Says (mark NO_EDGES.now ∷ []) (string_bytes text.old) (string_bytes text.new)) }
{
    let mut pieces = Vec::new(alloc);
    put(&mut pieces, &[Mark(NO_EDGES)])?;
    render(&pieces, text)
}

/// Prints a picture that has arrows.
fn push_drawn(alloc: Global, picture: &Picture, text: &mut String) -> Result<(), Memory>
    ensures { OnOk result (Says (spec.drawn_facts picture.now) (string_bytes text.old) (string_bytes text.new)) }
{
    let layout = lay_out(alloc, picture)?;
    push_head(alloc, picture, &layout, text)?;
    push_arrows(alloc, picture, &layout.lines, text)?;
    push_boxes(alloc, picture, &layout.boxes, text)?;
    push_alone(alloc, picture, text)
}

/// Prints the legend and the choice of a client, and begins the drawing.
fn push_head(
    alloc: Global,
    picture: &Picture,
    layout: &Layout,
    text: &mut String,
) -> Result<(), Memory>
    ensures { OnOk result (Says (spec.head_facts picture.now) (string_bytes text.old) (string_bytes text.new)) }
{
    let causes = [
        Cause::Monitored,
        Cause::Monitor,
        Cause::Captured,
        Cause::Menu,
        Cause::Period,
        Cause::Schedule,
        Cause::Clock,
    ];
    let mut pieces = Vec::new(alloc);
    put(&mut pieces, &[Mark(LEGEND)])?;
    put_causes(&mut pieces, &causes, &picture.arrows)?;
    put(&mut pieces, &[Constant("</ul>\n"), Mark(CHOICE)])?;
    put_clients(&mut pieces, &picture.clients)?;
    let (width, height) = (i64::from(layout.width), i64::from(layout.height));
    let size = [(DRAWING, width), ("\" height=\"", height)];
    put_placed(&mut pieces, &size, "\" viewBox=\"")?;
    put_placed(&mut pieces, &[("0 0 ", width), (" ", height)], "\">\n")?;
    render(&pieces, text)
}

/// Prints the arrows of a picture, each with its line.
fn push_arrows(
    alloc: Global,
    picture: &Picture,
    lines: &[ArrowLine],
    text: &mut String,
) -> Result<(), Memory>
    requires { length lines.now ≡ length picture.now.arrows.items }
    ensures { OnOk result (Says (flat_map (arrow_facts picture.now.boxes.items) picture.now.arrows.items)
        (string_bytes text.old) (string_bytes text.new)) }
{
    let mut pieces = Vec::new(alloc);
    for (number, arrow) in picture.arrows.iter().enumerate() {
        put_arrow(&mut pieces, &picture.boxes, arrow, &lines[number])?;
    }
    render(&pieces, text)
}

/// Prints the boxes of a picture, each at its place, and ends the drawing.
fn push_boxes(
    alloc: Global,
    picture: &Picture,
    places: &[BoxPlace],
    text: &mut String,
) -> Result<(), Memory>
    requires { length places.now ≡ length picture.now.boxes.items }
    ensures { OnOk result (Says (flat_map (box_facts picture.now.clients.items) picture.now.boxes.items)
        (string_bytes text.old) (string_bytes text.new)) }
{
    let mut pieces = Vec::new(alloc);
    for (number, shown) in picture.boxes.iter().enumerate() {
        put_box(alloc, &mut pieces, &picture.clients, shown, &places[number])?;
    }
    put(&mut pieces, &[Constant("</svg></div></fieldset>\n")])?;
    render(&pieces, text)
}

/// Prints the cells without edges, if there are some and not too many.
fn push_alone(alloc: Global, picture: &Picture, text: &mut String) -> Result<(), Memory>
    ensures { OnOk result (Says (spec.alone_facts picture.now.alone.items) (string_bytes text.old) (string_bytes text.new)) }
{
    let mut pieces = Vec::new(alloc);
    if !picture.alone.is_empty() && picture.alone.len() <= MOST_ALONE {
        put(&mut pieces, &[Mark(ALONE)])?;
        put_cells(&mut pieces, &picture.alone)?;
        put(&mut pieces, &[Constant(".</p>\n")])?;
    }
    render(&pieces, text)
}

/// Puts those of these causes that an arrow has.
fn put_causes(pieces: &mut Vec<Piece<'_>>, causes: &[Cause], arrows: &[Arrow]) -> Result<(), Memory>
    ensures { OnOk result (facts pieces.new.items
        ≡ facts pieces.old.items ++ flat_map (spec.cause_facts arrows.now) causes.now) }
{
    for cause in causes {
        put_cause(pieces, *cause, arrows)?;
    }
    Ok(())
}

/// Puts a cause, if an arrow has it.
fn put_cause(pieces: &mut Vec<Piece<'_>>, cause: Cause, arrows: &[Arrow]) -> Result<(), Memory>
    ensures { OnOk result (facts pieces.new.items ≡ facts pieces.old.items ++ spec.cause_facts arrows.now cause) }
{
    if !has_cause(arrows, cause) {
        return Ok(());
    }
    let word = Mark(word_of(cause));
    put(pieces, &[Constant(KEY), word])?;
    put(pieces, &[Constant("\" d=\"M0 4H44\"/></svg> "), word])?;
    put(pieces, &[Constant("</li>")])
}

/// Whether an arrow has this cause.
fn has_cause(arrows: &[Arrow], cause: Cause) -> bool
    ensures { result ≡ list_any (λ arrow. same_cause arrow.cause cause) arrows.now }
{
    arrows.iter().any(|arrow| arrow.cause == cause)
}

/// Puts the choice of each client, by its number.
fn put_clients<'a>(pieces: &mut Vec<Piece<'a>>, clients: &'a [String]) -> Result<(), Memory>
    ensures { OnOk result (facts pieces.new.items ≡ facts pieces.old.items ++ spec.clients_facts 0 clients.now) }
{
    for (number, name) in clients.iter().enumerate() {
        let (number, name) = (Number(number as u128), Hole(name.as_str()));
        put(pieces, &[Mark(CLIENT), number, Constant("\"> ")])?;
        put(pieces, &[name, Constant("</label>\n")])?;
    }
    Ok(())
}

/// Puts cells, with commas between them.
fn put_cells(pieces: &mut Vec<Piece<'_>>, cells: &[CellRef]) -> Result<(), Memory>
    ensures { OnOk result (facts pieces.new.items ≡ facts pieces.old.items ++ map cell cells.now) }
{
    for (number, cell) in cells.iter().enumerate() {
        let before = if number == 0 { "<code>" } else { ", <code>" };
        let cell = Cell(*cell);
        put(pieces, &[Constant(before), cell, Constant("</code>")])?;
    }
    Ok(())
}
