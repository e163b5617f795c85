//! The pieces of arrows.
ghost use Rattle.std.specs.Prelude.{◌≡◌, ◌++◌, OnOk, slice_get};
ghost use Rattle.shown_text.specs.Pieces.{facts};
ghost use Rattle.flow_picture.specs.Svg as spec;

use crate::box_text::put_name;
use crate::boxes::{INFLUENCES, LEARNS, put_classes};
use crate::layout::{ArrowLine, Curve, Point};
use crate::picture::{Arrow, PictureBox};
use crate::placed::put_placed;
use cosem_data::memory::Memory;
use shown_text::pieces::Piece::{self, Constant, Mark, Number};
use shown_text::pieces::put;
use value_text::edge::word_of;

/// Begins an arrow.
const ARROW: &str = "<g class=\"a";
/// Stands between the source and the target of an arrow.
const LEADS_TO: &str = " -&gt; ";

/// Puts an arrow between these boxes: who lights it, its line and its title.
pub(crate) fn put_arrow(
    pieces: &mut Vec<Piece<'_>>,
    boxes: &[PictureBox],
    arrow: &Arrow,
    line: &ArrowLine,
) -> Result<(), Memory>
    ensures { OnOk result (facts pieces.new.items ≡ facts pieces.old.items ++ spec.arrow_facts boxes.now arrow.now) }
{
    let source = box_at(boxes, arrow.source);
    let target = box_at(boxes, arrow.target);
    let cause = Mark(word_of(arrow.cause));
    put(pieces, &[Mark(ARROW)])?;
    put_lights(pieces, source, target)?;
    put(pieces, &[Constant("\"><path class=\""), cause])?;
    put_line(pieces, line)?;
    put_title(pieces, source, target, arrow)
}

/// The box with this number, if there is one.
fn box_at(boxes: &[PictureBox], number: usize) -> Option<PictureBox>
    ensures { result ≡ slice_get boxes.now number }
{
    boxes.get(number).copied()
}

/// Puts who lights an arrow: who may influence its source, and who may learn its target.
fn put_lights(
    pieces: &mut Vec<Piece<'_>>,
    source: Option<PictureBox>,
    target: Option<PictureBox>,
) -> Result<(), Memory>
    ensures { OnOk result (facts pieces.new.items ≡ facts pieces.old.items ++ spec.lit_facts source target) }
{
    if let Some(source) = source {
        put_classes(pieces, INFLUENCES, source.influence)?;
    }
    if let Some(target) = target {
        put_classes(pieces, LEARNS, target.learn)?;
    }
    Ok(())
}

/// Puts the line of an arrow and its head.
fn put_line(pieces: &mut Vec<Piece<'_>>, line: &ArrowLine) -> Result<(), Memory>
    ensures { OnOk result (facts pieces.new.items ≡ facts pieces.old.items) }
{
    put_point(pieces, "\" d=\"M", line.start)?;
    for pass in &line.passes {
        put_curve(pieces, pass.curve)?;
        put_placed(pieces, &[("H", pass.right)], "")?;
    }
    put_curve(pieces, line.last)?;
    put_point(pieces, "\"/><path class=\"h\" d=\"M", line.tip)?;
    put(pieces, &[Constant("l-8 -4v8z\"/>")])
}

/// Puts a curve from where a line is.
fn put_curve(pieces: &mut Vec<Piece<'_>>, curve: Curve) -> Result<(), Memory>
    ensures { OnOk result (facts pieces.new.items ≡ facts pieces.old.items) }
{
    put_point(pieces, "C", curve.leaving)?;
    put_point(pieces, " ", curve.arriving)?;
    put_point(pieces, " ", curve.end)
}

/// Puts a point after this markup.
fn put_point(pieces: &mut Vec<Piece<'_>>, before: &'static str, at: Point) -> Result<(), Memory>
    ensures { OnOk result (facts pieces.new.items ≡ facts pieces.old.items) }
{
    put_placed(pieces, &[(before, at.x), (" ", at.y)], "")
}

/// Puts the title of an arrow, which says what edges it stands for, and ends the arrow.
fn put_title(
    pieces: &mut Vec<Piece<'_>>,
    source: Option<PictureBox>,
    target: Option<PictureBox>,
    arrow: &Arrow,
) -> Result<(), Memory>
    ensures { OnOk result (facts pieces.new.items
        ≡ facts pieces.old.items ++ spec.title_facts source target arrow.now) }
{
    put(pieces, &[Constant("<title>")])?;
    if let Some(source) = source {
        put_name(pieces, &source)?;
    }
    put(pieces, &[Mark(LEADS_TO)])?;
    if let Some(target) = target {
        put_name(pieces, &target)?;
    }
    put(pieces, &[Constant(" "), Mark(word_of(arrow.cause))])?;
    if arrow.edges != 1 {
        let edges = Number(arrow.edges as u128);
        put(pieces, &[Constant(", "), edges, Constant(" edges")])?;
    }
    put(pieces, &[Constant("</title></g>\n")])
}
