//! The pieces of boxes.
ghost use Rattle.std.specs.Prelude.{◌≡◌, ◌++◌, OnOk, map};
ghost use Rattle.shown_text.specs.Pieces.{facts};
ghost use Rattle.flow_picture.specs.Svg as spec;

use crate::box_text::{names_in, put_kind, put_name, put_who};
use crate::layout::{BoxPlace, Point};
use crate::picture::PictureBox;
use crate::placed::put_placed;
use cosem_data::clients::ClientSet;
use cosem_data::memory::Memory;
use meter_theory::limits::CLIENTS;
use shown_text::pieces::Piece::{self, Constant, Mark, Number};
use shown_text::pieces::put;
use std::alloc::Global;

/// Begins a box.
const BOX: &str = "<g class=\"n";
/// Begins the class of a client that may influence something, before its number.
pub(crate) const INFLUENCES: &str = " i";
/// Begins the class of a client that may learn something, before its number.
pub(crate) const LEARNS: &str = " l";
/// Begins the line of those who may change a cell by a right.
pub(crate) const CHANGERS: &str = "set, act: ";
/// Begins the line of those who may read a cell by a right.
pub(crate) const READERS: &str = "get: ";
/// What a client that is chosen may do to the cell of a box.
const MAY_CHANGE: &str = "may change";

const MAY_LEARN: &str = "may learn";
/// What it may do to some of the cells of a box that has more.
const MAY_CHANGE_SOME: &str = "may change some";

const MAY_LEARN_SOME: &str = "may learn some";

/// Puts a box at its place: who may influence and learn it, its frame and its words, and over it what a client that is chosen
/// may do.
pub(crate) fn put_box<'a>(
    alloc: Global,
    pieces: &mut Vec<Piece<'a>>,
    clients: &'a [String],
    shown: &PictureBox,
    place: &BoxPlace,
) -> Result<(), Memory>
    ensures { OnOk result (facts pieces.new.items ≡ facts pieces.old.items ++ spec.box_facts clients.now shown.now) }
{
    put(pieces, &[Mark(BOX)])?;
    put_classes(pieces, INFLUENCES, shown.influence)?;
    put_classes(pieces, LEARNS, shown.learn)?;
    put_frame(pieces, place)?;
    put_words(alloc, pieces, clients, shown, place)?;
    put_chosen(pieces, shown.cells, place)
}

/// Puts the classes of the clients of a set, each after what they may do.
#[tactic(auto, using(crate::proofs::Words::after_more))]
pub(crate) fn put_classes(
    pieces: &mut Vec<Piece<'_>>,
    doing: &'static str,
    set: ClientSet,
) -> Result<(), Memory>
    ensures { OnOk result (facts pieces.new.items ≡ facts pieces.old.items ++ spec.classes_of doing.now set) }
{
    for client in 0..CLIENTS as u8 {
        put_class(pieces, doing, set, client)?;
    }
    Ok(())
}

/// Puts the class of a client after what it may do, if the set has it.
fn put_class(
    pieces: &mut Vec<Piece<'_>>,
    doing: &'static str,
    set: ClientSet,
    client: u8,
) -> Result<(), Memory>
    ensures { OnOk result (facts pieces.new.items ≡ facts pieces.old.items ++ spec.class_of doing.now set client) }
{
    if !set.has(client) {
        return Ok(());
    }
    let client = Number(u128::from(client));
    put(pieces, &[Mark(doing), client])
}

/// Puts the frame of a box: its outline, and a bar on its left and one on its right.
fn put_frame(pieces: &mut Vec<Piece<'_>>, place: &BoxPlace) -> Result<(), Memory>
    ensures { OnOk result (facts pieces.new.items ≡ facts pieces.old.items) }
{
    let (left, top) = (i64::from(place.left), i64::from(place.top));
    let (width, height) = (i64::from(place.width), i64::from(place.height));
    let frame = [
        ("\"><rect class=\"box\" x=\"", left),
        ("\" y=\"", top),
        ("\" width=\"", width),
        ("\" height=\"", height),
        ("\" rx=\"4\"/><rect class=\"bar bi\" x=\"", left),
        ("\" y=\"", top),
        ("\" width=\"6\" height=\"", height),
        ("\"/><rect class=\"bar bl\" x=\"", left + width - 6),
        ("\" y=\"", top),
        ("\" width=\"6\" height=\"", height),
    ];
    put_placed(pieces, &frame, "\"/>")
}

/// Puts the words of a box, each line below the one before.
fn put_words<'a>(
    alloc: Global,
    pieces: &mut Vec<Piece<'a>>,
    clients: &'a [String],
    shown: &PictureBox,
    place: &BoxPlace,
) -> Result<(), Memory>
    ensures { OnOk result (facts pieces.new.items ≡ facts pieces.old.items ++ spec.words_facts clients.now shown.now) }
{
    begin_line(pieces, "<text class=\"b\" x=\"", line_at(place, 0))?;
    put_name(pieces, shown)?;
    begin_line(pieces, "</text><text class=\"q\" x=\"", line_at(place, 1))?;
    put_kind(pieces, shown)?;
    put(pieces, &[Constant("</text>")])?;
    let changers = names_in(alloc, clients, shown.changers)?;
    let readers = names_in(alloc, clients, shown.readers)?;
    let below = if changers.is_empty() { 2 } else { 3 };
    let (change, read) = ("<text class=\"ti\" x=\"", "<text class=\"tl\" x=\"");
    put_line(
        alloc,
        pieces,
        change,
        line_at(place, 2),
        CHANGERS,
        &changers,
    )?;
    put_line(
        alloc,
        pieces,
        read,
        line_at(place, below),
        READERS,
        &readers,
    )
}

/// Puts a line at this place that says who may do something, if anybody may.
fn put_line<'a>(
    alloc: Global,
    pieces: &mut Vec<Piece<'a>>,
    begin: &'static str,
    at: Point,
    doing: &'static str,
    names: &[&'a str],
) -> Result<(), Memory>
    ensures { OnOk result (facts pieces.new.items
        ≡ facts pieces.old.items ++ spec.who_if_any doing.now (map (λ name. name.now) names.now)) }
{
    if names.is_empty() {
        return Ok(());
    }
    begin_line(pieces, begin, at)?;
    put_who(alloc, pieces, doing, names)?;
    put(pieces, &[Constant("</text>")])
}

/// Begins a line of the words of a box at this place.
fn begin_line(pieces: &mut Vec<Piece<'_>>, begin: &'static str, at: Point) -> Result<(), Memory>
    ensures { OnOk result (facts pieces.new.items ≡ facts pieces.old.items) }
{
    put_placed(pieces, &[(begin, at.x), ("\" y=\"", at.y)], "\">")
}

/// Where a line of the words of a box begins, counted from 0.
fn line_at(place: &BoxPlace, line: u8) -> Point {
    Point {
        x: i64::from(place.left) + 11,
        y: i64::from(place.top) + 17 + 15 * i64::from(line),
    }
}

/// Puts what a client that is chosen may do, over the box, and ends the box.
fn put_chosen(pieces: &mut Vec<Piece<'_>>, cells: usize, place: &BoxPlace) -> Result<(), Memory>
    ensures { OnOk result (facts pieces.new.items ≡ facts pieces.old.items ++ spec.chosen_facts cells) }
{
    let (change, learn) = if cells == 1 {
        (MAY_CHANGE, MAY_LEARN)
    } else {
        (MAY_CHANGE_SOME, MAY_LEARN_SOME)
    };
    let left = ("<text class=\"won ti ci\" x=\"", i64::from(place.left));
    let right = i64::from(place.left) + i64::from(place.width);
    let right = ("</text><text class=\"won tl cl\" x=\"", right);
    let over = ("\" y=\"", i64::from(place.top) - 4);
    put_placed(pieces, &[left, over], "\">")?;
    put(pieces, &[Mark(change)])?;
    put_placed(pieces, &[right, over], "\" text-anchor=\"end\">")?;
    put(pieces, &[Mark(learn), Constant("</text></g>\n")])
}
