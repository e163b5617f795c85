//! The words that stand in a box, as pieces.
ghost use Rattle.std.specs.Prelude.{◌≡◌, ◌++◌, IfOk, OnOk, map};
ghost use Rattle.shown_text.specs.Pieces.{facts, text};
ghost use Rattle.flow_picture.specs.Svg as spec;

use crate::picture::PictureBox;
use cosem_data::clients::ClientSet;
use cosem_data::memory::Memory;
use flow_map::class_words::{attribute_name, class_name};
use meter_theory::limits::CLIENTS;
use shown_text::pieces::Piece::{self, Cell, Constant, Hole, Mark, Number};
use shown_text::pieces::put;
use std::alloc::Global;

/// So many letters at most have names that are short.
const LETTERS: usize = 26;
/// Stands between names.
const BETWEEN: &str = ", ";
/// The index of the inner cell of a register monitor.
const SEEN: &str = "seen";

/// Puts which cells a box has: its cell, or how many there are, and their class and attribute.
pub(crate) fn put_name(pieces: &mut Vec<Piece<'_>>, shown: &PictureBox) -> Result<(), Memory>
    ensures { OnOk result (facts pieces.new.items ≡ facts pieces.old.items ++ spec.name_facts shown.now) }
{
    let cell = shown.cell;
    if shown.cells == 1 {
        return put(pieces, &[Cell(cell)]);
    }
    let index = if cell.index == 0 {
        Mark(SEEN)
    } else {
        Number(u128::from(cell.index))
    };
    let cells = Number(shown.cells as u128);
    let class_id = Number(u128::from(cell.class_id));
    put(pieces, &[cells, Constant(" x "), class_id])?;
    put(pieces, &[Constant("/*/"), index])
}

/// Puts the names of the class and the attribute of the cells of a box.
pub(crate) fn put_kind(pieces: &mut Vec<Piece<'_>>, shown: &PictureBox) -> Result<(), Memory>
    ensures { OnOk result (facts pieces.new.items ≡ facts pieces.old.items ++ spec.kind_facts shown.now) }
{
    let class = Mark(class_name(shown.cell.class_id));
    let attribute = Mark(attribute_name(shown.cell.class_id, shown.cell.index));
    put(pieces, &[class, Constant(", "), attribute])
}

/// Puts who may do something: their names, or how many clients they are where these are too long.
pub(crate) fn put_who<'a>(
    alloc: Global,
    pieces: &mut Vec<Piece<'a>>,
    doing: &'static str,
    names: &[&'a str],
) -> Result<(), Memory>
    ensures { OnOk result (facts pieces.new.items
        ≡ facts pieces.old.items ++ spec.who_facts doing.now (map (λ name. name.now) names.now)) }
{
    put(pieces, &[Mark(doing)])?;
    if are_short(alloc, names)? {
        return put_names(pieces, names);
    }
    let plural = if names.len() == 1 { "" } else { "s" };
    let count = Number(names.len() as u128);
    put(pieces, &[count, Constant(" client"), Constant(plural)])
}

/// Whether names are short, with what stands between them. The error is that memory was refused.
fn are_short(alloc: Global, names: &[&str]) -> Result<bool, Memory>
    ensures { IfOk result (λ short. short ≡ spec.are_short (map (λ name. name.now) names.now)) }
{
    Ok(names.join(alloc, BETWEEN)?.len() <= LETTERS)
}

/// Puts names, with commas between them.
fn put_names<'a>(pieces: &mut Vec<Piece<'a>>, names: &[&'a str]) -> Result<(), Memory>
    ensures { OnOk result (facts pieces.new.items
        ≡ facts pieces.old.items ++ map text (map (λ name. name.now) names.now)) }
{
    for (number, name) in names.iter().enumerate() {
        let before = if number == 0 { "" } else { BETWEEN };
        put(pieces, &[Constant(before), Hole(name)])?;
    }
    Ok(())
}

/// The names of the clients of a set, in the order of the clients. The error is that memory was refused.
#[tactic(auto, using(crate::proofs::Words::number_more))]
pub(crate) fn names_in<'a>(
    alloc: Global,
    clients: &'a [String],
    set: ClientSet,
) -> Result<Vec<&'a str>, Memory>
    ensures { IfOk result (λ names. map (λ name. name.now) names.items ≡ spec.names_in clients.now set) }
{
    let mut names = Vec::new(alloc);
    for client in 0..CLIENTS as u8 {
        push_name(clients, set, client, &mut names)?;
    }
    Ok(names)
}

/// Adds the name of the client with this number to names, if the set has it. The error is that memory was refused.
fn push_name<'a>(
    clients: &'a [String],
    set: ClientSet,
    client: u8,
    names: &mut Vec<&'a str>,
) -> Result<(), Memory>
    ensures { OnOk result (map (λ name. name.now) names.new.items
        ≡ map (λ name. name.now) names.old.items ++ spec.name_if_in clients.now set client) }
{
    if !set.has(client) {
        return Ok(());
    }
    let Some(name) = clients.get(usize::from(client)) else {
        return Ok(());
    };
    names.push(name.as_str())?;
    Ok(())
}
