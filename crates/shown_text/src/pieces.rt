//! Pages as flat values: pieces, one after the other, and one function that prints them (own profile).
ghost use Rattle.std.specs.Prelude.{◌≡◌, ◌++◌, OnOk, string_bytes};
ghost use Rattle.shown_text.specs.Pieces as spec;

use crate::html::Escaped;
use cosem_data::cell::CellRef;
use cosem_data::memory::Memory;
use cosem_data::name::LogicalName;
use value_text::cell::CellText;

/// A piece of a page.
#[derive(Clone, Copy, Drop)]
pub enum Piece<'a> {
    /// Markup of the program that says nothing of what is shown.
    Constant(&'static str),
    /// Markup of the program that says something of what is shown.
    Mark(&'static str),
    /// A text from outside, which is shown escaped.
    Hole(&'a str),
    /// A number, in decimals.
    Number(u128),
    /// A number that says nothing of what is shown, as where something stands.
    Place(u128),
    /// A logical name.
    Name(LogicalName),
    /// A cell.
    Cell(CellRef),
}

impl Piece<'_> {
    /// Puts it after a text. The only error is want of memory, and then a part of it may stand there.
    fn render(&self, page: &mut String) -> Result<(), Memory>
        ensures { OnOk result (string_bytes page.new ≡ string_bytes page.old ++ spec.piece_text self.now) }
    {
        match self {
            Piece::Constant(text) => page.push_str(text)?,
            Piece::Mark(text) => page.push_str(text)?,
            Piece::Hole(text) => write!(page, "{}", Escaped(text))?,
            Piece::Number(number) => write!(page, "{number}")?,
            Piece::Place(number) => write!(page, "{number}")?,
            Piece::Name(name) => write!(page, "{name}")?,
            Piece::Cell(cell) => write!(page, "{}", CellText(*cell))?,
        }
        Ok(())
    }
}

/// Puts pieces after a text. The only error is want of memory, and then some of them may stand there.
pub fn render(pieces: &[Piece<'_>], page: &mut String) -> Result<(), Memory>
    ensures { OnOk result (string_bytes page.new ≡ string_bytes page.old ++ spec.rendered pieces.now) }
{
    for piece in pieces {
        piece.render(page)?;
    }
    Ok(())
}

/// Puts pieces after others. The only error is want of memory.
pub fn put<'a>(pieces: &mut Vec<Piece<'a>>, more: &[Piece<'a>]) -> Result<(), Memory>
    ensures { OnOk result (pieces.new.items ≡ pieces.old.items ++ more.now) }
{
    pieces.extend_from_slice(more)?;
    Ok(())
}
