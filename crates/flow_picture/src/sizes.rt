//! How large boxes are.
use crate::box_text::{names_in, put_kind, put_name, put_who};
use crate::boxes::{CHANGERS, READERS};
use crate::picture::PictureBox;
use cosem_data::clients::ClientSet;
use cosem_data::memory::Memory;
use shown_text::pieces::{Piece, render};
use std::alloc::Global;

/// So many letters wide is a box with one cell at least, so that what a client may do fits over it.
const LETTERS: usize = 20;
/// So many is a box with more cells, of which a client may do that to some.
const LETTERS_FOR_SOME: usize = 29;

/// How large a box is.
#[derive(Clone, Copy, Drop)]
pub(crate) struct Size {
    /// Its width.
    pub width: u32,
    /// Its height.
    pub height: u32,
}

/// How large a box is with its words: 7 pixels for each letter of its longest line, and 15 for each line. The error is that memory
/// was refused.
pub(crate) fn box_size(
    alloc: Global,
    clients: &[String],
    shown: &PictureBox,
) -> Result<Size, Memory> {
    let least = if shown.cells == 1 {
        LETTERS
    } else {
        LETTERS_FOR_SOME
    };
    let mut name = Vec::new(alloc);
    put_name(&mut name, shown)?;
    let mut kind = Vec::new(alloc);
    put_kind(&mut kind, shown)?;
    let changers = who_letters(alloc, clients, shown.changers, CHANGERS)?;
    let readers = who_letters(alloc, clients, shown.readers, READERS)?;
    let letters = least
        .max(letters(alloc, &name)?)
        .max(letters(alloc, &kind)?)
        .max(changers)
        .max(readers);
    let lines = 2 + u32::from(changers != 0) + u32::from(readers != 0);
    Ok(Size {
        width: pixels(letters).saturating_mul(7).saturating_add(22),
        height: 12 + 15 * lines,
    })
}

/// How many letters the line has that says who may do something: none where nobody may.
fn who_letters(
    alloc: Global,
    clients: &[String],
    set: ClientSet,
    doing: &'static str,
) -> Result<usize, Memory> {
    let names = names_in(alloc, clients, set)?;
    if names.is_empty() {
        return Ok(0);
    }
    let mut who = Vec::new(alloc);
    put_who(alloc, &mut who, doing, &names)?;
    letters(alloc, &who)
}

/// How many letters pieces have for who reads them, who sees texts from outside without what escapes them.
fn letters(alloc: Global, pieces: &[Piece<'_>]) -> Result<usize, Memory> {
    let mut line = String::new(alloc);
    for piece in pieces {
        match piece {
            Piece::Hole(text) => line.push_str(text)?,
            _ => render(&[*piece], &mut line)?,
        }
    }
    Ok(line.len())
}

/// A number of letters as a number of pixels can be: at most the largest there is.
fn pixels(letters: usize) -> u32 {
    u32::try_from(letters).unwrap_or(u32::MAX)
}
