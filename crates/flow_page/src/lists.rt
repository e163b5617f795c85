//! Templates and lists within a page.
ghost use Rattle.std.specs.Prelude.{◌≡◌, ◌++◌, List, OnOk, flat_map};
ghost use Rattle.shown_text.specs.Pieces.{Fact, facts};

use cosem_data::memory::Memory;
use shown_text::pieces::Piece::Constant;
use shown_text::pieces::{Piece, put};

/// The start of a row of a table.
pub(crate) const ROW: &str = "<tr><th scope=\"row\">";

/// The start of a field of a row.
pub(crate) const FIELD: &str = "<td>";

/// The pieces of a part of a page.
pub(crate) type Pieces<'a> = Vec<Piece<'a>>;

/// Puts a template after other pieces: markup that says nothing, with a value in place of each `{}`.
pub(crate) fn fill<'a>(
    pieces: &mut Pieces<'a>,
    template: &'static str,
    values: &[Piece<'a>],
) -> Result<(), Memory>
    ensures { OnOk result (facts pieces.new.items ≡ facts pieces.old.items ++ facts values.now) }
{
    let mut rest = template;
    for value in values {
        let (before, after) = rest.split_once("{}").unwrap_or((rest, ""));
        put(pieces, &[Constant(before), *value])?;
        rest = after;
    }
    put(pieces, &[Constant(rest)])
}

/// What stands in a list of a page.
pub(crate) trait Entry {
    /// What the page says of it.
    ghost says: { Self → List Fact };

    /// Puts it after other pieces. The only error is want of memory, and then a part of it may stand there.
    fn put<'a>(&'a self, pieces: &mut Pieces<'a>) -> Result<(), Memory>
        ensures { OnOk result (facts pieces.new.items ≡ facts pieces.old.items ++ Self.says self.now) };
}

/// Puts entries after other pieces, with this markup between each two. The only error is want of memory.
pub(crate) fn put_each<'a, E: Entry>(
    pieces: &mut Pieces<'a>,
    separator: &'static str,
    entries: &'a [E],
) -> Result<(), Memory>
    ensures { OnOk result (facts pieces.new.items ≡ facts pieces.old.items ++ flat_map E.says entries.now) }
{
    for (i, entry) in entries.iter().enumerate() {
        if i > 0 {
            put(pieces, &[Constant(separator)])?;
        }
        entry.put(pieces)?;
    }
    Ok(())
}

/// The template for one thing or for several.
pub(crate) fn for_number(number: usize, one: &'static str, several: &'static str) -> &'static str {
    if number == 1 { one } else { several }
}
