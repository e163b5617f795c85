//! Cells as they are printed (own profile).
ghost use Rattle.std.specs.Prelude.{◌≡◌, ◌++◌, OnErr, OnOk};
ghost use Rattle.value_text.specs.Texts.{cell_text};

use cosem_data::cell::CellRef;
use cosem_data::memory::Memory;
use std::alloc::Global;
use std::fmt;

/// A cell as it is printed: `class_id/logical name/attribute`, with `seen` for the inner cell of a register monitor.
#[derive(Drop)]
pub struct CellText(pub CellRef);

impl fmt::Display for CellText {
    ghost use Rattle.std.specs.Prelude.{Some};
    ghost use Rattle.value_text.specs.Texts.{cell_text};

    ghost output = { λ cell. Some (cell_text cell.0) };

    fn fmt<W: fmt::Write>(&self, f: &mut fmt::Formatter<W>) -> fmt::Result {
        let CellRef {
            class_id,
            name,
            index,
        } = self.0;
        if index == 0 {
            write!(f, "{class_id}/{name}/seen")
        } else {
            write!(f, "{class_id}/{name}/{index}")
        }
    }
}

/// Puts the text of a cell behind a text. The error is that memory was refused, and then the text is as it was.
pub fn push_cell(alloc: Global, cell: &CellRef, text: &mut Vec<u8>) -> Result<(), Memory>
    ensures ok { OnOk result (text.new.items ≡ text.old.items ++ cell_text cell.now) }
    ensures err { OnErr result (text.new.items ≡ text.old.items) }
{
    let cell = CellText(*cell);
    let written = format!(in alloc; "{cell}")?;
    text.extend_from_slice(written.as_bytes())?;
    Ok(())
}
