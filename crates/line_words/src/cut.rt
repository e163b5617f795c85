//! Lines that aren't longer than a terminal takes well.
ghost use Rattle.std.specs.Prelude.{◌≡◌, ◌++◌, OnOk};
ghost use Rattle.line_words.specs.Lines as spec;

use cosem_data::memory::Memory;
use std::alloc::Global;

/// How many bytes of a line are told, the newline among them.
const LONGEST: usize = 1001;

/// How many bytes are left of a longer one.
const LEFT: usize = 960;

/// Puts a line, which ends with its newline, behind others: a longer one than 1,000 characters is cut, and tells how many it had more.
/// The error is that memory was refused.
#[tactic(auto, unfolding(crate::specs::Lines::cut))]
pub(crate) fn push_cut(alloc: Global, line: &[u8], lines: &mut Vec<u8>) -> Result<(), Memory>
    ensures { OnOk result (lines.new.items ≡ lines.old.items ++ spec.cut line.now) }
{
    if line.len() <= LONGEST {
        lines.extend_from_slice(line)?;
        return Ok(());
    }
    let (front, behind) = line.split_at(LEFT);
    let more = behind.len();
    lines.extend_from_slice(front)?;
    lines.extend_from_slice(format!(in alloc; " ... and {more} bytes more\n")?.as_bytes())?;
    Ok(())
}
