//! Lines for a terminal, which gets no control characters by them but ends of lines (own profile).
ghost use Rattle.std.specs.Prelude.{IfOk, OnOk, string_bytes};
ghost use Rattle.explanations.specs.Lines.{AreLines};

use cosem_data::memory::Memory;
use shown_text::laws::shown_texts_are_plain;
use shown_text::printable::push_printable;
use std::alloc::Global;

/// Puts a byte after lines: as it is where it is printable or ends a line, and else as `\xHH`. The error is that memory was
/// refused.
fn push_byte(byte: u8, lines: &mut String) -> Result<(), Memory>
    requires { AreLines (string_bytes lines.old) }
    ensures { OnOk result (AreLines (string_bytes lines.new)) }
{
    shown_texts_are_plain();
    if byte == b'\n' {
        lines.push('\n')?;
        Ok(())
    } else {
        push_printable(&[byte], lines)
    }
}

/// Text as lines for a terminal: each byte that is neither printable nor ends a line as `\xHH`. The error is that memory was
/// refused.
pub(crate) fn lines_of(alloc: Global, text: &str) -> Result<String, Memory>
    ensures { IfOk result (λ lines. AreLines (string_bytes lines)) }
{
    let mut lines = String::with_capacity(alloc, text.len())?;
    for byte in text.as_bytes() {
        push_byte(*byte, &mut lines)?;
    }
    Ok(lines)
}
