//! What a line that a clock makes reads, and what is told of seconds that were skipped (own profile).
ghost use Rattle.std.specs.Prelude.{OnOk, string_bytes};
ghost use Rattle.line_sources.specs.Texts.{IsTextOf, Tells, skipped_text};

use crate::due::Line;
use crate::moments::moment_at;
use std::io::{self, ErrorKind, Write};
use whole_writes::write_whole;

/// Puts the text of a line there, and nothing else: `at MOMENT` or `tick N`, and a line feed.
///
/// # Errors
/// The second has no moment of the years 2000 to 9999, or memory was refused.
pub(crate) fn put_line(text: &mut String, line: Line) -> io::Result<()>
    ensures { OnOk result (IsTextOf line (string_bytes text.new)) }
{
    text.clear();
    let put = match line {
        Line::At(second) => {
            let moment = moment_at(second).ok_or(ErrorKind::InvalidData)?;
            write!(text, "at {moment}\n")
        }
        Line::Ticks(count) => write!(text, "tick {count}\n"),
    };
    put.map_err(|_| io::Error::from(ErrorKind::OutOfMemory))
}

/// Tells that so many seconds were skipped, and says whether that was written whole. The text is where the line is put together.
pub(crate) fn tell_skipped<W: Write>(output: &mut W, text: &mut String, count: u64) -> bool
    ensures { Tells (W.contents output.old) (W.contents output.new) (skipped_text count) result }
{
    text.clear();
    let Ok(()) = write!(
        text,
        "cosem-flow: {count} seconds were skipped, of which no object was told\n"
    ) else {
        return false;
    };
    tell(output, text.as_bytes())
}

/// Tells a text, and says whether it was written whole.
fn tell<W: Write>(output: &mut W, text: &[u8]) -> bool
    ensures { Tells (W.contents output.old) (W.contents output.new) text.now result }
{
    match write_whole(output, text) {
        Ok(()) => true,
        Err(_) => false,
    }
}
