//! The line by which an event of a connection is told (own profile).
ghost use Rattle.std.specs.Prelude.{◌≡◌, IfOk, string_bytes};
ghost use Rattle.peer_watch.specs.Lines.{line_text};

use crate::events::Event;
use crate::words::{seat_words, words_of};
use cosem_data::memory::Memory;
use shown_text::printable::printable_text;
use std::alloc::Global;
use std::fmt;
use utc_moment::moment::UtcMoment;

/// A moment, or `-`.
#[derive(Clone, Copy, Drop)]
struct At(Option<UtcMoment>);

impl fmt::Display for At {
    ghost use Rattle.std.specs.Prelude.{Some};
    ghost use Rattle.peer_watch.specs.Lines.{moment_words};

    ghost output = { λ at. Some (moment_words at.0) };

    fn fmt<W: fmt::Write>(&self, f: &mut fmt::Formatter<W>) -> fmt::Result {
        match self.0 {
            Some(moment) => write!(f, "{moment}"),
            None => f.write_str("-"),
        }
    }
}

/// The line that tells an event: when, or `-` where that isn't known; of which connection, by its address; at which seat; and what. It
/// has printable characters of ASCII alone, and then a line feed: any other byte stands in it as `\xHH`.
///
/// # Errors
/// `Memory` where memory is refused.
pub fn line_of(
    alloc: Global,
    moment: Option<UtcMoment>,
    peer: &str,
    seat: Option<usize>,
    event: &Event<'_>,
) -> Result<String, Memory>
    ensures { IfOk result (λ line. string_bytes line ≡ line_text moment peer.now seat event.now) }
{
    let at = At(moment);
    let seat = seat_words(seat);
    let words = words_of(event);
    let told = format!(in alloc; "{at} {peer}{seat}: {words}")?;
    let mut line = printable_text(alloc, &told)?;
    line.push('\n')?;
    Ok(line)
}
