//! Lines of bytes that come in pieces, however these are cut.
ghost use Rattle.std.specs.Prelude.{◌≡◌, ◌++◌, ◌<◌, [], length, IfOk, IfSome};
ghost use Rattle.line_server.specs.Feeding.{Feeds, SplitsLine, line_with};
ghost use Rattle.line_server.specs.Lines.{IsLine};

use cosem_data::memory::Memory;
use memchr::memchr;
use std::alloc::Global;
use std::marker::Model;

/// What ends a line.
const END: u8 = b'\n';

/// Holds what has begun of a line: the bytes behind the last newline of those that were fed. Contracts see them.
#[derive(Drop)]
pub(crate) struct Feeder {
    held: Vec<u8>,
}

impl Model for Feeder {
    ghost use Rattle.std.specs.Prelude.{List, ℕ};
    ghost use Rattle.line_server.specs.Lines.{IsLine};

    ghost Value = { List ℕ };

    ghost view = { λ f. f.held.items };

    ghost invariant = { λ f. IsLine f.held.items };
}

impl Feeder {
    /// A feeder that holds nothing.
    pub fn new(alloc: Global) -> Self
        ensures { result ≡ [] }
    {
        Feeder {
            held: Vec::new(alloc),
        }
    }

    /// Takes a piece up to the end of its first line, and gives the part of that line that lies in the piece, and what
    /// stands behind its newline; `line` lends the whole line. None where no line ends in the piece, and then all of it is
    /// held.
    pub(crate) fn next_line<'p>(
        &mut self,
        piece: &'p [u8],
    ) -> Result<Option<(&'p [u8], &'p [u8])>, Memory>
        ensures fed { IfOk result (λ found. Feeds (self.old ++ piece.now) self.new found) }
        ensures shorter { IfOk result (λ found. IfSome found (λ x. length x.1.now < length piece.now)) }
    {
        let Some((part, rest)) = split_line(piece) else {
            self.held.extend_from_slice(piece)?;
            return Ok(None);
        };
        if !self.held.is_empty() {
            self.held.extend_from_slice(part)?;
        }
        Ok(Some((part, rest)))
    }

    /// The line that ends with this part: the part itself where nothing is held, else what is held. It is not copied.
    pub fn line<'a>(&'a self, part: &'a [u8]) -> &'a [u8]
        ensures { result.now ≡ line_with self.now part.now }
    {
        if self.held.is_empty() {
            part
        } else {
            &self.held
        }
    }

    /// What is held, which is the last line where the input ends.
    pub fn held(&self) -> &[u8]
        ensures { result.now ≡ self.now }
    {
        &self.held
    }

    /// Lets go what is held.
    pub fn clear(&mut self)
        ensures { self.new ≡ [] }
    {
        self.held.clear();
    }
}

/// The first line of a text that has its end, and what stands behind its newline.
fn split_line(text: &[u8]) -> Option<(&[u8], &[u8])>
    ensures split { SplitsLine text.now result }
    ensures shorter { IfSome result (λ x. length x.1.now < length text.now) }
{
    let place = memchr(END, text)?;
    Some((&text[..place], &text[place + 1..]))
}
