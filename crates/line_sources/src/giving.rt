//! The text of a line that is given piece by piece.
ghost use Rattle.std.specs.Prelude.{◌≡◌, ◌≢◌, ◌≤◌, ◌<◌, ◌↔◌, ◌++◌, [], IsTrue, length, take, IfOk, OnOk};
ghost use Rattle.line_sources.specs.Texts.{IsTextOf};

use crate::due::Line;
use crate::text::put_line;
use cosem_data::memory::Memory;
use std::alloc::Global;
use std::io;
use std::marker::Model;

/// No line is longer than this many bytes: a number has at most 20 digits.
const ROOM: usize = 32;

/// The text of a line, which is given piece by piece. Contracts see what is left.
#[derive(Drop)]
pub(crate) struct Giving {
    text: String,
    from: usize,
}

impl Model for Giving {
    ghost use Rattle.std.specs.Prelude.{List, ℕ, ◌≤◌, drop, length, string_bytes};

    ghost Value = { List ℕ };

    ghost view = { λ g. drop g.from (string_bytes g.text) };

    ghost invariant = { λ g. g.from ≤ length (string_bytes g.text) };
}

impl Giving {
    /// All is given.
    pub(crate) fn new(alloc: Global) -> Result<Self, Memory>
        ensures { IfOk result (λ giving. giving ≡ []) }
    {
        Ok(Giving {
            text: String::with_capacity(alloc, ROOM)?,
            from: 0,
        })
    }

    /// Whether all of it was given.
    pub(crate) fn is_given(&self) -> bool
        ensures { IsTrue result ↔ (self.now ≡ []) }
    {
        self.from == self.text.as_bytes().len()
    }

    /// Puts the text of a line there, in place of what there was.
    ///
    /// # Errors
    /// As `put_line`.
    pub(crate) fn put(&mut self, line: Line) -> io::Result<()>
        ensures { OnOk result (IsTextOf line self.new) }
    {
        self.from = 0;
        put_line(&mut self.text, line)
    }

    /// Gives what is left, or as much of it as there is room for, and says how much that is.
    pub(crate) fn give(&mut self, room: &mut [u8]) -> usize
        ensures fits { result ≤ length room.new }
        ensures given { self.old ≡ take result room.new ++ self.new }
        ensures some { self.old ≢ [] → 0 < length room.old → 0 < result }
    {
        let rest = &self.text.as_bytes()[self.from..];
        let count = rest.len().min(room.len());
        room[..count].copy_from_slice(&rest[..count]);
        self.from += count;
        count
    }
}
