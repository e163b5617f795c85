//! Lines that are read one at a time.
ghost use Rattle.std.specs.Prelude.{◌≡◌, ◌<◌, ◌≤◌, length, take, vec_len, OnOk};
ghost use Rattle.std.specs.Io.KnownBytes.{IsAtEnd, Keeps};
ghost use Rattle.live_server.specs.Ahead.{unread};

use cosem_data::memory::Memory;
use std::alloc::Global;
use std::io::{self, Read};

/// How many bytes are read ahead at most.
const AHEAD: usize = 8192;

/// What ends a line.
const END: u8 = b'\n';

/// Gives what a reader gives, and never more at once than what is left of a line. So where what has begun of a line can't be
/// kept for want of memory, this line alone is lost.
#[derive(Drop)]
pub(crate) struct ByLine<I: Read + Drop> {
    lines: I,
    ahead: Vec<u8>,
    /// From where to where what was read ahead is still to be given.
    from: usize,
    to: usize,
    /// Whether a line has begun, and not ended.
    is_within: bool,
    ghost given: { from ≤ to },
    ghost read: { to ≤ vec_len ahead },
    ghost room: { 0 < vec_len ahead },
}

impl<I: Read + Drop> ByLine<I> {
    /// Nothing is read yet.
    pub(crate) fn new(alloc: Global, lines: I) -> Result<Self, Memory> {
        Ok(ByLine {
            lines,
            ahead: vec![in alloc; 0; AHEAD]?,
            from: 0,
            to: 0,
            is_within: false,
        })
    }

    /// Passes over what is left of a line that has begun.
    pub(crate) fn end_line(&mut self) -> io::Result<()> {
        let mut passed = [0u8; 256];
        for _ in 0..u64::MAX {
            if !self.is_within || self.read(&mut passed)? == 0 {
                break;
            }
        }
        Ok(())
    }

    /// Reads ahead, where all that was read was given.
    fn read_ahead(&mut self) -> io::Result<()>
        ensures bytes { Keeps (unread self.old.ahead.items self.old.from self.old.to (I.remaining self.old.lines))
            (unread self.new.ahead.items self.new.from self.new.to (I.remaining self.new.lines)) }
        ensures end { OnOk result (self.new.to ≤ self.new.from → IsAtEnd (I.remaining self.new.lines)) }
    {
        if self.from < self.to {
            return Ok(());
        }
        self.from = 0;
        self.to = 0;
        self.to = self.lines.read(self.ahead.as_mut_slice())?;
        Ok(())
    }
}

impl<I: Read + Drop> Read for ByLine<I> {
    ghost use Rattle.live_server.specs.Ahead.{unread};

    ghost remaining = { λ r. unread r.ahead.items r.from r.to (I.remaining r.lines) };

    fn read(&mut self, buf: &mut [u8]) -> io::Result<usize> {
        self.read_ahead()?;
        let rest = &self.ahead[self.from..self.to];
        let count = copy_line(rest, buf);
        self.is_within = is_left_within(&rest[..count], self.is_within);
        self.from += count;
        Ok(count)
    }
}

/// Whether a line has begun and not ended, behind these bytes.
fn is_left_within(bytes: &[u8], was_within: bool) -> bool {
    match bytes.last() {
        Some(last) => *last != END,
        None => was_within,
    }
}

/// Copies what there is of the first line with its end, or as much of it as there is room for, and says how much that is.
fn copy_line(text: &[u8], room: &mut [u8]) -> usize
    ensures within { result ≤ length text.now }
    ensures fits { result ≤ length room.new }
    ensures copied { take result room.new ≡ take result text.now }
    ensures same { length room.new ≡ length room.old }
    ensures none { result ≡ 0 → 0 < length room.old → length text.now ≡ 0 }
{
    let count = line_length(text).min(room.len());
    room[..count].copy_from_slice(&text[..count]);
    count
}

/// How many bytes the first line has with its end, or what there is of it.
fn line_length(text: &[u8]) -> usize
    ensures within { result ≤ length text.now }
    ensures some { 0 < length text.now → 0 < result }
{
    match text.iter().position(|b| *b == END) {
        Some(place) => place + 1,
        None => text.len(),
    }
}
