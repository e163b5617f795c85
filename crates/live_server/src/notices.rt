//! What is told of the driver's lines.
ghost use Rattle.std.specs.Prelude.{◌≡◌, ◌++◌, [], codes, string_bytes, IfOk};
ghost use Rattle.std.specs.Fmt.{decimal};
ghost use Rattle.live_server.specs.Driving.{Tells, end_text, memory_text, no_step_words, unkept_text, unread_text};

use cosem_data::memory::Memory;
use line_server::reason::Reason;
use std::alloc::Global;
use std::fmt;
use std::io::Write;
use whole_writes::write_whole;

/// No notice is longer than this many bytes: a number has at most 20 digits, and a reason fewer than 120 letters.
const ROOM: usize = 192;

/// Why a line is no step of the meter itself (own profile).
#[derive(Clone, Copy, Drop)]
pub(crate) enum NoStep {
    /// It is the APDU of a client.
    Apdu,
    /// It can't be read.
    Unreadable(Reason),
}

impl fmt::Display for NoStep {
    ghost use Rattle.std.specs.Prelude.{Some};
    ghost use Rattle.live_server.specs.Driving.{no_step_words};

    ghost output = { λ why. Some (no_step_words why) };

    fn fmt<W: fmt::Write>(&self, f: &mut fmt::Formatter<W>) -> fmt::Result {
        match self {
            NoStep::Apdu => f.write_str("clients ask over TCP, and not by a line"),
            NoStep::Unreadable(reason) => write!(f, "{reason}"),
        }
    }
}

/// Where it is told which lines are refused. The room for a notice is taken at the start, so that a refusal of memory can be told.
#[derive(Drop)]
pub(crate) struct Notices<F: Write + Drop> {
    text: String,
    pub(crate) faults: F,
}

impl<F: Write + Drop> Notices<F> {
    /// Notices that are written there.
    pub fn new(alloc: Global, faults: F) -> Result<Self, Memory>
        ensures { IfOk result (λ notices. notices.faults ≡ faults) }
    {
        Ok(Notices {
            text: String::with_capacity(alloc, ROOM)?,
            faults,
        })
    }

    /// Tells that the line with this number is no step of the meter itself, and why, and says whether that was written whole.
    pub(crate) fn tell_unreadable(&mut self, number: u64, why: NoStep) -> bool
        ensures { Tells (F.contents self.old.faults) (F.contents self.new.faults)
            (unread_text number (no_step_words why)) result }
    {
        self.text.clear();
        let Ok(()) = write!(self.text, "line {number}: unreadable: {why}\n") else {
            return false;
        };
        self.write()
    }

    /// Tells that no further line comes, since all were read or since they can't be, and says whether that was written whole.
    pub(crate) fn tell_end(&mut self, is_read: bool) -> bool
        ensures { Tells (F.contents self.old.faults) (F.contents self.new.faults) (end_text is_read) result }
    {
        tell(&mut self.faults, end_line(is_read).as_bytes())
    }

    /// Tells that memory was refused for the line with this number, or for a step of it, and says whether that was written whole.
    pub(crate) fn tell_memory(&mut self, number: u64) -> bool
        ensures { Tells (F.contents self.old.faults) (F.contents self.new.faults)
            (memory_text number) result }
    {
        self.text.clear();
        let Ok(()) = write!(self.text, "line {number}: memory\n") else {
            return false;
        };
        self.write()
    }

    /// Tells that a step of the line with this number can't be kept, and wasn't taken, and says whether that was written whole.
    pub(crate) fn tell_unkept(&mut self, number: u64) -> bool
        ensures { Tells (F.contents self.old.faults) (F.contents self.new.faults)
            (unkept_text number) result }
    {
        self.text.clear();
        let Ok(()) = write!(self.text, "line {number}: not kept\n") else {
            return false;
        };
        self.write()
    }

    /// Writes the text that is there.
    fn write(&mut self) -> bool
        ensures { Tells (F.contents self.old.faults) (F.contents self.new.faults)
            (string_bytes self.old.text) result }
    {
        tell(&mut self.faults, self.text.as_bytes())
    }
}

/// Writes a text, and says whether it was written whole.
fn tell<F: Write>(faults: &mut F, text: &[u8]) -> bool
    ensures { Tells (F.contents faults.old) (F.contents faults.new) text.now result }
{
    match write_whole(faults, text) {
        Ok(()) => true,
        Err(_) => false,
    }
}

/// What is told where no further line comes.
fn end_line(is_read: bool) -> &'static str
    ensures { result.now ≡ end_text is_read }
{
    if is_read {
        "cosem-flow: the lines have ended: the meter takes no further step of its own\n"
    } else {
        "cosem-flow: the lines can't be read on: the meter takes no further step of its own\n"
    }
}
