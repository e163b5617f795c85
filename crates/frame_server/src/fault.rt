//! Why a connection ended early.
ghost use Rattle.std.specs.Prelude.{◌≡◌, IfOk, string_bytes};

use cosem_data::memory::Memory;
use std::alloc::Global;
use std::error::Error;
use std::fmt;
use tcp_wrapper::fault::WrapFault;
use tcp_wrapper::place::FramePlace;

/// Why a connection ended early (own profile).
#[derive(Clone, Copy, Debug, PartialEq, Eq, Drop)]
pub enum ServeFault {
    /// A read failed, or more than 2^64 - 1 bytes were read.
    Read,
    /// A write failed, or took no byte.
    Write,
    /// A wrong header stands in a frame's place, and where.
    Wrap(WrapFault, FramePlace),
    /// The input ended inside a frame, and where that begins.
    Cut(FramePlace),
    /// Memory was refused.
    Memory,
    /// The gate had the seat give up.
    GaveUp,
}

impl ServeFault {
    ghost use Rattle.frame_server.specs.Faults.{place_of, serve_fault_words, told_words};

    /// The words of the fault, wherever it was met (own profile).
    pub fn words(self) -> &'static str
        ensures { result.now ≡ serve_fault_words self }
    {
        match self {
            ServeFault::Read => "the frames can't be read",
            ServeFault::Write => "the answers can't be written",
            ServeFault::Wrap(fault, _) => fault.words(),
            ServeFault::Cut(_) => "input ended inside a frame",
            ServeFault::Memory => "out of memory",
            ServeFault::GaveUp => "the seat gave up",
        }
    }

    /// Where the fault of a frame was met.
    pub fn place(self) -> Option<FramePlace>
        ensures { result ≡ place_of self }
    {
        match self {
            ServeFault::Wrap(_, place) | ServeFault::Cut(place) => Some(place),
            _ => None,
        }
    }

    /// The fault as it is told: its words, behind the place of the frame where it is one of a frame.
    pub fn told(self, alloc: Global) -> Result<String, Memory>
        ensures { IfOk result (λ text. string_bytes text ≡ told_words self) }
    {
        Ok(format!(in alloc; "{self}")?)
    }
}

// Written by hand, so that a contract knows what is printed.
impl fmt::Display for ServeFault {
    ghost use Rattle.std.specs.Prelude.{Some};
    ghost use Rattle.frame_server.specs.Faults.{told_words};

    ghost output = { λ fault. Some (told_words fault) };

    fn fmt<W: fmt::Write>(&self, f: &mut fmt::Formatter<W>) -> fmt::Result {
        let words = self.words();
        match self.place() {
            Some(place) => write!(f, "{place}: {words}"),
            None => f.write_str(words),
        }
    }
}

impl Error for ServeFault {}
