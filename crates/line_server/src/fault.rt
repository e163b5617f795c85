//! Why a run of lines ended.
ghost use Rattle.std.specs.Prelude.{◌≡◌};

use crate::reason::Reason;
use thiserror::Error;

/// Why a run of lines ended early.
#[derive(Clone, Copy, Debug, PartialEq, Eq, Drop, Error)]
pub enum LineFault {
    /// A read failed, or more than 2^64 - 1 bytes were read.
    #[error("{}", self.words())]
    Read,
    /// A write failed, or took no byte.
    #[error("{}", self.words())]
    Write,
    /// The line with this number, from 1, is unreadable, and why.
    #[error("line {0}: {words}", words = self.words())]
    Line(u64, Reason),
    /// Memory was refused.
    #[error("{}", self.words())]
    Memory,
}

impl LineFault {
    ghost use Rattle.line_server.specs.Faults.{fault_words};

    /// The fault as it is told, of an unreadable line without its number (own profile).
    pub fn words(self) -> &'static str
        ensures { result.now ≡ fault_words self }
    {
        match self {
            LineFault::Read => "the lines can't be read",
            LineFault::Write => "the replies can't be written",
            LineFault::Line(_, _) => "unreadable",
            LineFault::Memory => "out of memory",
        }
    }
}
