//! Why a text wasn't written whole.
ghost use Rattle.std.specs.Prelude.{◌≡◌};
ghost use Rattle.whole_writes.specs.declared.fault.ListFault.TheVariants as faults;

use crate::WriteFailed;
use cosem_data::memory::Memory;
use thiserror::Error;

/// Why a text that a program prints, as a list or a verdict, wasn't written whole.
#[derive(Clone, Copy, Debug, PartialEq, Eq, Drop, Error)]
#[error("{}", self.words())]
pub enum ListFault {
    /// A write failed, or took no byte.
    Write,
    /// Memory was refused.
    Memory,
}

impl ListFault {
    ghost use Rattle.whole_writes.specs.Written.{fault_words};

    /// The fault as it is told (own profile).
    pub fn words(self) -> &'static str
        ensures { result.now ≡ fault_words self }
    {
        match self {
            ListFault::Write => "the output can't be written",
            ListFault::Memory => "out of memory",
        }
    }
}

impl From<Memory> for ListFault {
    ghost from_gives = { λ _ e. e ≡ faults.Memory };

    fn from(_: Memory) -> Self {
        ListFault::Memory
    }
}

impl From<WriteFailed> for ListFault {
    ghost from_gives = { λ _ e. e ≡ faults.Write };

    fn from(_: WriteFailed) -> Self {
        ListFault::Write
    }
}
