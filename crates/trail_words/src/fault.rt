//! Why what a trail's file says wasn't written whole.
ghost use Rattle.std.specs.Prelude.{◌≡◌};
ghost use Rattle.trail_words.specs.declared.fault.TrailTextFault.TheVariants as faults;

use cosem_data::memory::Memory;
use thiserror::Error;
use whole_writes::WriteFailed;

/// Why what a trail's file says wasn't written whole (own profile).
#[derive(Clone, Copy, Debug, PartialEq, Eq, Drop, Error)]
#[error("{}", self.words())]
pub enum TrailTextFault {
    /// The file's first entry is no head of a trail; nothing was written.
    NoTrail,
    /// Memory was refused.
    Memory,
    /// A write failed, or took no byte.
    Write,
    /// An open latch stands before an entry that isn't whole; what the whole entries say was written.
    Damaged,
}

impl TrailTextFault {
    ghost use Rattle.trail_words.specs.Faults.{fault_words};

    /// The fault as it is told, of the file or of the output.
    pub fn words(self) -> &'static str
        ensures { result.now ≡ fault_words self }
    {
        match self {
            TrailTextFault::NoTrail => "it is no trail of cosem-flow",
            TrailTextFault::Memory => "out of memory",
            TrailTextFault::Write => "the output can't be written",
            TrailTextFault::Damaged => "its last entry isn't whole",
        }
    }
}

impl From<Memory> for TrailTextFault {
    ghost from_gives = { λ _ fault. fault ≡ faults.Memory };

    fn from(_: Memory) -> Self {
        TrailTextFault::Memory
    }
}

impl From<WriteFailed> for TrailTextFault {
    ghost from_gives = { λ _ fault. fault ≡ faults.Write };

    fn from(_: WriteFailed) -> Self {
        TrailTextFault::Write
    }
}
