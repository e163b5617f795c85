//! Why a step or a call of a live meter was refused. Numbers stand in the order of the variants (own profile).
ghost use Rattle.std.specs.Prelude.{◌≡◌};

use cosem_data::memory::Memory;
use step_keeping::fault::KeepFault;

/// Why a step was not taken.
#[derive(Clone, Copy, Debug)]
pub enum LiveFault {
    /// Memory was refused.
    Memory,
    /// No step can be counted any more: 2^64 - 1 were taken.
    Full,
    /// The step can't be kept, and no crash leaves it.
    NotKept,
    /// A crash may leave the step or not: it wasn't taken, and what is kept is no longer known.
    InDoubt,
}

impl From<Memory> for LiveFault {
    ghost use Rattle.std.specs.Prelude.{◌≡◌};
    ghost use Rattle.meter_live.specs.declared.fault.LiveFault.TheVariants.{Memory};

    ghost from_gives = { λ _ fault. fault ≡ Memory };

    fn from(_memory: Memory) -> LiveFault {
        LiveFault::Memory
    }
}

impl From<KeepFault> for LiveFault {
    ghost use Rattle.std.specs.Prelude.{◌≡◌};
    ghost use Rattle.meter_live.specs.Keeping.{fault_of};

    ghost from_gives = { λ kept fault. fault ≡ fault_of kept };

    fn from(fault: KeepFault) -> LiveFault {
        match fault {
            KeepFault::Memory => LiveFault::Memory,
            KeepFault::Unwritten | KeepFault::NotKept => LiveFault::NotKept,
            KeepFault::InDoubt => LiveFault::InDoubt,
        }
    }
}

/// Why no port was opened.
#[derive(Clone, Copy, PartialEq, Eq, Debug)]
pub enum PortFault {
    /// Memory was refused.
    Memory,
    /// All 256 ports were opened.
    NoPort,
}

/// Why a port gave no reader. Giving one takes no memory.
#[derive(Clone, Copy, Debug)]
pub enum ReaderFault {
    /// It gave one before, or `left_right` gave no reading end.
    NoReader,
}

/// Why a reader gave no answer.
#[derive(Clone, Copy, PartialEq, Eq, Debug)]
pub enum ReadRefused {
    /// Memory was refused.
    Memory,
    /// `left_right` gave no entry into a copy.
    NoEntry,
}
