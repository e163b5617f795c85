ghost use Rattle.std.specs.Prelude.{◌≡◌};

use crate::limits::MOST_BYTES;
use cosem_axdr::fault::ReadFault;
use cosem_data::memory::Memory;
use std::fmt;

/// Why a command failed.
#[derive(Clone, Copy, Drop)]
pub(crate) enum Fault {
    /// Standard input can't be read.
    Input,
    /// The input, or the shortest encoding of its value, has more than `MOST_BYTES` bytes.
    TooLong,
    /// The input doesn't begin with an encoding of a value.
    Unreadable(ReadFault),
    /// Memory was refused.
    Memory,
    /// Standard output can't be written.
    Output,
}

impl From<ReadFault> for Fault {
    ghost use Rattle.codec_bench.specs.Passes.{fault_of};

    ghost from_gives = { λ fault result. result ≡ fault_of fault };

    fn from(fault: ReadFault) -> Self {
        match fault {
            ReadFault::Memory => Fault::Memory,
            _ => Fault::Unreadable(fault),
        }
    }
}

impl From<Memory> for Fault {
    ghost use Rattle.codec_bench.specs.declared.fault.Fault.TheVariants as faults;

    ghost from_gives = { λ _ fault. fault ≡ faults.Memory };

    fn from(_: Memory) -> Self {
        Fault::Memory
    }
}

impl fmt::Display for Fault {
    fn fmt<W: fmt::Write>(&self, f: &mut fmt::Formatter<W>) -> fmt::Result {
        match self {
            Fault::Input => write!(f, "the input can't be read"),
            Fault::TooLong => write!(f, "more than {MOST_BYTES} bytes"),
            Fault::Unreadable(fault) => write!(f, "no value is read: {fault:?}"),
            Fault::Memory => write!(f, "out of memory"),
            Fault::Output => write!(f, "the output can't be written"),
        }
    }
}
