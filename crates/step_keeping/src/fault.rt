//! Why a step isn't kept.

use cosem_data::memory::Memory;
use thiserror::Error;

/// Why a step isn't kept (own profile).
#[derive(Clone, Copy, Debug, PartialEq, Eq, Drop, Error)]
pub enum KeepFault {
    /// Memory was refused, and nothing was written: what was kept before is kept, and more may be.
    #[error("out of memory")]
    Memory,
    /// The step can't be written, and nothing was: what was kept before is kept, and more may be.
    #[error("the step can't be written")]
    Unwritten,
    /// No crash leaves the step, and no further step is kept.
    #[error("the step isn't kept, and no other will be")]
    NotKept,
    /// A crash may leave the step or not, and no further step is kept.
    #[error("whether the step is kept isn't known, and no other will be")]
    InDoubt,
}

impl From<Memory> for KeepFault {
    ghost use Rattle.std.specs.Prelude.{◌≡◌};
    ghost use Rattle.step_keeping.specs.declared.fault.KeepFault.TheVariants.{Memory};

    ghost from_gives = { λ _ fault. fault ≡ Memory };

    fn from(_memory: Memory) -> KeepFault {
        KeepFault::Memory
    }
}
