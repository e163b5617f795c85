//! What can be wrong with a text of labels, and where.
ghost use Rattle.std.specs.Prelude.{◌≡◌};
ghost use Rattle.label_certificate.specs.Faults.{number_of};
ghost use Rattle.label_certificate.specs.declared.fault.LabelFault.TheVariants as faults;

use cosem_data::memory::Memory;
use std::alloc::{AllocError, AllocFailed};

/// What is wrong with a line of a text of labels (own profile): each code is looked for in the line before the next.
#[derive(Clone, Copy, Debug, PartialEq, Eq, Drop)]
pub enum LabelCode {
    /// 1: the line isn't of the form `CELL influence=NAMES learn=NAMES`, or no newline ends it.
    Form,
    /// 2: the plan has no such cell.
    Cell,
    /// 3: a name that no client of the plan has.
    Client,
    /// 4: a cell, or a name among names, that stands again or out of plan order.
    Order,
}

impl LabelCode {
    /// The number of the code, from 1.
    pub fn number(self) -> u8
        ensures { result ≡ number_of self }
    {
        match self {
            LabelCode::Form => 1,
            LabelCode::Cell => 2,
            LabelCode::Client => 3,
            LabelCode::Order => 4,
        }
    }
}

/// Why a text of labels was refused.
#[derive(Clone, Copy, Debug, PartialEq, Eq, Drop)]
pub enum LabelFault {
    /// The first line with a fault, counted from 1, and the first code that it meets.
    Line { code: LabelCode, line: u64 },
    /// 5: memory was refused.
    Memory,
}

impl From<AllocError> for LabelFault {
    ghost from_gives = { λ _ e. e ≡ faults.Memory };

    fn from(_: AllocError) -> Self {
        LabelFault::Memory
    }
}

impl From<Memory> for LabelFault {
    ghost from_gives = { λ _ e. e ≡ faults.Memory };

    fn from(_: Memory) -> Self {
        LabelFault::Memory
    }
}

impl<T: Drop> From<AllocFailed<T>> for LabelFault {
    ghost from_gives = { λ _ e. e ≡ faults.Memory };

    fn from(_: AllocFailed<T>) -> Self {
        LabelFault::Memory
    }
}
