ghost use Rattle.std.specs.Prelude.{◌≡◌};
ghost use Rattle.cosem_axdr.specs.declared.fault.ReadFault.TheVariants.{Memory as out_of_memory};

use cosem_data::memory::Memory;
use std::alloc::{AllocError, AllocFailed};

/// Why no value was read. But for memory it is the first fault from the left, under its number (own profile).
#[derive(Clone, Copy, Debug, PartialEq, Eq)]
pub enum ReadFault {
    /// No byte is bad, and the bytes end inside the value.
    Short = 1,
    /// A byte where a value begins is the tag of none of the fifteen kinds.
    UnknownTag = 2,
    /// The tag of an array or a structure inside sixteen others, even of an empty one.
    TooDeep = 3,
    /// A byte where a length or a count begins is 80 or one of 85 to FF (hexadecimal).
    Length = 4,
    /// Memory was refused.
    Memory = 5,
}

impl From<Memory> for ReadFault {
    ghost from_gives = { λ _ fault. fault ≡ out_of_memory };

    fn from(_: Memory) -> Self {
        ReadFault::Memory
    }
}

impl From<AllocError> for ReadFault {
    ghost from_gives = { λ _ fault. fault ≡ out_of_memory };

    fn from(_: AllocError) -> Self {
        ReadFault::Memory
    }
}

impl<T: Drop> From<AllocFailed<T>> for ReadFault {
    ghost from_gives = { λ _ fault. fault ≡ out_of_memory };

    fn from(_: AllocFailed<T>) -> Self {
        ReadFault::Memory
    }
}
