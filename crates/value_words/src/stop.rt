//! Where reading stops.
ghost use Rattle.std.specs.Prelude.{◌≡◌, length};
ghost use Rattle.value_words.specs.declared.stop.Stop.TheVariants.{Memory as out_of_memory};

use cosem_data::memory::Memory;
use std::alloc::{AllocError, AllocFailed};

/// Why reading stops, with the place counted from the back of the text, and what is asked there (own profile).
#[derive(Clone, Copy, Debug)]
pub enum Stop<A> {
    /// Memory was refused.
    Memory,
    /// So many bytes before the end of the text something else was asked.
    At(usize, A),
}

/// The stop in front of this text (own profile).
pub fn stop_at<A>(text: &[u8], asked: A) -> Stop<A>
    ensures { result ≡ Stop.At (length text.now) asked }
{
    Stop::At(text.len(), asked)
}

impl<A> From<Memory> for Stop<A> {
    ghost from_gives = { λ _ stop. stop ≡ out_of_memory };

    fn from(_: Memory) -> Self {
        Stop::Memory
    }
}

impl<A> From<AllocError> for Stop<A> {
    ghost from_gives = { λ _ stop. stop ≡ out_of_memory };

    fn from(_: AllocError) -> Self {
        Stop::Memory
    }
}

impl<A, T: Drop> From<AllocFailed<T>> for Stop<A> {
    ghost from_gives = { λ _ stop. stop ≡ out_of_memory };

    fn from(_: AllocFailed<T>) -> Self {
        Stop::Memory
    }
}
