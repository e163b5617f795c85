ghost use Rattle.std.specs.Prelude.{◌≡◌, ◌≤◌, ◌<◌, List, ℕ, Some, IfOk, MatchResult, length, vec_len};

use crate::fault::Fault;
use crate::limits::MOST_BYTES;
use std::alloc::Global;
use std::io::{ErrorKind, Read};

/// All bytes that the reader has left.
///
/// # Errors
/// `TooLong` where there are more than `MOST_BYTES`; `Memory` where memory is refused; `Input` where
/// the reader fails otherwise.
pub(crate) fn read_input<R: Read + Drop>(alloc: Global, reader: R) -> Result<Vec<u8>, Fault>
    ensures fits { IfOk result (λ bytes. vec_len bytes ≤ MOST_BYTES) }
    ensures whole { (input : List ℕ) → R.remaining reader ≡ Some input →
        MatchResult result (λ bytes. bytes.items ≡ input) (λ fault. fault ≡ Fault.TooLong → MOST_BYTES < length input) }
{
    let mut bytes = Vec::new(alloc);
    // One byte more than is allowed tells an input that is too long.
    let mut limited = reader.take(MOST_BYTES as u64 + 1);
    if let Err(error) = limited.read_to_end(&mut bytes) {
        let is_memory = error.kind() == ErrorKind::OutOfMemory;
        return Err(if is_memory {
            Fault::Memory
        } else {
            Fault::Input
        });
    }
    if bytes.len() > MOST_BYTES {
        return Err(Fault::TooLong);
    }
    Ok(bytes)
}
