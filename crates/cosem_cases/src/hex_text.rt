//! Bytes in hex.
use std::alloc::Global;

/// The bytes of a hex text, in which spaces are passed over.
pub(crate) fn bytes_of(alloc: Global, text: &str) -> Option<Vec<u8>> {
    let digits = text.replace(alloc, " ", "").ok()?;
    hex::decode(alloc, digits.as_str()).ok()
}
