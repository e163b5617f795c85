//! What a text of a table is kept as.

use crate::hex_value::{HexBytes, HexValue};
use cosem_data::memory::Memory;
use std::alloc::Global;

/// A form in which a text of a table is kept.
pub(crate) trait Kept: Drop {
    ghost use Rattle.std.specs.Prelude.{◌≡◌, IfOk};
    ghost use Rattle.config_text.specs.Parts.{Text};

    /// The text.
    ghost says: { Self → Text };

    /// Keeps a text. The error is that memory was refused.
    fn keep(alloc: Global, text: &str) -> Result<Self, Memory>
        ensures { IfOk result (λ kept. says kept ≡ text.now) };
}

impl Kept for String {
    ghost use Rattle.std.specs.Prelude.{string_bytes};

    ghost says = { string_bytes };

    fn keep(alloc: Global, text: &str) -> Result<String, Memory> {
        Ok(String::from_str(alloc, text)?)
    }
}

impl Kept for HexValue {
    ghost says = { λ text. text };

    fn keep(alloc: Global, text: &str) -> Result<HexValue, Memory> {
        HexValue::read(alloc, text)
    }
}

impl Kept for HexBytes {
    ghost says = { λ text. text };

    fn keep(alloc: Global, text: &str) -> Result<HexBytes, Memory> {
        HexBytes::read(alloc, text)
    }
}
