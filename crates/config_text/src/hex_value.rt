//! Hex texts of values and of bytes, each decoded once, where it is read.

ghost use Rattle.std.specs.Prelude.{◌≡◌, IfOk, option_map};
ghost use Rattle.cosem_data.specs.View.{tree};
ghost use Rattle.value_text.specs.Texts as spec;

use cosem_data::data::Data;
use cosem_data::memory::Memory;
use std::alloc::Global;
use std::marker::Model;
use value_text::value::{bytes_in, value_in};

/// A hex text that is to be the encoding of one value (IEC 62056-5-3, type `Data`), and the value, none where it isn't.
/// Contracts see the text.
#[derive(Debug, Drop)]
pub struct HexValue {
    text: String,
    value: Option<Data>,
}

impl Model for HexValue {
    ghost use Rattle.std.specs.Prelude.{◌≡◌, List, ℕ, option_map, string_bytes};
    ghost use Rattle.cosem_data.specs.View.{tree};
    ghost use Rattle.value_text.specs.Texts.{value_in};

    ghost Value = { List ℕ };

    ghost view = { λ hex. string_bytes hex.text };

    ghost invariant = { λ hex. option_map tree hex.value ≡ value_in (string_bytes hex.text) };
}

impl HexValue {
    /// Reads a text. The error is that memory was refused.
    pub fn read(alloc: Global, text: &str) -> Result<HexValue, Memory>
        ensures { IfOk result (λ hex. hex ≡ text.now) }
    {
        let value = value_in(alloc, text.as_bytes())?;
        let text = String::from_str(alloc, text)?;
        Ok(HexValue { text, value })
    }

    /// The value of which the text is the hex text of the encoding, none where it is that of no one value.
    pub fn value(&self) -> Option<&Data>
        ensures { option_map (λ value. tree value.now) result ≡ spec.value_in self.now }
    {
        self.value.as_ref()
    }
}

/// A hex text that is to be bytes, and the bytes, none where it isn't. Contracts see the text.
#[derive(Debug, Drop)]
pub struct HexBytes {
    text: String,
    bytes: Option<Vec<u8>>,
}

impl Model for HexBytes {
    ghost use Rattle.std.specs.Prelude.{◌≡◌, List, ℕ, option_map, string_bytes};
    ghost use Rattle.value_text.specs.Texts.{bytes_in};

    ghost Value = { List ℕ };

    ghost view = { λ hex. string_bytes hex.text };

    ghost invariant = { λ hex. option_map (λ bytes. bytes.items) hex.bytes ≡ bytes_in (string_bytes hex.text) };
}

impl HexBytes {
    /// Reads a text. The error is that memory was refused.
    pub fn read(alloc: Global, text: &str) -> Result<HexBytes, Memory>
        ensures { IfOk result (λ hex. hex ≡ text.now) }
    {
        let bytes = bytes_in(alloc, text.as_bytes())?;
        let text = String::from_str(alloc, text)?;
        Ok(HexBytes { text, bytes })
    }

    /// The bytes that the text spells, two digits in either case a byte; none where it spells none.
    pub fn bytes(&self) -> Option<&[u8]>
        ensures { option_map (λ bytes. bytes.now) result ≡ spec.bytes_in self.now }
    {
        match &self.bytes {
            Some(bytes) => Some(bytes.as_slice()),
            None => None,
        }
    }
}
