//! Texts that are translated between words and hex, from an input onto an output (own profile).
ghost use Rattle.std.specs.Prelude.{◌≡◌, IfOk};
ghost use Rattle.step_words.specs.Texts.{Gives};
ghost use Rattle.step_words.specs.Translating as spec;
ghost use Rattle.step_words.specs.Translating.{ReadsAll, Translates};

use crate::fault::TextFault;
use crate::texts::{Way, decode_text, decode_values, encode_text, encode_values};
use cosem_data::memory::Memory;
use std::alloc::Global;
use std::io::{ErrorKind, Read, Write};
use thiserror::Error;
use whole_writes::write_whole;

/// Why a text wasn't translated, or not written whole.
#[derive(Debug, Drop, Error)]
pub enum TranslationFault {
    /// A read failed.
    #[error("the input can't be read")]
    Read,
    /// A write failed, or took no byte.
    #[error("the output can't be written")]
    Write,
    /// The text has this fault, or memory was refused while it was translated.
    #[error(transparent)]
    Text(TextFault),
    /// Memory was refused while it was read.
    #[error("out of memory")]
    Memory,
}

impl TranslationFault {
    ghost use Rattle.std.specs.Prelude.{IfOk, string_bytes};
    ghost use Rattle.step_words.specs.Translating.{fault_words};

    /// The fault as it is told (own profile). The error is that memory was refused.
    pub fn told(&self, alloc: Global) -> Result<String, Memory>
        ensures { IfOk result (λ text. string_bytes text ≡ fault_words self.now) }
    {
        let words = match self {
            TranslationFault::Read => "the input can't be read",
            TranslationFault::Write => "the output can't be written",
            TranslationFault::Text(fault) => return fault.told(alloc),
            TranslationFault::Memory => "out of memory",
        };
        Ok(String::from_str(alloc, words)?)
    }
}

/// Translates all that the reader gives, and writes what is made of it on the writer. The text is in memory whole, since nothing
/// is written of one that has a fault.
///
/// # Errors
/// `Text` with the first line of which nothing is made, and where in it and what was asked there; `Read`, `Memory`: nothing was
/// written then. `Write`: a beginning was written.
pub fn translate<R: Read, W: Write>(
    alloc: Global,
    way: Way,
    reader: &mut R,
    writer: &mut W,
) -> Result<(), TranslationFault>
    ensures { Translates way (R.remaining reader.old) (R.remaining reader.new)
        (W.contents writer.old) (W.contents writer.new) result }
{
    let text = read_all(alloc, reader)?;
    let made = translated(alloc, way, &text).map_err(TranslationFault::Text)?;
    write_whole(writer, &made).map_err(|_| TranslationFault::Write)
}

/// All that the reader gives.
fn read_all<R: Read>(alloc: Global, reader: &mut R) -> Result<Vec<u8>, TranslationFault>
    ensures all { IfOk result (λ text. ReadsAll text.items
        (R.remaining reader.old) (R.remaining reader.new)) }
    ensures err { spec.IsUnread result }
{
    let mut text = Vec::new(alloc);
    match reader.read_to_end(&mut text) {
        Ok(_) => Ok(text),
        Err(error) if error.kind() == ErrorKind::OutOfMemory => Err(TranslationFault::Memory),
        Err(_) => Err(TranslationFault::Read),
    }
}

/// What is made of a text.
fn translated(alloc: Global, way: Way, text: &[u8]) -> Result<Vec<u8>, TextFault>
    ensures { Gives (λ made. made.items) result (spec.made_of way text.now) }
{
    match way {
        Way::Encode => encode_text(alloc, text),
        Way::Decode => decode_text(alloc, text),
        Way::EncodeValues => encode_values(alloc, text),
        Way::DecodeValues => decode_values(alloc, text),
    }
}
