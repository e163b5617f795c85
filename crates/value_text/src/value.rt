//! Bytes and values as hex texts.

ghost use Rattle.std.specs.Prelude.{◌≡◌, IfOk, Ok, option_map};
ghost use Rattle.cosem_data.specs.View.{tree};
ghost use Rattle.cosem_axdr.specs.Reading.{data_at};
ghost use Rattle.value_text.specs.Texts as spec;

use cosem_axdr::fault::ReadFault;
use cosem_axdr::reading::read_data;
use cosem_data::data::Data;
use cosem_data::memory::Memory;
use hex::FromHexError;
use std::alloc::Global;

/// The bytes of a hex text, two digits in either case a byte; none where it isn't one.
pub fn bytes_in(alloc: Global, text: &[u8]) -> Result<Option<Vec<u8>>, Memory>
    ensures { IfOk result (λ found. option_map (λ bytes. bytes.items) found ≡ spec.bytes_in text.now) }
{
    match hex::decode(alloc, text) {
        Ok(bytes) => Ok(Some(bytes)),
        Err(FromHexError::OutOfMemory) => Err(Memory),
        Err(_) => Ok(None),
    }
}

/// A value that was read, where nothing stands behind it.
fn whole(value: Data, rest: &[u8]) -> Option<Data>
    ensures { option_map tree result ≡ spec.whole (Ok (tree value, rest.now)) }
{
    match rest {
        [] => Some(value),
        [..] => None,
    }
}

/// The value of which the bytes are the encoding, none where they are that of no value or have more behind it.
fn value_of(alloc: Global, bytes: &[u8]) -> Result<Option<Data>, Memory>
    ensures { IfOk result (λ found. option_map tree found ≡ spec.whole (data_at 16 bytes.now)) }
{
    match read_data(alloc, bytes) {
        Ok((value, used)) => Ok(whole(value, &bytes[used..])),
        Err(ReadFault::Memory) => Err(Memory),
        Err(_) => Ok(None),
    }
}

/// The value of which a text is the hex text of the encoding (IEC 62056-5-3, type `Data`), none where it is that of no one
/// value.
pub fn value_in(alloc: Global, text: &[u8]) -> Result<Option<Data>, Memory>
    ensures { IfOk result (λ found. option_map tree found ≡ spec.value_in text.now) }
{
    match bytes_in(alloc, text)? {
        Some(bytes) => value_of(alloc, &bytes),
        None => Ok(None),
    }
}
