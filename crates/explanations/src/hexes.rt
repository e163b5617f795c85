//! What is wrong with a text that is to be the hex text of a value (own profile).

use crate::kind_words::unsupported;
use cosem_axdr::fault::ReadFault;
use cosem_axdr::reading::read_data;
use cosem_data::memory::Memory;
use hex::FromHexError;
use meter_theory::limits::VALUE_BYTES;
use std::alloc::Global;

/// Why bytes are no value that is asked, of which so many are that of a value. The error is that memory was refused.
fn rest_cause(alloc: Global, bytes: &[u8], used: usize) -> Result<String, Memory> {
    if used == bytes.len() {
        return Ok(String::from_str(alloc, "the value isn't of the kind that is asked there")?);
    }
    Ok(format!(in alloc; "more stands behind the {used} bytes of the value")?)
}

/// Whether more bytes after these may make them a value. The error is that memory was refused.
fn is_begun(alloc: Global, bytes: &[u8]) -> Result<bool, Memory> {
    match read_data(alloc, bytes) {
        Err(ReadFault::Memory) => Err(Memory),
        Err(ReadFault::Short) => Ok(true),
        _ => Ok(false),
    }
}

/// How many of the first bytes are the beginning of a value: the byte after them makes them none. The error is that memory was
/// refused.
fn begun_bytes(alloc: Global, bytes: &[u8]) -> Result<usize, Memory> {
    for place in 0..bytes.len() {
        if !is_begun(alloc, &bytes[..place + 1])? {
            return Ok(place);
        }
    }
    Ok(bytes.len())
}

/// The byte that makes bytes no beginning of a value, with what is wrong with it; it is looked for where there are no more of
/// them than a value may have. The error is that memory was refused.
fn byte_cause(alloc: Global, bytes: &[u8], why: &str) -> Result<String, Memory> {
    if VALUE_BYTES < bytes.len() {
        return Ok(format!(in alloc; "a byte{why}")?);
    }
    let place = begun_bytes(alloc, bytes)?;
    match bytes.get(place).and_then(|byte| unsupported(*byte)) {
        Some(kind) if why == NO_KIND => Ok(format!(in alloc;
            "byte {place}, counted from 0, is the tag of {kind}, which isn't supported"
        )?),
        _ => Ok(format!(in alloc; "byte {place}, counted from 0,{why}")?),
    }
}

/// What is wrong with a byte that is to be a tag.
const NO_KIND: &str = " is to be the tag of a value and is that of no kind";

/// Why bytes are no value that is asked. The error is that memory was refused.
fn data_cause(alloc: Global, bytes: &[u8]) -> Result<String, Memory> {
    let why = match read_data(alloc, bytes) {
        Ok((_, used)) => return rest_cause(alloc, bytes, used),
        Err(ReadFault::Memory) => return Err(Memory),
        Err(ReadFault::Short) => {
            let words = "the value isn't whole: bytes are missing at its end";
            return Ok(String::from_str(alloc, words)?);
        }
        Err(ReadFault::UnknownTag) => NO_KIND,
        Err(ReadFault::TooDeep) => " begins an array or a structure inside sixteen others",
        Err(ReadFault::Length) => " is to begin a length and begins none",
    };
    byte_cause(alloc, bytes, why)
}

/// Why a text is no hex text of a value that is asked. The error is that memory was refused.
pub(crate) fn hex_cause(alloc: Global, text: &str) -> Result<String, Memory> {
    match hex::decode(alloc, text.as_bytes()) {
        Ok(bytes) => data_cause(alloc, &bytes),
        Err(fault) => digit_cause(alloc, fault),
    }
}

/// Why a text is no hex text. The error is that memory was refused.
pub(crate) fn digit_cause(alloc: Global, fault: FromHexError) -> Result<String, Memory> {
    match fault {
        FromHexError::OutOfMemory => Err(Memory),
        FromHexError::InvalidHexCharacter { index, .. } => {
            Ok(format!(in alloc; "what stands behind {index} characters is no hex digit")?)
        }
        _ => Ok(String::from_str(alloc, "the number of hex digits is odd")?),
    }
}
