//! Where in a text a fault is (own profile).
ghost use Rattle.std.specs.Prelude.{IfSome};
ghost use Rattle.config_places.specs.Spots.{IsWithin};

use config_places::Spot;
use cosem_data::memory::Memory;
use std::alloc::Global;

/// The line and the column after bytes, both from 1. A column counts characters.
pub(crate) fn position_after(before: &[u8]) -> (u64, u64) {
    let mut line = 1u64;
    let mut column = 1u64;
    for byte in before {
        if *byte == b'\n' {
            line = line.saturating_add(1);
            column = 1;
        } else if *byte & 0xC0 != 0x80 {
            column = column.saturating_add(1);
        }
    }
    (line, column)
}

/// FILE:LINE:COLUMN of what stands at a spot of a text: of the value, of the key where that is asked for, or of the table in which
/// one is missing. FILE alone where there is no spot. The error is that memory was refused.
pub(crate) fn stand_of(
    alloc: Global,
    file: &str,
    text: &str,
    spot: Option<Spot>,
    of_key: bool,
) -> Result<String, Memory>
    requires { IfSome spot (IsWithin text.now) }
{
    let before = match spot {
        Some(Spot::Found { key, .. }) if of_key => key,
        Some(Spot::Found { value, .. }) => value,
        Some(Spot::Missing { within }) => within,
        None => return Ok(String::from_str(alloc, file)?),
    };
    let (line, column) = position_after(text[..before].as_bytes());
    Ok(format!(in alloc; "{file}:{line}:{column}")?)
}
