//! Frames as they are made, and what is fixed in them.
ghost use Rattle.std.specs.Prelude.{◌≡◌, ◌≤◌, ◌++◌, length, IfOk};
ghost use Rattle.tcp_wrapper.specs.Stream.{framed, word};

use cosem_data::memory::Memory;
use std::alloc::Global;

/// The wPort of the server: requests go to it, and answers come from it (IEC 62056-4-7, the management logical device).
pub const SERVER_PORT: u16 = 1;

/// The most bytes of an APDU in a frame (own profile).
pub(crate) const MAX_APDU_LENGTH: usize = 1024;

/// How many bytes a header has (IEC 62056-4-7, the wrapper header).
pub(crate) const HEADER_LENGTH: usize = 8;

/// The only version (IEC 62056-4-7, the wrapper header).
pub(crate) const VERSION: u16 = 1;

/// The frame with this APDU, of at most `MAX_APDU_LENGTH` bytes, from one wPort to another (IEC 62056-4-7, the wrapper header). An
/// answer goes from `SERVER_PORT` to the wPort that the request came from.
///
/// # Errors
/// `Memory` where memory is refused.
pub fn frame(alloc: Global, source: u16, destination: u16, apdu: &[u8]) -> Result<Vec<u8>, Memory>
    requires { length apdu.now ≤ 1024 }
    ensures { IfOk result (λ bytes. bytes.items ≡ framed source destination apdu.now) }
{
    let mut bytes = Vec::with_capacity(alloc, HEADER_LENGTH + apdu.len())?;
    bytes.extend_from_slice(&header(source, destination, apdu.len() as u16))?;
    bytes.extend_from_slice(apdu)?;
    Ok(bytes)
}

/// The header of a frame with an APDU of this length (IEC 62056-4-7, the wrapper header).
fn header(source: u16, destination: u16, length: u16) -> [u8; HEADER_LENGTH]
    ensures { result ≡ word 1 ++ (word source ++ (word destination ++ word length)) }
{
    let [version_high, version_low] = VERSION.to_be_bytes();
    let [source_high, source_low] = source.to_be_bytes();
    let [destination_high, destination_low] = destination.to_be_bytes();
    let [length_high, length_low] = length.to_be_bytes();
    [
        version_high,
        version_low,
        source_high,
        source_low,
        destination_high,
        destination_low,
        length_high,
        length_low,
    ]
}
