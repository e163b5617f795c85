//! What a frame brings.
ghost use Rattle.std.specs.Prelude.{◌≡◌, length};
ghost use Rattle.tcp_wrapper.specs.Stream.{frame_of};

use crate::framing::HEADER_LENGTH;
use cosem_data::bytes::Bytes;

/// What a frame brought to the server (IEC 62056-4-7, the wrapper header).
#[derive(Debug, Drop)]
pub struct Message {
    /// The wPort that the frame came from, which is the client's.
    pub source: u16,
    /// The bytes of the APDU, at most 1,024 (own profile).
    pub apdu: Bytes,
}

impl Message {
    /// How many bytes its frame has, header and APDU.
    pub fn frame_length(&self) -> u64
        ensures { result ≡ length (frame_of self.now) }
    {
        (HEADER_LENGTH + self.apdu.as_slice().len()) as u64
    }
}
