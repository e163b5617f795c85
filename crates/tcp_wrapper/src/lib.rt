//! The wrapper of IEC 62056-4-7: frames in a stream of bytes, as TCP carries them, read and made.
//!
//! - [`feeder::Feeder`] reads frames from a stream that comes in pieces, however these are cut.
//! - [`framing::frame`] makes the frame of an answer.
//! - [`place::FramePlace`] says where in a stream a frame stands.
//! - [`laws`] has the law that the frames of a stream are determined by its bytes.
//!
//! A frame is a header of eight bytes and then an APDU. The header has four words of 16 bits, big endian: the version, 0001; the
//! wPort that it comes from; the wPort that it goes to; the length of the APDU in bytes, here at most 1,024 (own profile).
#![tactic(auto)]

pub mod fault;
pub mod feeder;
pub mod framing;
pub mod laws;
pub mod message;
pub mod place;
