//! The A-XDR encoding of COSEM values (IEC 62056-5-3, type `Data`), read and written.
//!
//! - [`reading::read_data`] reads the value in front of some bytes, or tells the first fault.
//! - [`writing::write_data`] puts the canonical encoding of a value behind a vector; [`writing::put_array_front`] and
//!   [`writing::put_structure`] put the pieces of an encoding whose value is nowhere whole.
//! - [`limits::is_encoded_within`] tells whether that encoding keeps within a limit, without memory.
//! - [`laws`] has laws over all values and bytes, for proofs that build on these functions.
#![tactic(auto)]

pub mod fault;
pub mod laws;
pub mod limits;
pub mod reading;
mod tag;
pub mod writing;
