//! One connection, from bytes to bytes: frames come from a reader, and their answers go to a writer (IEC 62056-4-7 over TCP).
//!
//! - [`serving::serve`] answers the frames of a connection, whatever meter is asked.
//! - [`alone::serve_alone`] has a meter alone answer them, which begins at its start.
#![tactic(auto)]

pub mod alone;
pub mod fault;
pub mod serving;
