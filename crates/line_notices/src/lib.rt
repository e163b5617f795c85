//! What a client could notice of lines that are read (own profile).
//!
//! - [`seen`] tells which step of a line a client could notice first, and what of it.
//! - [`onlooking::notice_all`] writes for each line whether it is `quiet` or `seen`.
#![tactic(auto)]

pub mod onlooking;
mod seen;
