//! Where the steps that change a meter are kept, so that they outlive it.
//!
//! - [`keeper::Keeps`] is what a live meter asks of such a place, and [`keeper::Unkept`] keeps nothing.
//! - [`ports`] says which port of a board is whose, for notes.
//! - [`recalling::Recalls`] hands out the steps that were kept, for the next meter to begin with.
//!
//! What a crash may leave of the steps that are kept stands in `specs/` (`Keeping`).
#![tactic(auto)]

pub mod fault;
pub mod keeper;
pub mod ports;
pub mod recalling;
