//! Places of the system that keep the steps of a served meter, by their paths.
//!
//! - [`stores::Stores`] opens such a place: what it has kept, and what keeps further steps.
//! - [`host`] opens a trail's file of the system.
//! - [`notes::SystemNotes`] tells above each step when it was taken, at which seat, and what was answered.
#![tactic(auto)]

pub mod fault;
pub mod host;
pub mod notes;
pub mod stores;
