//! The steps of a meter, kept in a trail's file.
//!
//! - [`store::TrailStore`] keeps the steps that a live meter takes, as lines in a trail's file.
//! - [`past::Past`] hands them out again, to the next meter.
//! - [`notes::Notes`] tells of each step in a note above its line.
//!
//! What the steps of a file are stands in `specs/` (`Stored`).
#![tactic(auto)]

pub mod notes;
pub mod past;
pub mod store;
