//! How a configuration differs from an earlier one: which facts are told of it that weren't of the other, which no longer
//! are, and which clients gain by that (own profile).
//!
//! The definitions stand in `specs/`: the facts of a configuration (`Facts`), what is gained and lost and the text of it
//! (`Changes`), what the facts of the code say (`Shown`), and how a comparison is written (`Written`). The theorems are the
//! functions of [`laws`].
//!
//! - [`compare::compare`] tells how two configurations differ, and [`compare::write_comparison`] writes it.
#![tactic(auto)]

mod cells;
mod clients;
pub mod compare;
mod differences;
mod edges;
pub mod fact;
mod labels;
pub mod laws;
mod namesakes;
mod owned;
mod reaches;
mod rights;
mod text;
