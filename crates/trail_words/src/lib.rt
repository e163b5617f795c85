//! What a trail's file says, in words: when each step was taken, by whom, what it was and with what result (own profile).
//!
//! - [`writing::write_trail`] writes the steps of a trail's file that are wanted, in lines or as JSON.
//! - [`wanted::Wanted`] says which are, [`form::TrailForm`] in which form, [`fault::TrailTextFault`] why they weren't written whole.
//!
//! What is written is made while it is written: in memory are the file, a place in it for each entry, and up to 64 KiB of text that waits
//! and one step more. Each text of the file is written as `shown_text` shows it, so that no control character gets to a terminal by it.
//!
//! The definitions stand in `specs/`: what a note tells (`Notes`), which steps are wanted (`Wanting`), their lines (`Lines`) and JSON
//! (`Json`), and what is printed of a file (`Printing`).
#![tactic(auto)]

pub mod fault;
pub mod form;
mod json_text;
mod lines;
mod notes;
mod reading;
mod steps;
pub mod wanted;
mod words;
pub mod writing;
