//! COSEM values in words, as `structure { long-unsigned 17, octet-string 0100010800FF }`: one form a value (own profile).
//! The kinds are named as in the common data types of IEC 62056-6-2.
//!
//! - [`writing::push_value`] puts the words of a value behind a text.
//! - [`reading::read_value`] reads the value in front of a text, or tells the first place where something else was asked.
//! - [`stop`], [`marks`] and [`numbers`] read the parts of any text from left to right, whatever is asked of it.
//! - [`laws`] has laws over all values and texts, for proofs that build on these functions.
#![tactic(auto)]

pub mod fault;
mod kinds;
pub mod laws;
pub mod marks;
pub mod numbers;
pub mod reading;
pub mod stop;
mod strings;
pub mod writing;
