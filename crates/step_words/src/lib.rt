//! Steps in words, as `manager get 3/1.0.1.8.0.255/2`, and step lines in hex, and each made of the other (own profile).
//!
//! - [`texts::encode_text`] makes steps in words into step lines in hex.
//! - [`texts::decode_text`] makes step lines in hex, and the replies to them, into words.
//! - [`steps::push_step`] and [`replies::push_reply`] put the words of one step line or of one reply behind a text.
//! - [`texts::encode_values`] and [`texts::decode_values`] do so of values, a line each.
//! - [`translating::translate`] does any of these from an input onto an output.
//! - [`fault::TextFault`] tells the first place where something else was asked, and what.
//! - [`laws`] has laws over all texts, for proofs that build on these functions.
#![tactic(auto)]

mod asking;
pub mod fault;
mod head;
pub mod laws;
mod parts;
mod replies;
mod requests;
mod runs;
pub mod steps;
pub mod texts;
pub mod translating;

pub use replies::result_words;
pub use requests::USUAL_INVOKE;
