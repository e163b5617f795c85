//! What is told of a configuration or of labels that are refused, after the verdict, and of what is most likely a slip: what is
//! wrong, where, and how it is mended (own profile). The causes are those that the judge met; here are their words.
//!
//! All of it is lines of printable characters of ASCII (`Lines`), whatever stands in the texts.
#![tactic(auto)]

mod class_words;
pub mod config;
mod execution_times;
mod hexes;
mod kind_words;
pub mod labels;
mod lines;
mod meaning;
mod mending;
mod met;
pub mod refusal;
mod standing;
mod syntax;
mod takes_words;
pub mod warnings;
