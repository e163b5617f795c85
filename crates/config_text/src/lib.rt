//! What the tables of a configuration's text say (own profile), or the faults in them: a text that is no TOML (C1), else each key
//! that is missing or unknown (C2), else each value of a wrong kind or out of its range (C3). A fault's place is the path to it, as
//! `object[6].name`.
#![tactic(auto)]

mod both;
pub mod cause;
mod client;
mod clock;
mod elements;
pub mod fault;
pub mod hex_value;
mod kept;
pub mod key_text;
mod keys;
pub mod known;
mod lists;
mod lookup;
mod monitor;
mod near;
pub mod noting;
mod object;
pub mod parts;
pub mod place;
mod profile;
mod read;
pub mod refusal;
mod register;
mod right;
mod schedule;
mod script;
pub mod service;
mod tables;
pub mod takes;
mod target;
mod values;

pub use read::read_tables;
