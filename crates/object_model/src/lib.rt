//! The plan of a meter, and the meter: a value for each of its cells.
#![tactic(auto)]

pub mod argument;
pub mod cells;
pub mod client;
pub mod effect;
mod grants;
pub mod held;
mod index;
pub mod instance;
pub mod laws;
pub mod menus;
pub mod meter;
pub mod object;
pub mod part;
mod place;
pub mod plan;
pub mod policy;
mod references;
pub mod right;
pub mod script_places;
mod stored;
pub mod undo;

pub use meter_theory::access::AccessCode;
