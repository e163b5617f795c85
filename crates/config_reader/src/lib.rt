//! A configuration's text read to its plan and its policy, or to all the faults of the first pass that finds any.
#![tactic(auto)]

mod clients;
pub mod laws;
mod objects;
mod plan;
mod policy;
mod reading;
mod resolved;
mod scripts;
mod targets;

pub use config_text::fault::ConfigFault;
pub use reading::read_config;
