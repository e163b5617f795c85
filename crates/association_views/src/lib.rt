//! What a client sees of a meter: the permits of its requests, and the attributes of its association.
#![tactic(auto)]

pub mod association;
pub mod laws;
pub mod permits;
pub mod selection;
pub mod view;
