//! What a step does to a meter: effects one after another, wholly or not at all.
#![tactic(auto)]

pub mod effects;
pub mod laws;
pub mod own_steps;
pub mod promises;
pub mod scripts;
pub mod walk;
