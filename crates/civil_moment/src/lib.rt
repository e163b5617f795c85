//! Moments of the civil calendar in whole seconds: their text, their place in time, their day of the week, and the
//! last day of their month. Nothing here takes memory.
#![tactic(auto)]

mod days;
pub mod moment;
