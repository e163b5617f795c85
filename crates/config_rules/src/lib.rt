//! What can be wrong with a configuration, and the plan of one in which nothing is: definitions that the crates above cite,
//! and what follows from them.
#![tactic(auto)]

pub mod laws;
