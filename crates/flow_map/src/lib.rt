//! What is known of the flow of a configuration, made once for all who tell of it (own profile).
//!
//! - [`map::FlowMap`] is made of a plan and its policy: cells, edges, whom rights grant each cell, and whom the policy allows it.
//! - [`least::LeastMap`] is a map with the least labels: who may reach each cell.
//! - [`outline`] is what is told of a plan, which has no value and no password.
//! - [`request`] has the requests that rights allow, and [`kind`] the kinds of facts that configurations are compared by.
//! - [`class_words`] names classes and attributes, and [`words`] what clients may do with cells.
//! - [`grouping::grouped`] puts the numbers of what is alike together; [`pushing`] puts an item after others if a test holds.
//!
//! The definitions stand in `specs/`. The theorems are the functions of [`laws`].
#![tactic(auto)]

pub mod class_words;
mod granting;
pub mod grouping;
pub mod kind;
pub mod laws;
pub mod least;
pub mod map;
pub mod outline;
pub mod pushing;
pub mod request;
pub mod words;
