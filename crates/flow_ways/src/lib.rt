//! Ways by which clients may influence and learn the cells of a plan: how far each cell is from each client, and the way that is
//! shown (own profile).
//!
//! The definitions stand in `specs/` of `meter_theory` (`Ways`) and here: sets of clients, round by round (`Rounds`), distances
//! as numbers (`Distances`) and as a function (`Found`), what is kept of a plan (`Kept`), and what is told of a client and a cell (`Why`). The theorems are the functions of [`laws`].
#![tactic(auto)]

mod arriving;
mod distances;
pub mod laws;
mod rounds;
pub mod ways;
pub mod why;
