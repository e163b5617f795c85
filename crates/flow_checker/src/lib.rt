//! Whether labels are accepted for a plan and its policy, and what an accepted plan promises.
//!
//! The definitions stand in `specs/`: all that fails the clauses of admission (`Failures`), clause by clause and number by number
//! (`Clauses`), what a checker answers (`Answer`), and what a client could notice of a step (`Notices`). [`check::check`] judges,
//! [`check::Checked`] is the plan that it accepted, and [`notice::quiet`] says of a step whether a client could notice it.
#![tactic(auto)]

mod case;
pub mod check;
mod clauses;
pub mod failure;
pub mod failures;
mod learned;
mod looking;
pub mod notice;
pub mod refusal;
mod sets;
