//! Verdicts on whole fleets of configurations and their labels, by many workers (own profile).
//!
//! - [`fleet::audit`] comes to the verdicts on many texts, each in the order given, whatever the number of workers;
//!   [`fleet::audit_watched`] tells a [`watch::Watch`] of each as it comes.
//! - [`reading::read_fleet`] reads the files of a fleet, by many workers.
//! - [`telling::audit_texts`] tells the verdicts in lines; [`telling::audit_texts_aloud`] also tells how far it is, by a
//!   [`progress::Progress`].
//! - [`laws`] has the law that lists of verdicts may be cut and joined, and that one text has one verdict.
#![tactic(auto)]

pub mod fault;
pub mod fleet;
pub mod laws;
pub mod progress;
pub mod reading;
pub mod telling;
pub mod text;
mod threads;
mod turns;
pub mod watch;
mod worker;

pub use gates::{Gate, Go};
pub use verdict::Verdict;
