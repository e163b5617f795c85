//! Labels of cells as a certificate: the least sets of clients along arrows, and the texts in which labels are kept.
//!
//! The definitions stand in `specs/`: arrows between sets (`Closing`), by their sources (`Chains`), numbers that wait
//! (`Waiting`), a line and its text (`LabelLine`), texts of labels (`LabelText`) with sets by the places of their clients
//! (`Members`), and faults (`Faults`). The theorems are the functions of [`laws`].
#![tactic(auto)]

mod arrows;
mod chains;
mod closing;
pub mod fault;
pub mod granted;
mod joining;
pub mod label_sets;
pub mod labels;
pub mod laws;
pub mod least;
mod line;
pub mod numbered;
pub mod reading;
mod waiting;
pub mod writing;
