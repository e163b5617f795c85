//! The command line of the program `cosem-flow`: what its words ask for, and the texts of help, version and usage faults (own
//! profile).
#![tactic(auto)]

mod arguments;
pub mod command;
mod commands;
pub mod fault;
mod misuse;
mod name;
pub mod reading;
mod rows;
pub mod serving;
mod words;

pub use command::{Command, EdgesForm, ReportForm, Warned};
pub use fault::WordsFault;
pub use reading::read_words;
pub use serving::Serving;
