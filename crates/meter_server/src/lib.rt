//! What the program does with the words of its command line: how each command ends, and what is told of that. What a command does
//! to come there stands in the crates below.
#![tactic(auto)]

mod answering;
mod auditing;
mod comparing;
pub mod demo;
mod files;
mod looking;
mod noticing;
pub mod outcome;
pub mod output;
pub mod program;
pub mod remarks;
mod reporting;
mod serving;
mod sources;
mod texts;
mod trailing;
mod unread;
mod warning;

pub use command_words::{Command as Line, WordsFault, read_words};
pub use frame_server::fault::ServeFault;
pub use frame_server::serving::{serve, serve_gated};
pub use line_server::fault::LineFault;
pub use line_server::running::run_lines;
pub use live_server::asking::PortAsker;
pub use live_server::fault::ServerFault;
pub use live_server::sessions::serve_sessions;
pub use value_text::edge::edge_text;
pub use verdict::verdict_text;
