//! A live meter that many connections over TCP ask at once, and that a driver's lines move.
//!
//! - [`serving::serve_at`] binds a place, and answers connections there; [`bind_fault::BindFault`] says why it isn't bound.
//! - [`sessions::serve_sessions`] answers connections, each in a thread of its own, on one board.
//! - [`asking::PortAsker`] is what a session asks: a port of the board, with its share and its reader.
//! - [`output::SharedOutput`] is written by the threads of a server, and by what makes the driver's lines.
//! - [`driver::Driver`] takes the meter's own steps from lines, and tells of those that are refused by its [`notices::Notices`].
#![tactic(auto)]

mod accepting;
pub mod asking;
pub mod bind_fault;
mod by_line;
pub mod driver;
pub mod fault;
mod log;
pub mod notices;
pub mod output;
mod seats;
pub mod serving;
pub mod sessions;
pub mod sitting;
