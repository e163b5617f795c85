//! Lines of text, answered one after another: the APDUs of clients in hex and the meter's own steps come in, the replies in hex go
//! out.
//!
//! - [`lines::answer_lines`] is the loop over lines, whatever answers them, and [`feeding::Feeder`] gives the lines of bytes that come
//!   in pieces.
//! - [`running::run_lines`] has a meter alone answer them.
#![tactic(auto)]

mod answering;
mod digits;
pub mod driving;
pub mod fault;
pub mod feeding;
pub mod line;
pub mod lines;
pub mod reason;
pub mod running;
mod text;
