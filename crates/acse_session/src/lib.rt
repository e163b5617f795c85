//! Sessions: the answers to the APDUs of one connection, one after another (IEC 62056-5-3).
//!
//! - [`session::Session`] answers an APDU behind those that came before: it keeps the association in force and the value that is sent
//!   in blocks, and asks the meter each step that a request is.
//! - [`Asker`] is what takes these steps, and [`Solo`] a meter alone that does, both of `xdlms_services`.
//! - [`laws`] has the law that equal APDUs and equal replies of the meter have equal answers.
#![tactic(auto)]

pub mod laws;
pub mod session;
mod turning;

pub use xdlms_services::asker::Asker;
pub use xdlms_services::solo::Solo;
