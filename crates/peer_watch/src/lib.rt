//! What stands round a connection: how long it may be idle, how long the answer to a refused association waits, and what is told of it
//! (own profile).
//!
//! - [`rules`] has how long is waited, as functions of numbers.
//! - [`answers`] tells from the frame of an answer what it says of the association; [`laws`] has that each answer of this server is
//!   understood.
//! - [`seen`] has what is seen of a connection, and [`peer`] all that is known of it while it lasts. Its reader, its writer and the gate
//!   of its seat share that: [`reader`] ends an idle connection, [`writer`] holds refusals back, and [`gate`] counts the frames.
//! - [`events`] has what is told of a connection, and [`line`] the line that it is told by.
//!
//! None of them changes a byte that is read or written. Nothing calls them yet.
#![tactic(auto)]

pub mod answers;
pub mod events;
pub mod gate;
pub mod laws;
pub mod line;
pub mod peer;
pub mod reader;
pub mod rules;
pub mod seen;
mod words;
pub mod writer;
