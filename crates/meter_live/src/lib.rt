//! A live meter: its state is the run of its trail, readers read published copies of it without a lock, and ports of a board let
//! many threads use it.
//!
//! - [`live::Live`] takes steps and publishes them; [`reader::Reader`] answers GETs by what was published.
//! - [`board::Board`] is a live meter under a lock, with a [`board::Port`] for each thread that uses it. What each port took is
//!   counted by its share, and when the board is closed the shares add up to all that was taken.
//!
//! The definitions stand in `specs/`: how many changes a step is (`Changes`), a meter with its trail (`Trail`), what was
//! published of it (`Told`), and the rule of the published copies (`Copies`).
#![tactic(auto)]

mod archive;
pub mod board;
pub mod change;
pub mod desk;
pub mod fault;
pub mod history;
pub mod live;
pub mod names;
mod outbox;
mod pen;
pub mod reader;
pub mod resuming;
mod rule;
pub mod share;
pub mod shown;
pub mod traced;
mod unmoved;
