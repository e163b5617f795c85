//! Lines of the trail of a meter that was served: a step a line, in the form of a step line where that says one step alone, and
//! in a form of its own where a step line would bring more.
//!
//! - [`line::read_trail_line`] tells what a line says.
//! - [`running::run_trail`] has a meter alone answer lines of a trail.
//! - [`writing::write_step`] and [`writing::write_seconds`] write lines that say a step, and seconds that passed.
#![tactic(auto)]

pub mod limits;
pub mod line;
pub mod running;
mod words;
pub mod writing;
