//! Where the lines of the meter's own steps come from, beside a program's input (own profile).
//!
//! - [`file`] gives the lines of a file, or of a FIFO from one writer after another.
//! - [`clock`] has the system's clock make them: [`due`] tells which line is due at a second, and [`text`] is what it reads.
#![tactic(auto)]

pub mod clock;
pub mod due;
pub mod file;
mod giving;
mod moments;
mod text;
