//! What a step line asked, what was answered and what it changed, in words (own profile):
//!
//! ```text
//! line 4: in 1.0.1.8.0.255 double-long-unsigned 90
//!   3/1.0.1.8.0.255/2 is now double-long-unsigned 90
//! ```
//!
//! - [`watch::Watch`] keeps what the cells of a meter held when they were looked at last.
//! - [`telling::push_told`] puts what is told of a line behind a text.
//! - [`watching::run_watched`] answers lines as `run_lines` does, and tells of each.
#![tactic(auto)]

mod cut;
mod held;
mod moving;
mod telling;
pub mod watch;
pub mod watching;
