//! What is allowed in a configuration and yet most likely a slip (own profile).
//!
//! - [`finding::warnings`] tells it of a plan.
//! - [`widths`] counts the cells of which labels or the policy admit more clients than they need.
//! - [`warning::Warning`] is one such thing, with the path to it in the configuration's text and its words.
#![tactic(auto)]

mod dates;
pub mod finding;
pub mod laws;
mod rights;
mod scripts;
pub mod warning;
pub mod widths;
