//! Names, bytes, values, cells and edges as texts: words of lines and texts of configurations (own profile).
#![tactic(auto)]

pub mod cell;
pub mod client_name;
pub mod digits;
pub mod edge;
pub mod name;
pub mod value;
