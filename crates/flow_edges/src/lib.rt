//! From which cell to which a value may flow: the edges of a plan, each once, in one order.
#![tactic(auto)]

mod causes;
pub mod edges;
pub mod ends;
mod marks;
mod script_changes;
pub mod table;

pub use meter_theory::flow::Edge;
