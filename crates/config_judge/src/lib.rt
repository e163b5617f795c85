//! Whether what the tables of a configuration say is right (own profile): names and indexes, values, rights, labels and sizes,
//! the codes C4 to C22, each looked for in the whole configuration before the next; and what its names lead to.
#![tactic(auto)]

pub mod arrays;
mod clients;
mod clocks;
mod counts;
pub mod directory;
mod fed;
mod form;
mod forms;
mod indexes;
mod kinds;
mod labels;
pub mod laws;
mod limits;
mod menus;
mod objects;
mod passes;
mod places;
mod reference_walk;
mod references;
mod rights;
mod scripts;
mod sorting;
pub mod targets;
mod times;
mod value;
mod values;
mod walk;

pub use passes::judge;
