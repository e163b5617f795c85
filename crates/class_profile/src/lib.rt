//! Interface class 7, Profile generic, version 1 (IEC 62056-6-2): its cells, to which a plan lends the rest, the laws of
//! `cosem_class::class::InterfaceClass`, and the fixed attributes as values.
#![tactic(auto)]

pub mod due;
pub mod entries;
pub mod held;
pub mod laws;
pub mod menus;
pub mod profile;
pub mod rows;
pub mod selection;
mod shapes;
