//! Interface classes (IEC 62056-6-2): an object is a finite map from attribute index to value beside a fixed part, and
//! each class proves the laws of `class::InterfaceClass`. Here are the trait, class 1 Data and class 3 Register.
#![tactic(auto)]

pub mod cell_set;
pub mod class;
pub mod data1;
pub mod generic;
pub mod judge;
pub mod part;
pub mod register;
pub mod shapes;
