//! Interface classes that control (IEC 62056-6-2): class 8 Clock, class 9 Script table, class 21 Register monitor and class 22
//! Single action schedule, each over what its plan lends, with the laws of `cosem_class::class::InterfaceClass`.
#![tactic(auto)]

pub mod action;
pub mod clock;
mod due;
pub mod judge;
pub mod matching;
pub mod menus;
pub mod monitor;
pub mod parts;
mod references;
pub mod schedule;
pub mod script;
pub mod script_table;
mod shapes;
pub mod times;

pub use civil_moment::moment::Moment;
