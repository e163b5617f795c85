//! What a meter does at a step, and what it answers.
#![tactic(auto)]

pub mod apply;
pub mod back;
pub mod changing;
pub mod judged;
pub mod moments;
pub mod reply;
pub mod run;
pub mod shown;
pub mod step;
