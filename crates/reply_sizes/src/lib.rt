//! How long the values are that a meter replies: [`laws`] has the theorems, for what writes them and sends them in blocks
//! (IEC 62056-5-3, Get-Response-With-Datablock).
#![tactic(auto)]

pub mod laws;
