//! Callers that no other crate has. Each rests on a clause that nothing else needs, so that it is proved no more where a contract,
//! and with it a body, does less. There is nothing else here, and nothing calls them.
#![tactic(auto)]

pub mod meters;
pub mod programs;
pub mod values;
