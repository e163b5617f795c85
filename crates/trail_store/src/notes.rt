//! What is told of a step above its line.

use cosem_data::memory::Memory;
use meter_core::reply::Reply;
use meter_core::step::Step;
use std::alloc::Global;

/// Tells of steps, each in a text of one line.
pub trait Notes {
    /// What is told of a step that this port took, which was answered so: when it was, by whom and with what result.
    fn note(&self, alloc: Global, port: u8, step: &Step, reply: &Reply) -> Result<String, Memory>;
}
