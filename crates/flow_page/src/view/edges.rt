//! The edges of a plan, by their causes.
ghost use Rattle.std.specs.Prelude.{◌≡◌, IfOk, count_by, map};
ghost use Rattle.meter_theory.specs.Edges.{same_cause};
ghost use Rattle.flow_page.specs.Objects as spec;

use crate::page::CauseCount;
use crate::view::limits::EDGES;
use cosem_data::memory::Memory;
use meter_theory::flow::{Cause, Edge};
use std::alloc::Global;

/// How many of these edges there are of each cause. The only error is want of memory.
pub(crate) fn cause_counts(alloc: Global, edges: &[Edge]) -> Result<Vec<CauseCount>, Memory>
    ensures { IfOk result (λ counts. counts.items ≡ map (spec.cause_count edges.now) spec.causes) }
{
    Ok(vec![in alloc;
        cause_count(edges, Cause::Monitored),
        cause_count(edges, Cause::Monitor),
        cause_count(edges, Cause::Captured),
        cause_count(edges, Cause::Menu),
        cause_count(edges, Cause::Period),
        cause_count(edges, Cause::Schedule),
        cause_count(edges, Cause::Clock),
    ]?)
}

/// A cause, and how many of these edges have it.
fn cause_count(edges: &[Edge], cause: Cause) -> CauseCount
    ensures { result ≡ spec.cause_count edges.now cause }
{
    let edges = count(edges, cause);
    CauseCount { cause, edges }
}

/// How many of these edges have a cause.
fn count(edges: &[Edge], cause: Cause) -> usize
    ensures { result ≡ count_by (λ e. same_cause e.cause cause) edges.now }
{
    edges.iter().filter(|edge| edge.cause == cause).count()
}

/// These edges, or none if there are more than 500 (own profile). The only error is want of memory.
pub(crate) fn listed_edges(alloc: Global, edges: Vec<Edge>) -> Result<Vec<Edge>, Memory>
    ensures { IfOk result (λ list. list.items ≡ spec.listed_edges edges.items) }
{
    if edges.len() <= EDGES {
        Ok(edges)
    } else {
        Ok(Vec::new(alloc))
    }
}
