//! The page of a plan.
ghost use Rattle.std.specs.Prelude.{◌≡◌, IfOk, option_map};
ghost use Rattle.flow_page.specs.Changes.{AreChangesOf};
ghost use Rattle.flow_page.specs.Marks.{told};
ghost use Rattle.flow_page.specs.Shown as spec;
ghost use Rattle.flow_page.specs.Shown.{AreEdges, AreObjects, IsPage, IsPageOf};

use crate::changes::Changes;
use crate::objects::ObjectRow;
use crate::page::{CauseCount, Heading, Page};
use crate::view::changes::changes_of;
use crate::view::clients::clients_of;
use crate::view::edges::{cause_counts, listed_edges};
use crate::view::facts::Facts;
use crate::view::objects::{object_numbers, object_rows};
use crate::view::parts::matrix_parts;
use cosem_data::memory::Memory;
use flow_changes::compare::Comparison;
use flow_map::map::FlowMap;
use flow_map::outline::Outline;
use flow_ways::ways::Ways;
use meter_theory::flow::{Edge, Label};
use std::alloc::Global;

/// The page of a plan's ways and its policy, under this heading, and with what has changed where it is compared with the
/// configuration before (own profile).
///
/// # Errors
/// Memory was refused.
pub fn page_of(
    alloc: Global,
    ways: &Ways<'_>,
    heading: Heading,
    comparison: Option<&Comparison<'_>>,
) -> Result<Page, Memory>
    ensures { IfOk result (λ page.
        IsPageOf ways.now.plan ways.now.policy (option_map (λ told. told.now) comparison.entry) heading page) }
{
    let facts = Facts {
        ways,
        allowed: ways.map().allowed(),
        gained: gained_by(comparison),
        lost: lost_by(comparison),
    };
    let changes = changes_by(alloc, ways, comparison)?;
    page_from(alloc, &facts, heading, changes)
}

/// Who has gained each cell.
fn gained_by<'a>(comparison: Option<&'a Comparison<'_>>) -> &'a [Label]
    ensures { result.now ≡ spec.gained_by (option_map (λ told. told.now) comparison.entry) }
{
    match comparison {
        Some(comparison) => &comparison.gained,
        None => &[],
    }
}

/// Who has lost each cell.
fn lost_by<'a>(comparison: Option<&'a Comparison<'_>>) -> &'a [Label]
    ensures { result.now ≡ spec.lost_by (option_map (λ told. told.now) comparison.entry) }
{
    match comparison {
        Some(comparison) => &comparison.lost,
        None => &[],
    }
}

/// What has changed, where there is a comparison.
fn changes_by(
    alloc: Global,
    ways: &Ways<'_>,
    comparison: Option<&Comparison<'_>>,
) -> Result<Option<Changes>, Memory>
    ensures { IfOk result (AreChangesOf ways.now.plan (option_map (λ told. told.now) comparison.entry)) }
{
    match comparison {
        Some(comparison) => Ok(Some(changes_of(alloc, ways, comparison)?)),
        None => Ok(None),
    }
}

/// The page of these facts.
fn page_from(
    alloc: Global,
    facts: &Facts<'_>,
    heading: Heading,
    changes: Option<Changes>,
) -> Result<Page, Memory>
    ensures page { IfOk result (λ page. IsPage (told facts.now) heading page) }
    ensures changes { IfOk result (λ page. page.changes ≡ changes) }
{
    let clients = clients_of(alloc, facts)?;
    let matrix = matrix_parts(alloc, facts)?;
    let plan = facts.ways.plan();
    let objects = objects_of(alloc, plan)?;
    let edges = edges_of(alloc, facts.ways.map())?;
    Ok(Page {
        heading,
        object_count: plan.objects().len(),
        cell_count: facts.ways.cells().len(),
        edge_count: edges.count,
        total: clients.total,
        clients: clients.rows,
        rows: matrix.rows,
        refused: matrix.refused,
        reached: matrix.reached,
        changes,
        objects,
        causes: edges.causes,
        edges: edges.listed,
    })
}

/// The objects of a plan, in rows.
fn objects_of(alloc: Global, plan: &Outline<'_>) -> Result<Vec<ObjectRow>, Memory>
    ensures { IfOk result (λ rows. AreObjects plan.now rows.items) }
{
    let numbers = object_numbers(alloc, plan)?;
    object_rows(alloc, plan, &numbers)
}

/// What is told of edges.
#[derive(Drop)]
struct EdgeParts {
    /// How many there are.
    count: usize,
    /// How many of each cause.
    causes: Vec<CauseCount>,
    /// Those that are listed.
    listed: Vec<Edge>,
}

/// What is told of the edges of a plan.
fn edges_of(alloc: Global, map: &FlowMap<'_>) -> Result<EdgeParts, Memory>
    ensures { IfOk result (λ parts. AreEdges map.now.plan parts.count parts.causes.items parts.listed.items) }
{
    let all = map.edges(alloc)?;
    let count = all.len();
    let causes = cause_counts(alloc, &all)?;
    let listed = listed_edges(alloc, all)?;
    Ok(EdgeParts {
        count,
        causes,
        listed,
    })
}
