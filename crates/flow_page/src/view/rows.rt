//! The rows of the matrix: which cells share one.
ghost use Rattle.std.specs.Prelude.{◌≡◌, ◌<◌, IfOk, cond, flat_map, length, map, None};
ghost use Rattle.std.specs.List.{range_with_len};
ghost use Rattle.meter_theory.specs.Plan as theory;
ghost use Rattle.flow_map.specs.Grouping.{numbers_of};
ghost use Rattle.flow_edges.specs.Table.{cell_at};
ghost use Rattle.flow_page.specs.Keys.{row_facts};
ghost use Rattle.flow_page.specs.Marks.{request_of, told};
ghost use Rattle.flow_page.specs.Rows as spec;

use crate::view::facts::Facts;
use crate::view::keys::{MarkKey, RowKey, row_groups, word_of};
use crate::view::limits::ROWS;
use crate::view::marks::{request, standing_of};
use cosem_data::memory::Memory;
use flow_map::request::GrantedRequest;
use meter_theory::flow::Reach;
use std::alloc::Global;

/// The numbers of the cells of each row: up to 100 cells have a row each, past it those that are alike share one (own profile). The
/// only error is want of memory.
pub(crate) fn row_numbers(alloc: Global, facts: &Facts<'_>) -> Result<Vec<Vec<usize>>, Memory>
    ensures { IfOk result (λ rows. spec.AreRows (told facts.now) (numbers_of rows.items)) }
{
    let count = facts.ways.cells().len();
    if count <= ROWS {
        return singles(alloc, count);
    }
    let keys = row_keys(alloc, facts)?;
    row_groups(alloc, &keys)
}

/// One number a row.
pub(crate) fn singles(alloc: Global, count: usize) -> Result<Vec<Vec<usize>>, Memory>
    ensures { IfOk result (λ rows. numbers_of rows.items ≡ spec.singles count) }
{
    let mut rows = Vec::with_capacity(alloc, count)?;
    for number in 0..count {
        rows.push(vec![in alloc; number]?)?;
    }
    Ok(rows)
}

/// What each cell has alike with others of its row.
fn row_keys(alloc: Global, facts: &Facts<'_>) -> Result<Vec<RowKey>, Memory>
    ensures { IfOk result (λ keys. map row_facts keys.items
        ≡ map (spec.row_key (told facts.now)) (range_with_len 0 (length (theory.cells facts.now.ways.now.plan)))) }
{
    let count = facts.ways.cells().len();
    let mut keys = Vec::with_capacity(alloc, count)?;
    for cell in 0..count {
        keys.push(row_key(alloc, facts, cell)?)?;
    }
    Ok(keys)
}

/// What a cell has alike with others of its row.
fn row_key(alloc: Global, facts: &Facts<'_>, cell: usize) -> Result<RowKey, Memory>
    requires { cell < length (theory.cells facts.now.ways.now.plan) }
    ensures { IfOk result (λ key. row_facts key ≡ spec.row_key (told facts.now) cell) }
{
    let marks = mark_keys(alloc, facts, cell)?;
    let place = facts.ways.cells()[cell];
    Ok(RowKey {
        class_id: place.class_id,
        index: place.index,
        marks,
    })
}

/// What the marks of a cell have alike with those of others.
fn mark_keys(alloc: Global, facts: &Facts<'_>, cell: usize) -> Result<Vec<MarkKey>, Memory>
    requires { cell < length (theory.cells facts.now.ways.now.plan) }
    ensures { IfOk result (λ keys. keys.items
        ≡ flat_map (spec.client_keys (told facts.now) cell) (range_with_len 0 (length facts.now.ways.now.plan.clients))) }
{
    let mut keys = Vec::new(alloc);
    for client in 0..facts.ways.plan().client_count() {
        keys.push(mark_key(alloc, facts, Reach::Influence, client, cell)?)?;
        keys.push(mark_key(alloc, facts, Reach::Learn, client, cell)?)?;
    }
    Ok(keys)
}

/// What a mark has alike with others.
fn mark_key(
    alloc: Global,
    facts: &Facts<'_>,
    reach: Reach,
    client: u8,
    cell: usize,
) -> Result<MarkKey, Memory>
    requires cell { cell < length (theory.cells facts.now.ways.now.plan) }
    requires client { client < length facts.now.ways.now.plan.clients }
    ensures { IfOk result (λ key. key ≡ spec.mark_key (told facts.now) reach client cell) }
{
    let standing = standing_of(facts, reach, client, cell);
    let refused = refused(alloc, facts, standing.allowed, reach, client, cell)?;
    Ok(MarkKey {
        word: word_of(standing.found),
        allowed: standing.allowed,
        change: standing.change,
        refused,
    })
}

/// The request at the other end of the way, unless it is allowed.
fn refused(
    alloc: Global,
    facts: &Facts<'_>,
    allowed: bool,
    reach: Reach,
    client: u8,
    cell: usize,
) -> Result<Option<GrantedRequest>, Memory>
    requires cell { cell < length (theory.cells facts.now.ways.now.plan) }
    requires client { client < length facts.now.ways.now.plan.clients }
    ensures { IfOk result (λ request. request
        ≡ cond allowed None (request_of facts.now.ways.now.plan reach client (cell_at (theory.cells facts.now.ways.now.plan) cell))) }
{
    if allowed {
        return Ok(None);
    }
    request(alloc, facts.ways, reach, client, cell)
}
