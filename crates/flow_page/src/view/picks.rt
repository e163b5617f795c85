//! Which ways tables tell.
ghost use Rattle.std.specs.Prelude.{◌≡◌, ◌<◌, ◌-◌, ◌++◌, IfOk, OnOk, length, take};
ghost use Rattle.std.specs.List.{filter, list_any};
ghost use Rattle.meter_theory.specs.Plan as theory;
ghost use Rattle.flow_page.specs.InTable.{rows_in, told_in};
ghost use Rattle.flow_page.specs.WayTables as spec;

use crate::view::marks::{distance, has_at, request};
use crate::view::table::Table;
use cosem_data::memory::Memory;
use flow_map::pushing::{push_if, push_some};
use flow_map::request::GrantedRequest;
use meter_theory::flow::Reach;
use std::alloc::Global;

/// A way that is told: that of a client to the first cell of a row (own profile). Two are equal where they are of one request,
/// client and reach, and so of one group, whatever their rows.
#[derive(Clone, Copy, Drop)]
#[derive_where(PartialEq, Eq)]
pub(crate) struct Pick {
    /// Whether it is a way of influence or of learning.
    pub reach: Reach,
    /// The number of the client.
    pub client: u8,
    /// The number of the row.
    #[derive_where(skip(EqHashOrd))]
    pub row: usize,
    /// The request at its other end.
    pub request: GrantedRequest,
}

/// Which ways a table tells (own profile).
#[derive(Clone, Copy)]
pub(crate) enum Sort {
    /// Those that the policy doesn't allow.
    Refused,
    /// Those by edges that it allows.
    Reached,
}

/// All ways of a sort to first cells of rows: client by client, influence before learning, and row by row. The only error is want
/// of memory.
pub(crate) fn picks(alloc: Global, table: &Table<'_>, sort: Sort) -> Result<Vec<Pick>, Memory>
    ensures { IfOk result (λ list. list.items ≡ spec.picks (told_in table.now) sort (rows_in table.now)) }
{
    let mut list = Vec::new(alloc);
    for client in 0..table.facts.ways.plan().client_count() {
        push_reach(alloc, table, sort, Reach::Influence, client, &mut list)?;
        push_reach(alloc, table, sort, Reach::Learn, client, &mut list)?;
    }
    Ok(list)
}

/// Puts those of a reach of a client behind others.
fn push_reach(
    alloc: Global,
    table: &Table<'_>,
    sort: Sort,
    reach: Reach,
    client: u8,
    list: &mut Vec<Pick>,
) -> Result<(), Memory>
    requires client { client < length table.now.facts.now.ways.now.plan.clients }
    ensures { OnOk result (list.new.items ≡ list.old.items
        ++ spec.reach_picks (told_in table.now) sort (rows_in table.now) reach client) }
{
    for row in 0..table.rows.len() {
        let pick = pick_at(alloc, table, sort, reach, client, row)?;
        push_some(pick, list)?;
    }
    Ok(())
}

/// The way of a client to the first cell of a row, if it is of this sort.
fn pick_at(
    alloc: Global,
    table: &Table<'_>,
    sort: Sort,
    reach: Reach,
    client: u8,
    row: usize,
) -> Result<Option<Pick>, Memory>
    requires client { client < length table.now.facts.now.ways.now.plan.clients }
    requires row { row < length table.now.rows.now }
    ensures { IfOk result (λ pick. pick
        ≡ spec.pick_at (told_in table.now) sort (rows_in table.now) reach client row) }
{
    let cell = table.first_cell(row);
    let distance = distance(table.facts.ways, reach, client, cell);
    let allowed = has_at(table.facts.allowed, reach, client, cell);
    if !is_of(sort, distance, allowed) {
        return Ok(None);
    }
    match request(alloc, table.facts.ways, reach, client, cell)? {
        None => Ok(None),
        Some(request) => Ok(Some(Pick {
            reach,
            client,
            row,
            request,
        })),
    }
}

/// Whether a way of this length, which the policy allows or not, is of this sort.
fn is_of(sort: Sort, distance: Option<usize>, allowed: bool) -> bool
    ensures { result ≡ spec.is_of sort distance allowed }
{
    match (sort, distance) {
        (Sort::Refused, Some(_)) => !allowed,
        (Sort::Refused, None) => false,
        (Sort::Reached, Some(0)) => false,
        (Sort::Reached, Some(_)) => allowed,
        (Sort::Reached, None) => false,
    }
}

/// Those of these ways that lead to a row. The only error is want of memory.
pub(crate) fn picks_to(alloc: Global, list: &[Pick], row: usize) -> Result<Vec<Pick>, Memory>
    ensures { IfOk result (λ picks. picks.items ≡ filter (spec.leads_to row) list.now) }
{
    let mut picks = Vec::new(alloc);
    for pick in list {
        push_if(pick.row == row, *pick, &mut picks)?;
    }
    Ok(picks)
}

/// Whether one of these ways is of a client.
pub(crate) fn has_way(list: &[Pick], reach: Reach, client: u8) -> bool
    ensures { result ≡ list_any (spec.is_way reach client) list.now }
{
    list.iter()
        .any(|pick| pick.reach == reach && pick.client == client)
}

/// Those of a list that a table tells, and how many are left.
#[derive(Drop)]
pub(crate) struct FirstPicks {
    /// The first.
    pub picks: Vec<Pick>,
    /// How many more there are.
    pub left: usize,
}

/// As many of these as there is room for, the first of them.
pub(crate) fn first_picks(list: Vec<Pick>, room: usize) -> FirstPicks
    ensures picks { result.picks.items ≡ take room list.items }
    ensures left { result.left ≡ length list.items - room }
{
    let mut picks = list;
    let left = picks.len().saturating_sub(room);
    picks.truncate(room);
    FirstPicks { picks, left }
}
