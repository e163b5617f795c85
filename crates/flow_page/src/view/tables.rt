//! The tables of ways.
ghost use Rattle.std.specs.Prelude.{◌≡◌, ◌<◌, ◌≤◌, ◌*◌, IfOk, cond, length, map, Some, None};
ghost use Rattle.std.specs.List.{All};
ghost use Rattle.meter_theory.specs.Plan as theory;
ghost use Rattle.flow_map.specs.Grouping.{AreGrouped, numbers_of};
ghost use Rattle.flow_page.specs.Rows.{AreRowsOf, IsRow};
ghost use Rattle.flow_page.specs.InTable.{rows_in};
ghost use Rattle.flow_page.specs.WayTables as spec;
ghost use Rattle.flow_page.specs.WayTables.{IsTable, ArePicks};

use crate::view::limits::WAYS;
use crate::view::lines::{client_name, lines_of};
use crate::view::picks::{FirstPicks, Pick};
use crate::view::table::Table;
use crate::ways::{Anchor, WayGroup, WayRow, WayTable};
use cosem_data::memory::Memory;
use flow_map::grouping::grouped;
use std::alloc::Global;

/// The table of these ways, those of one request, client and reach together; to how many cells those of a group lead, if that is
/// counted. The only error is want of memory.
pub(crate) fn way_table(
    alloc: Global,
    table: &Table<'_>,
    told: &FirstPicks,
    counted: bool,
) -> Result<WayTable, Memory>
    requires picks { ArePicks (length table.now.facts.now.ways.now.plan.clients) (length table.now.rows.now) told.now.picks.items }
    requires few { length told.now.picks.items ≤ WAYS }
    ensures { IfOk result (λ made. IsTable table.now.facts.now.ways.now.plan (rows_in table.now) told.now.picks.items told.now.left counted made) }
{
    let numbers = way_groups(alloc, &told.picks)?;
    let groups = group_rows(alloc, table, &told.picks, counted, &numbers)?;
    Ok(WayTable {
        groups,
        left: told.left,
    })
}

/// The numbers of these ways, those of one request, client and reach together.
fn way_groups(alloc: Global, told: &[Pick]) -> Result<Vec<Vec<usize>>, Memory>
    ensures { IfOk result (λ groups. AreGrouped (map spec.way_key told.now) (numbers_of groups.items)) }
{
    grouped(alloc, told)
}

/// The groups of ways with these numbers.
fn group_rows(
    alloc: Global,
    table: &Table<'_>,
    told: &[Pick],
    counted: bool,
    numbers: &[Vec<usize>],
) -> Result<Vec<WayGroup>, Memory>
    requires picks { ArePicks (length table.now.facts.now.ways.now.plan.clients) (length table.now.rows.now) told.now }
    requires few { length told.now ≤ WAYS }
    requires numbers { AreRowsOf (length told.now) (numbers_of numbers.now) }
    ensures { IfOk result (λ groups. map spec.group_shown groups.items
        ≡ map (spec.group_of table.now.facts.now.ways.now.plan (rows_in table.now) told.now counted) (numbers_of numbers.now)) }
{
    let mut groups = Vec::with_capacity(alloc, numbers.len())?;
    for group in numbers {
        groups.push(group_of(alloc, table, told, counted, group)?)?;
    }
    Ok(groups)
}

/// The group of the ways with these numbers.
fn group_of(
    alloc: Global,
    table: &Table<'_>,
    told: &[Pick],
    counted: bool,
    numbers: &[usize],
) -> Result<WayGroup, Memory>
    requires picks { ArePicks (length table.now.facts.now.ways.now.plan.clients) (length table.now.rows.now) told.now }
    requires few { length told.now ≤ WAYS }
    requires numbers { IsRow (length told.now) numbers.now }
    ensures { IfOk result (λ group. spec.group_shown group
        ≡ spec.group_of table.now.facts.now.ways.now.plan (rows_in table.now) told.now counted numbers.now) }
{
    let first = told[numbers[0]];
    let client = String::from_str(alloc, client_name(table.facts.ways.plan(), first.client))?;
    let cells = cells_if(table, told, counted, numbers);
    let rows = way_rows(alloc, table, told, numbers)?;
    Ok(WayGroup {
        reach: first.reach,
        client,
        request: first.request,
        cells,
        rows,
    })
}

/// To how many cells the ways with these numbers lead, if that is counted.
fn cells_if(table: &Table<'_>, told: &[Pick], counted: bool, numbers: &[usize]) -> Option<usize>
    requires picks { ArePicks (length table.now.facts.now.ways.now.plan.clients) (length table.now.rows.now) told.now }
    requires few { length told.now ≤ WAYS }
    requires numbers { IsRow (length told.now) numbers.now }
    ensures { result ≡ cond counted (Some (spec.cells_reached (rows_in table.now) told.now numbers.now)) None }
{
    if counted {
        Some(cells_reached(table, told, numbers))
    } else {
        None
    }
}

/// To how many cells the ways with these numbers lead.
fn cells_reached(table: &Table<'_>, told: &[Pick], numbers: &[usize]) -> usize
    requires picks { ArePicks (length table.now.facts.now.ways.now.plan.clients) (length table.now.rows.now) told.now }
    requires few { length told.now ≤ WAYS }
    requires numbers { IsRow (length told.now) numbers.now }
    ensures { result ≡ spec.cells_reached (rows_in table.now) told.now numbers.now }
{
    let mut cells = 0;
    for number in numbers {
        cells += size_of(table, told, *number);
    }
    cells
}

/// To how many cells the way with this number leads.
fn size_of(table: &Table<'_>, told: &[Pick], number: usize) -> usize
    requires picks { ArePicks (length table.now.facts.now.ways.now.plan.clients) (length table.now.rows.now) told.now }
    requires number { number < length told.now }
    ensures is { result ≡ spec.size_of (rows_in table.now) told.now number }
    ensures few { result ≤ 2048 }
{
    table.facts.ways.plan().known();
    table.row_size(told[number].row)
}

/// The ways with these numbers.
fn way_rows(
    alloc: Global,
    table: &Table<'_>,
    told: &[Pick],
    numbers: &[usize],
) -> Result<Vec<WayRow>, Memory>
    requires picks { ArePicks (length table.now.facts.now.ways.now.plan.clients) (length table.now.rows.now) told.now }
    requires numbers { All (λ number. number < length told.now) numbers.now }
    ensures { IfOk result (λ list. map spec.way_shown list.items
        ≡ map (λ number. spec.way_row table.now.facts.now.ways.now.plan (rows_in table.now) (spec.pick_numbered told.now number)) numbers.now) }
{
    let mut list = Vec::with_capacity(alloc, numbers.len())?;
    for number in numbers {
        list.push(way_row(alloc, table, told[*number])?)?;
    }
    Ok(list)
}

/// A way, without its request.
fn way_row(alloc: Global, table: &Table<'_>, pick: Pick) -> Result<WayRow, Memory>
    requires client { pick.client < length table.now.facts.now.ways.now.plan.clients }
    requires row { pick.row < length table.now.rows.now }
    ensures { IfOk result (λ told. spec.way_shown told ≡ spec.way_row table.now.facts.now.ways.now.plan (rows_in table.now) pick) }
{
    let cell = table.first_cell(pick.row);
    let edges = lines_of(alloc, table.facts.ways, pick.reach, pick.client, cell)?;
    Ok(WayRow {
        anchor: Anchor {
            reach: pick.reach,
            client: pick.client,
            cell,
        },
        cell: table.facts.ways.cells()[cell],
        alike: table.row_size(pick.row).saturating_sub(1),
        edges,
    })
}
