//! The rows of the matrix with their marks.
ghost use Rattle.std.specs.Prelude.{◌≡◌, ◌<◌, IfOk, cond, flat_map, length, map, option_map, Some, None};
ghost use Rattle.std.specs.List.{All, range_with_len};
ghost use Rattle.meter_theory.specs.Plan as theory;
ghost use Rattle.flow_edges.specs.Table.{cell_at};
ghost use Rattle.flow_page.specs.InTable.{rows_in, told_in};
ghost use Rattle.flow_page.specs.Marked as spec;

use crate::matrix::{Mark, MatrixRow, Opening, WayLink};
use crate::view::lines::title_of;
use crate::view::marks::standing_of;
use crate::view::picks::{Pick, has_way, picks_to};
use crate::view::table::Table;
use crate::ways::Anchor;
use cosem_data::cell::CellRef;
use cosem_data::memory::Memory;
use flow_ways::ways::Ways;
use meter_theory::flow::Reach;
use std::alloc::Global;

/// The rows of the matrix, each with the marks of its first cell, and with where their ways are told if these are among the linked.
/// The only error is want of memory.
pub(crate) fn matrix_rows(
    alloc: Global,
    table: &Table<'_>,
    linked: &[Pick],
) -> Result<Vec<MatrixRow>, Memory>
    ensures { IfOk result (λ list. map spec.row_shown list.items
        ≡ map (spec.matrix_row (told_in table.now) linked.now (rows_in table.now)) (range_with_len 0 (length (rows_in table.now)))) }
{
    let mut list = Vec::with_capacity(alloc, table.rows.len())?;
    for row in 0..table.rows.len() {
        list.push(matrix_row(alloc, table, linked, row)?)?;
    }
    Ok(list)
}

/// A row of the matrix.
fn matrix_row(
    alloc: Global,
    table: &Table<'_>,
    linked: &[Pick],
    row: usize,
) -> Result<MatrixRow, Memory>
    requires row { row < length table.now.rows.now }
    ensures { IfOk result (λ list. spec.row_shown list
        ≡ spec.matrix_row (told_in table.now) linked.now (rows_in table.now) row) }
{
    let cells = cells_of(alloc, table.facts.ways, &table.rows[row])?;
    let linked = picks_to(alloc, linked, row)?;
    let marks = marks_of(alloc, table, &linked, row)?;
    Ok(MatrixRow {
        opening: opening_of(table, row),
        cells,
        marks,
    })
}

/// The cells with these numbers.
fn cells_of(alloc: Global, ways: &Ways<'_>, row: &[usize]) -> Result<Vec<CellRef>, Memory>
    requires { All (λ number. number < length (theory.cells ways.now.plan)) row.now }
    ensures { IfOk result (λ cells. cells.items ≡ map (cell_at (theory.cells ways.now.plan)) row.now) }
{
    let mut cells = Vec::with_capacity(alloc, row.len())?;
    for number in row {
        cells.push(ways.cells()[*number])?;
    }
    Ok(cells)
}

/// Where a row stands among the others.
fn opening_of(table: &Table<'_>, row: usize) -> Opening
    requires row { row < length table.now.rows.now }
    ensures { result ≡ spec.opening_of table.now.facts.now.ways.now.plan (rows_in table.now) row }
{
    if row == 0 {
        return Opening::First;
    }
    let cells = table.facts.ways.cells();
    let cell = cells[table.first_cell(row)];
    let before = cells[table.first_cell(row - 1)];
    if table.row_size(row) == 1 && before.name == cell.name {
        Opening::Same
    } else {
        Opening::Next
    }
}

/// The marks of a row, to which these ways that are told lead.
fn marks_of(
    alloc: Global,
    table: &Table<'_>,
    linked: &[Pick],
    row: usize,
) -> Result<Vec<Mark>, Memory>
    requires row { row < length table.now.rows.now }
    ensures { IfOk result (λ marks. map spec.mark_shown marks.items
        ≡ flat_map (spec.client_marks (told_in table.now) linked.now (rows_in table.now) row)
        (range_with_len 0 (length table.now.facts.now.ways.now.plan.clients))) }
{
    let mut marks = Vec::new(alloc);
    for client in 0..table.facts.ways.plan().client_count() {
        marks.push(mark_of(alloc, table, linked, Reach::Influence, client, row)?)?;
        marks.push(mark_of(alloc, table, linked, Reach::Learn, client, row)?)?;
    }
    Ok(marks)
}

/// The mark of a client and a row.
fn mark_of(
    alloc: Global,
    table: &Table<'_>,
    linked: &[Pick],
    reach: Reach,
    client: u8,
    row: usize,
) -> Result<Mark, Memory>
    requires row { row < length table.now.rows.now }
    requires client { client < length table.now.facts.now.ways.now.plan.clients }
    ensures { IfOk result (λ mark. spec.mark_shown mark
        ≡ spec.mark_of (told_in table.now) linked.now (rows_in table.now) reach client row) }
{
    let cell = table.first_cell(row);
    let standing = standing_of(table.facts, reach, client, cell);
    let is_linked = has_way(linked, reach, client);
    let link = link_if(alloc, table.facts.ways, is_linked, reach, client, cell)?;
    Ok(Mark {
        reach,
        found: standing.found,
        allowed: standing.allowed,
        change: standing.change,
        link,
    })
}

/// Where the way of a client to a cell is told, if it is.
fn link_if(
    alloc: Global,
    ways: &Ways<'_>,
    is_linked: bool,
    reach: Reach,
    client: u8,
    cell: usize,
) -> Result<Option<WayLink>, Memory>
    requires cell { cell < length (theory.cells ways.now.plan) }
    requires client { client < length ways.now.plan.clients }
    ensures { IfOk result (λ link. option_map spec.link_shown link
        ≡ cond is_linked (Some (spec.link_of ways.now.plan reach client cell)) None) }
{
    if !is_linked {
        return Ok(None);
    }
    let title = title_of(alloc, ways, reach, client, cell)?;
    Ok(Some(WayLink {
        anchor: Anchor {
            reach,
            client,
            cell,
        },
        title,
    }))
}
