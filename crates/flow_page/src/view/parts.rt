//! The matrix and both tables of ways.
ghost use Rattle.std.specs.Prelude.{◌≡◌, IfOk, length};
ghost use Rattle.meter_theory.specs.Plan as theory;
ghost use Rattle.flow_map.specs.Grouping.{numbers_of};
ghost use Rattle.flow_page.specs.InTable.{rows_in, told_in};
ghost use Rattle.flow_page.specs.Marks.{told};
ghost use Rattle.flow_page.specs.Shown.{AreChosen, AreMatrix, AreParts};
ghost use Rattle.flow_page.specs.Rows.{AreRowsOf};

use crate::matrix::MatrixRow;
use crate::view::facts::Facts;
use crate::view::limits::WAYS;
use crate::view::matrix::matrix_rows;
use crate::view::picks::{FirstPicks, Pick, Sort, first_picks, picks};
use crate::view::rows::row_numbers;
use crate::view::table::Table;
use crate::view::tables::way_table;
use crate::ways::WayTable;
use cosem_data::memory::Memory;
use std::alloc::Global;

/// The matrix and both tables of ways.
#[derive(Drop)]
pub(crate) struct MatrixParts {
    /// The rows of the matrix.
    pub rows: Vec<MatrixRow>,
    /// The table of the ways that the policy doesn't allow.
    pub refused: WayTable,
    /// The table of those by edges that it allows.
    pub reached: WayTable,
}

/// The ways that the tables tell.
#[derive(Drop)]
pub(crate) struct Chosen {
    /// Those that the policy doesn't allow.
    pub refused: FirstPicks,
    /// Those by edges that it allows.
    pub reached: FirstPicks,
    /// Both, to which marks are linked.
    pub linked: Vec<Pick>,
}

/// The matrix and both tables of ways. The only error is want of memory.
pub(crate) fn matrix_parts(alloc: Global, facts: &Facts<'_>) -> Result<MatrixParts, Memory>
    ensures { IfOk result (λ parts. AreMatrix (told facts.now) parts.rows.items parts.refused parts.reached) }
{
    let rows = row_numbers(alloc, facts)?;
    parts_of(alloc, facts, &rows)
}

/// The matrix with these rows, and the tables of ways to their first cells.
fn parts_of(alloc: Global, facts: &Facts<'_>, rows: &[Vec<usize>]) -> Result<MatrixParts, Memory>
    requires { AreRowsOf (length (theory.cells facts.now.ways.now.plan)) (numbers_of rows.now) }
    ensures { IfOk result (λ parts. AreParts (told facts.now) (numbers_of rows.now) parts.rows.items parts.refused parts.reached) }
{
    let table = Table { facts, rows };
    let chosen = chosen_ways(alloc, &table)?;
    parts_with(alloc, &table, &chosen)
}

/// The matrix with these rows, and the tables that tell these ways.
fn parts_with(alloc: Global, table: &Table<'_>, chosen: &Chosen) -> Result<MatrixParts, Memory>
    requires chosen { AreChosen (told_in table.now) (rows_in table.now) chosen.now }
    ensures { IfOk result (λ parts. AreParts (told_in table.now) (rows_in table.now) parts.rows.items parts.refused parts.reached) }
{
    let counted = chosen.refused.left == 0;
    let refused = way_table(alloc, table, &chosen.refused, counted)?;
    let reached = way_table(alloc, table, &chosen.reached, false)?;
    Ok(MatrixParts {
        rows: matrix_rows(alloc, table, &chosen.linked)?,
        refused,
        reached,
    })
}

/// The ways to first cells of rows that tables tell: of the refused the first 2,000, and of those that are reached as many as are
/// left of 2,000 without all that are refused (own profile).
fn chosen_ways(alloc: Global, table: &Table<'_>) -> Result<Chosen, Memory>
    ensures { IfOk result (λ chosen. AreChosen (told_in table.now) (rows_in table.now) chosen) }
{
    let refused = picks(alloc, table, Sort::Refused)?;
    let reached = picks(alloc, table, Sort::Reached)?;
    let room = WAYS.saturating_sub(refused.len());
    let refused = first_picks(refused, WAYS);
    let reached = first_picks(reached, room);
    let mut linked = refused.picks.clone()?;
    linked.extend_from_slice(&reached.picks)?;
    Ok(Chosen {
        refused,
        reached,
        linked,
    })
}
