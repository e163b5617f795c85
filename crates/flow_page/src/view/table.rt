//! The rows of the matrix, with what is told of their cells.
ghost use Rattle.std.specs.Prelude.{◌≡◌, ◌<◌, length};
ghost use Rattle.meter_theory.specs.Plan as theory;
ghost use Rattle.flow_map.specs.Grouping.{numbers_of};
ghost use Rattle.flow_page.specs.Rows.{AreRowsOf};
ghost use Rattle.flow_page.specs.WayTables.{first_of, row_at};

use crate::view::facts::Facts;

/// What is told of a plan, and the numbers of the cells of each row: each row has one at least.
#[derive(Clone, Copy, Drop)]
pub(crate) struct Table<'a> {
    /// What is told.
    pub facts: &'a Facts<'a>,
    /// The rows.
    pub rows: &'a [Vec<usize>],
    ghost are_rows: { AreRowsOf (length (theory.cells facts.now.ways.now.plan)) (numbers_of rows.now) },
}

impl Table<'_> {
    /// The number of the first cell of a row.
    pub(crate) fn first_cell(&self, row: usize) -> usize
        requires { row < length self.now.rows.now }
        ensures is { result ≡ first_of (numbers_of self.now.rows.now) row }
        ensures within { result < length (theory.cells self.now.facts.now.ways.now.plan) }
    {
        self.rows[row][0]
    }

    /// How many cells a row has.
    pub(crate) fn row_size(&self, row: usize) -> usize
        requires { row < length self.now.rows.now }
        ensures { result ≡ length (row_at (numbers_of self.now.rows.now) row) }
    {
        self.rows[row].len()
    }
}
