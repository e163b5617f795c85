//! The matrix, as pieces.
ghost use Rattle.std.specs.Prelude.{◌≡◌, ◌+◌, ◌++◌, OnOk, flat_map};
ghost use Rattle.shown_text.specs.Pieces.{facts};
ghost use Rattle.flow_page.specs.Matrix as spec;

use crate::clients_text::put_names;
use crate::lists::{Entry, Pieces, ROW, fill, put_each};
use crate::matrix::{MatrixRow, Opening};
use crate::page::{ClientRow, Counts, Page};
use cosem_data::cell::CellRef;
use cosem_data::memory::Memory;
use flow_map::class_words::{attribute_name, class_name};
use shown_text::pieces::Piece::{Cell, Constant, Mark, Name, Number, Place};

/// What stands in place of the matrix where there are no clients.
const NOBODY: &str = r#"<h2 id="matrix">Who reaches what</h2>
<p>There are no clients: nobody reaches a cell.</p>
"#;

/// What stands for the attribute of what a register monitor has seen.
const SEEN: &str = "seen";

/// What the matrix is about, what its marks mean, and what is said where cells share rows and where changes are shown.
const FRONT: &str = r#"<h2 id="matrix">Who reaches what</h2>
<p>For each cell and client: may it change the cell, and may it learn it, by a right of its own or by way of the meter&#39;s edges.{}</p>
<ul class="key"><li><b class="m c">set</b><b class="m c">act</b> may change by a right</li><li><i class="c">&rarr;2</i> may change by 2 edges</li><li><b class="m l">get</b> may learn by a right</li><li><i class="l">&rarr;2</i> may learn by 2 edges</li><li><i class="x">! &rarr;2</i> not allowed by the policy</li><li><span class="dot">&#9675;</span> allowed, but no way</li><li><span class="dot">&middot;</span> neither</li>{}</ul>
"#;

const SHARED: &str = " Alike cells share a row; its first cell stands for them in the ways.";

const CHANGES_KEY: &str = "<li>+ gained</li><li>&minus; lost</li>";

/// The form by which the script filters rows.
const FILTER: &str =
    "<form class=\"find\" hidden><label>Rows with <input type=\"search\" name=\"q\" placeholder=\"1.0.99 or buffer\"></label><label><input type=\"checkbox\" name=\"x\"> only with something not allowed</label><output>{} rows</output></form>\n";

/// From so many rows on there is that form.
const MANY_ROWS: usize = 21;

/// From so many clients on the table is printed smaller.
const MANY_CLIENTS: usize = 10;

const TABLE: &str =
    "<div class=\"scroll\" tabindex=\"0\" role=\"region\" aria-labelledby=\"matrix\"><table class=\"matrix{}\">\n<thead><tr><th scope=\"col\" rowspan=\"2\">Cell</th>";

const COLUMNS: &str =
    "<th scope=\"col\">change<br><b>{}</b></th><th scope=\"col\">learn<br><b>{}</b></th>";

const CELLS: &str =
    "<details><summary>{} &times; <code>{}/*/{}</code> <small>{}, {}, from {}</small></summary><ul class=\"list\"><li><code>";

/// What stands before a row.
fn opening_of(opening: Opening) -> &'static str {
    match opening {
        Opening::First => "<tbody>\n",
        Opening::Next => "</tbody>\n<tbody>\n",
        Opening::Same => "",
    }
}

/// A cell of a list.
impl Entry for CellRef {
    ghost use Rattle.flow_page.specs.Matrix.{listed_cell};

    ghost says = { listed_cell };

    fn put<'a>(&'a self, pieces: &mut Pieces<'a>) -> Result<(), Memory> {
        fill(pieces, "{}", &[Cell(*self)])
    }
}

/// Puts the head of a row of cells, of which this is the first, after other pieces.
fn put_cells<'a>(
    pieces: &mut Pieces<'a>,
    first: &CellRef,
    cells: &'a [CellRef],
) -> Result<(), Memory>
    ensures { OnOk result (facts pieces.new.items ≡ facts pieces.old.items ++ spec.cells_facts first.now cells.now) }
{
    let class = Mark(class_name(first.class_id));
    let attribute = Mark(attribute_name(first.class_id, first.index));
    if cells.len() == 1 {
        let template = "<code>{}</code> <small>{}, {}</small>";
        return fill(pieces, template, &[Cell(*first), class, attribute]);
    }
    let count = Number(cells.len() as u128);
    let class_id = Number(first.class_id as u128);
    let index = if first.index == 0 {
        Mark(SEEN)
    } else {
        Number(first.index as u128)
    };
    fill(
        pieces,
        CELLS,
        &[count, class_id, index, class, attribute, Name(first.name)],
    )?;
    put_each(pieces, "</code></li><li><code>", cells)?;
    fill(pieces, "</code></li></ul></details>", &[])
}

/// A row of the matrix.
impl Entry for MatrixRow {
    ghost use Rattle.flow_page.specs.Matrix.{row_facts};

    ghost says = { row_facts };

    fn put<'a>(&'a self, pieces: &mut Pieces<'a>) -> Result<(), Memory> {
        fill(
            pieces,
            "{}{}",
            &[Constant(opening_of(self.opening)), Mark(ROW)],
        )?;
        if let Some(first) = self.cells.first() {
            put_cells(pieces, first, &self.cells)?;
        }
        fill(pieces, "</th>", &[])?;
        put_each(pieces, "", &self.marks)?;
        fill(pieces, "</tr>\n", &[])
    }
}

impl Counts {
    /// How many cells the client reaches.
    fn reached(&self) -> u128
        ensures { result ≡ self.now.by_right + self.now.by_edges }
    {
        self.by_right as u128 + self.by_edges as u128
    }
}

/// Puts the heads of clients' columns, two for each client, after other pieces.
fn put_columns(pieces: &mut Pieces<'_>, clients: &[ClientRow]) -> Result<(), Memory>
    ensures { OnOk result (facts pieces.new.items ≡ facts pieces.old.items ++ flat_map spec.column_facts clients.now) }
{
    for client in clients {
        let changed = Number(client.influence.reached());
        let learned = Number(client.learn.reached());
        fill(pieces, COLUMNS, &[changed, learned])?;
    }
    Ok(())
}

/// Puts what stands before the table after other pieces.
fn put_front(pieces: &mut Pieces<'_>, page: &Page) -> Result<(), Memory>
    ensures { OnOk result (facts pieces.new.items ≡ facts pieces.old.items) }
{
    let rows = page.rows.len();
    let sharing = if rows == page.cell_count { "" } else { SHARED };
    let key = if page.changes.is_some() {
        CHANGES_KEY
    } else {
        ""
    };
    fill(pieces, FRONT, &[Constant(sharing), Constant(key)])?;
    if rows < MANY_ROWS {
        return Ok(());
    }
    fill(pieces, FILTER, &[Place(rows as u128)])
}

/// Puts the head of the table after other pieces.
fn put_head<'a>(pieces: &mut Pieces<'a>, clients: &'a [ClientRow]) -> Result<(), Memory>
    ensures { OnOk result (facts pieces.new.items ≡ facts pieces.old.items ++ spec.head_facts clients.now) }
{
    let size = if clients.len() < MANY_CLIENTS {
        ""
    } else {
        " many"
    };
    fill(pieces, TABLE, &[Constant(size)])?;
    put_names(
        pieces,
        "<th scope=\"colgroup\" colspan=\"2\">{}</th>",
        clients,
    )?;
    fill(pieces, "</tr>\n<tr>", &[])?;
    put_columns(pieces, clients)?;
    fill(pieces, "</tr></thead>\n", &[])
}

/// Puts the rows, and the end of the table, after other pieces.
fn put_rows<'a>(pieces: &mut Pieces<'a>, rows: &'a [MatrixRow]) -> Result<(), Memory>
    ensures { OnOk result (facts pieces.new.items ≡ facts pieces.old.items ++ flat_map spec.row_facts rows.now) }
{
    put_each(pieces, "", rows)?;
    let end = if rows.is_empty() { "" } else { "</tbody>\n" };
    fill(pieces, "{}</table></div>\n", &[Constant(end)])
}

/// Puts the matrix, or that there are no clients, after other pieces.
pub(crate) fn put_matrix<'a>(pieces: &mut Pieces<'a>, page: &'a Page) -> Result<(), Memory>
    ensures { OnOk result (facts pieces.new.items
        ≡ facts pieces.old.items ++ spec.matrix_facts page.now.clients.items page.now.rows.items) }
{
    if page.clients.is_empty() {
        return fill(pieces, "{}", &[Mark(NOBODY)]);
    }
    put_front(pieces, page)?;
    put_head(pieces, &page.clients)?;
    put_rows(pieces, &page.rows)
}
