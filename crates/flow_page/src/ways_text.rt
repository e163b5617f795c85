//! Tables of ways, as pieces.
ghost use Rattle.std.specs.Prelude.{◌≡◌, ◌++◌, OnOk};
ghost use Rattle.shown_text.specs.Pieces.{facts};
ghost use Rattle.flow_page.specs.Ways as spec;

use crate::lines_text::{put_request, put_way};
use crate::lists::{Entry, Pieces, fill, for_number, put_each};
use crate::page::Page;
use crate::ways::{Anchor, WayGroup, WayRow, WayTable};
use cosem_data::memory::Memory;
use flow_map::class_words::{attribute_name, class_name};
use meter_theory::flow::Reach;
use shown_text::pieces::Piece::{Cell, Constant, Hole, Mark, Number, Place};

/// The letters of places, by the reach.
const INFLUENCED: &str = "i";

const LEARNED: &str = "l";

/// What a client does that reaches a cell.
const CHANGES: &str = "change";

const LEARNS: &str = "learn";

const BY_ITSELF: &str = "<span class=\"free\">by itself</span>";

/// What is said of ways and of cells reached, where others stand among those that the policy doesn't allow.
const THAT_IT_ALLOWS: &str = " that the policy allows";

const AS_IT_ALLOWS: &str = " as the policy allows";

/// What ways by edges are.
const WAYS: &str =
    "<h2 id=\"why\">Why: ways by edges{}</h2>\n<p>The shortest way of each client that reaches a cell without a right to it. A client changes by setting or acting at the front of its edges, and learns by getting at their end.</p>\n";

/// What is said where there are none.
const NO_WAYS: &str =
    "<h2 id=\"why\">Why: ways by edges</h2>\n<p>Whoever reaches a cell{} has a right to it.</p>\n";

/// What is said where there is no room for a way, and for several.
const LEFT_ONE: &str =
    "<p>And {} way more: ask <code>cosem-flow why CONFIG CLIENT CELL</code>.</p>\n";

const LEFT: &str = "<p>And {} ways more: ask <code>cosem-flow why CONFIG CLIENT CELL</code>.</p>\n";

const HEAD: &str =
    "<div class=\"scroll low\" tabindex=\"0\" role=\"region\" aria-labelledby=\"{}\"><table><thead><tr><th scope=\"col\">This right</th><th scope=\"col\">reaches this cell</th><th scope=\"col\">by these edges, the fewest there are</th></tr></thead>\n";

/// The markup of influence or that of learning.
pub(crate) fn by_reach(reach: Reach, influence: &'static str, learn: &'static str) -> &'static str
    ensures { result.now ≡ spec.by_reach reach influence.now learn.now }
{
    match reach {
        Reach::Influence => influence,
        Reach::Learn => learn,
    }
}

/// Puts the name of a place after other pieces, by a template for the letter of the reach, the number of the client, and that of
/// the cell.
pub(crate) fn put_anchor(
    pieces: &mut Pieces<'_>,
    template: &'static str,
    anchor: Anchor,
) -> Result<(), Memory>
    ensures { OnOk result (facts pieces.new.items ≡ facts pieces.old.items ++ spec.anchor_facts anchor) }
{
    let letter = Mark(by_reach(anchor.reach, INFLUENCED, LEARNED));
    let client = Number(anchor.client as u128);
    fill(
        pieces,
        template,
        &[letter, client, Number(anchor.cell as u128)],
    )
}

impl WayRow {
    /// Puts the start of its row after other pieces.
    fn put_start(&self, pieces: &mut Pieces<'_>) -> Result<(), Memory>
        ensures { OnOk result (facts pieces.new.items ≡ facts pieces.old.items ++ spec.anchor_facts self.now.anchor) }
    {
        put_anchor(pieces, "<tr id=\"{}{}-{}\">", self.anchor)
    }

    /// Puts the cell, and how many are alike, after other pieces.
    fn put_cell(&self, pieces: &mut Pieces<'_>) -> Result<(), Memory>
        ensures { OnOk result (facts pieces.new.items ≡ facts pieces.old.items ++ spec.cell_facts self.now) }
    {
        fill(pieces, "<td><code>{}</code>", &[Cell(self.cell)])?;
        if self.alike != 0 {
            let alike = " <span class=\"free\">and {} alike</span>";
            fill(pieces, alike, &[Number(self.alike as u128)])?;
        }
        let class = Mark(class_name(self.cell.class_id));
        let attribute = Mark(attribute_name(self.cell.class_id, self.cell.index));
        fill(
            pieces,
            "<br><span class=\"free\">{}, {}</span></td>",
            &[class, attribute],
        )
    }

    /// Puts what stands in its row after the field of the right after other pieces.
    fn put_fields<'a>(&'a self, pieces: &mut Pieces<'a>) -> Result<(), Memory>
        ensures { OnOk result (facts pieces.new.items ≡ facts pieces.old.items ++ spec.fields_facts self.now) }
    {
        self.put_cell(pieces)?;
        fill(pieces, "<td>", &[])?;
        if self.edges.is_empty() {
            fill(pieces, "{}", &[Mark(BY_ITSELF)])?;
        } else {
            put_way(pieces, &self.edges)?;
        }
        fill(pieces, "</td></tr>\n", &[])
    }
}

/// A row after the first of its right.
impl Entry for WayRow {
    ghost use Rattle.flow_page.specs.Ways.{row_facts};

    ghost says = { row_facts };

    fn put<'a>(&'a self, pieces: &mut Pieces<'a>) -> Result<(), Memory> {
        self.put_start(pieces)?;
        self.put_fields(pieces)
    }
}

impl WayGroup {
    /// Puts the field of the right after other pieces.
    fn put_head<'a>(&'a self, pieces: &mut Pieces<'a>) -> Result<(), Memory>
        ensures { OnOk result (facts pieces.new.items ≡ facts pieces.old.items ++ spec.head_facts self.now) }
    {
        let client = Hole(self.client.as_str());
        let verb = Mark(by_reach(self.reach, CHANGES, LEARNS));
        fill(
            pieces,
            "<th scope=\"rowgroup\" rowspan=\"{}\"><div class=\"stay\"><code>{} ",
            &[Place(self.rows.len() as u128), client],
        )?;
        put_request(pieces, self.request)?;
        fill(
            pieces,
            "</code><br><span class=\"free\">lets {} {}",
            &[client, verb],
        )?;
        if let Some(cells) = self.cells {
            let reached = for_number(cells, " {} cell", " {} cells");
            fill(pieces, reached, &[Number(cells as u128)])?;
        }
        fill(pieces, "</span></div></th>", &[])
    }

    /// Puts rows, of which the first begins with the field of the right, after other pieces.
    fn put_rows<'a>(&'a self, pieces: &mut Pieces<'a>, rows: &'a [WayRow]) -> Result<(), Memory>
        ensures { OnOk result (facts pieces.new.items ≡ facts pieces.old.items ++ spec.rows_facts self.now rows.now) }
    {
        let Some((first, rest)) = rows.split_first() else {
            return Ok(());
        };
        first.put_start(pieces)?;
        self.put_head(pieces)?;
        first.put_fields(pieces)?;
        put_each(pieces, "", rest)
    }
}

/// The rows of a right.
impl Entry for WayGroup {
    ghost use Rattle.flow_page.specs.Ways.{group_facts};

    ghost says = { group_facts };

    fn put<'a>(&'a self, pieces: &mut Pieces<'a>) -> Result<(), Memory> {
        fill(pieces, "<tbody>\n", &[])?;
        self.put_rows(pieces, &self.rows)?;
        fill(pieces, "</tbody>\n", &[])
    }
}

/// Puts for how many ways there is no room after other pieces.
fn put_left(pieces: &mut Pieces<'_>, ways: usize) -> Result<(), Memory>
    ensures { OnOk result (facts pieces.new.items ≡ facts pieces.old.items ++ spec.number_if_any ways) }
{
    if ways == 0 {
        return Ok(());
    }
    fill(
        pieces,
        for_number(ways, LEFT_ONE, LEFT),
        &[Number(ways as u128)],
    )
}

/// Puts a table of ways, under the name of the heading that is its label, after other pieces.
fn put_table<'a>(
    pieces: &mut Pieces<'a>,
    heading: &'static str,
    table: &'a WayTable,
) -> Result<(), Memory>
    ensures { OnOk result (facts pieces.new.items ≡ facts pieces.old.items ++ spec.table_facts table.now) }
{
    fill(pieces, HEAD, &[Constant(heading)])?;
    put_each(pieces, "", &table.groups)?;
    fill(pieces, "</table></div>\n", &[])?;
    put_left(pieces, table.left)
}

/// Puts the ways that the policy doesn't allow, if the page has any, after other pieces.
pub(crate) fn put_refused<'a>(pieces: &mut Pieces<'a>, page: &'a Page) -> Result<(), Memory>
    ensures { OnOk result (facts pieces.new.items ≡ facts pieces.old.items ++ spec.refused_facts page.now) }
{
    if !page.has_refused() {
        return Ok(());
    }
    let heading = "<h2 id=\"not-allowed\">What the policy does not allow</h2>\n";
    fill(pieces, heading, &[])?;
    put_table(pieces, "not-allowed", &page.refused)
}

/// Puts the ways by edges that the policy allows, or that there are none, after other pieces.
pub(crate) fn put_why<'a>(pieces: &mut Pieces<'a>, page: &'a Page) -> Result<(), Memory>
    ensures { OnOk result (facts pieces.new.items ≡ facts pieces.old.items ++ spec.why_facts page.now) }
{
    let has_others = page.has_refused();
    if !page.reached.groups.is_empty() {
        let whose = if has_others { THAT_IT_ALLOWS } else { "" };
        fill(pieces, WAYS, &[Mark(whose)])?;
        return put_table(pieces, "why", &page.reached);
    }
    if page.reached.left != 0 {
        return put_left(pieces, page.reached.left);
    }
    let whose = if has_others { AS_IT_ALLOWS } else { "" };
    fill(pieces, NO_WAYS, &[Mark(whose)])
}

impl Page {
    /// Whether the page has ways that the policy doesn't allow.
    pub(crate) fn has_refused(&self) -> bool
        ensures { result ≡ spec.has_some self.now.refused.groups.items }
    {
        !self.refused.groups.is_empty()
    }
}
