//! The edges of a page, as pieces.
ghost use Rattle.std.specs.Prelude.{◌≡◌, ◌++◌, OnOk};
ghost use Rattle.shown_text.specs.Pieces.{facts};
ghost use Rattle.flow_page.specs.Ways as spec;

use crate::lists::{Entry, Pieces, fill, for_number, put_each};
use crate::page::{CauseCount, Page};
use cosem_data::memory::Memory;
use meter_theory::flow::Edge;
use shown_text::pieces::Piece::{Cell, Mark, Number};
use value_text::edge::word_of;

/// What stands in place of edges that aren't listed.
const PRINTED: &str = "<p>Printed by <code>cosem-flow edges</code>.</p>\n";

/// Puts an edge after other pieces, by a template for its source, its target and its cause.
pub(crate) fn put_edge(
    pieces: &mut Pieces<'_>,
    template: &'static str,
    edge: &Edge,
) -> Result<(), Memory>
    ensures { OnOk result (facts pieces.new.items ≡ facts pieces.old.items ++ spec.edge_facts edge.now) }
{
    let cause = Mark(word_of(edge.cause));
    fill(
        pieces,
        template,
        &[Cell(edge.source), Cell(edge.target), cause],
    )
}

/// An edge, as `edges` prints it: `>` stands for itself between tags (HTML Living Standard, section 13.1.3).
impl Entry for Edge {
    ghost use Rattle.flow_page.specs.Ways.{edge_facts};

    ghost says = { edge_facts };

    fn put<'a>(&'a self, pieces: &mut Pieces<'a>) -> Result<(), Memory> {
        put_edge(pieces, "{} -> {} {}", self)
    }
}

/// An item of the list of causes.
impl Entry for CauseCount {
    ghost use Rattle.flow_page.specs.Ways.{cause_facts};

    ghost says = { cause_facts };

    fn put<'a>(&'a self, pieces: &mut Pieces<'a>) -> Result<(), Memory> {
        let cause = Mark(word_of(self.cause));
        fill(
            pieces,
            "<li>{} {}</li>",
            &[cause, Number(self.edges as u128)],
        )
    }
}

/// Puts edges, each in a line of its own, or who prints them, after other pieces.
fn put_list<'a>(pieces: &mut Pieces<'a>, edges: &'a [Edge]) -> Result<(), Memory>
    ensures { OnOk result (facts pieces.new.items ≡ facts pieces.old.items ++ spec.list_facts edges.now) }
{
    if edges.is_empty() {
        return fill(pieces, "{}", &[Mark(PRINTED)]);
    }
    let start = for_number(
        edges.len(),
        "<details><summary>{} edge</summary><pre>",
        "<details><summary>{} edges</summary><pre>",
    );
    fill(pieces, start, &[Number(edges.len() as u128)])?;
    put_each(pieces, "\n", edges)?;
    fill(pieces, "</pre></details>\n", &[])
}

/// Puts the edges of a page after other pieces.
pub(crate) fn put_edges<'a>(pieces: &mut Pieces<'a>, page: &'a Page) -> Result<(), Memory>
    ensures { OnOk result (facts pieces.new.items ≡ facts pieces.old.items ++ spec.edges_facts page.now) }
{
    let start = "<h2 id=\"edges\">Edges by cause</h2>\n<ul class=\"key\">";
    fill(pieces, start, &[])?;
    put_each(pieces, "", &page.causes)?;
    fill(pieces, "</ul>\n", &[])?;
    if page.edge_count == 0 {
        return Ok(());
    }
    put_list(pieces, &page.edges)
}
