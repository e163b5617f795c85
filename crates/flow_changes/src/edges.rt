//! Edges of one configuration that another lacks.
ghost use Rattle.std.specs.Prelude.{◌≡◌, ◌++◌, ◌<◌, IfOk, OnOk, filter, length, map, not};
ghost use Rattle.std.specs.List.{list_any};
ghost use Rattle.meter_theory.specs.Edges as theory;
ghost use Rattle.meter_theory.specs.Plan as plans;
ghost use Rattle.flow_edges.specs.Table.{edge_at};
ghost use Rattle.label_certificate.specs.LabelText.{cell_place};
ghost use Rattle.label_certificate.specs.Least.{AreLinks};
ghost use Rattle.flow_changes.specs.Facts.{HasEdge};
ghost use Rattle.flow_changes.specs.Lacked as spec;
ghost use Rattle.flow_changes.specs.Shown.{shown};

use crate::fact::Fact;
use cosem_data::cell::CellRef;
use cosem_data::memory::Memory;
use flow_edges::table::{EdgeTable, Link, edge_between};
use flow_map::outline::Outline;
use std::alloc::Global;

/// Puts a fact behind others for each edge of a table that another plan lacks, whose edges are those of the other table.
pub(crate) fn push_edges(
    alloc: Global,
    table: &EdgeTable,
    other_plan: &Outline<'_>,
    other: &EdgeTable,
    facts: &mut Vec<Fact<'_>>,
) -> Result<(), Memory>
    requires { other.now
        ≡ record { cells = plans.cells other_plan.now; edges = theory.edges other_plan.now } }
    ensures { OnOk result (map shown facts.new.items ≡ map shown facts.old.items ++ map HasEdge
        (filter (λ e. not (list_any (theory.same_edge e) (theory.edges other_plan.now))) table.now.edges)) }
{
    other.known();
    let cells = table.cells();
    let numbers = numbers_in(alloc, other_plan, cells)?;
    push_lacked(cells, table.links(), &numbers, other, facts)
}

/// The number that each of these cells has in a plan, or None where it is no cell of it.
fn numbers_in(
    alloc: Global,
    plan: &Outline<'_>,
    cells: &[CellRef],
) -> Result<Vec<Option<u16>>, Memory>
    ensures { IfOk result (λ numbers. numbers.items ≡ map (cell_place plan.now) cells.now) }
{
    let mut numbers = Vec::with_capacity(alloc, cells.len())?;
    for cell in cells {
        numbers.push(plan.cell_number(cell))?;
    }
    Ok(numbers)
}

/// Puts the edge of each of these links behind facts that another table hasn't, where its cells have these numbers there.
fn push_lacked(
    cells: &[CellRef],
    links: &[Link],
    numbers: &[Option<u16>],
    other: &EdgeTable,
    facts: &mut Vec<Fact<'_>>,
) -> Result<(), Memory>
    requires cells { length cells.now ≡ length numbers.now }
    requires links { AreLinks (length numbers.now) links.now }
    requires numbers { spec.AreBelow (length other.now.cells) numbers.now }
    ensures { OnOk result (map shown facts.new.items ≡ map shown facts.old.items
        ++ map (λ l. HasEdge (edge_at cells.now l))
        (filter (λ l. not (spec.is_there numbers.now other.now l)) links.now)) }
{
    for link in links {
        if !is_there(numbers, other, *link) {
            facts.push(Fact::HasEdge(edge_between(cells, *link)))?;
        }
    }
    Ok(())
}

/// Whether another table has the edge of a link, where its cells have these numbers there.
fn is_there(numbers: &[Option<u16>], other: &EdgeTable, link: Link) -> bool
    requires source { link.source < length numbers.now }
    requires target { link.target < length numbers.now }
    requires numbers { spec.AreBelow (length other.now.cells) numbers.now }
    ensures { result ≡ spec.is_there numbers.now other.now link }
{
    match there(numbers, link) {
        Some(link) => other.has(link),
        None => false,
    }
}

/// A link between other numbers of its cells, if both have one.
fn there(numbers: &[Option<u16>], link: Link) -> Option<Link>
    requires source { link.source < length numbers.now }
    requires target { link.target < length numbers.now }
    ensures { result ≡ spec.link_there numbers.now link }
{
    let source = numbers[link.source]?;
    let target = numbers[link.target]?;
    Some(Link {
        source: usize::from(source),
        target: usize::from(target),
        cause: link.cause,
    })
}
