//! What is told of a client and a cell: whether it may influence and learn it, and by which way.
ghost use Rattle.std.specs.Prelude.{◌≡◌, ◌++◌, ◌<◌, IfOk, IfSome, OnOk, length, map, option_map, flat_map, slice_get};
ghost use Rattle.meter_theory.specs.Plan as theory;
ghost use Rattle.value_text.specs.Edges.{edge_text};
ghost use Rattle.flow_edges.specs.Table.{cell_at};
ghost use Rattle.flow_ways.specs.Why as spec;
ghost use Rattle.flow_ways.specs.Why.{IsBlockPut, IsWhy};

use crate::ways::Ways;
use cosem_data::cell::CellRef;
use cosem_data::memory::Memory;
use flow_edges::ends::near_end;
use flow_map::request::GrantedRequest;
use flow_map::words::reach_word;
use meter_theory::flow::{Edge, Reach};
use meter_theory::limits::CLIENTS;
use std::alloc::Global;
use std::fmt;
use value_text::edge::EdgeText;

/// What is asked of a client and a cell.
#[derive(Clone, Copy)]
struct Asked<'a> {
    reach: Reach,
    client: u8,
    name: &'a str,
    cell: CellRef,
}

/// What is told of a client and a cell, by their numbers: for each reach a line with how far the shortest ways lead and whether
/// the policy allows it, and behind it the lines of the way that is shown, in the order in which things happen (own profile). The
/// only error is want of memory.
pub fn why_text(alloc: Global, ways: &Ways<'_>, client: u8, cell: usize) -> Result<Vec<u8>, Memory>
    requires cell { cell < length (theory.cells ways.now.plan) }
    requires client { client < length ways.now.plan.clients }
    ensures { IfOk result (λ text. IfSome (slice_get ways.now.plan.clients client) (λ who.
        IsWhy ways.now.plan ways.now.policy client who.name (cell_at (theory.cells ways.now.plan) cell) text.items)) }
{
    let mut text = Vec::new(alloc);
    push_block(alloc, ways, Reach::Influence, client, cell, &mut text)?;
    push_block(alloc, ways, Reach::Learn, client, cell, &mut text)?;
    Ok(text)
}

/// Puts what is told of one reach behind a text.
fn push_block(
    alloc: Global,
    ways: &Ways<'_>,
    reach: Reach,
    client: u8,
    cell: usize,
    text: &mut Vec<u8>,
) -> Result<(), Memory>
    requires cell { cell < length (theory.cells ways.now.plan) }
    requires client { client < length ways.now.plan.clients }
    ensures { OnOk result (IfSome (slice_get ways.now.plan.clients client) (λ who.
        IsBlockPut ways.now.plan ways.now.policy reach client who.name (cell_at (theory.cells ways.now.plan) cell)
        text.old.items text.new.items)) }
{
    let plan = ways.plan();
    plan.known();
    let Some(who) = plan.client(client) else {
        unreachable!();
    };
    let shown = ways.shown(alloc, reach, cell, client)?;
    push_head(
        alloc,
        reach,
        &shown,
        ways.map().allows(reach, cell, client),
        text,
    )?;
    let asked = Asked {
        reach,
        client,
        name: who.name_text(),
        cell: ways.cells()[cell],
    };
    match shown {
        Some(edges) => push_way(alloc, ways, &asked, edges, text),
        None => Ok(()),
    }
}

/// Puts the first line of what is told of a reach behind a text.
fn push_head(
    alloc: Global,
    reach: Reach,
    shown: &Option<Vec<Edge>>,
    allowed: bool,
    text: &mut Vec<u8>,
) -> Result<(), Memory>
    ensures { OnOk result (text.new.items ≡ text.old.items
        ++ spec.head reach (option_map (λ edges. length edges.items) shown.now) allowed) }
{
    let reach = reach_word(reach);
    let finding = Finding(shown.as_ref().map(Vec::len));
    let allowance = if allowed { "allowed" } else { "not allowed" };
    let line = format!(in alloc; "{reach}: {finding}, {allowance}\n")?;
    text.extend_from_slice(line.as_bytes())?;
    Ok(())
}

/// Puts the lines of a way after a text, in the order in which things happen.
fn push_way(
    alloc: Global,
    ways: &Ways<'_>,
    asked: &Asked<'_>,
    edges: Vec<Edge>,
    text: &mut Vec<u8>,
) -> Result<(), Memory>
    ensures { OnOk result (text.new.items ≡ text.old.items ++ flat_map spec.indented
        (spec.way_lines ways.now.plan asked.now.reach asked.now.client asked.now.name.now asked.now.cell edges.items)) }
{
    let Asked {
        reach,
        client,
        name,
        cell,
    } = *asked;
    let end = way_end(reach, &cell, &edges);
    let request = ways.map().request(reach, client, &end);
    match reach {
        Reach::Influence => {
            let mut edges = edges;
            edges.reverse();
            push_right(alloc, name, &request, text)?;
            push_edges(alloc, &edges, text)
        }
        Reach::Learn => {
            push_edges(alloc, &edges, text)?;
            push_right(alloc, name, &request, text)
        }
    }
}

/// The cell at the other end of a way.
pub fn way_end(reach: Reach, cell: &CellRef, edges: &[Edge]) -> CellRef
    ensures { result ≡ spec.way_end reach cell.now edges.now }
{
    match edges.last() {
        Some(edge) => near_end(reach, edge),
        None => *cell,
    }
}

/// Puts the line of a request behind a text, if there is one.
fn push_right(
    alloc: Global,
    name: &str,
    request: &Option<GrantedRequest>,
    text: &mut Vec<u8>,
) -> Result<(), Memory>
    ensures { OnOk result (text.new.items ≡ text.old.items
        ++ flat_map spec.indented (spec.right_lines name.now request.now)) }
{
    let Some(request) = request else {
        return Ok(());
    };
    let line = format!(in alloc; "  {name} {request}\n")?;
    text.extend_from_slice(line.as_bytes())?;
    Ok(())
}

/// Puts a line for each edge behind a text.
fn push_edges(alloc: Global, edges: &[Edge], text: &mut Vec<u8>) -> Result<(), Memory>
    ensures { OnOk result (text.new.items ≡ text.old.items
        ++ flat_map spec.indented (map edge_text edges.now)) }
{
    for edge in edges {
        push_edge(alloc, edge, text)?;
    }
    Ok(())
}

/// Puts the line of an edge behind a text.
fn push_edge(alloc: Global, edge: &Edge, text: &mut Vec<u8>) -> Result<(), Memory>
    ensures { OnOk result (text.new.items ≡ text.old.items ++ spec.indented (edge_text edge.now)) }
{
    let edge = EdgeText(*edge);
    let line = format!(in alloc; "  {edge}\n")?;
    text.extend_from_slice(line.as_bytes())?;
    Ok(())
}

/// How far the shortest ways lead, as it is printed: None where there is no way.
#[derive(Drop)]
struct Finding(Option<usize>);

impl fmt::Display for Finding {
    ghost use Rattle.std.specs.Prelude.{Some};
    ghost use Rattle.flow_ways.specs.Why.{finding};

    ghost output = { λ found. Some (finding found.0) };

    fn fmt<W: fmt::Write>(&self, f: &mut fmt::Formatter<W>) -> fmt::Result {
        match self.0 {
            None => f.write_str("no way"),
            Some(0) => f.write_str("by a right"),
            Some(1) => f.write_str("by 1 edge"),
            Some(edges) => write!(f, "by {edges} edges"),
        }
    }
}
