//! The lines by which a way is told.
ghost use Rattle.std.specs.Prelude.{◌≡◌, ◌<◌, ◌∷◌, ◌++◌, [], IfOk, OnOk, length, map};
ghost use Rattle.meter_theory.specs.Plan as theory;
ghost use Rattle.flow_edges.specs.Table.{cell_at};
ghost use Rattle.flow_page.specs.Clients.{client_at};
ghost use Rattle.flow_page.specs.Lines as spec;
ghost use Rattle.flow_page.specs.Lines.{line_shown};

use crate::view::limits::{LONG, TIP};
use crate::view::marks::way;
use crate::ways::WayLine;
use cosem_data::cell::CellRef;
use cosem_data::memory::Memory;
use flow_map::outline::Outline;
use flow_map::request::GrantedRequest;
use flow_ways::ways::Ways;
use flow_ways::why::way_end;
use meter_theory::flow::{Edge, Reach};
use std::alloc::Global;

/// The lines of the edges of the way that is shown, in the order in which values flow, if there is a way. The only error is want
/// of memory.
pub(crate) fn lines_of(
    alloc: Global,
    ways: &Ways<'_>,
    reach: Reach,
    client: u8,
    cell: usize,
) -> Result<Vec<WayLine>, Memory>
    requires cell { cell < length (theory.cells ways.now.plan) }
    requires client { client < length ways.now.plan.clients }
    ensures { IfOk result (λ lines. map line_shown lines.items
        ≡ spec.lines_of ways.now.plan reach client (cell_at (theory.cells ways.now.plan) cell)) }
{
    let name = client_name(ways.plan(), client);
    let place = ways.cells()[cell];
    match way(alloc, ways, reach, client, cell)? {
        Some(edges) => edge_lines(alloc, reach, name, place, edges),
        None => Ok(Vec::new(alloc)),
    }
}

/// The first lines of the way that is shown with its request, if there is a way. The only error is want of memory.
pub(crate) fn title_of(
    alloc: Global,
    ways: &Ways<'_>,
    reach: Reach,
    client: u8,
    cell: usize,
) -> Result<Vec<WayLine>, Memory>
    requires cell { cell < length (theory.cells ways.now.plan) }
    requires client { client < length ways.now.plan.clients }
    ensures { IfOk result (λ lines. map line_shown lines.items
        ≡ spec.title_of ways.now.plan reach client (cell_at (theory.cells ways.now.plan) cell)) }
{
    let mut lines = whole_way_of(alloc, ways, reach, client, cell)?;
    lines.truncate(TIP);
    Ok(lines)
}

/// The lines of the way that is shown with its request, if there is a way. The only error is want of memory.
pub(crate) fn whole_way_of(
    alloc: Global,
    ways: &Ways<'_>,
    reach: Reach,
    client: u8,
    cell: usize,
) -> Result<Vec<WayLine>, Memory>
    requires cell { cell < length (theory.cells ways.now.plan) }
    requires client { client < length ways.now.plan.clients }
    ensures { IfOk result (λ lines. map line_shown lines.items
        ≡ spec.whole_way_of ways.now.plan reach client (cell_at (theory.cells ways.now.plan) cell)) }
{
    match way(alloc, ways, reach, client, cell)? {
        Some(edges) => whole_lines_of(alloc, ways, reach, client, cell, edges),
        None => Ok(Vec::new(alloc)),
    }
}

/// The lines of a way to a cell with its request.
fn whole_lines_of(
    alloc: Global,
    ways: &Ways<'_>,
    reach: Reach,
    client: u8,
    cell: usize,
    edges: Vec<Edge>,
) -> Result<Vec<WayLine>, Memory>
    requires cell { cell < length (theory.cells ways.now.plan) }
    requires client { client < length ways.now.plan.clients }
    ensures { IfOk result (λ lines. map line_shown lines.items
        ≡ spec.whole_lines_of ways.now.plan reach client (cell_at (theory.cells ways.now.plan) cell) edges.items) }
{
    let name = client_name(ways.plan(), client);
    let place = ways.cells()[cell];
    let end = way_end(reach, &place, &edges);
    let request = ways.map().request(reach, client, &end);
    whole_lines(alloc, reach, name, place, edges, request)
}

/// The name of a client.
pub(crate) fn client_name<'a>(plan: &'a Outline<'_>, client: u8) -> &'a str
    requires { client < length plan.now.clients }
    ensures { result.now ≡ (client_at plan.now client).name }
{
    match plan.client(client) {
        Some(who) => who.name_text(),
        None => unreachable!(),
    }
}

/// The lines of the edges of a way.
fn edge_lines(
    alloc: Global,
    reach: Reach,
    client: &str,
    cell: CellRef,
    edges: Vec<Edge>,
) -> Result<Vec<WayLine>, Memory>
    ensures { IfOk result (λ lines. map line_shown lines.items ≡ spec.edge_lines reach client.now cell edges.items) }
{
    if edges.len() > LONG {
        return long_line(alloc, client, cell, edges.len());
    }
    let mut lines = Vec::new(alloc);
    push_edges(&flowing(reach, edges), &mut lines)?;
    Ok(lines)
}

/// The lines of the edges of a way and of its request, in the order in which things happen.
fn whole_lines(
    alloc: Global,
    reach: Reach,
    client: &str,
    cell: CellRef,
    edges: Vec<Edge>,
    request: Option<GrantedRequest>,
) -> Result<Vec<WayLine>, Memory>
    ensures { IfOk result (λ lines. map line_shown lines.items ≡ spec.whole_lines reach client.now cell edges.items request) }
{
    if edges.len() > LONG {
        return long_line(alloc, client, cell, edges.len());
    }
    let mut lines = Vec::new(alloc);
    match reach {
        Reach::Influence => {
            push_request(alloc, client, request, &mut lines)?;
            push_edges(&flowing(reach, edges), &mut lines)?;
        }
        Reach::Learn => {
            push_edges(&flowing(reach, edges), &mut lines)?;
            push_request(alloc, client, request, &mut lines)?;
        }
    }
    Ok(lines)
}

/// One line in place of those of so many edges.
fn long_line(
    alloc: Global,
    client: &str,
    cell: CellRef,
    edges: usize,
) -> Result<Vec<WayLine>, Memory>
    ensures { IfOk result (λ lines. map line_shown lines.items ≡ spec.InAll edges client.now cell ∷ []) }
{
    let client = String::from_str(alloc, client)?;
    let mut lines = Vec::new(alloc);
    lines.push(WayLine::Long {
        edges,
        client,
        cell,
    })?;
    Ok(lines)
}

/// The edges of a way in the order in which values flow.
fn flowing(reach: Reach, edges: Vec<Edge>) -> Vec<Edge>
    ensures { result.items ≡ spec.flowing reach edges.items }
{
    let mut edges = edges;
    match reach {
        Reach::Influence => edges.reverse(),
        Reach::Learn => {}
    }
    edges
}

/// Puts the line of a request behind others, if there is one.
fn push_request(
    alloc: Global,
    client: &str,
    request: Option<GrantedRequest>,
    lines: &mut Vec<WayLine>,
) -> Result<(), Memory>
    ensures { OnOk result (map line_shown lines.new.items ≡ map line_shown lines.old.items ++ spec.asked client.now request) }
{
    let Some(request) = request else {
        return Ok(());
    };
    let client = String::from_str(alloc, client)?;
    lines.push(WayLine::Request { client, request })?;
    Ok(())
}

/// Puts a line for each edge behind others.
fn push_edges(edges: &[Edge], lines: &mut Vec<WayLine>) -> Result<(), Memory>
    ensures { OnOk result (map line_shown lines.new.items ≡ map line_shown lines.old.items ++ map spec.Along edges.now) }
{
    for edge in edges {
        lines.push(WayLine::Edge(*edge))?;
    }
    Ok(())
}
