//! Edges between the cells of a list, each once, by a table of marks that tells which have been found.
ghost use Rattle.std.specs.Prelude.{◌≡◌, ◌<◌, ◌≤◌, ◌*◌, OnOk, OnErr, IfOk, length, map, []};
ghost use Rattle.flow_edges.specs.Gather.{add_edge};
ghost use Rattle.flow_edges.specs.Table.{edge_at, has_link, place_of, AreBetween, AreCells, AreWithin, IsLink};

use crate::causes::Causes;
use cosem_data::cell::CellRef;
use cosem_data::memory::Memory;
use meter_theory::flow::{Cause, Edge};
use std::alloc::Global;
use std::marker::Model;

/// An edge between cells by their numbers in a list of cells, counted from 0.
#[derive(Clone, Copy, Debug, PartialEq, Eq, Drop)]
pub struct Link {
    /// The number of the cell whose value may flow.
    pub source: usize,
    /// The number of the cell to which it may flow.
    pub target: usize,
    /// Why it may.
    pub cause: Cause,
}

/// Edges between the cells of a list, each once, in the order in which they were found. Contracts see the cells and the
/// edges between them.
#[derive(Drop)]
pub struct EdgeTable {
    cells: Vec<CellRef>,
    links: Vec<Link>,
    /// For each pair of cells, source by source, the causes of the edges that were found.
    marks: Vec<Causes>,
}

impl Model for EdgeTable {
    ghost use Rattle.flow_edges.specs.Table.{CellEdges};

    ghost Value = { CellEdges };

    ghost use Rattle.std.specs.Prelude.{map};
    ghost use Rattle.flow_edges.specs.Table.{edge_at, IsMarked};

    ghost view = { λ t.
        record { cells = t.cells.items; edges = map (edge_at t.cells.items) t.links.items } };

    ghost invariant = { λ t. IsMarked t.cells.items t.links.items t.marks.items };
}

impl EdgeTable {
    /// No edge between these cells yet. The only error is want of memory.
    pub(crate) fn new(alloc: Global, cells: Vec<CellRef>) -> Result<EdgeTable, Memory>
        requires { AreCells cells.items }
        ensures { IfOk result (λ table. table ≡ record { cells = cells.items; edges = [] }) }
    {
        let number = cells.len();
        let marks = vec![in alloc; Causes::new(); number * number]?;
        Ok(EdgeTable {
            cells,
            links: Vec::new(alloc),
            marks,
        })
    }

    /// What the type keeps, for callers: no cell stands twice, there are few, and edges are between them.
    pub fn known(&self)
        ensures cells { AreCells self.now.cells }
        ensures edges { AreBetween self.now.cells self.now.edges }
    {
        let _cells = &self.cells;
    }

    /// The cells.
    pub fn cells(&self) -> &[CellRef]
        ensures { result.now ≡ self.now.cells }
    {
        &self.cells
    }

    /// The edges, by the numbers of their cells.
    pub fn links(&self) -> &[Link]
        ensures edges { map (edge_at self.now.cells) result.now ≡ self.now.edges }
        ensures within { AreWithin self.now.cells result.now }
    {
        &self.links
    }

    /// Whether the edge that a link stands for is one of them.
    pub fn has(&self, link: Link) -> bool
        requires { IsLink self.now.cells link }
        ensures { result ≡ has_link self.now link }
    {
        self.marks[place_of(self.cells.len(), link)].has(link.cause)
    }

    /// The edges, by the names of their cells. The only error is want of memory.
    pub(crate) fn into_edges(self, alloc: Global) -> Result<Vec<Edge>, Memory>
        ensures { IfOk result (λ list. list.items ≡ self.edges) }
    {
        edges_between(alloc, &self.cells, &self.links)
    }

    /// Adds an edge between the cells with these numbers, unless it was found before. The only error is want of memory, and
    /// nothing has changed then.
    pub(crate) fn add(&mut self, cause: Cause, source: usize, target: usize) -> Result<(), Memory>
        requires source { source < length self.old.cells }
        requires target { target < length self.old.cells }
        ensures ok { OnOk result (self.new ≡ record {
          cells = self.old.cells;
          edges = add_edge self.old.edges (edge_at self.old.cells
              (record { source = source; target = target; cause = cause }));
        }) }
        ensures err { OnErr result (self.new ≡ self.old) }
    {
        let link = Link {
            source,
            target,
            cause,
        };
        let place = place_of(self.cells.len(), link);
        let found = self.marks[place];
        if found.has(cause) {
            return Ok(());
        }
        self.links.push(link)?;
        self.marks[place] = found.with(cause);
        Ok(())
    }
}

/// Where the mark of a link stands among those of so many cells.
fn place_of(count: usize, link: Link) -> usize
    requires few { count ≤ 2048 }
    requires source { link.source < count }
    requires target { link.target < count }
    ensures place { result ≡ place_of count link }
    ensures within { result < count * count }
{
    link.source * count + link.target
}

/// The edges that links stand for. The only error is want of memory.
pub fn edges_between(alloc: Global, cells: &[CellRef], links: &[Link]) -> Result<Vec<Edge>, Memory>
    requires { AreWithin cells.now links.now }
    ensures { IfOk result (λ list. list.items ≡ map (edge_at cells.now) links.now) }
{
    let mut edges = Vec::with_capacity(alloc, links.len())?;
    for link in links {
        edges.push(edge_between(cells, *link))?;
    }
    Ok(edges)
}

/// The edge that a link stands for.
pub fn edge_between(cells: &[CellRef], link: Link) -> Edge
    requires { IsLink cells.now link }
    ensures { result ≡ edge_at cells.now link }
{
    Edge {
        source: cells[link.source],
        target: cells[link.target],
        cause: link.cause,
    }
}
