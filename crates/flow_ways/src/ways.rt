//! The ways of a plan's clients to its cells.
ghost use Rattle.std.specs.Prelude.{◌≡◌, ◌<◌, ◌+◌, Some, length, map, option_map, IfOk, IfSome};
ghost use Rattle.meter_theory.specs.Plan as theory;
ghost use Rattle.meter_theory.specs.Sound.{IsSound};
ghost use Rattle.meter_theory.specs.Ways.{IsDistance, first_edge, is_within, shown_way};
ghost use Rattle.flow_edges.specs.Table.{AreWithin, IsLink, cell_at, edge_at};
ghost use Rattle.flow_ways.specs.Arriving.{AreEdgesTo, FindsAllTo};
ghost use Rattle.flow_ways.specs.Distances.{AreDistances};
ghost use Rattle.flow_ways.specs.Found.{distance_of, way_of};
ghost use Rattle.flow_ways.specs.Rounds.{AreLinksOf};
ghost use Rattle.flow_ways.specs.Kept.{IsShown, leads_within};

use crate::arriving::arriving;
use crate::distances::distances;
use cosem_data::cell::CellRef;
use cosem_data::memory::Memory;
use flow_edges::ends::{far_of, near_of};
use flow_edges::table::{Link, edge_between};
use flow_map::map::FlowMap;
use flow_map::outline::Outline;
use meter_theory::flow::{Edge, Reach};
use meter_theory::limits::CLIENTS;
use std::alloc::Global;
use std::marker::Model;

/// The ways of a configuration's clients to its cells: how many edges the shortest have, cell by cell and client by client; for who
/// asks for many ways the edges also by the cells that they lead to. Cells go by their numbers in plan order, clients by their
/// places. Contracts see the configuration.
#[derive(Drop)]
pub struct Ways<'a> {
    known: &'a FlowMap<'a>,
    influence: Vec<Option<usize>>,
    learn: Vec<Option<usize>>,
    influence_links: Vec<Vec<Link>>,
    learn_links: Vec<Vec<Link>>,
}

impl<'a> Model for Ways<'a> {
    ghost use Rattle.std.specs.Coded.{codes};
    ghost use Rattle.std.specs.Prelude.{map};
    ghost use Rattle.meter_theory.specs.PlanCode.{plan_code};
    ghost use Rattle.flow_map.specs.Map.{Mapped};
    ghost use Rattle.flow_ways.specs.Kept.{AreWaysOf};

    ghost Value = { Mapped };

    ghost coded = { Prim.hlevel (codes, plan_code) };

    ghost view = { λ w. w.known.now };

    ghost invariant = { λ w. AreWaysOf w.known.now.plan w.influence.items w.learn.items
        (map (λ list. list.items) w.influence_links.items) (map (λ list. list.items) w.learn_links.items) };
}

impl<'a> Ways<'a> {
    /// The ways of a configuration. The only error is want of memory.
    pub fn new(alloc: Global, map: &'a FlowMap<'a>) -> Result<Self, Memory>
        ensures { IfOk result (λ ways. ways ≡ map.now) }
    {
        Ok(Ways {
            known: map,
            influence: distances(alloc, map, Reach::Influence)?,
            learn: distances(alloc, map, Reach::Learn)?,
            influence_links: Vec::new(alloc),
            learn_links: Vec::new(alloc),
        })
    }

    /// The ways of a configuration, for who asks for many: none looks at more edges than lead to its cells. The only error is want
    /// of memory.
    pub fn of_many(alloc: Global, map: &'a FlowMap<'a>) -> Result<Self, Memory>
        ensures { IfOk result (λ ways. ways ≡ map.now) }
    {
        let ways = Ways::new(alloc, map)?;
        let influence_links = ways.arriving(alloc, Reach::Influence)?;
        let learn_links = ways.arriving(alloc, Reach::Learn)?;
        Ok(Ways {
            influence_links,
            learn_links,
            ..ways
        })
    }

    /// For each cell the links that lead to it.
    fn arriving(&self, alloc: Global, reach: Reach) -> Result<Vec<Vec<Link>>, Memory>
        ensures { IfOk result (λ lists. AreEdgesTo self.now.plan reach
            (map (λ list. list.items) lists.items)) }
    {
        self.known();
        arriving(alloc, reach, self.cells().len(), self.links())
    }

    /// What is known of the configuration.
    pub fn map(&self) -> &'a FlowMap<'a>
        ensures { result.now ≡ self.now }
    {
        self.known
    }

    /// The plan.
    pub fn plan(&self) -> &'a Outline<'a>
        ensures { result.now ≡ self.now.plan }
    {
        self.known.plan()
    }

    /// What the type keeps, for callers: its plan is sound.
    fn known(&self)
        ensures sound { IsSound self.now.plan }
    {
        self.known.known();
    }

    /// The cells of the plan, in plan order.
    pub fn cells(&self) -> &[CellRef]
        ensures { result.now ≡ theory.cells self.now.plan }
    {
        self.known.cells()
    }

    /// How many edges the shortest ways of a client to a cell have, or None where there is no way.
    pub fn distance(&self, reach: Reach, cell: usize, client: u8) -> Option<usize>
        requires cell { cell < length (theory.cells self.now.plan) }
        requires client { client < CLIENTS }
        ensures distance { IsDistance self.now.plan reach client (cell_at (theory.cells self.now.plan) cell) result }
        ensures found { result ≡ distance_of self.now.plan reach client (cell_at (theory.cells self.now.plan) cell) }
    {
        self.known();
        let numbers = self.distances(reach);
        numbers[cell * CLIENTS + usize::from(client)]
    }

    /// The edges of the way that is shown, from the cell on, or None where there is no way (own profile). The only error is want
    /// of memory.
    pub fn shown(
        &self,
        alloc: Global,
        reach: Reach,
        cell: usize,
        client: u8,
    ) -> Result<Option<Vec<Edge>>, Memory>
        requires cell { cell < length (theory.cells self.now.plan) }
        requires client { client < CLIENTS }
        ensures shown { IfOk result (λ shown. IsShown self.now.plan reach client
            (cell_at (theory.cells self.now.plan) cell) (option_map (λ edges. edges.items) shown)) }
        ensures found { IfOk result (λ shown. option_map (λ edges. edges.items) shown
            ≡ way_of self.now.plan reach client (cell_at (theory.cells self.now.plan) cell)) }
    {
        self.known();
        match self.distance(reach, cell, client) {
            None => Ok(None),
            Some(distance) => Ok(Some(self.edges_of(alloc, reach, cell, client, distance)?)),
        }
    }

    /// The edges of the way that is shown to a cell at this distance.
    fn edges_of(
        &self,
        alloc: Global,
        reach: Reach,
        cell: usize,
        client: u8,
        distance: usize,
    ) -> Result<Vec<Edge>, Memory>
        requires cell { cell < length (theory.cells self.now.plan) }
        requires client { client < CLIENTS }
        requires distance { IsDistance self.now.plan reach client (cell_at (theory.cells self.now.plan) cell) (Some distance) }
        ensures { IfOk result (λ edges. edges.items
            ≡ shown_way self.now.plan reach client distance (cell_at (theory.cells self.now.plan) cell)) }
    {
        self.known();
        let mut edges = Vec::with_capacity(alloc, distance)?;
        let mut place = cell;
        for behind in 0..distance {
            let link = self.first_link(reach, client, distance - 1 - behind, place);
            edges.push(edge_between(self.cells(), link))?;
            place = near_of(reach, link);
        }
        Ok(edges)
    }

    /// The first edge to a cell from one that is nearer by an edge, by the numbers of their cells.
    fn first_link(&self, reach: Reach, client: u8, rounds: usize, cell: usize) -> Link
        requires cell { cell < length (theory.cells self.now.plan) }
        requires client { client < CLIENTS }
        requires distance { IsDistance self.now.plan reach client (cell_at (theory.cells self.now.plan) cell) (Some (rounds + 1)) }
        ensures first { first_edge self.now.plan reach client rounds (cell_at (theory.cells self.now.plan) cell)
            ≡ Some (edge_at (theory.cells self.now.plan) result) }
        ensures link { IsLink (theory.cells self.now.plan) result }
    {
        self.known();
        for link in self.links_to(reach, cell) {
            if self.leads(reach, client, rounds, cell, *link) {
                return *link;
            }
        }
        unreachable!()
    }

    /// Whether an edge leads to a cell from one within so many rounds.
    fn leads(&self, reach: Reach, client: u8, rounds: usize, cell: usize, link: Link) -> bool
        requires cell { cell < length (theory.cells self.now.plan) }
        requires client { client < CLIENTS }
        requires link { IsLink (theory.cells self.now.plan) link }
        ensures { result ≡ leads_within self.now.plan reach client rounds
            (cell_at (theory.cells self.now.plan) cell) (edge_at (theory.cells self.now.plan) link) }
    {
        self.known();
        far_of(reach, link) == cell && self.is_within(reach, client, rounds, near_of(reach, link))
    }

    /// Whether a cell is within so many rounds: its distance is no more.
    fn is_within(&self, reach: Reach, client: u8, rounds: usize, cell: usize) -> bool
        requires cell { cell < length (theory.cells self.now.plan) }
        requires client { client < CLIENTS }
        ensures { result ≡ is_within self.now.plan reach client rounds (cell_at (theory.cells self.now.plan) cell) }
    {
        self.known();
        match self.distance(reach, cell, client) {
            Some(distance) => distance <= rounds,
            None => false,
        }
    }

    /// Edges of the plan among which are all that lead to a cell, in their order.
    fn links_to(&self, reach: Reach, cell: usize) -> &[Link]
        ensures found { FindsAllTo self.now.plan reach (cell_at (theory.cells self.now.plan) cell) result.now }
        ensures within { AreWithin (theory.cells self.now.plan) result.now }
    {
        match self.lists_for(reach).get(cell) {
            Some(list) => list,
            None => self.links(),
        }
    }

    /// For each cell, if for any, the links that lead to it.
    fn lists_for(&self, reach: Reach) -> &[Vec<Link>]
        ensures { AreEdgesTo self.now.plan reach (map (λ list. list.items) result.now) }
    {
        match reach {
            Reach::Influence => &self.influence_links,
            Reach::Learn => &self.learn_links,
        }
    }

    /// The edges of the plan, between the numbers of its cells.
    fn links(&self) -> &[Link]
        ensures { AreLinksOf self.now.plan result.now }
    {
        self.known.links()
    }

    /// The distances of this reach.
    fn distances(&self, reach: Reach) -> &[Option<usize>]
        ensures { AreDistances self.now.plan reach result.now }
    {
        match reach {
            Reach::Influence => &self.influence,
            Reach::Learn => &self.learn,
        }
    }
}
