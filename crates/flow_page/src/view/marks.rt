//! What is told of a cell, a client and a reach.
ghost use Rattle.std.specs.Prelude.{◌≡◌, ◌<◌, IfOk, length, option_map};
ghost use Rattle.meter_theory.specs.Plan as theory;
ghost use Rattle.flow_edges.specs.Table.{cell_at};
ghost use Rattle.flow_ways.specs.Found.{distance_of, way_of};
ghost use Rattle.flow_page.specs.Marks as spec;
ghost use Rattle.flow_page.specs.Marks.{told};

use crate::matrix::Found;
use crate::view::facts::Facts;
use cosem_data::memory::Memory;
use flow_map::kind::Change;
use flow_map::request::GrantedRequest;
use flow_ways::ways::Ways;
use flow_ways::why::way_end;
use label_certificate::label_sets::set_for;
use meter_theory::flow::{Edge, Label, Reach};
use std::alloc::Global;

/// How many edges the shortest ways of a client to a cell have, by their numbers, if there are ways.
pub(crate) fn distance(ways: &Ways<'_>, reach: Reach, client: u8, cell: usize) -> Option<usize>
    requires cell { cell < length (theory.cells ways.now.plan) }
    requires client { client < length ways.now.plan.clients }
    ensures { result ≡ distance_of ways.now.plan reach client (cell_at (theory.cells ways.now.plan) cell) }
{
    ways.plan().known();
    ways.distance(reach, cell, client)
}

/// The edges of the way that is shown, from the cell on, if there is a way. The only error is want of memory.
pub(crate) fn way(
    alloc: Global,
    ways: &Ways<'_>,
    reach: Reach,
    client: u8,
    cell: usize,
) -> Result<Option<Vec<Edge>>, Memory>
    requires cell { cell < length (theory.cells ways.now.plan) }
    requires client { client < length ways.now.plan.clients }
    ensures { IfOk result (λ way. option_map (λ edges. edges.items) way
        ≡ way_of ways.now.plan reach client (cell_at (theory.cells ways.now.plan) cell)) }
{
    ways.plan().known();
    ways.shown(alloc, reach, cell, client)
}

/// The request at the other end of the way that is shown, if there is a way. The only error is want of memory.
pub(crate) fn request(
    alloc: Global,
    ways: &Ways<'_>,
    reach: Reach,
    client: u8,
    cell: usize,
) -> Result<Option<GrantedRequest>, Memory>
    requires cell { cell < length (theory.cells ways.now.plan) }
    requires client { client < length ways.now.plan.clients }
    ensures { IfOk result (λ request. request ≡ spec.request_of ways.now.plan reach client (cell_at (theory.cells ways.now.plan) cell)) }
{
    match way(alloc, ways, reach, client, cell)? {
        None => Ok(None),
        Some(edges) => {
            let end = way_end(reach, &ways.cells()[cell], &edges);
            Ok(ways.map().request(reach, client, &end))
        }
    }
}

/// What is told of a client and a cell.
#[derive(Clone, Copy, Drop)]
pub(crate) struct Standing {
    /// By what the client reaches the cell, if it does.
    pub found: Option<Found>,
    /// Whether the policy allows it.
    pub allowed: bool,
    /// Whether it is gained or lost, or neither.
    pub change: Option<Change>,
}

/// What is told of this reach of a client and a cell, by their numbers.
pub(crate) fn standing_of(facts: &Facts<'_>, reach: Reach, client: u8, cell: usize) -> Standing
    requires cell { cell < length (theory.cells facts.now.ways.now.plan) }
    requires client { client < length facts.now.ways.now.plan.clients }
    ensures { result ≡ spec.standing_of (told facts.now) reach client cell }
{
    let gained = has_at(facts.gained, reach, client, cell);
    let lost = has_at(facts.lost, reach, client, cell);
    Standing {
        found: found(facts.ways, reach, client, cell),
        allowed: has_at(facts.allowed, reach, client, cell),
        change: change_of(gained, lost),
    }
}

/// By what a client reaches a cell, if it does.
fn found(ways: &Ways<'_>, reach: Reach, client: u8, cell: usize) -> Option<Found>
    requires cell { cell < length (theory.cells ways.now.plan) }
    requires client { client < length ways.now.plan.clients }
    ensures { result ≡ spec.found_of ways.now.plan reach client (cell_at (theory.cells ways.now.plan) cell) }
{
    match distance(ways, reach, client, cell) {
        None => None,
        Some(0) => {
            let place = ways.cells()[cell];
            let request = ways.map().request(reach, client, &place)?;
            Some(Found::Right(request))
        }
        Some(edges) => Some(Found::Edges(edges)),
    }
}

/// Gained, or else lost, or neither.
fn change_of(gained: bool, lost: bool) -> Option<Change>
    ensures { result ≡ spec.change_of gained lost }
{
    if gained {
        Some(Change::Gained)
    } else if lost {
        Some(Change::Lost)
    } else {
        None
    }
}

/// Whether the label at a place gives a client this reach.
pub(crate) fn has_at(labels: &[Label], reach: Reach, client: u8, place: usize) -> bool
    ensures { result ≡ spec.has_at labels.now reach client place }
{
    match labels.get(place) {
        Some(label) => set_for(reach, *label).has(client),
        None => false,
    }
}
