//! What is told of boxes.
ghost use Rattle.std.specs.Prelude.{◌≡◌, ◌<◌, ℕ, ◌==◌, ◌&&◌, ◌||◌, IfOk, length, map};
ghost use Rattle.std.specs.List.{All, list_any};
ghost use Rattle.meter_theory.specs.Labels.{has};
ghost use Rattle.meter_theory.specs.Plan as theory;
ghost use Rattle.flow_picture.specs.Boxes as spec;

use crate::picture::PictureBox;
use cosem_data::clients::ClientSet;
use cosem_data::memory::Memory;
use flow_ways::ways::Ways;
use meter_theory::flow::Reach;
use std::alloc::Global;

/// By what a client has a cell (own profile).
#[derive(Clone, Copy)]
pub(crate) enum By {
    /// By a right.
    Right,
    /// By a right or by edges.
    Any,
}

/// What is told of each box. The only error is want of memory.
pub(crate) fn boxes_told(
    alloc: Global,
    ways: &Ways<'_>,
    boxes: &[Vec<usize>],
) -> Result<Vec<PictureBox>, Memory>
    requires { All (spec.IsBox (length (theory.cells ways.now.plan))) (map (λ cells. cells.items) boxes.now) }
    ensures { IfOk result (λ told. map spec.box_shown told.items
        ≡ map (spec.box_of ways.now.plan) (map (λ cells. cells.items) boxes.now)) }
{
    let mut told = Vec::with_capacity(alloc, boxes.len())?;
    for cells in boxes {
        told.push(box_told(ways, cells))?;
    }
    Ok(told)
}

/// What is told of a box.
fn box_told(ways: &Ways<'_>, cells: &[usize]) -> PictureBox
    requires { spec.IsBox (length (theory.cells ways.now.plan)) cells.now }
    ensures { spec.box_shown result ≡ spec.box_of ways.now.plan cells.now }
{
    PictureBox {
        cell: ways.cells()[cells[0]],
        cells: cells.len(),
        changers: who(ways, By::Right, Reach::Influence, cells),
        readers: who(ways, By::Right, Reach::Learn, cells),
        influence: who(ways, By::Any, Reach::Influence, cells),
        learn: who(ways, By::Any, Reach::Learn, cells),
    }
}

/// The clients who have one of the cells of a box.
fn who(ways: &Ways<'_>, by: By, reach: Reach, cells: &[usize]) -> ClientSet
    requires { All (λ number. number < length (theory.cells ways.now.plan)) cells.now }
    ensures { spec.members result ≡ spec.who ways.now.plan by reach cells.now }
{
    ways.plan().known();
    let mut clients = ClientSet::new();
    for client in 0..ways.plan().client_count() {
        let is_one = has_one(ways, by, reach, client, cells);
        clients = with_if(is_one, client, clients);
    }
    clients
}

/// The clients of a set, and this one if a test holds.
fn with_if(holds: bool, client: u8, clients: ClientSet) -> ClientSet
    requires { client < 16 }
    ensures { (c : ℕ) → has result c ≡ ((holds && (c == client)) || has clients c) }
{
    if holds { clients.with(client) } else { clients }
}

/// Whether a client has one of the cells of a box.
fn has_one(ways: &Ways<'_>, by: By, reach: Reach, client: u8, cells: &[usize]) -> bool
    requires client { client < length ways.now.plan.clients }
    requires cells { All (λ number. number < length (theory.cells ways.now.plan)) cells.now }
    ensures { result ≡ list_any (spec.has_cell ways.now.plan by reach client) cells.now }
{
    for cell in cells {
        if has_cell(ways, by, reach, client, *cell) {
            return true;
        }
    }
    false
}

/// Whether a client has a cell, by their numbers.
fn has_cell(ways: &Ways<'_>, by: By, reach: Reach, client: u8, cell: usize) -> bool
    requires client { client < length ways.now.plan.clients }
    requires cell { cell < length (theory.cells ways.now.plan) }
    ensures { result ≡ spec.has_cell ways.now.plan by reach client cell }
{
    ways.plan().known();
    is_by(by, ways.distance(reach, cell, client))
}

/// Whether a client at this distance has a cell.
fn is_by(by: By, distance: Option<usize>) -> bool
    ensures { result ≡ spec.is_by by distance }
{
    match (by, distance) {
        (By::Right, Some(0)) => true,
        (By::Right, Some(_)) => false,
        (By::Any, Some(_)) => true,
        (_, None) => false,
    }
}
