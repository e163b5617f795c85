//! How far the cells of a plan are from its clients.
ghost use Rattle.std.specs.Prelude.{◌≡◌, ◌≤◌, ◌*◌, ◌+◌, ℕ, None, get_or, length, IfOk, OnOk};
ghost use Rattle.meter_theory.specs.Plan as theory;
ghost use Rattle.flow_ways.specs.Distances.{AreDistances, AreNoted, IsCellNoted};
ghost use Rattle.flow_ways.specs.Rounds.{AreLinksOf, AreReached};

use crate::rounds::next_round;
use cosem_data::clients::ClientSet;
use cosem_data::memory::Memory;
use flow_edges::table::Link;
use flow_map::map::FlowMap;
use flow_map::outline::Outline;
use label_certificate::label_sets::sets_for;
use meter_theory::flow::Reach;
use meter_theory::limits::CLIENTS;
use std::alloc::Global;

/// For each cell of the plan, and for each of as many clients as a meter has at most, how many edges the shortest ways to it
/// have, if there are ways.
pub(crate) fn distances(
    alloc: Global,
    map: &FlowMap<'_>,
    reach: Reach,
) -> Result<Vec<Option<usize>>, Memory>
    ensures { IfOk result (λ numbers. AreDistances map.now.plan reach numbers.items) }
{
    map.known();
    let sets = sets_for(alloc, reach, map.granted())?;
    let mut numbers = vec![in alloc; None; sets.len() * CLIENTS]?;
    number_rounds(alloc, map.plan(), map.links(), reach, sets, &mut numbers)?;
    Ok(numbers)
}

/// Numbers what rights grant, and what each round adds.
fn number_rounds(
    alloc: Global,
    plan: &Outline<'_>,
    links: &[Link],
    reach: Reach,
    granted: Vec<ClientSet>,
    numbers: &mut [Option<usize>],
) -> Result<(), Memory>
    requires links { AreLinksOf plan.now links.now }
    requires sets { AreReached plan.now reach 0 granted.items }
    requires size { length numbers.old ≡ length (theory.cells plan.now) * CLIENTS }
    requires none { (place : ℕ) → get_or numbers.old place None ≡ None }
    ensures { OnOk result (AreDistances plan.now reach numbers.new) }
{
    plan.known();
    note(0, &granted, numbers);
    let mut sets = granted;
    for distance in 1..sets.len() {
        let Some(next) = next_round(alloc, reach, links, &sets)? else {
            return Ok(());
        };
        note(distance, &next, numbers);
        sets = next;
    }
    Ok(())
}

/// Gives the clients of each set this number for its cell, where they have none.
fn note(distance: usize, sets: &[ClientSet], numbers: &mut [Option<usize>])
    requires { length numbers.old ≡ length sets.now * CLIENTS }
    ensures { AreNoted distance sets.now numbers.old numbers.new }
{
    for (cell, set) in sets.iter().enumerate() {
        note_cell(distance, cell * CLIENTS, *set, numbers);
    }
}

/// Gives the clients of a set this number, where they have none, from a first place on.
fn note_cell(distance: usize, first: usize, set: ClientSet, numbers: &mut [Option<usize>])
    requires { first + CLIENTS ≤ length numbers.old }
    ensures { IsCellNoted distance first set numbers.old numbers.new }
{
    for client in 0..CLIENTS as u8 {
        let place = first + usize::from(client);
        if numbers[place].is_none() && set.has(client) {
            numbers[place] = Some(distance);
        }
    }
}
