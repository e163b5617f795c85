//! Who may reach which cells that it couldn't before, and who no longer may.
ghost use Rattle.std.specs.Prelude.{◌≡◌, ◌<◌, ℕ, IfOk, IfSome, None, get_or, length, map, slice_get};
ghost use Rattle.meter_theory.specs.Labels.{has};
ghost use Rattle.meter_theory.specs.Plan as plans;
ghost use Rattle.flow_changes.specs.Differences as spec;

use crate::labels::Pair;
use crate::owned::pairs_for;
use crate::reaches::{is_new, is_old};
use cosem_data::clients::ClientSet;
use cosem_data::memory::Memory;
use flow_map::kind::{Change, Kind};
use flow_map::least::LeastMap;
use flow_map::outline::Outline;
use meter_theory::flow::{Label, Reach};
use meter_theory::limits::CLIENTS;
use std::alloc::Global;

/// For each cell of the new side the clients that may influence and learn it, of which those of the old side with their names may not; or
/// the other way round.
pub(crate) fn reach_changes(
    alloc: Global,
    change: Change,
    old: &LeastMap<'_>,
    new: &LeastMap<'_>,
) -> Result<Vec<Label>, Memory>
    ensures { IfOk result (λ labels. spec.AreReachChanges change
        old.now new.now labels.items) }
{
    new.map().known();
    let pairs = pairs_for(alloc, Kind::May, new, old)?;
    let others = namesakes(alloc, new.map().plan(), old.map().plan())?;
    let mut labels = Vec::with_capacity(alloc, pairs.len())?;
    for pair in &pairs {
        labels.push(label_changed(change, &others, pair))?;
    }
    Ok(labels)
}

/// For each client of a plan the place of the one with its name in another plan, if there is one.
fn namesakes(
    alloc: Global,
    plan: &Outline<'_>,
    other: &Outline<'_>,
) -> Result<Vec<Option<u8>>, Memory>
    ensures { IfOk result (λ others. others.items
        ≡ map (λ client. plans.client_named other.now client.name) plan.now.clients) }
{
    plan.known();
    let mut others = Vec::new(alloc);
    for client in 0..plan.client_count() {
        others.push(namesake(plan, client, other))?;
    }
    Ok(others)
}

/// The place in another plan of the client with the name of the one at this place.
fn namesake(plan: &Outline<'_>, client: u8, other: &Outline<'_>) -> Option<u8>
    ensures { IfSome (slice_get plan.now.clients client) (λ who. result ≡ plans.client_named other.now who.name) }
{
    match plan.client(client) {
        Some(who) => other.client_named(who.name()),
        None => None,
    }
}

/// The clients that gain or lose a cell.
fn label_changed(change: Change, others: &[Option<u8>], pair: &Pair) -> Label
    ensures { spec.IsChanged change others.now pair.now result }
{
    Label {
        influence: clients_changed(change, Reach::Influence, others, pair),
        learn: clients_changed(change, Reach::Learn, others, pair),
    }
}

/// The clients that may now influence, or learn, a cell and couldn't before, or the other way round.
fn clients_changed(change: Change, reach: Reach, others: &[Option<u8>], pair: &Pair) -> ClientSet
    ensures { (c : ℕ) → c < CLIENTS →
        has result c ≡ spec.is_changed change reach c (get_or others.now c None) pair.now }
{
    let mut clients = ClientSet::new();
    for client in 0..CLIENTS as u8 {
        let other = namesake_at(others, client);
        if is_changed(change, reach, client, other, pair) {
            clients = clients.with(client);
        }
    }
    clients
}

/// What stands at the place of a client, if there is such a place.
fn namesake_at(others: &[Option<u8>], client: u8) -> Option<u8>
    ensures { result ≡ get_or others.now client None }
{
    match others.get(usize::from(client)) {
        Some(other) => *other,
        None => None,
    }
}

/// Whether a client may now influence, or learn, a cell and couldn't before, or the other way round.
fn is_changed(change: Change, reach: Reach, client: u8, other: Option<u8>, pair: &Pair) -> bool
    ensures { result ≡ spec.is_changed change reach client other pair.now }
{
    match change {
        Change::Gained => is_new(reach, client, other, pair),
        Change::Lost => is_old(reach, client, other, pair),
    }
}
