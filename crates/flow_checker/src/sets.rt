//! Tests of sets of clients, and what one set has beyond another.
ghost use Rattle.std.specs.Prelude.{◌≡◌, ◌||◌, None, Some, cond, not};
ghost use Rattle.meter_theory.specs.Labels.{has, within};
ghost use Rattle.flow_checker.specs.Failures as spec;

use cosem_data::clients::ClientSet;
use meter_theory::limits::CLIENTS;

/// Whether the client is in a set of a label, where its rights ask for that.
pub(crate) fn admits(client: u8, granted: ClientSet, given: ClientSet) -> bool
    ensures { result ≡ (not (has granted client) || has given client) }
{
    !granted.has(client) || given.has(client)
}

/// The clients of a set that aren't in the other, if it has some.
pub(crate) fn exceeding(set: ClientSet, other: ClientSet) -> Option<ClientSet>
    ensures { result ≡ cond (within set other) None (Some (spec.beyond set other)) }
{
    if set.within(other) {
        None
    } else {
        Some(beyond(set, other))
    }
}

/// The clients of a set that aren't in the other.
fn beyond(set: ClientSet, other: ClientSet) -> ClientSet
    ensures { result ≡ spec.beyond set other }
{
    let mut found = ClientSet::new();
    for client in 0..CLIENTS as u8 {
        if set.has(client) && !other.has(client) {
            found = found.with(client);
        }
    }
    found
}
