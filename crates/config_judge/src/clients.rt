//! C7 and C8: clients that aren't there, and clients with a name or service access point that an earlier one has.

ghost use Rattle.std.specs.Prelude.{◌≡◌, ◌==◌, ◌++◌, OnOk, codes};
ghost use Rattle.std.specs.List.{list_any};
ghost use Rattle.std.specs.Str.{bytes_eq};
ghost use Rattle.config_text.specs.Fault.{fault_where};
ghost use Rattle.config_text.specs.Refusals.{Finds};
ghost use Rattle.config_text.specs.declared.cause.Cause.TheVariants.{ClientTwice, SapTwice};
ghost use Rattle.config_rules.specs.Passes as spec;

use crate::directory::Directory;
use crate::walk::{both_sets, each, each_new, finds_any};
use config_text::cause::Cause;
use config_text::fault::{ConfigFault, PlacedFault};
use config_text::noting::note_if;
use config_text::parts::{ClientParts, ConfigParts, SetsParts};
use config_text::place::Place;
use config_text::refusal::refuse;
use cosem_data::memory::Memory;
use std::alloc::Global;

/// Notes that the client at a key below a place isn't there, where it isn't.
fn known_client(
    faults: &mut Vec<PlacedFault>,
    directory: &Directory<'_>,
    later: bool,
    at: &Place<'_>,
    key: &str,
    name: &str,
) -> Result<(), Memory>
    ensures { OnOk result (faults.new.items ≡ faults.old.items
        ++ spec.known_client later directory.now.config.now
        (at.now ++ key.now) name.now) }
{
    let known = directory.has_client(name);
    note_if(faults, Cause::ClientUnknown(later), at, key, !known)
}

/// Notes the clients of sets that aren't there.
fn known_sets(
    faults: &mut Vec<PlacedFault>,
    directory: &Directory<'_>,
    later: bool,
    at: &Place<'_>,
    sets: &SetsParts,
) -> Result<(), Memory>
    ensures { OnOk result (faults.new.items ≡ faults.old.items
        ++ spec.both_sets (spec.known_client later directory.now.config.now) at.now sets.now) }
{
    both_sets(faults, at, sets, |faults, at, name| {
        known_client(faults, directory, later, at, "", name)
    })
}

/// Judges whether each client that is named is there, where C8 finds faults later, or not.
#[tactic(auto, unfolding(config_rules::specs::Passes::known_clients_by))]
fn known_clients_by(
    alloc: Global,
    directory: &Directory<'_>,
    later: bool,
) -> Result<(), ConfigFault>
    ensures { Finds result (spec.known_clients_by later directory.now.config.now) }
{
    let config = directory.config;
    let mut faults = Vec::new(alloc);
    each(
        &mut faults,
        &Place::top(alloc, "right"),
        &config.rights,
        |faults, at, right| {
            known_client(faults, directory, later, at, ".client", &right.client)
        },
    )?;
    known_sets(
        &mut faults,
        directory,
        later,
        &Place::top(alloc, "policy"),
        &config.policy,
    )?;
    each(
        &mut faults,
        &Place::top(alloc, "label"),
        &config.labels,
        |faults, at, label| { known_sets(faults, directory, later, at, &label.sets) },
    )?;
    refuse(faults)
}

/// Judges whether each client that is named is there.
///
/// # Errors
/// C7 at each name that no client has.
pub(crate) fn known_clients(alloc: Global, directory: &Directory<'_>) -> Result<(), ConfigFault>
    ensures { Finds result (spec.known_clients directory.now.config.now) }
{
    let later = finds_any(new_clients(alloc, directory.config))?;
    known_clients_by(alloc, directory, later)
}

/// Whether one of the clients has the name.
fn has_name(clients: &[ClientParts], name: &str) -> bool
    ensures { result ≡ list_any (λ e. bytes_eq e.name name.now) clients.now }
{
    clients.iter().any(|client| client.name.as_str() == name)
}

/// Whether one of the clients has the service access point.
fn has_sap(clients: &[ClientParts], sap: u8) -> bool
    ensures { result ≡ list_any (λ e. e.sap == sap) clients.now }
{
    clients.iter().any(|client| client.sap == sap)
}

/// Notes that an earlier client has the name, where one has.
fn new_name(
    faults: &mut Vec<PlacedFault>,
    earlier: &[ClientParts],
    at: &Place<'_>,
    client: &ClientParts,
) -> Result<(), Memory>
    ensures { OnOk result (faults.new.items ≡ faults.old.items
        ++ fault_where ClientTwice (at.now ++ codes ".name")
        (list_any (λ e. bytes_eq e.name client.now.name) earlier.now)) }
{
    let taken = has_name(earlier, client.name.as_str());
    note_if(faults, Cause::ClientTwice, at, ".name", taken)
}

/// Notes that an earlier client has the service access point, where one has.
fn new_sap(
    faults: &mut Vec<PlacedFault>,
    earlier: &[ClientParts],
    at: &Place<'_>,
    client: &ClientParts,
) -> Result<(), Memory>
    ensures { OnOk result (faults.new.items ≡ faults.old.items
        ++ fault_where SapTwice (at.now ++ codes ".sap")
        (list_any (λ e. e.sap == client.now.sap) earlier.now)) }
{
    let taken = has_sap(earlier, client.sap);
    note_if(faults, Cause::SapTwice, at, ".sap", taken)
}

/// Notes that an earlier client has the name, and that one has the service access point, where one has.
#[tactic(auto, unfolding(config_rules::specs::Passes::new_client))]
fn new_client(
    faults: &mut Vec<PlacedFault>,
    earlier: &[ClientParts],
    at: &Place<'_>,
    client: &ClientParts,
) -> Result<(), Memory>
    ensures { OnOk result (faults.new.items ≡ faults.old.items
        ++ spec.new_client earlier.now at.now client.now) }
{
    new_name(faults, earlier, at, client)?;
    new_sap(faults, earlier, at, client)
}

/// Judges whether each client's name and service access point are new.
///
/// # Errors
/// C8 at each client's name and each service access point that an earlier client has.
#[tactic(auto, unfolding(config_rules::specs::Passes::new_clients))]
pub(crate) fn new_clients(alloc: Global, config: &ConfigParts) -> Result<(), ConfigFault>
    ensures { Finds result (spec.new_clients config.now) }
{
    let mut faults = Vec::new(alloc);
    each_new(
        &mut faults,
        &Place::top(alloc, "client"),
        &config.clients,
        new_client,
    )?;
    refuse(faults)
}
