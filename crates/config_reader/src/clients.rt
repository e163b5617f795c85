//! The clients of a configuration and their rights.
ghost use Rattle.std.specs.Prelude.{◌≡◌, ◌≤◌, ◌<◌, IfOk, IfSome, map, length};
ghost use Rattle.std.specs.List.{position_from};
ghost use Rattle.std.specs.Str.{bytes_eq};
ghost use Rattle.meter_theory.specs.declared.limits.TheConstants.{CLIENTS};
ghost use Rattle.config_reader.specs.Among as spec;
ghost use Rattle.config_rules.specs.PlanOf as plan;

use config_judge::targets::name_of;
use config_text::parts::{ClientParts, RightParts};
use cosem_data::memory::Memory;
use object_model::client::Client;
use object_model::right::Right;
use std::alloc::Global;

fn client(parts: ClientParts) -> Client
    ensures { result ≡ plan.client_of parts }
{
    let ClientParts {
        name,
        sap,
        password,
    } = parts;
    Client::new(name, sap, password)
}

/// The clients, in order.
pub(crate) fn clients_of(alloc: Global, parts: Vec<ClientParts>) -> Result<Vec<Client>, Memory>
    ensures { IfOk result (λ clients. clients.items ≡ map plan.client_of parts.items) }
{
    Ok(parts.into_iter().map(client).collect(alloc)?)
}

fn has_name(client: &ClientParts, name: &str) -> bool
    ensures { result ≡ bytes_eq client.now.name name.now }
{
    client.name.as_str() == name
}

/// The place of the first of the clients with this name.
fn place_of(clients: &[ClientParts], name: &str) -> Option<usize>
    ensures place { result ≡ position_from (λ client. bytes_eq client.name name.now) 0 clients.now }
    ensures within { IfSome result (λ place. place < length clients.now) }
{
    clients.iter().position(|client| has_name(client, name))
}

/// The place of the first of the clients with this name, 0 where there is none.
pub(crate) fn client_place(clients: &[ClientParts], name: &str) -> u8
    requires few { length clients.now ≤ CLIENTS }
    ensures place { result ≡ spec.place_among clients.now name.now }
    ensures below { result < CLIENTS }
{
    match place_of(clients, name) {
        Some(place) => place as u8,
        None => 0,
    }
}

fn right(clients: &[ClientParts], parts: RightParts) -> Right
    requires few { length clients.now ≤ CLIENTS }
    ensures { result ≡ spec.right_among clients.now parts }
{
    let client = client_place(clients, parts.client.as_str());
    let object = name_of(parts.object.as_str());
    let RightParts {
        gets,
        sets,
        acts,
        ..
    } = parts;
    Right::new(client, object, gets, sets, acts)
}

/// The rights of these clients, in order.
pub(crate) fn rights_of(
    alloc: Global,
    clients: &[ClientParts],
    parts: Vec<RightParts>,
) -> Result<Vec<Right>, Memory>
    requires few { length clients.now ≤ CLIENTS }
    ensures { IfOk result (λ rights. rights.items ≡ map (spec.right_among clients.now) parts.items) }
{
    let mut rights = Vec::with_capacity(alloc, parts.len())?;
    for part in parts {
        rights.push(right(clients, part))?;
    }
    Ok(rights)
}
