//! The service access point of a client, and whether it needs a password.
ghost use Rattle.std.specs.Prelude.{◌≡◌, ◌++◌, OnOk, map, option_map};
ghost use Rattle.flow_changes.specs.Shown.{shown};
ghost use Rattle.flow_changes.specs.Singles as singles;

use crate::fact::Fact;
use cosem_data::memory::Memory;
use flow_map::outline::ClientOutline;

/// Puts facts behind others: the service access point of a client, unless the other, if it is one, has it too; and that it
/// needs no password, unless the other needs none either.
pub(crate) fn push_client<'a>(
    client: &'a ClientOutline<'a>,
    other: Option<&ClientOutline<'_>>,
    facts: &mut Vec<Fact<'a>>,
) -> Result<(), Memory>
    ensures { let there = option_map (λ client. client.now) other.entry in
        OnOk result (map shown facts.new.items ≡ map shown facts.old.items
        ++ (singles.sap_facts client.now there ++ singles.open_facts client.now there)) }
{
    push_sap(client, other, facts)?;
    push_open(client, other, facts)
}

/// Puts the service access point of a client behind facts, unless the other has it too.
fn push_sap<'a>(
    client: &'a ClientOutline<'a>,
    other: Option<&ClientOutline<'_>>,
    facts: &mut Vec<Fact<'a>>,
) -> Result<(), Memory>
    ensures { OnOk result (map shown facts.new.items ≡ map shown facts.old.items
        ++ singles.sap_facts client.now (option_map (λ client. client.now) other.entry)) }
{
    let sap = client.sap();
    if !is_at(sap, other) {
        let client = client.name_text();
        facts.push(Fact::HasSap { client, sap })?;
    }
    Ok(())
}

/// Puts behind facts that a client needs no password, unless the other needs none either.
fn push_open<'a>(
    client: &'a ClientOutline<'a>,
    other: Option<&ClientOutline<'_>>,
    facts: &mut Vec<Fact<'a>>,
) -> Result<(), Memory>
    ensures { OnOk result (map shown facts.new.items ≡ map shown facts.old.items
        ++ singles.open_facts client.now (option_map (λ client. client.now) other.entry)) }
{
    if !client.needs_password() && !is_open(other) {
        let client = client.name_text();
        facts.push(Fact::IsOpen { client })?;
    }
    Ok(())
}

/// Whether the client, if it is one, has this service access point.
fn is_at(sap: u8, client: Option<&ClientOutline<'_>>) -> bool
    ensures { result ≡ singles.is_at sap (option_map (λ client. client.now) client.entry) }
{
    match client {
        Some(client) => sap == client.sap(),
        None => false,
    }
}

/// Whether the client, if it is one, needs no password.
fn is_open(client: Option<&ClientOutline<'_>>) -> bool
    ensures { result ≡ singles.is_open (option_map (λ client. client.now) client.entry) }
{
    match client {
        Some(client) => !client.needs_password(),
        None => false,
    }
}
