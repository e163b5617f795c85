//! What has changed against the configuration before.
ghost use Rattle.std.specs.Prelude.{◌≡◌, ◌<◌, ◌++◌, IfOk, OnOk, length, map, string_bytes};
ghost use Rattle.meter_theory.specs.Labels.{has};
ghost use Rattle.flow_changes.specs.Shown.{kind_shown, shown};
ghost use Rattle.flow_page.specs.Changes as spec;
ghost use Rattle.flow_page.specs.Changes.{AreChanges};
ghost use Rattle.flow_page.specs.Lines.{line_shown};

use crate::changes::{ChangedFact, Changes, KindChanges};
use crate::view::limits::CHANGES;
use crate::view::lines::{client_name, whole_way_of};
use crate::ways::WayLine;
use cosem_data::cell::CellRef;
use cosem_data::clients::ClientSet;
use cosem_data::memory::Memory;
use flow_changes::compare::{Comparison, KindFacts};
use flow_changes::fact::Fact;
use flow_map::kind::{Change, Kind};
use flow_map::outline::Outline;
use flow_ways::ways::Ways;
use meter_theory::flow::Reach;
use std::alloc::Global;

/// A fact that is gained or lost.
#[derive(Clone, Copy, Drop)]
pub(crate) struct Changed<'a> {
    /// Of which kind it is.
    pub kind: Kind,
    /// Which of both.
    pub change: Change,
    /// The fact.
    pub fact: Fact<'a>,
}

/// What has changed, by a comparison with the configuration before. The only error is want of memory.
pub(crate) fn changes_of(
    alloc: Global,
    ways: &Ways<'_>,
    comparison: &Comparison<'_>,
) -> Result<Changes, Memory>
    ensures { IfOk result (AreChanges ways.now.plan comparison.now) }
{
    let gainers = names_of(alloc, ways.plan(), comparison.gainers)?;
    let kinds = kinds_of(alloc, ways, &comparison.kinds)?;
    Ok(Changes { gainers, kinds })
}

/// The names of the clients in a set.
fn names_of(alloc: Global, plan: &Outline<'_>, set: ClientSet) -> Result<Vec<String>, Memory>
    ensures { IfOk result (λ names. map string_bytes names.items ≡ spec.names_of plan.now set) }
{
    let mut names = Vec::new(alloc);
    for client in 0..plan.client_count() {
        push_name(alloc, plan, set, client, &mut names)?;
    }
    Ok(names)
}

/// Puts the name of a client behind others, if it is in a set.
fn push_name(
    alloc: Global,
    plan: &Outline<'_>,
    set: ClientSet,
    client: u8,
    names: &mut Vec<String>,
) -> Result<(), Memory>
    requires { client < length plan.now.clients }
    ensures { OnOk result (map string_bytes names.new.items ≡ map string_bytes names.old.items ++ spec.name_in plan.now set client) }
{
    if set.has(client) {
        names.push(String::from_str(alloc, client_name(plan, client))?)?;
    }
    Ok(())
}

/// What has changed of each kind, of those of which something has.
fn kinds_of(
    alloc: Global,
    ways: &Ways<'_>,
    kinds: &[KindFacts<'_>],
) -> Result<Vec<KindChanges>, Memory>
    ensures { IfOk result (λ list. map spec.kind_told list.items ≡ spec.kinds_of ways.now.plan (map kind_shown kinds.now)) }
{
    let mut list = Vec::new(alloc);
    for facts in kinds {
        push_kind(alloc, ways, facts, &mut list)?;
    }
    Ok(list)
}

/// Puts what has changed of a kind behind that of others, if something has.
fn push_kind(
    alloc: Global,
    ways: &Ways<'_>,
    facts: &KindFacts<'_>,
    list: &mut Vec<KindChanges>,
) -> Result<(), Memory>
    ensures { OnOk result (map spec.kind_told list.new.items
        ≡ map spec.kind_told list.old.items ++ spec.kind_part ways.now.plan (kind_shown facts.now)) }
{
    let changed = all_changed(alloc, facts)?;
    if !changed.is_empty() {
        list.push(kind_changes(alloc, ways, facts.kind, changed)?)?;
    }
    Ok(())
}

/// The facts of a kind that are gained, and then those that are lost.
fn all_changed<'a>(alloc: Global, facts: &KindFacts<'a>) -> Result<Vec<Changed<'a>>, Memory>
    ensures { IfOk result (λ changed. map spec.changed_shown changed.items ≡ spec.all_changed (kind_shown facts.now)) }
{
    let mut changed = Vec::new(alloc);
    push_changed(facts.kind, Change::Gained, &facts.gained, &mut changed)?;
    push_changed(facts.kind, Change::Lost, &facts.lost, &mut changed)?;
    Ok(changed)
}

/// Puts facts of a kind that are gained, or lost, behind others.
fn push_changed<'a>(
    kind: Kind,
    change: Change,
    facts: &[Fact<'a>],
    changed: &mut Vec<Changed<'a>>,
) -> Result<(), Memory>
    ensures { OnOk result (map spec.changed_shown changed.new.items
        ≡ map spec.changed_shown changed.old.items ++ map (spec.changed kind change) (map shown facts.now)) }
{
    for fact in facts {
        changed.push(Changed {
            kind,
            change,
            fact: *fact,
        })?;
    }
    Ok(())
}

/// What is told of the changed facts of a kind: the first 500, and how many more there are (own profile).
fn kind_changes(
    alloc: Global,
    ways: &Ways<'_>,
    kind: Kind,
    changed: Vec<Changed<'_>>,
) -> Result<KindChanges, Memory>
    ensures { IfOk result (λ changes. spec.kind_told changes ≡ spec.kind_changes ways.now.plan kind (map spec.changed_shown changed.entry.items)) }
{
    let more = changed.len().saturating_sub(CHANGES);
    let mut first = changed;
    first.truncate(CHANGES);
    Ok(KindChanges {
        kind,
        facts: facts_told(alloc, ways, &first)?,
        more,
    })
}

/// What is told of each of these changed facts.
fn facts_told(
    alloc: Global,
    ways: &Ways<'_>,
    changed: &[Changed<'_>],
) -> Result<Vec<ChangedFact>, Memory>
    ensures { IfOk result (λ facts. map spec.fact_shown facts.items ≡ map (spec.fact_told ways.now.plan) (map spec.changed_shown changed.now)) }
{
    let mut facts = Vec::with_capacity(alloc, changed.len())?;
    for fact in changed {
        facts.push(fact_told(alloc, ways, fact)?)?;
    }
    Ok(facts)
}

/// What is told of a changed fact.
fn fact_told(alloc: Global, ways: &Ways<'_>, changed: &Changed<'_>) -> Result<ChangedFact, Memory>
    ensures { IfOk result (λ fact. spec.fact_shown fact ≡ spec.fact_told ways.now.plan (spec.changed_shown changed.now)) }
{
    let fact = changed.fact;
    Ok(ChangedFact {
        change: changed.change,
        words: format!(in alloc; "{fact}")?,
        way: new_way(alloc, ways, changed)?,
    })
}

/// The lines of the way by which a client now reaches a cell, if the changed fact is that.
fn new_way(alloc: Global, ways: &Ways<'_>, changed: &Changed<'_>) -> Result<Vec<WayLine>, Memory>
    ensures { IfOk result (λ lines. map line_shown lines.items ≡ spec.new_way ways.now.plan (spec.changed_shown changed.now)) }
{
    match (changed.kind, changed.change, changed.fact) {
        (
            Kind::May,
            Change::Gained,
            Fact::Reaches {
                client,
                reach,
                cell,
            },
        ) => named_way(alloc, ways, reach, client, &cell),
        _ => Ok(Vec::new(alloc)),
    }
}

/// The lines of the way that is shown of the client with this name to a cell, if there is one.
fn named_way(
    alloc: Global,
    ways: &Ways<'_>,
    reach: Reach,
    name: &str,
    cell: &CellRef,
) -> Result<Vec<WayLine>, Memory>
    ensures { IfOk result (λ lines. map line_shown lines.items ≡ spec.named_way ways.now.plan reach name.now cell.now) }
{
    match ways.plan().client_named(name.as_bytes()) {
        Some(client) => way_to(alloc, ways, reach, client, cell),
        None => Ok(Vec::new(alloc)),
    }
}

/// The lines of the way that is shown of a client to a cell, if there is one.
fn way_to(
    alloc: Global,
    ways: &Ways<'_>,
    reach: Reach,
    client: u8,
    cell: &CellRef,
) -> Result<Vec<WayLine>, Memory>
    requires { client < length ways.now.plan.clients }
    ensures { IfOk result (λ lines. map line_shown lines.items ≡ spec.way_to ways.now.plan reach client cell.now) }
{
    match ways.plan().cell_number(cell) {
        Some(number) => whole_way_of(alloc, ways, reach, client, usize::from(number)),
        None => Ok(Vec::new(alloc)),
    }
}
