//! The text of a comparison.
ghost use Rattle.std.specs.Prelude.{◌≡◌, ◌++◌, ◌∷◌, [], ℕ, IfOk, List, OnOk, filter, flat_map, map, string_bytes};
ghost use Rattle.meter_theory.specs.Labels.{has};
ghost use Rattle.flow_changes.specs.Changes as changes;
ghost use Rattle.flow_changes.specs.Facts.{numbered};
ghost use Rattle.flow_changes.specs.Shown.{kind_shown, shown};

use crate::compare::KindFacts;
use crate::fact::Fact;
use cosem_data::clients::ClientSet;
use cosem_data::memory::Memory;
use flow_map::kind::{Change, Kind};
use flow_map::outline::Outline;
use std::alloc::Global;

/// The names of the clients in a set, each behind a comma.
pub(crate) fn names_of(alloc: Global, plan: &Outline<'_>, set: ClientSet) -> Result<Vec<u8>, Memory>
    ensures { IfOk result (λ names. names.items ≡ flat_map (λ c. 44 ∷ c.1.name)
        (filter (λ c. has set c.0) (numbered plan.now))) }
{
    plan.known();
    let mut names = Vec::new(alloc);
    let mut place = 0;
    while let Some(client) = plan.client(place) {
        if set.has(place) {
            names.push(b',')?;
            names.extend_from_slice(client.name())?;
        }
        place += 1;
    }
    Ok(names)
}

/// The line that tells who gains, by names that stand behind commas.
pub(crate) fn first_line(alloc: Global, names: &[u8]) -> Result<Vec<u8>, Memory>
    ensures { (list : List (List ℕ)) → names.now ≡ flat_map (λ name. 44 ∷ name) list →
        IfOk result (λ line. line.items ≡ changes.first_line list) }
{
    let mut line = Vec::new(alloc);
    line.extend_from_slice(b"gained by ")?;
    line.extend_from_slice(listed(names))?;
    line.push(b'\n')?;
    Ok(line)
}

/// The names without the comma before the first, or nobody.
fn listed(names: &[u8]) -> &[u8]
    ensures { (list : List (List ℕ)) → names.now ≡ flat_map (λ name. 44 ∷ name) list →
        result.now ≡ changes.names_or_nobody list }
{
    match names {
        [] => b"nobody",
        [_, listed @ ..] => listed,
    }
}

/// The lines of these kinds, of each first what is gained and then what is lost.
pub(crate) fn lines_of(alloc: Global, kinds: &[KindFacts<'_>]) -> Result<String, Memory>
    ensures { IfOk result (λ text. string_bytes text ≡ flat_map changes.kind_lines (map kind_shown kinds.now)) }
{
    let mut text = String::new(alloc);
    for told in kinds {
        push_lines(Change::Gained, told.kind, &told.gained, &mut text)?;
        push_lines(Change::Lost, told.kind, &told.lost, &mut text)?;
    }
    Ok(text)
}

/// Puts a line behind a text for each of these facts.
fn push_lines(
    change: Change,
    kind: Kind,
    facts: &[Fact<'_>],
    text: &mut String,
) -> Result<(), Memory>
    ensures { OnOk result (string_bytes text.new
        ≡ string_bytes text.old ++ changes.lines change kind (map shown facts.now)) }
{
    let sign = change.sign();
    let word = kind.word();
    for fact in facts {
        write!(text, "{sign} {word} {fact}\n")?;
    }
    Ok(())
}
