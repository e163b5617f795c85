//! The comparison of two configurations.
ghost use Rattle.std.specs.Prelude.{◌≡◌, ◌++◌, ℕ, ◌<◌, IfOk, List, OnErr, OnOk, Some, filter, length, map, slice_get};
ghost use Rattle.std.specs.Io.KnownBytes.{Appends};
ghost use Rattle.std.specs.List.{list_any};
ghost use Rattle.meter_theory.specs.Labels.{has};
ghost use Rattle.meter_theory.specs.Plan.{Client as ClientValue};
ghost use Rattle.flow_changes.specs.Changes as changes;
ghost use Rattle.flow_changes.specs.Facts.{common_facts, own_facts};
ghost use Rattle.flow_changes.specs.Shown.{kind_shown, shown};
ghost use Rattle.flow_map.specs.Kinds.{all_kinds};
ghost use Rattle.flow_changes.specs.Written.{AreCompared, WritesComparison, WritesSides};

use crate::cells::push_cells;
use crate::differences::reach_changes;
use crate::edges::push_edges;
use crate::fact::Fact;
use crate::owned::push_owned;
use crate::text::{first_line, lines_of, names_of};
use cosem_data::clients::ClientSet;
use cosem_data::memory::Memory;
use flow_map::kind::{Change, KINDS, Kind};
use flow_map::least::LeastMap;
use meter_theory::flow::Label;
use std::alloc::Global;
use std::io::Write;
use whole_writes::fault::ListFault;
use whole_writes::{WriteFailed, write_whole};

/// Writes how a new configuration differs from an old one: a line with the names of the clients that gain, and of each kind of
/// facts a line for each that only the new one has, then one for each that only the old one has. Says whether somebody gains. All
/// is made before the first byte is written.
///
/// # Errors
/// Memory was refused, and nothing was written; or a write failed, and a beginning of the text was written.
pub fn write_comparison<W: Write>(
    alloc: Global,
    old: &LeastMap<'_>,
    new: &LeastMap<'_>,
    writer: &mut W,
) -> Result<bool, ListFault>
    ensures { WritesComparison old.now.plan old.now.policy new.now.plan new.now.policy
        (W.contents writer.old) (W.contents writer.new) result }
{
    old.known();
    new.known();
    write_sides(alloc, old, new, writer)
}

/// The facts of one kind that are gained and lost.
#[derive(Drop)]
pub struct KindFacts<'a> {
    /// The kind.
    pub kind: Kind,
    /// What only the new configuration has, in its order.
    pub gained: Vec<Fact<'a>>,
    /// What only the old configuration has, in its order.
    pub lost: Vec<Fact<'a>>,
}

/// How a new configuration differs from an old one, for who shows that in other ways than [`write_comparison`].
#[derive(Drop)]
pub struct Comparison<'a> {
    /// What is gained and lost of each kind, in the order in which kinds are told.
    pub kinds: Vec<KindFacts<'a>>,
    /// The clients of the new configuration that gain.
    pub gainers: ClientSet,
    /// For each cell of the new configuration the clients that may influence and learn it and couldn't before.
    pub gained: Vec<Label>,
    /// For each cell of the new configuration the clients that may no longer influence and learn it.
    pub lost: Vec<Label>,
}

/// How a new configuration differs from an old one. The only error is want of memory.
pub fn compare<'a>(
    alloc: Global,
    old: &'a LeastMap<'a>,
    new: &'a LeastMap<'a>,
) -> Result<Comparison<'a>, Memory>
    ensures { IfOk result (AreCompared old.now new.now) }
{
    let mut kinds = Vec::new(alloc);
    let gainers = push_kinds(alloc, old, new, &mut kinds)?;
    let gained = reach_changes(alloc, Change::Gained, old, new)?;
    let lost = reach_changes(alloc, Change::Lost, old, new)?;
    Ok(Comparison {
        kinds,
        gainers,
        gained,
        lost,
    })
}

/// Writes how two sides differ, and tells whether somebody gains. All is made before the first byte is written.
fn write_sides<'a, W: Write>(
    alloc: Global,
    old: &'a LeastMap<'a>,
    new: &'a LeastMap<'a>,
    writer: &mut W,
) -> Result<bool, ListFault>
    ensures { WritesSides old.now new.now
        (W.contents writer.old) (W.contents writer.new) result }
{
    let mut kinds = Vec::new(alloc);
    let gaining = push_kinds(alloc, old, new, &mut kinds)?;
    let names = names_of(alloc, new.map().plan(), gaining)?;
    let first = first_line(alloc, &names)?;
    let lines = lines_of(alloc, &kinds)?;
    write_both(&first, lines.as_bytes(), writer)?;
    Ok(!names.is_empty())
}

/// Writes one text and then another.
fn write_both<W: Write>(first: &[u8], second: &[u8], writer: &mut W) -> Result<(), WriteFailed>
    ensures ok { OnOk result
        (Appends (W.contents writer.old) (W.contents writer.new) (first.now ++ second.now)) }
    // A beginning was written, and something is left.
    ensures err { OnErr result ((front : List ℕ) × (left : List ℕ) × (first.now ++ second.now ≡ front ++ left)
        × Appends (W.contents writer.old) (W.contents writer.new) front
        × (0 < length left)) }
{
    match write_whole(writer, first) {
        Ok(()) => write_whole(writer, second),
        Err(failed) => Err(failed),
    }
}

/// Puts what is gained and lost of each kind behind other kinds, and gives the clients of the new side that gain.
fn push_kinds<'a>(
    alloc: Global,
    old: &'a LeastMap<'a>,
    new: &'a LeastMap<'a>,
    kinds: &mut Vec<KindFacts<'a>>,
) -> Result<ClientSet, Memory>
    ensures kinds { OnOk result (map kind_shown kinds.new.items ≡ map kind_shown kinds.old.items
        ++ map (changes.changes_of_kind old.now new.now) all_kinds) }
    ensures clients { IfOk result (λ set. (c : ℕ) (client : ClientValue) →
        slice_get new.now.plan.clients c ≡ Some client →
        has set c ≡ changes.gains old.now new.now (c, client)) }
{
    let mut gaining = ClientSet::new();
    for kind in KINDS {
        let mut gained = Vec::new(alloc);
        let mut lost = Vec::new(alloc);
        let owners = push_facts(alloc, kind, new, old, &mut gained)?;
        push_facts(alloc, kind, old, new, &mut lost)?;
        kinds.push(KindFacts { kind, gained, lost })?;
        gaining = gaining.union(owners);
    }
    Ok(gaining)
}

/// Puts the facts of a kind behind others that the other side lacks, and gives the clients whose own one is.
fn push_facts<'a>(
    alloc: Global,
    kind: Kind,
    mine: &'a LeastMap<'a>,
    theirs: &'a LeastMap<'a>,
    facts: &mut Vec<Fact<'a>>,
) -> Result<ClientSet, Memory>
    ensures facts { OnOk result (map shown facts.new.items ≡ map shown facts.old.items
        ++ changes.gained (theirs.now) (mine.now) kind) }
    ensures clients { let C = mine.now in let D = theirs.now in
        IfOk result (λ set. (c : ℕ) (client : ClientValue) → slice_get C.plan.clients c ≡ Some client →
        has set c ≡ list_any (changes.lacks D C kind) (own_facts C D kind (c, client))) }
{
    let owners = push_owned(alloc, kind, mine, theirs, facts)?;
    push_common(alloc, kind, mine, theirs, facts)?;
    Ok(owners)
}

/// Puts the facts of a kind behind others that are no client's and that the other side lacks.
fn push_common(
    alloc: Global,
    kind: Kind,
    mine: &LeastMap<'_>,
    theirs: &LeastMap<'_>,
    facts: &mut Vec<Fact<'_>>,
) -> Result<(), Memory>
    ensures { let C = mine.now in let D = theirs.now in
        OnOk result (map shown facts.new.items ≡ map shown facts.old.items
        ++ filter (changes.lacks D C kind) (common_facts C kind)) }
{
    match kind {
        Kind::Cell => push_cells(mine.map().cells(), theirs.map().plan(), facts),
        Kind::Edge => {
            let theirs = theirs.map();
            push_edges(
                alloc,
                mine.map().table(),
                theirs.plan(),
                theirs.table(),
                facts,
            )
        }
        _ => Ok(()),
    }
}
