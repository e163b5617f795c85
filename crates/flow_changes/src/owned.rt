//! The facts that are a client's own.
ghost use Rattle.std.specs.Prelude.{◌≡◌, ◌++◌, ℕ, IfOk, OnOk, Some, filter, flat_map, map, option_and_then, option_map, slice_get};
ghost use Rattle.std.specs.List.{list_any};
ghost use Rattle.meter_theory.specs.Labels.{has};
ghost use Rattle.meter_theory.specs.Plan.{Client as ClientValue};
ghost use Rattle.flow_changes.specs.Changes.{lacks};
ghost use Rattle.flow_changes.specs.Facts.{numbered, own_facts};
ghost use Rattle.flow_changes.specs.Shown.{shown};
ghost use Rattle.flow_changes.specs.Singles.{ArePairs};

use crate::clients::push_client;
use crate::fact::Fact;
use crate::labels::{Pair, pairs_of};
use crate::namesakes::Namesakes;
use crate::reaches::push_reaches;
use crate::rights::push_rights;
use cosem_data::clients::ClientSet;
use cosem_data::memory::Memory;
use flow_map::kind::Kind;
use flow_map::least::LeastMap;
use flow_map::outline::{ClientOutline, Outline};
use std::alloc::Global;

/// Puts the facts of a kind behind others that are a client's own and that the other side lacks, client by client, and gives
/// the clients of which there is one.
pub(crate) fn push_owned<'a>(
    alloc: Global,
    kind: Kind,
    mine: &'a LeastMap<'a>,
    theirs: &'a LeastMap<'a>,
    facts: &mut Vec<Fact<'a>>,
) -> Result<ClientSet, Memory>
    ensures facts { let C = mine.now in let D = theirs.now in
        OnOk result (map shown facts.new.items ≡ map shown facts.old.items
        ++ filter (lacks D C kind) (flat_map (own_facts C D kind) (numbered C.plan))) }
    ensures clients { let C = mine.now in let D = theirs.now in
        IfOk result (λ set. (c : ℕ) (client : ClientValue) → slice_get C.plan.clients c ≡ Some client →
        has set c ≡ list_any (lacks D C kind) (own_facts C D kind (c, client))) }
{
    mine.map().known();
    let plan = mine.map().plan();
    let pairs = pairs_for(alloc, kind, mine, theirs)?;
    let sides = Sides {
        kind,
        mine,
        theirs,
        pairs: &pairs,
    };
    let mut owners = ClientSet::new();
    let mut place = 0;
    while let Some(client) = plan.client(place) {
        let before = facts.len();
        push_own(&sides, place, client, facts)?;
        if before < facts.len() {
            owners = owners.with(place);
        }
        place += 1;
    }
    Ok(owners)
}

/// For kinds of cells that clients reach what both sides say of each cell.
pub(crate) fn pairs_for(
    alloc: Global,
    kind: Kind,
    mine: &LeastMap<'_>,
    theirs: &LeastMap<'_>,
) -> Result<Vec<Pair>, Memory>
    ensures { IfOk result (λ pairs.
        ArePairs kind (mine.now) (theirs.now) pairs.items) }
{
    let cells = mine.map().cells();
    let plan = theirs.map().plan();
    match kind {
        Kind::May => pairs_of(alloc, kind, cells, mine.reached(), plan, theirs.reached()),
        Kind::Allowed => pairs_of(
            alloc,
            kind,
            cells,
            mine.map().allowed(),
            plan,
            theirs.map().allowed(),
        ),
        _ => Ok(Vec::new(alloc)),
    }
}

/// A kind of facts, the side that has them, the side that may lack them, and what both say of each cell.
#[derive(Clone, Copy, Drop)]
struct Sides<'a, 'b> {
    kind: Kind,
    mine: &'a LeastMap<'a>,
    theirs: &'a LeastMap<'a>,
    pairs: &'b [Pair],
}

/// Puts the facts of a kind behind others that are this client's own and that the other side lacks.
fn push_own<'a>(
    sides: &Sides<'a, '_>,
    place: u8,
    client: &'a ClientOutline<'a>,
    facts: &mut Vec<Fact<'a>>,
) -> Result<(), Memory>
    requires client { slice_get sides.now.mine.now.plan.clients place ≡ Some client.now }
    requires pairs { ArePairs sides.now.kind sides.now.mine.now sides.now.theirs.now sides.now.pairs.now }
    ensures { let C = sides.now.mine.now in let D = sides.now.theirs.now in let kind = sides.now.kind in
        OnOk result (map shown facts.new.items ≡ map shown facts.old.items
        ++ filter (lacks D C kind) (own_facts C D kind (place, client.now))) }
{
    let Sides {
        kind,
        mine,
        theirs,
        pairs,
    } = *sides;
    theirs.map().known();
    let other_plan = theirs.map().plan();
    let who = Namesakes {
        name: client.name_text(),
        plan: mine.map().plan(),
        client: place,
        other_plan,
        other: other_plan.client_named(client.name()),
    };
    match kind {
        Kind::May => push_reaches(&who, mine.map().cells(), pairs, facts),
        Kind::Allowed => push_reaches(&who, mine.map().cells(), pairs, facts),
        Kind::Right => push_rights(&who, facts),
        Kind::Client => push_client(client, client_at(other_plan, who.other), facts),
        Kind::Cell | Kind::Edge => Ok(()),
    }
}

/// The client at a place, if it is one.
fn client_at<'a>(plan: &'a Outline<'a>, place: Option<u8>) -> Option<&'a ClientOutline<'a>>
    ensures { option_map (λ client. client.now) result
        ≡ option_and_then (slice_get plan.now.clients) place }
{
    match place {
        Some(place) => plan.client(place),
        None => None,
    }
}
