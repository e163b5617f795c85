//! Sets of clients, round by round.
ghost use Rattle.std.specs.Prelude.{◌≡◌, ◌<◌, false, length, option_map, IfOk};
ghost use Rattle.label_certificate.specs.Least.{AreLinks};
ghost use Rattle.label_certificate.specs.Closing.{set_at};
ghost use Rattle.flow_edges.specs.Ends.{far_of, near_of};
ghost use Rattle.flow_ways.specs.Rounds.{FollowsRound, IsAdded, IsRound};

use cosem_data::clients::ClientSet;
use cosem_data::memory::Memory;
use flow_edges::ends::{far_of, near_of};
use flow_edges::table::Link;
use meter_theory::flow::Reach;
use std::alloc::Global;

/// The sets one round later, unless they would stay as they are: each has more the clients of every set from which a link leads
/// to it.
pub(crate) fn next_round(
    alloc: Global,
    reach: Reach,
    links: &[Link],
    sets: &[ClientSet],
) -> Result<Option<Vec<ClientSet>>, Memory>
    requires { AreLinks (length sets.now) links.now }
    ensures { IfOk result (λ next. FollowsRound reach links.now sets.now
        (option_map (λ sets. sets.items) next)) }
{
    let mut next = copy_of(alloc, sets)?;
    let grew = pass_all(reach, links, sets, &mut next);
    Ok(grew.then_some(next))
}

/// A copy of these sets.
fn copy_of(alloc: Global, sets: &[ClientSet]) -> Result<Vec<ClientSet>, Memory>
    ensures { IfOk result (λ copy. copy.items ≡ sets.now) }
{
    let mut copy = Vec::with_capacity(alloc, sets.len())?;
    copy.extend_from_slice(sets)?;
    Ok(copy)
}

/// Adds the clients along each link, and says whether any set has grown.
fn pass_all(reach: Reach, links: &[Link], sets: &[ClientSet], next: &mut [ClientSet]) -> bool
    requires links { AreLinks (length sets.now) links.now }
    requires copied { next.old ≡ sets.now }
    ensures round { IsRound reach links.now sets.now next.new }
    ensures still { result ≡ false → next.new ≡ sets.now }
{
    let mut grew = false;
    for link in links {
        let added = pass(reach, *link, sets, next);
        grew = grew || added;
    }
    grew
}

/// Adds the clients of the set from which a link leads, and says whether the set to which it leads has grown.
fn pass(reach: Reach, link: Link, sets: &[ClientSet], next: &mut [ClientSet]) -> bool
    requires near { near_of reach link < length sets.now }
    requires far { far_of reach link < length next.old }
    ensures added { IsAdded (set_at sets.now (near_of reach link)) (far_of reach link) next.old next.new }
    ensures still { result ≡ false → next.new ≡ next.old }
{
    let given = sets[near_of(reach, link)];
    let far = far_of(reach, link);
    if given.within(next[far]) {
        return false;
    }
    next[far] = next[far].union(given);
    true
}
