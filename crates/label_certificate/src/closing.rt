//! The least sets that flow along arrows.
ghost use Rattle.std.specs.Prelude.{◌≡◌, ◌≢◌, ◌<◌, ◌≤◌, ◌+◌, ◌∷◌, ℕ, List, length, true, false, OnOk};
ghost use Rattle.cosem_data.specs.declared.clients.ClientSet.{ClientSet};
ghost use Rattle.label_certificate.specs.Chains.{AreChained};
ghost use Rattle.label_certificate.specs.Closing.{AreArrows, Below, IsSub, IsClosedBut, IsClosedBy, missing, set_at};

use crate::arrows::Arrows;
use crate::chains::Chains;
use crate::waiting::Waiting;
use cosem_data::clients::ClientSet;
use cosem_data::memory::Memory;
use std::alloc::Global;

/// Gives each set the clients of each set from which there is a way to it: what comes out are the least sets above these in
/// which no client is lost along an arrow. An arrow is passed again only where its first set has grown since. The only error is
/// want of memory, and some sets may have grown then.
pub(crate) fn close(
    alloc: Global,
    arrows: &Arrows<'_>,
    sets: &mut [ClientSet],
) -> Result<(), Memory>
    requires { AreArrows (length sets.old) arrows.now }
    ensures above { OnOk result (Below sets.old sets.new) }
    ensures closed { OnOk result (IsClosedBy arrows.now sets.new) }
    ensures least { OnOk result ((f : List ClientSet)
        → IsClosedBy arrows.now f → Below sets.old f → Below sets.new f) }
{
    let chains = Chains::new(alloc, arrows, sets.len())?;
    let mut waiting = Waiting::all(alloc, sets.len())?;
    while let Some(from) = waiting.take() {
        pass_all(from, arrows, &chains, sets, &mut waiting)?;
    }
    Ok(())
}

/// Passes each arrow from a set, and lets the sets that have grown wait. The only error is want of memory.
fn pass_all(
    from: usize,
    arrows: &Arrows<'_>,
    chains: &Chains,
    sets: &mut [ClientSet],
    waiting: &mut Waiting,
) -> Result<(), Memory>
    requires from { from < length sets.old }
    requires arrows { AreArrows (length sets.old) arrows.now }
    requires chained { AreChained arrows.now chains.now.lasts.items chains.now.earlier.items }
    requires lasts { length chains.now.lasts.items ≡ length sets.old }
    requires earlier { length chains.now.earlier.items ≡ length arrows.now }
    requires bound { waiting.old.bound ≡ length sets.old }
    ensures above { OnOk result (Below sets.old sets.new) }
    ensures least { OnOk result ((f : List ClientSet)
        → IsClosedBy arrows.now f → Below sets.old f → Below sets.new f) }
    ensures passed { OnOk result (IsClosedBut (from ∷ waiting.old.waiting) arrows.now sets.old
        → IsClosedBut waiting.new.waiting arrows.now sets.new) }
    ensures less { OnOk result (missing sets.new + length waiting.new.waiting
        ≤ missing sets.old + length waiting.old.waiting) }
    ensures bound { OnOk result (waiting.new.bound ≡ waiting.old.bound) }
{
    let mut next = chains.lasts[from];
    while let Some(number) = next {
        let to = arrows.at(number).to;
        if pass(sets, from, to) {
            waiting.add(to)?;
        }
        next = chains.before(number);
    }
    Ok(())
}

/// Passes an arrow, and says whether its second set has grown.
fn pass(sets: &mut [ClientSet], from: usize, to: usize) -> bool
    requires from { from < length sets.old }
    requires to { to < length sets.old }
    ensures above { Below sets.old sets.new }
    ensures others { (k : ℕ) → k ≢ to → set_at sets.new k ≡ set_at sets.old k }
    ensures passed { IsSub (set_at sets.new from) (set_at sets.new to) }
    ensures least { (f : List ClientSet)
        → IsSub (set_at f from) (set_at f to) → Below sets.old f → Below sets.new f }
    ensures still { result ≡ false → sets.new ≡ sets.old }
    ensures grown { result ≡ true → missing sets.new < missing sets.old }
{
    let given = sets[from];
    let had = sets[to];
    if given.within(had) {
        return false;
    }
    sets[to] = had.union(given);
    true
}
