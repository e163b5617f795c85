//! What a port has taken, as parts of two ledgers, and the history as far as it knows it.
ghost use Rattle.std.specs.Prelude.{◌≡◌, ◌+◌, ◌<◌, ◌≤◌, sum_by, vec_len};
ghost use Rattle.meter_live.specs.Tally.{IsUnused};

use crate::history::Front;
use crate::names::{ChangeLedger, Naming, StepLedger};
use std::marker::Model;
use std::sync::ledger;

/// What a port has taken: its share in the ledger of steps, and in that of changes, and the beginning of the history that ends with
/// its last change. It has one part of 256 of each ledger. Contracts see the two numbers and the steps.
#[derive(Drop)]
pub struct Share<N: Naming> {
    pub(crate) steps: ledger::Share<StepLedger<N>>,
    pub(crate) changes: ledger::Share<ChangeLedger<N>>,
    pub(crate) written: Front,
}

impl<N: Naming> Model for Share<N> {
    ghost use Rattle.std.specs.Prelude.{◌≡◌};
    ghost use Rattle.meter_live.specs.Codes.{tally_code};
    ghost use Rattle.meter_live.specs.Tally.{Tally};

    ghost Value = { Tally };

    ghost coded = { tally_code };

    ghost view = { λ s. record { steps = s.steps.amount; changes = s.changes.amount; written = s.written.steps } };

    ghost invariant = { λ s. (s.steps.parts ≡ 1) × (s.changes.parts ≡ 1) × (s.written.book ≡ N.book) };
}

/// What no port has of the two ledgers: a part of each for every port that isn't opened, and no amount. Contracts see how many
/// parts these are, of 256 of each.
#[derive(Drop)]
pub(crate) struct Rest<N: Naming> {
    steps: ledger::Share<StepLedger<N>>,
    changes: ledger::Share<ChangeLedger<N>>,
}

impl<N: Naming> Model for Rest<N> {
    ghost use Rattle.std.specs.Prelude.{◌≡◌, ℕ};

    ghost Value = { ℕ };

    ghost view = { λ r. r.steps.parts };

    ghost invariant = { λ r. (r.changes.parts ≡ r.steps.parts) × (r.steps.amount ≡ 0)
        × (r.changes.amount ≡ 0) };
}

impl<N: Naming> Rest<N> {
    /// The whole of two ledgers in which nothing is counted.
    pub(crate) fn whole(
        steps: ledger::Share<StepLedger<N>>,
        changes: ledger::Share<ChangeLedger<N>>,
    ) -> Rest<N>
        requires parts { (steps.parts ≡ 256) × (changes.parts ≡ 256) }
        requires empty { (steps.amount ≡ 0) × (changes.amount ≡ 0) }
        ensures { result ≡ 256 }
    {
        Rest { steps, changes }
    }

    /// The share of a new port, which knows this beginning of the history.
    pub(crate) fn hand_out(&mut self, written: Front) -> Share<N>
        requires some { 0 < self.old }
        requires book { written.book ≡ N.book }
        ensures share { IsUnused result }
        ensures left { self.new + 1 ≡ self.old }
    {
        let Rest { steps, changes } = self;
        Share {
            steps: steps.split_off(1, 0),
            changes: changes.split_off(1, 0),
            written,
        }
    }

    /// The rest with all these shares: where they are no fewer than the ports that were opened, the whole of both ledgers.
    pub(crate) fn with(
        self,
        shares: Vec<Share<N>>,
    ) -> (ledger::Share<StepLedger<N>>, ledger::Share<ChangeLedger<N>>)
        ensures steps { result.0.amount ≡ sum_by (λ s. s.steps) shares.items }
        ensures changes { result.1.amount ≡ sum_by (λ s. s.changes) shares.items }
        ensures whole { 256 ≤ self + vec_len shares → (result.0.parts ≡ 256) × (result.1.parts ≡ 256) }
    {
        let Rest {
            mut steps,
            mut changes,
        } = self;
        gather(&mut steps, &mut changes, shares);
        (steps, changes)
    }
}

/// Merges all shares into these two.
fn gather<N: Naming>(
    steps: &mut ledger::Share<StepLedger<N>>,
    changes: &mut ledger::Share<ChangeLedger<N>>,
    mut shares: Vec<Share<N>>,
)
    ensures steps { steps.new.amount ≡ steps.old.amount + sum_by (λ s. s.steps) shares.items }
    ensures changes { changes.new.amount ≡ changes.old.amount + sum_by (λ s. s.changes) shares.items }
    ensures steps_parts { (steps.new.parts ≡ steps.old.parts + vec_len shares)
        × (steps.new.parts ≤ 256) }
    ensures changes_parts { (changes.new.parts ≡ changes.old.parts + vec_len shares)
        × (changes.new.parts ≤ 256) }
{
    while let Some(share) = shares.pop() {
        let Share {
            steps: more,
            changes: changed,
            written: _written,
        } = share;
        steps.merge(more);
        changes.merge(changed);
    }
    // That there are no more parts than the ledger has is told by a merge.
    let none = steps.empty();
    steps.merge(none);
    let none = changes.empty();
    changes.merge(none);
}
