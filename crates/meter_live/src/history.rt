//! The one history of the steps that may have changed a meter. It exists in proofs alone: in memory it is the number of its steps.
ghost use Rattle.std.specs.Prelude.{◌≡◌, ◌++◌, ◌∷◌, [], length, IsTrue};
ghost use Rattle.meter_live.specs.Marks.{LieOnOne};

use crate::change::Change;
use logbook::{Gain, Offer, Plain, Play, Rule, Seen, Start, Word};
use std::marker::Model;

/// The rule of the history: its word is the number of its steps.
pub(crate) struct Law;

impl Rule<Change, u64> for Law {
    ghost use Rattle.std.specs.Prelude.{[]};
    ghost use base.Fml.{ftrue};
    ghost use Rattle.meter_live.specs.Marks.{IsCounted};

    ghost holds = { λ cells log. IsCounted cells log };

    ghost first = { [] };

    ghost hinted = { λ n log. Unit {0} };

    ghost shows = { λ log. [] };

    ghost keeps = { λ names log. ftrue };

    ghost moves = { λ ask before after answer. Unit {0} };
}

/// Who adds a step trades nothing for it.
pub(crate) struct Nothing;

impl Gain<Change, u64> for Nothing {
    ghost use base.Fml.{ftrue};

    ghost after = { λ names about answer. ftrue };
}

/// A step is added.
pub(crate) struct Add;

impl Play<Change, u64> for Add {
    ghost use Rattle.meter_live.specs.Marks.{Adds};

    ghost then = { Adds };
}

impl Plain<Change, Change, u64> for Add {
    ghost use Rattle.std.specs.Prelude.{None};

    ghost ask = { λ change. change };

    ghost state = { λ _. None };
}

/// The number of steps of the one history. Contracts see which history it is.
#[derive(Drop)]
pub struct History {
    head: Word<Change, u64, Law>,
}

impl Model for History {
    ghost use Rattle.std.specs.Prelude.{◌≡◌};
    ghost use Rattle.logbook.specs.Pages.{Book};
    ghost use Rattle.meter_live.specs.Marks.{head_of};

    ghost Value = { Book };

    ghost view = { λ h. h.head.book };

    ghost invariant = { λ h. h.head ≡ head_of h.head.book };
}

/// A beginning of the history. Contracts see which history it is, and the steps.
#[derive(Drop)]
pub struct Front {
    count: u64,
    seen: Seen<Change, u64, Law>,
}

impl Model for Front {
    ghost use Rattle.std.specs.Prelude.{◌≡◌, length};
    ghost use Rattle.meter_live.specs.Codes.{mark_code};
    ghost use Rattle.meter_live.specs.Marks.{Mark};

    ghost Value = { Mark };

    ghost coded = { mark_code };

    ghost view = { λ f. record { book = f.seen.book; steps = f.seen.log } };

    ghost invariant = { λ f. f.count ≡ length f.seen.log };
}

impl History {
    /// An empty history, and its beginning.
    pub fn open() -> (History, Front)
        ensures { (result.1.book ≡ result.0) × (result.1.steps ≡ []) }
    {
        let (seen, mut first, _second) = Seen::open(Start::alone(), 0, 0);
        let head = Word::tracked(0, &mut first);
        (History { head }, Front { count: 0, seen })
    }
}

impl Front {
    /// The same beginning.
    pub fn again(&self) -> Front
        ensures { result ≡ self.now }
    {
        Front {
            count: self.count,
            seen: self.seen.again(),
        }
    }

    /// Whether another beginning has as many steps: then it has the same.
    pub fn equals(&self, other: &Front) -> bool
        requires { other.now.book ≡ self.now.book }
        ensures { IsTrue result → self.now.steps ≡ other.now.steps }
    {
        let mut both = self.seen.again();
        both.learn(&other.seen);
        if self.count == other.count {
            return true;
        }
        false
    }

    /// Two beginnings of the history are beginnings of one list. It does nothing when it runs.
    pub fn beside(&self, other: &Front)
        requires { other.now.book ≡ self.now.book }
        ensures { LieOnOne self.now.steps other.now.steps }
    {
        let mut both = self.seen.again();
        both.learn(&other.seen);
    }

    /// Adds a step to those of this beginning, where the history has no others, and says whether it did.
    pub fn add(&mut self, history: &History, change: &Change) -> bool
        requires { history.now ≡ self.old.book }
        ensures book { self.new.book ≡ self.old.book }
        ensures added { IsTrue result → self.new.steps ≡ self.old.steps ++ change.now ∷ [] }
    {
        let count = self.count;
        if count == u64::MAX {
            return false;
        }
        let mut offer: Offer<Change, u64, Law, Nothing> = self
            .seen
            .plain::<Nothing, Change, Add>(change);
        let mut pen = self.seen.no_pen();
        let found = history
            .head
            .compare_exchange::<Add, Nothing>(
                count,
                count + 1,
                &mut self.seen,
                &mut offer,
                &mut pen,
            );
        self.count = if found == count { count + 1 } else { found };
        found == count
    }
}
