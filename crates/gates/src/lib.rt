//! Gates: what stands before and behind each piece of work of a seat (own profile). Whoever has the work done can hold a seat at one, or
//! have it give up.
#![tactic(auto)]

ghost use Rattle.std.specs.Prelude.{◌≡◌};

/// Whether a seat goes on.
#[derive(Clone, Copy, Debug, PartialEq, Eq, Drop)]
pub enum Go {
    /// It does.
    On,
    /// It begins no further work.
    GaveUp,
}

/// What stands before and behind each piece of work of a seat. A gate that threads share is `Sync`.
pub trait Gate {
    ghost use Rattle.std.specs.Prelude.{◌≡◌, ℕ};

    /// At which seats it may have the seat give up.
    ghost may_give_up: { Self → ℕ → Type 0 } = { λ _ _. Unit {0} };

    /// Asked before the work of this seat: it may hold it, or have it give up.
    fn before(&self, seat: usize) -> Go
        ensures { result ≡ Go.GaveUp → may_give_up self.now seat };

    /// Told once the work of this seat is done.
    fn after(&self, seat: usize);
}

/// A gate that always stands open.
#[derive(Clone, Copy, Debug, Drop)]
pub struct Open;

impl Gate for Open {
    ghost may_give_up = { λ _ _. ⊥ };

    fn before(&self, _seat: usize) -> Go {
        Go::On
    }

    fn after(&self, _seat: usize) {}
}
