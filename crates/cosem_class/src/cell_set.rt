ghost use Rattle.std.specs.Prelude.{◌≡◌, ℕ, ◌<◌, ◌||◌, ◌==◌, false};
ghost use Rattle.cosem_class.specs.CellSets.{has};

use std::marker::Model;

/// A set of attribute indexes from 0 to 15, as large as any class here needs (own profile).
#[derive(Clone, Copy, Debug, PartialEq, Eq)]
pub struct CellSet {
    mask: u16,
}

impl Model for CellSet {
    ghost use Rattle.std.specs.Prelude.{ℕ, ◌<◌, ◌^◌};

    ghost Value = { ℕ };

    ghost view = { λ a. a.mask };

    ghost invariant = { λ a. a.mask < 2 ^ 16 };

    ghost inverse = { λ n. record { mask = n } };
}

impl CellSet {
    /// The set with no member.
    pub const fn empty() -> CellSet
        ensures { (i : ℕ) → has result i ≡ false }
    {
        CellSet { mask: 0 }
    }

    /// The set with one more member, an index below 16.
    pub fn with(self, cell: u8) -> CellSet
        requires { cell < 16 }
        ensures { (i : ℕ) → has result i ≡ (i == cell || has self i) }
    {
        CellSet {
            mask: self.mask | (1 << cell),
        }
    }

    /// The members of both sets.
    pub fn union(self, other: CellSet) -> CellSet
        ensures { (i : ℕ) → has result i ≡ (has self i || has other i) }
    {
        CellSet {
            mask: self.mask | other.mask,
        }
    }

    /// Whether the index is a member. An index past 15 is none.
    pub fn has(self, cell: u8) -> bool
        ensures { result ≡ has self cell }
    {
        let mask = self.mask;
        cell < 16 && (mask >> cell) & 1 == 1
    }
}
