//! The rule of the published copies: what readers and writer know of them.
ghost use Rattle.std.specs.Prelude.{◌≡◌};
ghost use Rattle.meter_live.specs.Copies.{Keeps, Sees, named, unknown};

use crate::history::Front;
use crate::shown::Shown;
use atomic_table::{Join, Split};
use crossbeam_utils::rule::{Outcome, Protocol};
use object_model::plan::Plan;

/// What one knows of the copies: nothing yet, or their plan and a beginning of their history. No value of it is made.
pub(crate) struct Names {
    pub known: bool,
    pub plan: Plan,
    pub front: Front,
}

/// The rule of the published copies.
pub(crate) struct Published;

impl Protocol<Shown, Names> for Published {
    ghost holds = { λ x views. Keeps x.accepted.plan x.state x.front views };

    ghost first = { unknown };
}

/// A reader enters a copy.
pub(crate) struct Enters;

impl Outcome<Shown, Names> for Enters {
    ghost then = { λ v x y w. Sees x.accepted.plan x.state x.front v w };
}

/// The writer publishes, and knows what it published.
pub(crate) struct Sends;

impl Outcome<Shown, Names> for Sends {
    ghost then = { λ v x y w. w ≡ named y.accepted.plan y.front };
}

/// The writer hands out what it knows.
pub(crate) struct Hands;

impl Split<Names> for Hands {
    ghost left = { λ v. v };

    ghost right = { λ v. v };
}

/// A new reader takes what was handed out.
pub(crate) struct Takes;

impl Join<Names> for Takes {
    ghost both = { λ v w. w };

    ghost spent = { unknown };
}
