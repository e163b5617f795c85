//! What proofs name a board by. No value of it is made.
ghost use Rattle.std.specs.Prelude.{ℕ};
ghost use Rattle.flow_checker.specs.Accepted.{Accepted};
ghost use Rattle.logbook.specs.Pages.{Book};
ghost use Rattle.meter_live.specs.Marks.{empty_accepted, empty_book};

use std::marker::{Brand, PhantomData};
use std::sync::ledger::Ledger;

/// Which accepted plan a board serves, which history its readers read, and by which ledgers it counts steps and changes: each
/// program picks them where it opens the board.
pub trait Naming {
    ghost accepted: { Accepted };

    ghost book: { Book };

    ghost steps: { ℕ };

    ghost changes: { ℕ };
}

impl Naming for Brand {
    ghost accepted = { empty_accepted };

    ghost book = { empty_book };

    ghost steps = { 0 };

    ghost changes = { 0 };
}

/// The ledger by which a board counts steps: it has a part for each of 256 ports.
pub struct StepLedger<N: Naming>(PhantomData<N>);

impl<N: Naming> Ledger for StepLedger<N> {
    ghost name = { N.steps };

    ghost parts = { 256 };
}

/// The ledger by which a board counts changes: it has a part for each of 256 ports.
pub struct ChangeLedger<N: Naming>(PhantomData<N>);

impl<N: Naming> Ledger for ChangeLedger<N> {
    ghost name = { N.changes };

    ghost parts = { 256 };
}
