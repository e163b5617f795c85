//! A live meter that many threads use.
ghost use Rattle.std.specs.Prelude.{◌≡◌, ◌<◌, [], true, IfOk, IfErr, OnOk, OnErr, ◌+◌, sum_by, vec_len};
ghost use Rattle.std.specs.Coded.{codes};
ghost use Rattle.std.specs.Int.NonZero.{non_zero_u16_get};
ghost use mathlib.Core.List.{IsPrefix};
ghost use Rattle.logbook.specs.Pages.{book_coded};
ghost use Rattle.meter_core.specs.Judging.{IsJudged};
ghost use Rattle.meter_core.specs.StepView.{reply_of, step_of};
ghost use Rattle.meter_theory.specs.States.{IsState};
ghost use Rattle.meter_live.specs.Changes.{Answers};
ghost use Rattle.meter_live.specs.Codes.{step_code};
ghost use Rattle.meter_live.specs.Tally.{Counts, HasSeen, IsUnused};
ghost use Rattle.meter_live.specs.Told.{IsToldOf};
ghost use Rattle.step_keeping.specs.Keeping.{KeepsNone};

use crate::desk::{BoardReader, Desk};
use crate::fault::{LiveFault, PortFault, ReaderFault};
use crate::history::{Front, History};
use crate::names::Naming;
use crate::share::Share;
use cosem_data::memory::Memory;
use flow_checker::check::Checked;
use meter_core::judged::Judged;
use meter_core::reply::Reply;
use meter_core::step::Step;
use object_model::meter::Meter;
use object_model::plan::Plan;
use std::alloc::Global;
use std::marker::Model;
use std::num::NonZeroU16;
use std::sync::ledger::Blank;
use std::sync::{Mutex, MutexGuard, Wait};
use step_keeping::keeper::Keeps;

/// A board has at most so many ports, numbered from 0, each with a reader (own profile).
pub const PORTS: u16 = 256;

/// What a board is opened with: an empty history, and two ledgers of a part for each port, by which its types name it; and for how
/// many readers at once it has room.
#[derive(Drop)]
pub struct Blanks {
    pub history: History,
    pub written: Front,
    pub steps: Blank,
    pub changes: Blank,
    /// Each publication looks at the place of each of them. A port that finds none free gets no reader.
    pub readers: NonZeroU16,
    pub ghost empty: { (written.book ≡ history) × (written.steps ≡ []) } by { Prim.hlevel (codes, step_code, book_coded) },
    pub ghost parts: { (steps.parts ≡ 256) × (changes.parts ≡ 256) },
}

impl Blanks {
    /// What one board is opened with that has room for a reader of each port. It takes no memory.
    pub fn new() -> Blanks
        ensures { non_zero_u16_get result.readers ≡ 256 }
    {
        Blanks::for_readers(NonZeroU16::MIN.saturating_add(PORTS - 1))
    }

    /// What one board is opened with that has room for so many readers at once. It takes no memory.
    pub fn for_readers(readers: NonZeroU16) -> Blanks
        ensures { result.readers ≡ readers }
    {
        let (history, written) = History::open();
        Blanks {
            history,
            written,
            steps: Blank::new(256),
            changes: Blank::new(256),
            readers,
        }
    }
}

/// A live meter under a lock, with its plan beside the lock. Contracts see what was accepted.
#[derive(Drop)]
pub struct Board<N: Naming, W: Wait + Drop, K: Keeps + Drop> {
    desk: Mutex<Desk<N, W, K>>,
    checked: Checked,
}

impl<N: Naming, W: Wait + Drop, K: Keeps + Drop> Model for Board<N, W, K> {
    ghost use Rattle.std.specs.Prelude.{◌≡◌};
    ghost use Rattle.std.specs.Coded.{codes};
    ghost use Rattle.flow_checker.specs.Accepted.{Accepted};
    ghost use Rattle.meter_theory.specs.PlanCode.{plan_code};

    ghost Value = { Accepted };

    ghost coded = { Prim.hlevel (codes, plan_code) };

    ghost view = { λ b. b.checked };

    ghost invariant = { λ b. b.checked ≡ N.accepted };
}

/// What a thread asks by. It borrows the board, so that none outlives it.
#[derive(Drop)]
pub struct Port<'b, N: Naming, W: Wait + Drop, K: Keeps + Drop> {
    board: &'b Board<N, W, K>,
    number: u8,
}

/// What is left of a board that was closed.
#[derive(Drop)]
pub struct Closed {
    /// What was accepted.
    pub plan: Checked,
    /// The meter, which is of the plan.
    pub meter: Meter,
    /// How many steps were taken.
    pub count: u64,
    /// How many of them may have changed the meter.
    pub changes: u64,
}

/// A board that wasn't closed, since there were fewer shares than opened ports. Both are handed back. Contracts see the shares, how
/// many ports were opened, and how many could still be opened.
#[derive(Drop)]
pub struct NotAll<N: Naming, W: Wait + Drop, K: Keeps + Drop> {
    desk: Desk<N, W, K>,
    checked: Checked,
    shares: Vec<Share<N>>,
}

impl<N: Naming, W: Wait + Drop, K: Keeps + Drop> Model for NotAll<N, W, K> {
    ghost use Rattle.std.specs.Prelude.{◌≡◌, ◌<◌, vec_len};
    ghost use Rattle.std.specs.Coded.{codes};
    ghost use Rattle.meter_live.specs.Codes.{tally_code};
    ghost use Rattle.meter_live.specs.Tally.{Unclosed};

    ghost Value = { Unclosed };

    ghost coded = { Prim.hlevel (codes, tally_code) };

    ghost view = { λ n. record { shares = n.shares.items; opened = n.desk.opened; left = n.desk.left } };

    ghost invariant = { λ n. (n.checked ≡ N.accepted) × (vec_len n.shares < n.desk.opened) };
}

impl<N: Naming, W: Wait + Drop, K: Keeps + Drop> NotAll<N, W, K> {
    /// How many ports were opened.
    pub fn opened(&self) -> usize
        ensures { result ≡ self.now.opened }
    {
        self.desk.opened()
    }

    /// The board, which isn't closed, and the shares that were given.
    pub fn into_parts(self) -> (Board<N, W, K>, Vec<Share<N>>)
        ensures { result.1.items ≡ self.shares }
    {
        let NotAll {
            desk,
            checked,
            shares,
        } = self;
        (Board::of(desk, checked), shares)
    }
}

impl<N: Naming, W: Wait + Drop, K: Keeps + Drop> Board<N, W, K> {
    /// Opens a board of a meter that no step has reached, of which nothing is kept yet. Where memory is refused, what was accepted is
    /// given back.
    pub fn open(
        rt: W,
        alloc: Global,
        checked: Checked,
        keeper: K,
        blanks: Blanks,
    ) -> Result<Board<N, W, K>, Checked>
        requires plan { checked ≡ N.accepted }
        requires book { blanks.history ≡ N.book }
        requires steps { blanks.steps.name ≡ N.steps }
        requires changes { blanks.changes.name ≡ N.changes }
        requires unkept { KeepsNone (K.kept checked.plan keeper) }
        ensures err { IfErr result (λ given. given ≡ checked) }
    {
        match Desk::open(rt, alloc, &checked, keeper, blanks) {
            Ok(desk) => Ok(Board::of(desk, checked)),
            Err(Memory) => Err(checked),
        }
    }

    /// A board of this desk, with what was accepted beside the lock.
    pub(crate) fn of(desk: Desk<N, W, K>, checked: Checked) -> Self
        requires { checked ≡ N.accepted }
    {
        Board {
            desk: Mutex::new(desk),
            checked,
        }
    }

    /// The plan, without the lock.
    pub fn plan(&self) -> &Plan
        ensures { result.now ≡ N.accepted.plan }
    {
        self.checked.plan()
    }

    /// What was accepted, without the lock.
    pub fn checked(&self) -> &Checked
        ensures { result.now ≡ N.accepted }
    {
        &self.checked
    }

    /// Holds the lock, to look at the meter with its trail: until the guard is let go no step is taken. Readers go on.
    pub fn lock<R: Wait>(&self, rt: &R) -> MutexGuard<'_, Desk<N, W, K>> {
        self.desk.lock(rt)
    }

    /// A new port, and the share that counts what it takes.
    pub fn port<R: Wait>(&self, rt: &R) -> Result<(Port<'_, N, W, K>, Share<N>), PortFault>
        ensures { IfOk result (λ r. IsUnused r.1) }
    {
        let (number, share) = self.desk.lock(rt).open_port()?;
        Ok((
            Port {
                board: self,
                number,
            },
            share,
        ))
    }

    /// Closes the board, once the shares of all opened ports are back: the numbers of steps and changes are their sums. It waits
    /// for the readers. The only error is that there are fewer shares than ports that were opened.
    pub fn close<R: Wait>(self, rt: &R, shares: Vec<Share<N>>) -> Result<Closed, NotAll<N, W, K>>
        ensures count { IfOk result (λ c. c.count ≡ sum_by (λ s. s.steps) shares.items) }
        ensures changes { IfOk result (λ c. c.changes ≡ sum_by (λ s. s.changes) shares.items) }
        ensures plan { IfOk result (λ c. c.plan ≡ N.accepted) }
        ensures meter { IfOk result (λ c. IsState N.accepted.plan c.meter) }
        ensures fewer { IfErr result (λ n. (n.shares ≡ shares.items) × (vec_len shares < n.opened)) }
        // By the books, in which each of 256 ports was opened or has its part left.
        ensures books { IfErr result (λ n. n.opened + n.left ≡ 256) }
    {
        let Board { desk, checked } = self;
        let desk = desk.into_inner();
        if shares.len() < desk.opened() {
            return Err(NotAll {
                desk,
                checked,
                shares,
            });
        }
        let (plan, meter, count, changes) = desk.settle(rt, shares);
        Ok(Closed {
            plan,
            meter,
            count,
            changes,
        })
    }

    /// Ends a board that isn't closed, after waiting for the readers.
    pub fn end<R: Wait>(self, rt: &R) {
        let Board {
            desk,
            checked: _checked,
        } = self;
        desk.into_inner().end(rt);
    }
}

impl<'b, N: Naming, W: Wait + Drop, K: Keeps + Drop> Port<'b, N, W, K> {
    /// The plan, without the lock.
    pub fn plan(&self) -> &'b Plan
        ensures { result.now ≡ N.accepted.plan }
    {
        self.board.plan()
    }

    /// The reader of this port, which has seen what is published. A port gives one.
    pub fn reader<R: Wait>(&self, rt: &R) -> Result<BoardReader<N>, ReaderFault> {
        self.board.lock(rt).give_reader(self.number)
    }

    /// A step, judged by the plan before the lock is held.
    fn judged(&self, step: Step) -> Judged
        ensures step { result.step ≡ step }
        ensures judged { IsJudged N.accepted.plan result }
    {
        Judged::by(self.plan(), step)
    }

    /// One step under the lock, which the share counts; one that may change the meter is the last step of the history then.
    /// Where it is refused, nothing changes.
    pub fn act<R: Wait>(
        &self,
        rt: &R,
        alloc: Global,
        share: &mut Share<N>,
        step: Step,
    ) -> Result<Reply, LiveFault>
        ensures reply { IfOk result (λ reply. Answers N.accepted.plan (step_of step) (reply_of reply)) }
        ensures share { OnOk result (Counts N.accepted.plan share.old (step_of step) share.new) }
        ensures err { OnErr result (share.new ≡ share.old) }
    {
        let judged = self.judged(step);
        self.board.lock(rt).act(alloc, self.number, share, judged)
    }

    /// One step and its telling, under one lock. With true the reader has seen it, and all steps before it; with false its telling
    /// was refused for memory, and the reader is as it was. Where the step is refused, nothing changes.
    pub fn put<R: Wait>(
        &self,
        rt: &R,
        alloc: Global,
        share: &mut Share<N>,
        reader: &mut BoardReader<N>,
        step: Step,
    ) -> Result<(Reply, bool), LiveFault>
        ensures reply { IfOk result (λ r. Answers N.accepted.plan (step_of step) (reply_of r.0)) }
        ensures share { OnOk result (Counts N.accepted.plan share.old (step_of step) share.new) }
        ensures told { IfOk result
            (λ r. IsToldOf N.accepted.plan (step_of step) r.1 reader.old reader.new) }
        // The reader has seen as many changes as the share counts, or more.
        ensures seen { IfOk result (λ r. r.1 ≡ true → HasSeen share.new reader.new) }
        ensures err { OnErr result ((share.new ≡ share.old) × (reader.new ≡ reader.old)) }
    {
        let judged = self.judged(step);
        self.board
            .lock(rt)
            .put(rt, alloc, self.number, share, reader, judged)
    }

    /// Publishes all pending steps in order, and tells the reader, which has then seen as many changes as the share of this
    /// port counts, or more. The share is lent to compare it with the books, and stays. Where memory is refused, the reader is
    /// as it was.
    pub fn tell<R: Wait>(
        &self,
        rt: &R,
        share: &mut Share<N>,
        reader: &mut BoardReader<N>,
    ) -> Result<(), Memory>
        ensures later { IsPrefix reader.old reader.new }
        ensures seen { OnOk result (HasSeen share.old reader.new) }
        ensures share { share.new ≡ share.old }
        ensures err { OnErr result (reader.new ≡ reader.old) }
    {
        self.board.lock(rt).tell(rt, share, reader)
    }
}
