//! A board that goes on from the steps that were kept.
ghost use Rattle.std.specs.Prelude.{◌≡◌, ◌+◌, ◌^◌, ◌≤◌, [], false, true, length, Err, IfOk, Ok, OnOk};
ghost use Rattle.meter_theory.specs.Replies.{run};
ghost use Rattle.meter_live.specs.Tally.{CountsAll, CountsOn, CountsOnly, IsUnused};
ghost use Rattle.step_keeping.specs.Keeping.{AreKept};

use crate::board::{Blanks, Board};
use crate::desk::{BoardReader, Desk};
use crate::fault::{LiveFault, PortFault, ReaderFault};
use crate::names::Naming;
use crate::share::Share;
use cosem_data::memory::Memory;
use flow_checker::check::Checked;
use meter_core::judged::Judged;
use std::alloc::Global;
use std::sync::{Mutex, Wait};
use step_keeping::keeper::{Keeps, Unkept};
use step_keeping::recalling::Recalls;

/// So many of the steps that were kept are taken before it is told of them: to tell of each would take longer than the steps do.
const TOLD_AT_ONCE: u16 = 1024;

/// Why a board doesn't go on from the steps that were kept.
#[derive(Clone, Copy, Debug)]
pub enum ResumeFault {
    /// Memory was refused.
    Memory,
    /// No step can be counted any more: 2^64 - 1 were taken.
    Full,
}

impl From<LiveFault> for ResumeFault {
    ghost use Rattle.std.specs.Prelude.{◌≡◌};
    ghost use Rattle.meter_live.specs.Keeping.{fault_again};

    ghost from_gives = { λ live fault. fault ≡ fault_again live };

    fn from(fault: LiveFault) -> ResumeFault {
        match fault {
            LiveFault::Full => ResumeFault::Full,
            // Nothing is kept while steps are taken again, so that no other is refused.
            LiveFault::Memory | LiveFault::NotKept | LiveFault::InDoubt => ResumeFault::Memory,
        }
    }
}

impl From<Memory> for ResumeFault {
    ghost use Rattle.std.specs.Prelude.{◌≡◌};
    ghost use Rattle.meter_live.specs.declared.resuming.ResumeFault.TheVariants as resumes;

    ghost from_gives = { λ _ fault. fault ≡ resumes.Memory };

    fn from(_memory: Memory) -> ResumeFault {
        ResumeFault::Memory
    }
}

impl From<PortFault> for ResumeFault {
    ghost use Rattle.std.specs.Prelude.{◌≡◌};
    ghost use Rattle.meter_live.specs.declared.resuming.ResumeFault.TheVariants.{Memory};

    ghost from_gives = { λ _ fault. fault ≡ Memory };

    fn from(_fault: PortFault) -> ResumeFault {
        ResumeFault::Memory
    }
}

impl From<ReaderFault> for ResumeFault {
    ghost use Rattle.std.specs.Prelude.{◌≡◌};
    ghost use Rattle.meter_live.specs.declared.resuming.ResumeFault.TheVariants.{Memory};

    ghost from_gives = { λ _ fault. fault ≡ Memory };

    fn from(_fault: ReaderFault) -> ResumeFault {
        ResumeFault::Memory
    }
}

impl<N: Naming, W: Wait + Drop, K: Keeps + Drop> Board<N, W, K> {
    /// Opens a board of a meter that takes the steps which were kept, and has each further one kept behind them. The share counts the
    /// steps that were kept: the board is closed with it.
    ///
    /// # Errors
    /// So many steps can't be counted, or memory was refused.
    pub fn resume<R: Wait, P: Recalls + Drop>(
        waits: &R,
        rt: W,
        alloc: Global,
        checked: Checked,
        mut past: P,
        keeper: K,
        blanks: Blanks,
    ) -> Result<(Board<N, W, K>, Share<N>), ResumeFault>
        requires plan { checked ≡ N.accepted }
        requires book { blanks.history ≡ N.book }
        requires steps { blanks.steps.name ≡ N.steps }
        requires changes { blanks.changes.name ≡ N.changes }
        requires kept { AreKept (K.kept N.accepted.plan keeper) (P.left past) }
        ensures share { IfOk result (λ r. CountsOnly N.accepted.plan (P.left past) r.1) }
        ensures full { result ≡ Err ResumeFault.Full → 2 ^ 64 ≤ length (P.left past) }
    {
        let mut desk = Desk::open(rt, alloc, &checked, Unkept, blanks)?;
        let share = desk.restore(waits, alloc, &mut past)?;
        Ok((Board::of(desk.kept_by(keeper), checked), share))
    }
}

impl<N: Naming, W: Wait + Drop> Desk<N, W, Unkept> {
    /// Takes the steps that were kept, in their order, at a port of its own, and publishes them. The share counts them.
    fn restore<R: Wait, P: Recalls>(
        &mut self,
        rt: &R,
        alloc: Global,
        past: &mut P,
    ) -> Result<Share<N>, ResumeFault>
        ensures state { OnOk result (self.new.live.meter.state
            ≡ run N.accepted.plan self.old.live.meter.state (P.left past.old)) }
        ensures share { IfOk result (λ share. CountsOnly N.accepted.plan (P.left past.old) share) }
        ensures full { result ≡ Err ResumeFault.Full
            → 2 ^ 64 ≤ self.old.live.meter.count + length (P.left past.old) }
    {
        let (port, mut share) = self.open_port()?;
        let mut reader = self.give_reader(port)?;
        self.take_all(rt, alloc, port, &mut share, &mut reader, past)?;
        Ok(share)
    }

    /// Takes all steps that were kept at a port, and tells of them.
    fn take_all<R: Wait, P: Recalls>(
        &mut self,
        rt: &R,
        alloc: Global,
        port: u8,
        share: &mut Share<N>,
        reader: &mut BoardReader<N>,
        past: &mut P,
    ) -> Result<(), ResumeFault>
        ensures state { OnOk result (self.new.live.meter.state
            ≡ run N.accepted.plan self.old.live.meter.state (P.left past.old)) }
        ensures share { OnOk result (CountsAll N.accepted.plan share.old (P.left past.old) share.new) }
        ensures full { result ≡ Err ResumeFault.Full
            → 2 ^ 64 ≤ self.old.live.meter.count + length (P.left past.old) }
    {
        let mut untold = 0u16;
        while self.take_next(alloc, port, share, past)? {
            untold += 1;
            if untold == TOLD_AT_ONCE {
                untold = 0;
                self.tell(rt, share, reader)?;
            }
        }
        self.tell(rt, share, reader)?;
        Ok(())
    }

    /// Takes the next step that was kept at a port, and says whether there was one.
    fn take_next<P: Recalls>(
        &mut self,
        alloc: Global,
        port: u8,
        share: &mut Share<N>,
        past: &mut P,
    ) -> Result<bool, ResumeFault>
        ensures same { OnOk result (run N.accepted.plan self.new.live.meter.state (P.left past.new)
            ≡ run N.accepted.plan self.old.live.meter.state (P.left past.old)) }
        ensures share { OnOk result (CountsOn N.accepted.plan share.old (P.left past.old) share.new (P.left past.new)) }
        ensures count { OnOk result (self.new.live.meter.count + length (P.left past.new)
            ≡ self.old.live.meter.count + length (P.left past.old)) }
        ensures full { result ≡ Err ResumeFault.Full
            → 2 ^ 64 ≤ self.old.live.meter.count + length (P.left past.old) }
        ensures next { result ≡ Ok true → length (P.left past.old) ≡ length (P.left past.new) + 1 }
        ensures end { result ≡ Ok false → (P.left past.old ≡ []) × (P.left past.new ≡ []) }
    {
        let Some(step) = past.recall() else {
            return Ok(false);
        };
        let judged = Judged::by(self.plan(), step);
        drop(self.act(alloc, port, share, judged)?);
        Ok(true)
    }
}
