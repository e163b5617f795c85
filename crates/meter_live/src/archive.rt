//! Where the steps of a live meter are written: kept by a keeper, and in the history.
ghost use Rattle.std.specs.Prelude.{◌≡◌, cond, false, Err, OnErr, OnOk};
ghost use Rattle.std.specs.Coded.{codes};
ghost use Rattle.logbook.specs.Pages.{book_coded};
ghost use Rattle.meter_core.specs.StepView.{step_of};
ghost use Rattle.meter_live.specs.Codes.{step_code};
ghost use Rattle.meter_live.specs.Keeping.{kept_by};
ghost use Rattle.meter_live.specs.Marks.{longer};
ghost use Rattle.step_keeping.specs.Keeping.{StillKept};

use crate::change::Change;
use crate::fault::LiveFault;
use crate::history::{Front, History};
use meter_core::reply::Reply;
use object_model::plan::Plan;
use std::alloc::Global;
use step_keeping::keeper::Keeps;

/// Where the steps that may have changed a meter are written: what keeps them, and the history with all of it.
#[derive(Drop)]
pub(crate) struct Archive<K: Keeps + Drop> {
    pub(crate) keeper: K,
    pub(crate) history: History,
    pub(crate) written: Front,
    pub(crate) ghost book: { written.book ≡ history } by { Prim.hlevel (codes, step_code, book_coded) },
}

/// A step that was taken: by which port, and what was answered.
#[derive(Clone, Copy)]
pub(crate) struct Answered<'a> {
    pub(crate) port: u8,
    pub(crate) change: &'a Change,
    pub(crate) reply: &'a Reply,
}

impl<K: Keeps + Drop> Archive<K> {
    /// Keeps a step, unless the meter stays as it was, and writes it into the history. Where it isn't kept, or the history has others,
    /// it isn't written.
    pub(crate) fn put(
        &mut self,
        alloc: Global,
        plan: &Plan,
        is_same: bool,
        answered: Answered<'_>,
    ) -> Result<(), LiveFault>
        ensures written { OnOk result (self.new.written ≡ longer self.old.written answered.entry.change.now) }
        ensures kept { OnOk result (K.kept plan.now self.new.keeper
            ≡ kept_by is_same (K.kept plan.now self.old.keeper) answered.entry.change.now) }
        ensures err { OnErr result ((self.new.written ≡ self.old.written)
            × StillKept (K.kept plan.now self.old.keeper) (K.kept plan.now self.new.keeper)) }
        ensures counted { result ≡ Err LiveFault.Full → ⊥ }
    {
        if !is_same {
            self.keep(alloc, plan, answered)?;
        }
        if self.write(answered.change) {
            return Ok(());
        }
        // What is kept has a step that the history hasn't.
        self.keeper.shut();
        Err(LiveFault::InDoubt)
    }

    /// Keeps a step.
    fn keep(&mut self, alloc: Global, plan: &Plan, answered: Answered<'_>) -> Result<(), LiveFault>
        ensures written { self.new.written ≡ self.old.written }
        ensures history { self.new.history ≡ self.old.history }
        ensures kept { OnOk result (K.kept plan.now self.new.keeper
            ≡ kept_by false (K.kept plan.now self.old.keeper) answered.entry.change.now) }
        ensures err { OnErr result (StillKept (K.kept plan.now self.old.keeper) (K.kept plan.now self.new.keeper)) }
        ensures counted { result ≡ Err LiveFault.Full → ⊥ }
    {
        let Answered {
            port,
            change,
            reply,
        } = answered;
        match self.keeper.keep(alloc, plan, port, change.step(), reply) {
            Ok(()) => Ok(()),
            Err(fault) => Err(LiveFault::from(fault)),
        }
    }

    /// Writes a step into the history, behind a beginning of it, and says whether the history had no others there.
    fn write(&mut self, change: &Change) -> bool
        ensures written { self.new.written ≡ cond result (longer self.old.written change.now) self.old.written }
        ensures keeper { self.new.keeper ≡ self.old.keeper }
    {
        let mut front = self.written.again();
        if !front.add(&self.history, change) {
            return false;
        }
        self.written = front;
        true
    }
}
