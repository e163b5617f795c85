//! A live meter: its steps are taken one after another, and published to readers.
ghost use Rattle.std.specs.Prelude.{◌≡◌, ◌-◌, ◌^◌, ◌<◌, ◌↔◌, ◌⊎◌, ◌++◌, [], IfOk, IfErr, IfSome, None, Err, OnOk, OnErr};
ghost use mathlib.Core.List.{IsPrefix};
ghost use Rattle.meter_core.specs.Judging.{IsJudged};
ghost use Rattle.meter_core.specs.StepView.{reply_of, step_of};
ghost use Rattle.meter_theory.specs.States.{IsState};
ghost use Rattle.meter_live.specs.Marks.{LieOnOne};
ghost use Rattle.meter_live.specs.Outgoing.{ShowsSame};
ghost use Rattle.step_keeping.specs.Keeping.{IsKept, KeepsNone};

use crate::archive::Archive;
use crate::change::Change;
use crate::fault::LiveFault;
use crate::history::{Front, History};
use crate::outbox::Outbox;
use crate::reader::Reader;
use crate::traced::TracedMeter;
use cosem_data::memory::Memory;
use flow_checker::check::Checked;
use meter_core::judged::Judged;
use meter_core::reply::Reply;
use object_model::meter::Meter;
use object_model::plan::Plan;
use std::alloc::Global;
use std::marker::Model;
use std::sync::Wait;
use step_keeping::keeper::{Keeps, Unkept};

/// A meter of an accepted plan, which takes steps, has those kept that change it, and publishes those that may have changed it. Its state
/// is the run of the steps that are kept, where these are known. It can't be dropped: it ends by [`Live::end`], which waits for the
/// readers.
pub struct Live<K: Keeps + Drop> {
    meter: TracedMeter,
    outbox: Outbox,
    archive: Archive<K>,
}

impl<K: Keeps + Drop> Model for Live<K> {
    ghost use Rattle.std.specs.Prelude.{◌≡◌};
    ghost use Rattle.std.specs.Coded.{codes};
    ghost use Rattle.logbook.specs.Pages.{book_coded};
    ghost use Rattle.meter_theory.specs.PlanCode.{plan_code, state_code};
    ghost use Rattle.meter_live.specs.Codes.{step_code, taken_code};
    ghost use Rattle.meter_live.specs.Told.{Told, IsTold, told_by, written_of};
    ghost use Rattle.step_keeping.specs.Keeping.{IsKept};

    ghost Value = { Told };

    ghost coded = { Prim.hlevel (codes, plan_code, state_code, book_coded, step_code, taken_code) };

    ghost view = { λ l. told_by l.meter l.outbox };

    ghost invariant = { λ l. IsTold l.outbox.plan (told_by l.meter l.outbox)
        × (l.archive.written ≡ written_of (told_by l.meter l.outbox))
        × IsKept l.meter.accepted.plan (K.kept l.meter.accepted.plan l.archive.keeper) l.meter.state };
}

impl<K: Keeps + Drop> Live<K> {
    ghost use Rattle.meter_live.specs.Trail.{IsTraced, reply_now, unstepped};
    ghost use Rattle.meter_live.specs.Told.{Told, IsPublished, acted, posted, written_of};

    /// A meter that no step has reached, of which nothing is kept yet, with room for so many readers at once. Where memory is refused,
    /// what was accepted is given back.
    pub fn new<R: Wait>(
        rt: &R,
        alloc: Global,
        checked: Checked,
        keeper: K,
        readers: usize,
    ) -> Result<Live<K>, Checked>
        requires readers { (0 < readers) × (readers < 2 ^ 32) }
        requires unkept { KeepsNone (K.kept checked.plan keeper) }
        ensures ok { IfOk result (λ l. (l.meter ≡ unstepped checked) × (l.published ≡ [])
            × (l.pending ≡ [])) }
        ensures err { IfErr result (λ given. given ≡ checked) }
    {
        let (history, written) = History::open();
        let archive = Archive {
            keeper,
            history,
            written,
        };
        Live::of(rt, alloc, checked, archive, readers)
    }

    /// A meter that no step has reached, whose published steps will be this history.
    pub(crate) fn of<R: Wait>(
        rt: &R,
        alloc: Global,
        checked: Checked,
        archive: Archive<K>,
        readers: usize,
    ) -> Result<Live<K>, Checked>
        requires readers { (0 < readers) × (readers < 2 ^ 32) }
        requires empty { archive.written.steps ≡ [] }
        requires unkept { KeepsNone (K.kept checked.plan archive.keeper) }
        ensures ok { IfOk result (λ l. l
            ≡ record { meter = unstepped checked; book = archive.history; published = []; pending = [] }) }
        ensures err { IfErr result (λ given. given ≡ checked) }
    {
        let meter = TracedMeter::new(alloc, checked)?;
        match Outbox::new(rt, alloc, meter.checked(), &archive.written, readers) {
            Ok(outbox) => Ok(Live {
                meter,
                outbox,
                archive,
            }),
            Err(_) => Err(meter.into_parts().0),
        }
    }

    /// What the type keeps, for callers: the plan was accepted, the state and the replies are the run of the trail, the trail
    /// has at most 4,096 entries, and the run from the start over the published and the pending steps is the state.
    pub fn known(&self)
        ensures traced { IsTraced self.now.meter }
        ensures published { IsPublished self.now }
    {
        self.meter.known();
        let _outbox = &self.outbox;
    }

    /// The plan.
    pub fn plan(&self) -> &Plan
        ensures { result.now ≡ self.now.meter.accepted.plan }
    {
        self.meter.checked().plan()
    }

    /// The meter with its trail.
    pub fn meter(&self) -> &TracedMeter
        ensures { result.now ≡ self.now.meter }
    {
        &self.meter
    }

    /// What keeps the steps: the meter's state is the run of those that are kept, where these are known.
    pub fn keeper(&self) -> &K
        ensures { IsKept self.now.meter.accepted.plan (K.kept self.now.meter.accepted.plan result.now) self.now.meter.state }
    {
        &self.archive.keeper
    }

    /// The whole history of the steps that may have changed the meter.
    pub(crate) fn written(&self) -> &Front
        ensures { result.now ≡ written_of self.now }
    {
        &self.archive.written
    }

    /// A reader that has seen what is published. None where `left_right` gave no reading end, as where all its room is taken.
    pub fn reader(&mut self) -> Option<Reader>
        ensures same { self.new ≡ self.old }
        ensures reader { IfSome result (λ r. r
            ≡ record { plan = self.old.meter.accepted.plan; book = self.old.book; seen = self.old.published }) }
    {
        self.outbox.reader()
    }

    /// Of two readers of this meter, the steps that either has seen and those that are published lie on one list, the history of
    /// this meter. So one of the two has seen all that the other has, in the same order. It does nothing when it runs.
    pub fn beside(&self, one: &Reader, other: &Reader)
        requires { (one.now.book ≡ self.now.book) × (other.now.book ≡ self.now.book) }
        ensures published { LieOnOne one.now.seen self.now.published
            × LieOnOne other.now.seen self.now.published }
        ensures one_list { LieOnOne one.now.seen other.now.seen }
        ensures begins { IsPrefix one.now.seen other.now.seen ⊎ IsPrefix other.now.seen one.now.seen }
    {
        self.outbox.beside(one);
        self.outbox.beside(other);
        one.beside(other);
    }

    /// Takes one step of a port, which the plan has judged, and answers it: the state afterwards and the reply are those of the
    /// old state, the step stands behind the trail, and one that may change the meter in the history, behind the pending ones. One by
    /// which the meter doesn't stay as it was is kept first. Where it is refused, nothing changes.
    pub fn act(&mut self, alloc: Global, port: u8, judged: Judged) -> Result<Reply, LiveFault>
        requires { IsJudged self.old.meter.accepted.plan judged }
        ensures reply { IfOk result (λ reply. reply_of reply
            ≡ reply_now self.old.meter (step_of judged.step)) }
        ensures live { OnOk result (self.new ≡ acted self.old port (step_of judged.step)) }
        ensures full { (result ≡ Err LiveFault.Full) ↔ (self.old.meter.count ≡ 2 ^ 64 - 1) }
        ensures err { OnErr result (self.new ≡ self.old) }
    {
        let Live {
            meter,
            outbox,
            archive,
        } = self;
        if meter.is_full() {
            return Err(LiveFault::Full);
        }
        if !judged.is_change() {
            return Ok(meter.pass(alloc, port, judged)?);
        }
        let change = roomy_change(alloc, outbox, &judged)?;
        let reply = meter.act(alloc, port, judged, archive, &change)?;
        outbox.put(change);
        Ok(reply)
    }

    /// Publishes all pending steps in order, and tells the reader of the whole list. Where memory is refused, they stay pending and
    /// the reader stays as it was.
    pub fn tell<R: Wait>(&mut self, rt: &R, reader: &mut Reader) -> Result<(), Memory>
        requires { reader.old.book ≡ self.old.book }
        ensures ok { OnOk result (self.new ≡ posted self.old) }
        ensures told { OnOk result ((reader.new ≡ record reader.old { seen = self.new.published })
            × IsPrefix reader.old.seen reader.new.seen) }
        ensures err { OnErr result ((self.new ≡ self.old) × (reader.new ≡ reader.old)) }
    {
        self.outbox.tell(rt, &self.archive.written, reader)
    }

    /// Waits for the readers, and leaves what was accepted, the state, and the numbers of steps and changes.
    pub(crate) fn into_parts<R: Wait>(self, rt: &R) -> (Checked, Meter, u64, u64)
        ensures parts { (result.0 ≡ self.meter.accepted) × (result.1 ≡ self.meter.state)
            × (result.2 ≡ self.meter.count) × (result.3 ≡ self.meter.changes) }
        ensures fits { IsState self.meter.accepted.plan self.meter.state }
    {
        let Live {
            meter,
            outbox,
            archive: _archive,
        } = self;
        outbox.end(rt);
        meter.into_parts()
    }

    /// Ends the live meter, after waiting for its readers.
    pub fn end<R: Wait>(self, rt: &R) {
        let _parts = self.into_parts(rt);
    }
}

impl Live<Unkept> {
    /// The same meter, whose further steps are kept behind those of which it is the run.
    pub(crate) fn kept_by<K: Keeps + Drop>(self, keeper: K) -> Live<K>
        requires { IsKept self.meter.accepted.plan (K.kept self.meter.accepted.plan keeper) self.meter.state }
        ensures { result ≡ self }
    {
        let Live {
            meter,
            outbox,
            archive,
        } = self;
        let Archive {
            keeper: _unkept,
            history,
            written,
        } = archive;
        let archive = Archive {
            keeper,
            history,
            written,
        };
        Live {
            meter,
            outbox,
            archive,
        }
    }
}

/// A copy of the step for the pending ones, where room is made for it. The only error is that memory was refused.
fn roomy_change(alloc: Global, outbox: &mut Outbox, judged: &Judged) -> Result<Change, Memory>
    ensures same { ShowsSame outbox.old outbox.new }
    ensures pending { outbox.new.pending ≡ outbox.old.pending }
    ensures room { OnOk result (outbox.new.late ≡ None) }
    ensures change { IfOk result (λ change. change ≡ step_of judged.now.step) }
{
    outbox.make_room()?;
    Change::of(alloc, &judged.step)
}
