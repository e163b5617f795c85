//! What lies under the lock of a board.
ghost use Rattle.std.specs.Prelude.{◌≡◌, ◌≢◌, ◌⊎◌, ◌+◌, ◌-◌, ◌^◌, ◌++◌, ◌∷◌, [], ◌≤◌, ◌↔◌, List, true, Err, IfOk, IfErr, OnOk, OnErr, MatchBool, sum_by, vec_len};
ghost use Rattle.std.specs.Coded.{codes};
ghost use mathlib.Core.List.{IsPrefix};
ghost use Rattle.meter_core.specs.Judging.{IsJudged};
ghost use Rattle.meter_core.specs.StepView.{reply_of, step_of};
ghost use Rattle.meter_theory.specs.PlanCode.{plan_code};
ghost use Rattle.meter_theory.specs.States.{IsState};
ghost use Rattle.meter_theory.specs.Steps as steps;
ghost use Rattle.meter_live.specs.Changes.{Answers, answer_after, is_get, takes_none};
ghost use Rattle.meter_live.specs.Marks.{LieOnOne};
ghost use Rattle.meter_live.specs.Tally.{Counts, HasSeen, IsUnused};
ghost use Rattle.meter_live.specs.Told.{IsToldOf, acted, posted, put_by};
ghost use Rattle.meter_live.specs.Trail.{unstepped};
ghost use Rattle.step_keeping.specs.Keeping.{IsKept, KeepsNone};

use crate::archive::Archive;
use crate::board::Blanks;
use crate::fault::{LiveFault, PortFault, ReadRefused, ReaderFault};
use crate::live::Live;
use crate::names::{ChangeLedger, Naming, StepLedger};
use crate::reader::Reader;
use crate::share::{Rest, Share};
use crate::traced::TracedMeter;
use cosem_data::memory::Memory;
use flow_checker::check::Checked;
use meter_core::judged::Judged;
use meter_core::reply::Reply;
use meter_core::step::Step;
use object_model::meter::Meter;
use object_model::plan::Plan;
use std::alloc::Global;
use std::marker::{Model, PhantomData};
use std::sync::Wait;
use std::sync::ledger::{Blank, Book};
use step_keeping::keeper::{Keeps, Unkept};

/// A reader of the published copies of a board's meter. Contracts see the steps that it has seen.
#[derive(Drop)]
pub struct BoardReader<N: Naming> {
    reader: Reader,
    of: PhantomData<N>,
}

impl<N: Naming> Model for BoardReader<N> {
    ghost use Rattle.std.specs.Prelude.{◌≡◌, List};
    ghost use Rattle.std.specs.Coded.{coded_list};
    ghost use Rattle.meter_theory.specs.Steps as steps;
    ghost use Rattle.meter_live.specs.Codes.{step_code};

    ghost Value = { List steps.Step };

    ghost coded = { coded_list step_code };

    ghost view = { λ r. r.reader.seen };

    ghost invariant = { λ r. (r.reader.plan ≡ N.accepted.plan) × (r.reader.book ≡ N.book) };
}

impl<N: Naming> BoardReader<N> {
    /// The answer to a GET after a list of published steps, which the reader has seen then, and which begins with all that it saw
    /// before. It takes no lock, and waits for nobody. Only a GET that is answered by a value is ever refused for memory.
    pub fn get(&mut self, alloc: Global, step: &Step) -> Result<Reply, ReadRefused>
        requires { is_get (step_of step.now) ≡ true }
        ensures later { IsPrefix self.old self.new }
        ensures reply { IfOk result (λ reply. reply_of reply
            ≡ answer_after N.accepted.plan self.new (step_of step.now)) }
        ensures denied { takes_none N.accepted.plan self.new (step_of step.now) ≡ true
            → result ≢ Err ReadRefused.Memory }
    {
        self.reader.get(alloc, step)
    }

    /// Of two readers of a board, the steps that either has seen are beginnings of one list: so one of the two has seen all that
    /// the other has, in the same order. It does nothing when it runs.
    pub fn beside(&self, other: &BoardReader<N>)
        ensures one_list { LieOnOne self.now other.now }
        ensures begins { IsPrefix self.now other.now ⊎ IsPrefix other.now self.now }
    {
        self.reader.beside(&other.reader);
    }
}

/// A live meter and the books of what was taken. It keeps a handle, since its drop waits for the readers. Contracts see the meter, how
/// many ports were opened, and how many could still be opened.
pub struct Desk<N: Naming, W: Wait + Drop, K: Keeps + Drop> {
    live: Live<K>,
    rt: W,
    steps: Book<StepLedger<N>>,
    changes: Book<ChangeLedger<N>>,
    // What no port has.
    left: Rest<N>,
    // Whether each port was given a reader.
    ports: Vec<bool>,
    of: PhantomData<N>,
}

impl<N: Naming, W: Wait + Drop, K: Keeps + Drop> Model for Desk<N, W, K> {
    ghost use Rattle.std.specs.Prelude.{◌≡◌, ◌+◌, vec_len};
    ghost use Rattle.std.specs.Coded.{codes};
    ghost use Rattle.logbook.specs.Pages.{book_coded};
    ghost use Rattle.meter_theory.specs.PlanCode.{plan_code, state_code};
    ghost use Rattle.meter_live.specs.Codes.{step_code, taken_code};
    ghost use Rattle.meter_live.specs.Told.{Desked, IsBooked};

    ghost Value = { Desked };

    ghost coded = { Prim.hlevel (codes, plan_code, state_code, book_coded, step_code, taken_code) };

    ghost view = { λ d. record { live = d.live; opened = vec_len d.ports; left = d.left } };

    ghost invariant = { λ d. (d.live.meter.accepted ≡ N.accepted) × (d.live.book ≡ N.book)
        × IsBooked d.live d.steps.total d.changes.total × (d.left + vec_len d.ports ≡ 256) };
}

impl<N: Naming, W: Wait + Drop, K: Keeps + Drop> Desk<N, W, K> {
    /// A desk of a meter that no step has reached, of which nothing is kept yet, without ports. The only error is that memory was
    /// refused.
    pub(crate) fn open(
        rt: W,
        alloc: Global,
        checked: &Checked,
        keeper: K,
        blanks: Blanks,
    ) -> Result<Self, Memory>
        requires plan { checked.now ≡ N.accepted }
        requires book { blanks.history ≡ N.book }
        requires steps { blanks.steps.name ≡ N.steps }
        requires changes { blanks.changes.name ≡ N.changes }
        requires unkept { KeepsNone (K.kept checked.now.plan keeper) }
        ensures { IfOk result (λ desk. desk.live.meter ≡ unstepped checked.now) }
    {
        let Blanks {
            history,
            written,
            steps,
            changes,
            readers,
        } = blanks;
        let archive = Archive {
            keeper,
            history,
            written,
        };
        let checked = checked.share()?;
        let readers = usize::from(readers.get());
        match Live::of(&rt, alloc, checked, archive, readers) {
            Ok(live) => Ok(Desk::new(rt, alloc, live, steps, changes)),
            Err(_) => Err(Memory),
        }
    }

    /// A desk of a meter that no step has reached, without ports.
    fn new(rt: W, alloc: Global, live: Live<K>, steps: Blank, changes: Blank) -> Self
        requires plan { live.meter.accepted ≡ N.accepted }
        requires book { live.book ≡ N.book }
        requires unused { (live.meter.count ≡ 0) × (live.meter.changes ≡ 0) }
        requires steps { (steps.name ≡ N.steps) × (steps.parts ≡ 256) }
        requires changes { (changes.name ≡ N.changes) × (changes.parts ≡ 256) }
        ensures { result.live ≡ live }
    {
        let (steps, all_steps) = steps.open::<StepLedger<N>>();
        let (changes, all_changes) = changes.open::<ChangeLedger<N>>();
        Desk {
            live,
            rt,
            steps,
            changes,
            left: Rest::whole(all_steps, all_changes),
            ports: Vec::new(alloc),
            of: PhantomData,
        }
    }

    /// How many ports were opened.
    pub(crate) fn opened(&self) -> usize
        ensures { result ≡ self.now.opened }
    {
        self.ports.len()
    }

    /// The meter with its trail.
    pub fn meter(&self) -> &TracedMeter
        ensures { result.now ≡ self.now.live.meter }
    {
        self.live.meter()
    }

    /// What keeps the steps: the meter's state is the run of those that are kept, where these are known.
    pub fn keeper(&self) -> &K
        ensures { IsKept N.accepted.plan (K.kept N.accepted.plan result.now) self.now.live.meter.state }
    {
        self.live.keeper()
    }

    /// The plan, which was accepted.
    pub(crate) fn plan(&self) -> &Plan
        ensures plan { result.now ≡ N.accepted.plan }
        ensures accepted { self.now.live.meter.accepted ≡ N.accepted }
    {
        self.live.plan()
    }

    /// One step of a port, which its share counts.
    pub(crate) fn act(
        &mut self,
        alloc: Global,
        port: u8,
        share: &mut Share<N>,
        judged: Judged,
    ) -> Result<Reply, LiveFault>
        requires { IsJudged N.accepted.plan judged }
        ensures reply { IfOk result
            (λ reply. Answers N.accepted.plan (step_of judged.step) (reply_of reply)) }
        ensures live { OnOk result (self.new.live ≡ acted self.old.live port (step_of judged.step)) }
        ensures share { OnOk result (Counts N.accepted.plan share.old (step_of judged.step) share.new) }
        ensures full { (result ≡ Err LiveFault.Full) ↔ (self.old.live.meter.count ≡ 2 ^ 64 - 1) }
        ensures err { OnErr result ((share.new ≡ share.old) × (self.new.live ≡ self.old.live)) }
    {
        let Desk {
            live,
            rt: _,
            steps,
            changes,
            left: _,
            ports: _,
            of: _,
        } = self;
        live.known();
        let is_change = judged.is_change();
        let reply = live.act(alloc, port, judged)?;
        steps.add(&mut share.steps, 1);
        if !is_change {
            return Ok(reply);
        }
        count_change(live, changes, share);
        Ok(reply)
    }

    /// Publishes all pending steps in order, and tells the reader of the whole list, which is no shorter than the changes that
    /// the share counts.
    pub(crate) fn tell<R: Wait>(
        &mut self,
        rt: &R,
        share: &mut Share<N>,
        reader: &mut BoardReader<N>,
    ) -> Result<(), Memory>
        ensures ok { OnOk result ((self.new.live ≡ posted self.old.live)
            × (reader.new ≡ self.new.live.published) × IsPrefix reader.old reader.new) }
        ensures seen { OnOk result (HasSeen share.old reader.new) }
        ensures share { share.new ≡ share.old }
        ensures err { OnErr result ((self.new.live ≡ self.old.live) × (reader.new ≡ reader.old)) }
    {
        let Desk {
            live,
            rt: _,
            steps: _,
            changes,
            left: _,
            ports: _,
            of: _,
        } = self;
        live.known();
        // No share counts more than there were changes.
        changes.audit(&mut share.changes);
        live.tell(rt, &mut reader.reader)
    }

    /// One step of a port, and its telling, which says whether it was told.
    pub(crate) fn put<R: Wait>(
        &mut self,
        rt: &R,
        alloc: Global,
        port: u8,
        share: &mut Share<N>,
        reader: &mut BoardReader<N>,
        judged: Judged,
    ) -> Result<(Reply, bool), LiveFault>
        requires { IsJudged N.accepted.plan judged }
        ensures reply { IfOk result (λ r. Answers N.accepted.plan (step_of judged.step) (reply_of r.0)) }
        ensures live { IfOk result (λ r. self.new.live
            ≡ put_by self.old.live port (step_of judged.step) r.1) }
        ensures share { OnOk result (Counts N.accepted.plan share.old (step_of judged.step) share.new) }
        ensures told { IfOk result
            (λ r. IsToldOf N.accepted.plan (step_of judged.step) r.1 reader.old reader.new) }
        ensures seen { IfOk result (λ r. r.1 ≡ true → HasSeen share.new reader.new) }
        ensures full { (result ≡ Err LiveFault.Full) ↔ (self.old.live.meter.count ≡ 2 ^ 64 - 1) }
        ensures err { OnErr result ((share.new ≡ share.old) × (reader.new ≡ reader.old)
            × (self.new.live ≡ self.old.live)) }
    {
        let _live = &self.live;
        let reply = self.act(alloc, port, share, judged)?;
        match self.tell(rt, share, reader) {
            Ok(()) => Ok((reply, true)),
            Err(_) => Ok((reply, false)),
        }
    }

    /// The number of a new port, and its share. None is opened where all 256 are, and else only memory is refused.
    pub(crate) fn open_port(&mut self) -> Result<(u8, Share<N>), PortFault>
        ensures number { IfOk result (λ r. r.0 ≡ self.old.opened) }
        ensures opened { OnOk result (self.new.left + 1 ≡ self.old.left) }
        ensures no_port { (result ≡ Err PortFault.NoPort) ↔ (self.old.left ≡ 0) }
        ensures err { OnErr result (self.new.left ≡ self.old.left) }
        ensures share { IfOk result (λ r. IsUnused r.1) }
        ensures live { self.new.live ≡ self.old.live }
    {
        let Ok(number) = u8::try_from(self.ports.len()) else {
            return Err(PortFault::NoPort);
        };
        if self.ports.reserve(1).is_err() {
            return Err(PortFault::Memory);
        }
        self.ports.push_reserved(false);
        Ok((number, self.left.hand_out(self.live.written().again())))
    }

    /// The reader of a port that was given none, which has seen what is published.
    pub(crate) fn give_reader(&mut self, port: u8) -> Result<BoardReader<N>, ReaderFault>
        ensures reader { IfOk result (λ r. r ≡ self.old.live.published) }
        ensures live { self.new.live ≡ self.old.live }
    {
        let port = usize::from(port);
        if port >= self.ports.len() || self.ports[port] {
            return Err(ReaderFault::NoReader);
        }
        let Some(reader) = self.live.reader() else {
            return Err(ReaderFault::NoReader);
        };
        self.ports[port] = true;
        Ok(BoardReader {
            reader,
            of: PhantomData,
        })
    }

    /// Takes the shares of all ports in: then the numbers of steps and changes are their sums. It waits for the readers.
    pub(crate) fn settle<R: Wait>(self, rt: &R, shares: Vec<Share<N>>) -> (Checked, Meter, u64, u64)
        requires { self.opened ≤ vec_len shares }
        ensures plan { (result.0 ≡ N.accepted) × IsState N.accepted.plan result.1 }
        ensures counted { result.2 ≡ sum_by (λ s. s.steps) shares.items }
        ensures changed { result.3 ≡ sum_by (λ s. s.changes) shares.items }
    {
        let Desk {
            live,
            rt: _rt,
            mut steps,
            mut changes,
            left,
            ports: _ports,
            of: _,
        } = self;
        let (mut all_steps, mut all_changes) = left.with(shares);
        steps.audit(&mut all_steps);
        changes.audit(&mut all_changes);
        live.into_parts(rt)
    }

    /// Ends the desk, after waiting for the readers.
    pub(crate) fn end<R: Wait>(self, rt: &R) {
        let Desk {
            live,
            rt: _rt,
            steps: _steps,
            changes: _changes,
            left: _left,
            ports: _ports,
            of: _,
        } = self;
        live.end(rt);
    }
}

impl<N: Naming, W: Wait + Drop> Desk<N, W, Unkept> {
    /// The same desk, whose meter has its further steps kept behind those of which it is the run.
    pub(crate) fn kept_by<K: Keeps + Drop>(self, keeper: K) -> Desk<N, W, K>
        requires { IsKept N.accepted.plan (K.kept N.accepted.plan keeper) self.live.meter.state }
        ensures { result ≡ self }
    {
        let Desk {
            live,
            rt,
            steps,
            changes,
            left,
            ports,
            of: _,
        } = self;
        Desk {
            live: live.kept_by(keeper),
            rt,
            steps,
            changes,
            left,
            ports,
            of: PhantomData,
        }
    }
}

impl<N: Naming, W: Wait + Drop, K: Keeps + Drop> Drop for Desk<N, W, K> {
    fn drop(self) {
        let Self {
            live,
            rt,
            steps: _steps,
            changes: _changes,
            left: _left,
            ports: _ports,
            of: _,
        } = self;
        live.end(&rt);
    }
}

/// Counts a change of a live meter on a share, which knows the whole history then.
fn count_change<N: Naming, K: Keeps + Drop>(
    live: &Live<K>,
    changes: &mut Book<ChangeLedger<N>>,
    share: &mut Share<N>,
)
    requires book { live.now.book ≡ N.book }
    requires kept { live.now.meter.changes ≡ changes.old.total + 1 }
    ensures total { changes.new.total ≡ changes.old.total + 1 }
    ensures steps { share.new.steps ≡ share.old.steps }
    ensures changes { share.new.changes ≡ share.old.changes + 1 }
    ensures written { share.new.written ≡ live.now.published ++ live.now.pending }
    ensures seen { HasSeen share.new share.new.written }
{
    live.known();
    changes.add(&mut share.changes, 1);
    // No share counts more than there were changes.
    changes.audit(&mut share.changes);
    share.written = live.written().again();
}
