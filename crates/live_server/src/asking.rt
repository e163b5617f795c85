//! What a session of a live meter asks.
ghost use Rattle.std.specs.Prelude.{◌≡◌, false, true, IfOk, IfSome, OnErr, OnOk};
ghost use mathlib.Core.List.{IsPrefix};
ghost use Rattle.std.proofs.Props.{props};
ghost use Rattle.meter_live.specs.Changes as changes;
ghost use Rattle.meter_live.specs.Changes.{Answers};
ghost use Rattle.meter_live.specs.Tally.{Counts, HasSeen, IsUnused};
ghost use Rattle.meter_theory.specs.Plan.{start};
ghost use Rattle.meter_theory.specs.Replies.{reply_to, run};
ghost use Rattle.meter_core.specs.Judging.{grants_get as grants_get_by};
ghost use Rattle.meter_core.specs.StepView.{reply_of, step_of};
ghost use Rattle.xdlms_services.specs.Conversation.{answered, IsSendable};
ghost use Rattle.live_server.specs.Asking.{AnswersLive, SeesOn, locked, reading};

use cosem_data::memory::Memory;
use meter_core::judged::grants_get;
use meter_core::reply::Reply;
use meter_core::step::Step;
use meter_live::board::{Board, Port};
use meter_live::desk::BoardReader;
use meter_live::fault::{LiveFault, PortFault};
use meter_live::names::Naming;
use meter_live::share::Share;
use object_model::plan::Plan;
use std::alloc::Global;
use std::sync::{Mutex, Wait};
use step_keeping::keeper::Keeps;
use xdlms_services::asker::Asker;

/// What became of the steps of a connection that were to be kept, for who writes its answers.
#[derive(Clone, Copy, Drop)]
pub struct Standing {
    /// A step can't be kept, and wasn't taken.
    pub is_unkept: bool,
    /// A step wasn't taken of which it isn't known whether a crash leaves it.
    pub is_in_doubt: bool,
}

impl Standing {
    /// Of a connection that was just opened.
    pub const CLEAR: Standing = Standing {
        is_unkept: false,
        is_in_doubt: false,
    };

    /// Behind a step that was refused for this.
    fn behind(self, fault: LiveFault) -> Standing {
        match fault {
            LiveFault::InDoubt => Standing {
                is_unkept: true,
                is_in_doubt: true,
            },
            LiveFault::NotKept => Standing {
                is_unkept: true,
                ..self
            },
            LiveFault::Memory | LiveFault::Full => self,
        }
    }
}

/// What a seat notes of the steps that were asked at it.
#[derive(Drop)]
struct Noted {
    /// Whether a step was taken that the reader wasn't told of.
    is_behind: bool,
    /// Why the last step wasn't taken, where it wasn't.
    refused: Option<LiveFault>,
}

/// A place at a live meter, for one session after another: a port, its share, and its reader, where it got one.
///
/// Its reader answers GETs, without the lock, and all else is a step under it. A seat without a reader asks everything under
/// the lock.
#[derive(Drop)]
pub struct PortAsker<'b, N: Naming, W: Wait + Drop, R: Wait, K: Keeps + Drop> {
    rt: &'b R,
    port: Port<'b, N, W, K>,
    pub(crate) share: Share<N>,
    reader: Option<BoardReader<N>>,
    noted: Noted,
    standing: Option<&'b Mutex<Standing>>,
    ghost told: { noted.is_behind ≡ false → IfSome reader (λ seen. HasSeen share seen) } by { Prim.hlevel props },
}

impl<'b, N: Naming, W: Wait + Drop, R: Wait, K: Keeps + Drop> PortAsker<'b, N, W, R, K> {
    /// A seat at a new port of the board, which gives its reader now, and notes there what becomes of steps that were to be kept.
    pub fn open(
        rt: &'b R,
        board: &'b Board<N, W, K>,
        standing: Option<&'b Mutex<Standing>>,
    ) -> Result<Self, PortFault>
        ensures { IfOk result (λ asker. IsUnused asker.share) }
    {
        let (port, share) = board.port(rt)?;
        let reader = port.reader(rt).ok();
        Ok(PortAsker {
            rt,
            port,
            share,
            reader,
            noted: Noted {
                is_behind: false,
                refused: None,
            },
            standing,
        })
    }

    /// The plan of the meter.
    pub fn plan(&self) -> &'b Plan
        ensures { result.now ≡ N.accepted.plan }
    {
        self.port.plan()
    }

    /// Takes a step under the lock, of which the reader is told by the next telling.
    pub fn take(&mut self, alloc: Global, step: Step) -> Result<Reply, LiveFault>
        ensures reply { IfOk result (λ reply. Answers N.accepted.plan (step_of step) (reply_of reply)) }
        ensures share { OnOk result
            (Counts N.accepted.plan self.old.share (step_of step) self.new.share) }
        ensures sendable { IfOk result (λ reply. IsSendable (step_of step) (reply_of reply)) }
        ensures seen { self.new.reader ≡ self.old.reader }
        ensures err { OnErr result (self.new.share ≡ self.old.share) }
    {
        self.noted.is_behind = true;
        self.port.plan().known();
        self.port.act(self.rt, alloc, &mut self.share, step)
    }

    /// Publishes all steps that are pending, and tells the reader, which has then seen as many changes as the share counts, or
    /// more. Where memory is refused, that is left to the next telling.
    pub fn tell(&mut self)
        ensures later { SeesOn self.old.reader self.new.reader }
        ensures noted { self.new.noted.is_behind ≡ false
            → IfSome self.new.reader (λ seen. HasSeen self.new.share seen) }
        ensures share { self.new.share ≡ self.old.share }
    {
        if let Some(reader) = &mut self.reader {
            self.noted.is_behind = self.port.tell(self.rt, &mut self.share, reader).is_err();
        }
    }

    /// Notes for who writes the answers why the last step wasn't taken, where it wasn't.
    fn note_standing(&self) {
        if let (Some(standing), Some(fault)) = (self.standing, self.noted.refused) {
            let mut standing = standing.lock(self.rt);
            *standing = (*standing).behind(fault);
        }
    }

    /// Its share.
    pub(crate) fn into_share(self) -> Share<N>
        ensures { result ≡ self.entry.share }
    {
        self.share
    }
}

impl<'b, N: Naming, W: Wait + Drop, R: Wait, K: Keeps + Drop> Asker for PortAsker<'b, N, W, R, K> {
    ghost use Rattle.live_server.specs.Asking.{AnswersLive};

    ghost plan_of = { λ _. N.accepted.plan };

    ghost answers = { λ old step reply new.
        AnswersLive N.accepted.plan (record { seen = old.reader; share = old.share }) step reply
        (record { seen = new.reader; share = new.share }) };

    fn ask(&mut self, alloc: Global, step: Step) -> Result<Reply, Memory> {
        self.noted.refused = None;
        let answer = match &mut self.reader {
            Some(reader) => ask_read(
                self.rt,
                alloc,
                &self.port,
                &mut self.share,
                reader,
                &mut self.noted,
                step,
            ),
            None => {
                let noted = &mut self.noted;
                ask_locked(self.rt, alloc, &self.port, &mut self.share, noted, step)
            }
        };
        self.note_standing();
        answer
    }
}

/// A GET is answered by the reader, and all else under the lock, where the reader is told of it too.
fn ask_read<N: Naming, W: Wait + Drop, R: Wait, K: Keeps + Drop>(
    rt: &R,
    alloc: Global,
    port: &Port<'_, N, W, K>,
    share: &mut Share<N>,
    reader: &mut BoardReader<N>,
    noted: &mut Noted,
    step: Step,
) -> Result<Reply, Memory>
    requires { noted.old.is_behind ≡ false → HasSeen share.old reader.old }
    ensures answer { AnswersLive N.accepted.plan (reading reader.old share.old) (step_of step)
        (answered result) (reading reader.new share.new) }
    ensures sendable { IfOk result (λ reply. IsSendable (step_of step) (reply_of reply)) }
    ensures noted { noted.new.is_behind ≡ false → HasSeen share.new reader.new }
{
    if is_get(&step) {
        read(rt, alloc, port, share, reader, noted, &step)
    } else {
        put(rt, alloc, port, share, reader, noted, step)
    }
}

/// Whether a step is a GET.
fn is_get(step: &Step) -> bool
    ensures { result ≡ changes.is_get (step_of step.now) }
{
    matches!(step, Step::Get { .. })
}

/// A step that is no GET is taken under the lock, where the reader is told of it, or is behind from then on.
fn put<N: Naming, W: Wait + Drop, R: Wait, K: Keeps + Drop>(
    rt: &R,
    alloc: Global,
    port: &Port<'_, N, W, K>,
    share: &mut Share<N>,
    reader: &mut BoardReader<N>,
    noted: &mut Noted,
    step: Step,
) -> Result<Reply, Memory>
    requires other { changes.is_get (step_of step) ≡ false }
    requires noted { noted.old.is_behind ≡ false → HasSeen share.old reader.old }
    ensures answer { AnswersLive N.accepted.plan (reading reader.old share.old) (step_of step)
        (answered result) (reading reader.new share.new) }
    ensures sendable { IfOk result (λ reply. IsSendable (step_of step) (reply_of reply)) }
    ensures noted { noted.new.is_behind ≡ false → HasSeen share.new reader.new }
{
    port.plan().known();
    match port.put(rt, alloc, share, reader, step) {
        Ok((reply, is_told)) => {
            noted.is_behind = !is_told;
            Ok(reply)
        }
        Err(fault) => {
            noted.refused = Some(fault);
            Err(Memory)
        }
    }
}

/// A GET is answered by the reader. Where the plan grants it, the reader is first told of the steps that it wasn't told of yet.
fn read<N: Naming, W: Wait + Drop, R: Wait, K: Keeps + Drop>(
    rt: &R,
    alloc: Global,
    port: &Port<'_, N, W, K>,
    share: &mut Share<N>,
    reader: &mut BoardReader<N>,
    noted: &mut Noted,
    step: &Step,
) -> Result<Reply, Memory>
    requires get { changes.is_get (step_of step.now) ≡ true }
    requires noted { noted.old.is_behind ≡ false → HasSeen share.old reader.old }
    ensures answer { AnswersLive N.accepted.plan (reading reader.old share.old) (step_of step.now)
        (answered result) (reading reader.new share.new) }
    ensures sendable { IfOk result (λ reply. IsSendable (step_of step.now) (reply_of reply)) }
    ensures noted { noted.new.is_behind ≡ false → HasSeen share.new reader.new }
{
    port.plan().known();
    catch_up(rt, port, share, reader, noted, step)?;
    match reader.get(alloc, step) {
        Ok(reply) => Ok(reply),
        Err(_) => Err(Memory),
    }
}

/// Where the plan grants a GET, the reader is told of the steps that it wasn't told of yet.
fn catch_up<N: Naming, W: Wait + Drop, R: Wait, K: Keeps + Drop>(
    rt: &R,
    port: &Port<'_, N, W, K>,
    share: &mut Share<N>,
    reader: &mut BoardReader<N>,
    noted: &mut Noted,
    step: &Step,
) -> Result<(), Memory>
    requires { noted.old.is_behind ≡ false → HasSeen share.old reader.old }
    ensures later { IsPrefix reader.old reader.new }
    ensures share { share.new ≡ share.old }
    ensures seen { OnOk result (grants_get_by N.accepted.plan (step_of step.now) ≡ true
        → HasSeen share.old reader.new) }
    ensures noted { noted.new.is_behind ≡ false → HasSeen share.new reader.new }
{
    // The permit is judged here only where it decides: the reader judges it for its answer.
    if noted.is_behind && grants_get(port.plan(), step) {
        port.tell(rt, share, reader)?;
        noted.is_behind = false;
    }
    Ok(())
}

/// A step is taken under the lock.
fn ask_locked<N: Naming, W: Wait + Drop, R: Wait, K: Keeps + Drop>(
    rt: &R,
    alloc: Global,
    port: &Port<'_, N, W, K>,
    share: &mut Share<N>,
    noted: &mut Noted,
    step: Step,
) -> Result<Reply, Memory>
    ensures answer { AnswersLive N.accepted.plan (locked share.old) (step_of step) (answered result)
        (locked share.new) }
    ensures sendable { IfOk result (λ reply. IsSendable (step_of step) (reply_of reply)) }
{
    port.plan().known();
    match port.act(rt, alloc, share, step) {
        Ok(reply) => Ok(reply),
        Err(fault) => {
            noted.refused = Some(fault);
            Err(Memory)
        }
    }
}
