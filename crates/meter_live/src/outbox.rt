//! Steps on their way to the readers.
ghost use Rattle.std.specs.Prelude.{◌≡◌, ◌∷◌, ◌++◌, [], ◌^◌, ◌<◌, None, IfOk, IfSome, OnOk, OnErr};
ghost use mathlib.Core.List.{IsPrefix};
ghost use Rattle.meter_theory.specs.Plan.{start};
ghost use Rattle.meter_live.specs.Marks.{LieOnOne};
ghost use Rattle.meter_live.specs.Outgoing.{ShowsSame, pending_of};

use crate::change::Change;
use crate::history::Front;
use crate::pen::Pen;
use crate::reader::Reader;
use crate::shown::Shown;
use cosem_data::memory::Memory;
use flow_checker::check::Checked;
use meter_theory::laws::states_are_kept;
use std::alloc::Global;
use std::marker::Model;
use std::sync::Wait;

/// The published steps of a meter, and those that are to be published. It can't be dropped: it ends by `end`, which waits for the
/// readers.
pub(crate) struct Outbox {
    late: Option<Change>,
    pen: Pen,
}

impl Model for Outbox {
    ghost use Rattle.std.specs.Coded.{codes};
    ghost use Rattle.logbook.specs.Pages.{book_coded};
    ghost use Rattle.meter_theory.specs.PlanCode.{plan_code};
    ghost use Rattle.meter_live.specs.Codes.{step_code};
    ghost use Rattle.meter_live.specs.Outgoing.{Outgoing, outgoing};

    ghost Value = { Outgoing };

    ghost coded = { Prim.hlevel (codes, plan_code, book_coded, step_code) };

    ghost view = { λ o. outgoing o.pen o.late };
}

impl Outbox {
    /// An outbox of a meter that no step has reached, with room for so many readers at once. The only error is that memory was
    /// refused.
    pub(crate) fn new<R: Wait>(
        rt: &R,
        alloc: Global,
        checked: &Checked,
        written: &Front,
        readers: usize,
    ) -> Result<Outbox, Memory>
        requires readers { (0 < readers) × (readers < 2 ^ 32) }
        requires empty { written.now.steps ≡ [] }
        ensures { IfOk result (λ o. o
            ≡ record { plan = checked.now.plan; book = written.now.book; published = []; pending = []; late = None }) }
    {
        let first = started(alloc, checked, written)?;
        let second = started(alloc, checked, written)?;
        let pen = Pen::new(rt, alloc, first, second, readers)?;
        Ok(Outbox { late: None, pen })
    }

    /// A reader that has seen what is published. None where `left_right` gave no reading end.
    pub(crate) fn reader(&mut self) -> Option<Reader>
        ensures same { self.new ≡ self.old }
        ensures reader { IfSome result (λ r. r
            ≡ record { plan = self.old.plan; book = self.old.book; seen = self.old.published }) }
    {
        self.pen.reader()
    }

    /// The steps that a reader has seen and those that are published are beginnings of one list. It does nothing when it runs.
    pub(crate) fn beside(&self, reader: &Reader)
        requires { reader.now.book ≡ self.now.book }
        ensures { LieOnOne reader.now.seen self.now.published }
    {
        reader.beside_front(self.pen.front());
    }

    /// Makes room for a step. The only error is that memory was refused.
    pub(crate) fn make_room(&mut self) -> Result<(), Memory>
        ensures same { ShowsSame self.old self.new }
        ensures pending { self.new.pending ≡ self.old.pending }
        ensures room { OnOk result (self.new.late ≡ None) }
    {
        let Outbox { late, pen } = self;
        hand_over(late, pen)
    }

    /// Puts a step behind the pending ones.
    pub(crate) fn put(&mut self, change: Change)
        requires { self.old.late ≡ None }
        ensures same { ShowsSame self.old self.new }
        ensures put { self.new.pending ≡ self.old.pending ++ change ∷ [] }
    {
        let Outbox { late, pen } = self;
        *late = Some(change);
        // Where memory is refused the step waits in its place, and the next one asks again.
        let _handed = hand_over(late, pen);
    }

    /// Publishes all pending steps in order, which end the history that was written, and tells the reader. Where memory is refused
    /// they stay pending.
    pub(crate) fn tell<R: Wait>(
        &mut self,
        rt: &R,
        written: &Front,
        reader: &mut Reader,
    ) -> Result<(), Memory>
        requires written { written.now
            ≡ record { book = self.old.book; steps = self.old.published ++ self.old.pending } }
        requires reader { reader.old.book ≡ self.old.book }
        ensures same { (self.new.plan ≡ self.old.plan) × (self.new.book ≡ self.old.book) }
        ensures ok { OnOk result ((self.new.published ≡ self.old.published ++ self.old.pending)
            × (self.new.pending ≡ [])) }
        ensures told { OnOk result ((reader.new ≡ record reader.old { seen = self.new.published })
            × IsPrefix reader.old.seen reader.new.seen) }
        ensures err { OnErr result ((self.new.published ≡ self.old.published)
            × (self.new.pending ≡ self.old.pending) × (reader.new ≡ reader.old)) }
    {
        let Outbox { late, pen } = self;
        post(rt, written, late, pen)?;
        follow(rt, reader, pen.front());
        Ok(())
    }

    /// Waits for the readers, and ends the outbox. Steps that are pending are dropped.
    pub(crate) fn end<R: Wait>(self, rt: &R) {
        let Outbox { late: _late, pen } = self;
        pen.end(rt);
    }
}

/// A copy of a meter that no step has reached.
fn started(alloc: Global, checked: &Checked, front: &Front) -> Result<Shown, Memory>
    ensures { IfOk result (λ shown. shown
        ≡ record { accepted = checked.now; state = start checked.now.plan; front = front.now }) }
{
    let plan = checked.plan();
    plan.known();
    states_are_kept();
    Ok(Shown::new(alloc, checked.share()?, plan.start(alloc)?, front.again()))
}

/// Sends the late step to the copies, if there is one. The only error is that memory was refused.
fn hand_over(late: &mut Option<Change>, pen: &mut Pen) -> Result<(), Memory>
    ensures shown { (pen.new.plan ≡ pen.old.plan) × (pen.new.front ≡ pen.old.front) }
    ensures same { pending_of pen.new late.new ≡ pending_of pen.old late.old }
    ensures handed { OnOk result (late.new ≡ None) }
{
    let Some(change) = late.take() else {
        return Ok(());
    };
    match pen.send(change) {
        Ok(()) => Ok(()),
        Err(change) => {
            *late = Some(change);
            Err(Memory)
        }
    }
}

/// Publishes all steps that are pending, in order. The only error is that memory was refused, and then they stay pending.
fn post<R: Wait>(
    rt: &R,
    written: &Front,
    late: &mut Option<Change>,
    pen: &mut Pen,
) -> Result<(), Memory>
    requires { written.now ≡ record {
      book = pen.old.front.book;
      steps = pen.old.front.steps
          ++ pending_of pen.old late.old;
    } }
    ensures same { (pen.new.plan ≡ pen.old.plan) × (pen.new.front.book ≡ pen.old.front.book) }
    ensures ok { OnOk result ((pen.new.front.steps ≡ pen.old.front.steps
        ++ pending_of pen.old late.old) × (pending_of pen.new late.new ≡ [])) }
    ensures err { OnErr result ((pen.new.front ≡ pen.old.front)
        × (pending_of pen.new late.new ≡ pending_of pen.old late.old)) }
{
    hand_over(late, pen)?;
    if pen.is_empty() {
        return Ok(());
    }
    pen.mark(written.again())?;
    pen.publish(rt)
}

/// Lets a reader see what was published up to here: its first look shows it, since nobody else publishes meanwhile.
fn follow<R: Wait>(rt: &R, reader: &mut Reader, front: &Front)
    requires { front.now.book ≡ reader.old.book }
    ensures seen { reader.new ≡ record reader.old { seen = front.now.steps } }
    ensures later { IsPrefix reader.old.seen reader.new.seen }
{
    for _ in rt.forever() {
        let caught = reader.catch_up(front);
        if caught {
            return;
        }
    }
    unreachable!()
}
