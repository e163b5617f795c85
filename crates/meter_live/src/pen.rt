//! The writing end of the copies.
ghost use Rattle.std.specs.Prelude.{◌≡◌, ◌∷◌, ◌++◌, [], ◌^◌, ◌<◌, drop, false, None, IfOk, IfErr, IfSome, IsTrue, OnOk, OnErr, MatchResult};
ghost use Rattle.left_right.specs.Sides.{view};
ghost use Rattle.meter_theory.specs.Plan.{start};
ghost use Rattle.meter_live.specs.Copies.{named};
ghost use Rattle.meter_live.specs.Outgoing.{Sending, all_marked, sending};

use crate::change::Change;
use crate::history::Front;
use crate::reader::Reader;
use crate::rule::{Hands, Names, Published, Sends, Takes};
use crate::shown::{Note, Shown};
use core::mem::replace_with;
use cosem_data::memory::Memory;
use left_right::writer::Writer;
use std::alloc::Global;
use std::marker::Model;
use std::sync::Wait;

/// The writing end, under the rule of the copies.
type End = Writer<Shown, Note, Names, Published>;

/// The writing end of the copies, which knows what is shown. Contracts see the plan, the mark of what is shown, the steps that
/// were sent behind it, and the last mark that was sent. It can't be dropped: it ends by `end`, which waits for the readers.
pub(crate) struct Pen {
    end: End,
}

impl Model for Pen {
    ghost use Rattle.std.specs.Prelude.{◌≡◌, drop};
    ghost use Rattle.std.specs.Coded.{codes};
    ghost use Rattle.left_right.specs.Sides as sides;
    ghost use Rattle.meter_theory.specs.PlanCode.{plan_code};
    ghost use Rattle.meter_live.specs.Codes.{mark_code, step_code};
    ghost use Rattle.meter_live.specs.Copies.{named};
    ghost use Rattle.meter_live.specs.Outgoing.{Sending, sending};

    ghost Value = { Sending };

    ghost coded = { Prim.hlevel (codes, plan_code, mark_code, step_code) };

    ghost view = { λ p. sending p.end.desk.shown.value (drop p.end.behind p.end.log.items) };

    ghost invariant = { λ p. sides.view p.end.desk.place
        ≡ named p.end.desk.shown.value.accepted.plan p.end.desk.shown.value.front };
}

impl Pen {
    /// The writing end of two copies of a meter that no step has reached, with room for so many readers at once. The only error is that
    /// memory was refused.
    pub(crate) fn new<R: Wait>(
        rt: &R,
        alloc: Global,
        first: Shown,
        second: Shown,
        readers: usize,
    ) -> Result<Pen, Memory>
        requires readers { (0 < readers) × (readers < 2 ^ 32) }
        requires empty { first.front.steps ≡ [] }
        requires start { first.state ≡ start first.accepted.plan }
        requires same { second ≡ first }
        ensures { IfOk result (λ pen. pen ≡ sending first []) }
    {
        let end: End = Writer::new(alloc, first, second, readers)?;
        match send(rt, end) {
            (end, Ok(())) => Ok(Pen { end }),
            (end, Err(_)) => {
                let _shown = end.take(rt);
                Err(Memory)
            }
        }
    }

    /// What is shown, by its mark.
    pub(crate) fn front(&self) -> &Front
        ensures { result.now ≡ self.now.front }
    {
        self.end.published().front()
    }

    /// A reader that has seen what is shown. None where `left_right` gave no reading end.
    pub(crate) fn reader(&mut self) -> Option<Reader>
        ensures same { self.new ≡ self.old }
        ensures reader { IfSome result (λ r. r
            ≡ record { plan = self.old.plan; book = self.old.front.book; seen = self.old.front.steps }) }
    {
        let mut end = self.end.factory().reader().ok()?;
        end.learn::<Takes>(self.end.tell::<Hands>());
        Some(Reader::new(end, self.end.published().front().again()))
    }

    /// Whether nothing was sent behind what is shown.
    pub(crate) fn is_empty(&self) -> bool
        ensures { IsTrue result → self.now.pending ≡ [] }
    {
        !self.end.has_pending_operations()
    }

    /// Sends a step. Where memory is refused, it is handed back.
    pub(crate) fn send(&mut self, change: Change) -> Result<(), Change>
        ensures same { (self.new.plan ≡ self.old.plan) × (self.new.front ≡ self.old.front) }
        ensures ok { OnOk result (self.new.pending ≡ self.old.pending ++ change ∷ []) }
        ensures err { OnErr result (self.new.pending ≡ self.old.pending) }
        ensures back { IfErr result (λ given. given ≡ change) }
    {
        let Err(note) = self.end.append(Note::Made(change)) else {
            return Ok(());
        };
        match note {
            Note::Made(change) => Err(change),
            Note::UpTo(_front) => unreachable!(),
        }
    }

    /// Sends that all steps up to this mark were sent. The only error is that memory was refused.
    pub(crate) fn mark(&mut self, front: Front) -> Result<(), Memory>
        ensures same { (self.new.plan ≡ self.old.plan) × (self.new.front ≡ self.old.front)
            × (self.new.pending ≡ self.old.pending) }
        ensures ok { OnOk result (self.new.mark ≡ front) }
    {
        let Err(note) = self.end.append(Note::UpTo(front)) else {
            return Ok(());
        };
        Err(unsent(note))
    }

    /// Shows readers all that was sent, up to the last mark. The only error is that memory was refused.
    pub(crate) fn publish<R: Wait>(&mut self, rt: &R) -> Result<(), Memory>
        requires { self.old.mark ≡ all_marked self.old }
        ensures ok { OnOk result (self.new
            ≡ record { plan = self.old.plan; front = self.old.mark; pending = []; mark = self.old.mark }) }
        ensures err { OnErr result (self.new ≡ self.old) }
    {
        replace_with(self, rt, |pen, rt| published(rt, pen))
    }

    /// Waits for the readers, and ends the copies.
    pub(crate) fn end<R: Wait>(self, rt: &R) {
        let Pen { end } = self;
        let _shown = end.take(rt);
    }
}

/// A note that isn't sent, for want of memory.
fn unsent(_note: Note) -> Memory {
    Memory
}

/// Shows readers all that was sent. The only error is that memory was refused.
fn published<R: Wait>(rt: &R, pen: Pen) -> (Pen, Result<(), Memory>)
    requires { pen.mark ≡ all_marked pen }
    ensures { MatchResult result.1
        (λ _. result.0 ≡ record { plan = pen.plan; front = pen.mark; pending = []; mark = pen.mark })
        (λ _. result.0 ≡ pen) }
{
    let Pen { end } = pen;
    let (end, sent) = send(rt, end);
    (Pen { end }, sent)
}

/// The same of the end, which may know nothing yet.
fn send<R: Wait>(rt: &R, end: End) -> (End, Result<(), Memory>)
    requires { (sending end.desk.shown.value (drop end.behind end.log.items)).mark
        ≡ all_marked (sending end.desk.shown.value (drop end.behind end.log.items)) }
    ensures { MatchResult result.1
        (λ _. (drop result.0.behind result.0.log.items ≡ [])
        × (result.0.desk.shown.value.accepted.plan ≡ end.desk.shown.value.accepted.plan)
        × (result.0.desk.shown.value.front ≡ (sending end.desk.shown.value (drop end.behind end.log.items)).mark)
        × (view result.0.desk.place ≡ named result.0.desk.shown.value.accepted.plan result.0.desk.shown.value.front))
        (λ _. (drop result.0.behind result.0.log.items ≡ drop end.behind end.log.items)
        × (result.0.desk.shown.value ≡ end.desk.shown.value)
        × (view result.0.desk.place ≡ view end.desk.place)) }
{
    let (end, sent) = end.publish_as::<Sends, R>(rt);
    match sent {
        Ok(()) => (end, Ok(())),
        Err(_) => (end, Err(Memory)),
    }
}
