//! Readers of the published copies. They take no lock, and wait for nobody.
ghost use Rattle.std.specs.Prelude.{◌≡◌, ◌≢◌, ◌⊎◌, true, Err, IsTrue, IfOk};
ghost use mathlib.Core.List.{IsPrefix};
ghost use Rattle.left_right.specs.Sides.{view};
ghost use Rattle.meter_core.specs.StepView.{reply_of, step_of};
ghost use Rattle.meter_live.specs.Changes.{answer_after, is_get, takes_none};
ghost use Rattle.meter_live.specs.Copies.{Follows};
ghost use Rattle.meter_live.specs.Marks.{LieOnOne};

use crate::fault::ReadRefused;
use crate::history::Front;
use crate::rule::{Enters, Names, Published};
use crate::shown::Shown;
use core::mem::replace_with;
use left_right::reader;
use meter_core::reply::Reply;
use meter_core::step::Step;
use std::alloc::Global;
use std::marker::Model;

/// The reading end, under the rule of the copies.
pub(crate) type End = reader::Reader<Shown, Names, Published>;

/// A reader of the published copies of a meter. Contracts see its plan, its history, and the steps that it has seen.
#[derive(Drop)]
pub struct Reader {
    end: End,
    front: Front,
}

impl Model for Reader {
    ghost use Rattle.std.specs.Prelude.{◌≡◌, true};
    ghost use Rattle.std.specs.Coded.{codes};
    ghost use Rattle.left_right.specs.Sides as sides;
    ghost use Rattle.logbook.specs.Pages.{book_coded};
    ghost use Rattle.meter_theory.specs.PlanCode.{plan_code};
    ghost use Rattle.meter_live.specs.Codes.{step_code};
    ghost use Rattle.meter_live.specs.Outgoing.{Seer, seer};

    ghost Value = { Seer };

    ghost coded = { Prim.hlevel (codes, plan_code, book_coded, step_code) };

    ghost view = { λ r. seer (sides.view r.end.place) };

    ghost invariant = { λ r. ((sides.view r.end.place).known ≡ true)
        × (r.front ≡ (sides.view r.end.place).front) };
}

impl Reader {
    ghost use Rattle.meter_live.specs.Outgoing.{seer};

    /// A reader of this end, which has learned what the writer knew, and its beginning of the history.
    pub(crate) fn new(end: End, front: Front) -> Reader
        requires known { (view end.place).known ≡ true }
        requires front { front ≡ (view end.place).front }
        ensures { result ≡ seer (view end.place) }
    {
        Reader { end, front }
    }

    /// The answer to a GET after a list of published steps, which the reader has seen then, and which begins with all that it saw
    /// before. It takes no lock. Only a GET that is answered by a value is ever refused for memory.
    pub fn get(&mut self, alloc: Global, step: &Step) -> Result<Reply, ReadRefused>
        requires { is_get (step_of step.now) ≡ true }
        ensures same { (self.new.plan ≡ self.old.plan) × (self.new.book ≡ self.old.book) }
        ensures later { IsPrefix self.old.seen self.new.seen }
        ensures reply { IfOk result (λ reply. reply_of reply
            ≡ answer_after self.old.plan self.new.seen (step_of step.now)) }
        ensures denied { takes_none self.old.plan self.new.seen (step_of step.now) ≡ true
            → result ≢ Err ReadRefused.Memory }
    {
        let (front, reply) = replace_with(
            &mut self.end,
            (&self.front, alloc, step),
            |end, (front, alloc, step)| look(end, front, alloc, step),
        );
        self.front = front;
        reply
    }

    /// Of two readers of one history, the steps that either has seen are beginnings of one list: so one of the two has seen all
    /// that the other has, in the same order. It does nothing when it runs.
    pub fn beside(&self, other: &Reader)
        requires { other.now.book ≡ self.now.book }
        ensures one_list { LieOnOne self.now.seen other.now.seen }
        ensures begins { IsPrefix self.now.seen other.now.seen ⊎ IsPrefix other.now.seen self.now.seen }
    {
        self.front.beside(&other.front);
    }

    /// Of a reader and a beginning of its history, the steps of both are beginnings of one list. It does nothing when it runs.
    pub(crate) fn beside_front(&self, front: &Front)
        requires { front.now.book ≡ self.now.book }
        ensures { LieOnOne self.now.seen front.now.steps }
    {
        self.front.beside(front);
    }

    /// Sees what is published now, and says whether that is as much as this beginning of the history.
    pub(crate) fn catch_up(&mut self, front: &Front) -> bool
        requires { front.now.book ≡ self.old.book }
        ensures same { (self.new.plan ≡ self.old.plan) × (self.new.book ≡ self.old.book) }
        ensures later { IsPrefix self.old.seen self.new.seen }
        ensures caught { IsTrue result → self.new.seen ≡ front.now.steps }
    {
        let (seen, caught) = replace_with(
            &mut self.end,
            (&self.front, front),
            |end, (seen, front)| compare(end, seen, front),
        );
        self.front = seen;
        caught
    }
}

/// Reads the copy that is shown, and gives the beginning of the history that the end has seen then.
fn look(
    end: End,
    front: &Front,
    alloc: Global,
    step: &Step,
) -> (End, (Front, Result<Reply, ReadRefused>))
    requires known { (view end.place).known ≡ true }
    requires front { front.now ≡ (view end.place).front }
    requires get { is_get (step_of step.now) ≡ true }
    ensures seen { Follows (view end.place) (view result.0.place) }
    ensures front { result.1.0 ≡ (view result.0.place).front }
    ensures reply { IfOk result.1.1 (λ reply. reply_of reply
        ≡ answer_after (view end.place).plan (view result.0.place).front.steps (step_of step.now)) }
    ensures denied { takes_none (view end.place).plan (view result.0.place).front.steps
        (step_of step.now) ≡ true → result.1.1 ≢ Err ReadRefused.Memory }
{
    match end.enter_as::<Enters>() {
        Ok(reading) => {
            let copy = reading.get();
            let reply = copy.answer(alloc, step);
            let seen = copy.front().again();
            let end = reading.leave();
            match reply {
                Ok(reply) => (end, (seen, Ok(reply))),
                Err(_) => (end, (seen, Err(ReadRefused::Memory))),
            }
        }
        Err(end) => (end, (front.again(), Err(ReadRefused::NoEntry))),
    }
}

/// Sees the copy that is shown, gives its beginning of the history, and says whether that is this one.
fn compare(end: End, seen: &Front, front: &Front) -> (End, (Front, bool))
    requires known { (view end.place).known ≡ true }
    requires front { seen.now ≡ (view end.place).front }
    requires book { front.now.book ≡ (view end.place).front.book }
    ensures seen { Follows (view end.place) (view result.0.place) }
    ensures front { result.1.0 ≡ (view result.0.place).front }
    ensures caught { IsTrue result.1.1 → (view result.0.place).front.steps ≡ front.now.steps }
{
    match end.enter_as::<Enters>() {
        Ok(reading) => {
            let shown = reading.get().front().again();
            let caught = shown.equals(front);
            (reading.leave(), (shown, caught))
        }
        Err(end) => (end, (seen.again(), false)),
    }
}
