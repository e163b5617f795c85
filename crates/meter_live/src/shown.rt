//! The copies that readers read.
ghost use Rattle.std.specs.Prelude.{◌≡◌, true, IfOk, IsOk};
ghost use Rattle.meter_core.specs.Memory.{needs_no_memory};
ghost use Rattle.meter_core.specs.StepView.{reply_of, step_of};
ghost use Rattle.meter_theory.specs.Replies.{reply_to};
ghost use Rattle.meter_theory.specs.States.{IsState};
ghost use Rattle.meter_live.specs.Changes.{is_get};
ghost use Rattle.meter_live.specs.Copies.{absorbed};

use crate::change::Change;
use crate::history::Front;
use cosem_data::memory::Memory;
use flow_checker::check::Checked;
use left_right::Absorb;
use meter_core::apply::apply;
use meter_core::reply::Reply;
use meter_core::shown::show;
use meter_core::step::Step;
use object_model::meter::Meter;
use object_model::plan::Plan;
use std::alloc::{AllocError, Global};
use std::marker::Model;

/// A copy of a meter, which is of an accepted plan, and the beginning of the history that it is the run of.
#[derive(Drop)]
pub struct Shown {
    checked: Checked,
    meter: Meter,
    front: Front,
    alloc: Global,
}

impl Model for Shown {
    ghost use Rattle.std.specs.Coded.{codes};
    ghost use Rattle.meter_theory.specs.PlanCode.{plan_code, state_code};
    ghost use Rattle.meter_theory.specs.States.{IsState};
    ghost use Rattle.meter_live.specs.Codes.{mark_code};
    ghost use Rattle.meter_live.specs.Marks.{Copy};

    ghost Value = { Copy };

    ghost coded = { Prim.hlevel (codes, plan_code, state_code, mark_code) };

    ghost view = { λ s. record { accepted = s.checked; state = s.meter; front = s.front } };

    ghost invariant = { λ s. IsState s.checked.plan s.meter };
}

/// What is sent to the copies: a step that was taken, or that all steps up to here were sent.
#[derive(Drop)]
pub(crate) enum Note {
    Made(Change),
    UpTo(Front),
}

impl Shown {
    /// A copy of a meter that is of the plan.
    pub(crate) fn new(alloc: Global, checked: Checked, meter: Meter, front: Front) -> Shown
        requires { IsState checked.plan meter }
        ensures { result ≡ record { accepted = checked; state = meter; front = front } }
    {
        Shown {
            checked,
            meter,
            front,
            alloc,
        }
    }

    /// The beginning of the history that the copy is the run of.
    pub fn front(&self) -> &Front
        ensures { result.now ≡ self.now.front }
    {
        &self.front
    }

    /// What the copy answers to a GET. The only error is that memory was refused; a GET that the plan denies is answered without
    /// memory.
    pub(crate) fn answer(&self, alloc: Global, step: &Step) -> Result<Reply, Memory>
        requires { is_get (step_of step.now) ≡ true }
        ensures ok { IfOk result (λ reply. reply_of reply
            ≡ reply_to self.now.accepted.plan self.now.state (step_of step.now)) }
        ensures denied { needs_no_memory self.now.accepted.plan self.now.state (step_of step.now)
            ≡ true → IsOk result }
    {
        match step {
            Step::Get {
                client,
                attribute,
                selection,
            } => show(
                alloc,
                self.checked.plan(),
                &self.meter,
                *client,
                attribute,
                selection,
            )?
            .into_reply(alloc),
            _ => unreachable!(),
        }
    }
}

impl Absorb<Note> for Shown {
    type State = (Plan, Meter, Front);

    ghost state = { λ s. (s.accepted.plan, s.state, s.front) };

    ghost applied = { absorbed };

    fn absorb_first(&mut self, operation: &Note, _other: &Shown) -> Result<(), AllocError> {
        match operation {
            Note::Made(change) => {
                let plan = self.checked.plan();
                match apply(self.alloc, plan, &mut self.meter, change.step()) {
                    Ok(_reply) => Ok(()),
                    Err(_) => Err(AllocError),
                }
            }
            Note::UpTo(front) => {
                self.front = front.again();
                Ok(())
            }
        }
    }
}
