//! A meter alone that is asked.
ghost use Rattle.std.specs.Prelude.{◌≡◌, ◌++◌, ◌⊎◌, OnErr, OnOk};
ghost use Rattle.meter_core.specs.StepView.{step_of};
ghost use Rattle.meter_theory.specs.Replies.{reply_to};
ghost use Rattle.meter_theory.specs.States.{IsState};
ghost use Rattle.meter_theory.specs.Steps.{next};
ghost use Rattle.xdlms_services.specs.Asking.{IsServiceOf, apdu_of, asked};

use crate::asker::Asker;
use crate::asking::Asking;
use crate::writing::{write_reply, write_shown};
use cosem_data::memory::Memory;
use meter_core::apply::apply;
use meter_core::reply::Reply;
use meter_core::shown::show;
use meter_core::step::Step;
use object_model::meter::Meter;
use object_model::plan::Plan;
use std::alloc::Global;
use std::marker::Model;

/// A meter alone, and the plan that it is of. Contracts see the two.
#[derive(Drop)]
pub struct Solo<'a> {
    plan: &'a Plan,
    meter: Meter,
}

impl<'a> Model for Solo<'a> {
    ghost use Rattle.meter_theory.specs.States.{IsState};
    ghost use Rattle.xdlms_services.specs.Solo.{Alone, alone_code};

    ghost Value = { Alone };

    ghost coded = { alone_code };

    ghost view = { λ s. record { plan = s.plan.now; meter = s.meter } };

    ghost invariant = { λ s. IsState s.plan.now s.meter };
}

impl<'a> Solo<'a> {
    /// The meter, which is of the plan.
    pub fn new(plan: &'a Plan, meter: Meter) -> Solo<'a>
        requires { IsState plan.now meter }
        ensures plan { result.plan ≡ plan.now }
        ensures meter { result.meter ≡ meter }
    {
        Solo { plan, meter }
    }

    /// The plan that the meter is of.
    pub fn plan(&self) -> &'a Plan
        ensures { result.now ≡ self.now.plan }
    {
        self.plan
    }

    /// The meter has a value of the declared kind in each cell of its plan.
    pub fn known(&self)
        ensures { IsState self.now.plan self.now.meter }
    {
        let _meter = &self.meter;
    }

    /// The meter as it is now.
    pub fn meter(&self) -> &Meter
        ensures { result.now ≡ self.now.meter }
    {
        &self.meter
    }
}

impl<'a> Asker for Solo<'a> {
    ghost use Rattle.xdlms_services.specs.Solo.{AnswersAlone};

    ghost plan_of = { λ s. s.plan };

    ghost answers = { AnswersAlone };

    fn ask(&mut self, alloc: Global, step: Step) -> Result<Reply, Memory> {
        self.plan.known();
        apply(alloc, self.plan, &mut self.meter, &step)
    }

    /// The value of a GET is written from where it stands.
    fn put_reply(
        &mut self,
        alloc: Global,
        asking: Asking,
        out: &mut Vec<u8>,
    ) -> Result<(), Memory> {
        put_answer(alloc, self.plan, &mut self.meter, &asking, out)
    }
}

/// Puts the APDU of the reply to what is asked behind what is there; the meter takes the step. The only error is that memory was
/// refused, and then the meter has taken the whole step or nothing of it.
fn put_answer(
    alloc: Global,
    plan: &Plan,
    meter: &mut Meter,
    asking: &Asking,
    out: &mut Vec<u8>,
) -> Result<(), Memory>
    requires state { IsState plan.now meter.old }
    requires service { IsServiceOf (step_of asking.now.step) asking.now.service }
    ensures state { IsState plan.now meter.new }
    ensures reply { OnOk result (out.new.items ≡ out.old.items
        ++ apdu_of (asked asking.now) (reply_to plan.now meter.old (step_of asking.now.step))) }
    ensures next { OnOk result (meter.new ≡ next plan.now meter.old (step_of asking.now.step)) }
    ensures err { OnErr result ((meter.new ≡ meter.old)
        ⊎ (meter.new ≡ next plan.now meter.old (step_of asking.now.step))) }
{
    plan.known();
    match &asking.step {
        Step::Get {
            client,
            attribute,
            selection,
        } => {
            let shown = show(alloc, plan, meter, *client, attribute, selection)?;
            write_shown(asking.invoke, &shown, out)
        }
        step => {
            let reply = apply(alloc, plan, meter, step)?;
            write_reply(asking.invoke, &reply, asking.service, out)
        }
    }
}
