//! Steps one after another.
ghost use Rattle.std.specs.Prelude.{◌≡◌, OnOk, IfOk, IfErr, map};
ghost use Rattle.meter_theory.specs.Replies.{run, replies};
ghost use Rattle.meter_theory.specs.States.{IsState};
ghost use Rattle.meter_core.specs.StepView.{reply_of, step_of};
ghost use Rattle.meter_core.specs.Stops.{IsStopped};

use crate::apply::apply;
use crate::reply::Reply;
use crate::step::Step;
use object_model::meter::Meter;
use object_model::plan::Plan;
use std::alloc::Global;

/// Memory was refused before the last step. The meter stands after the steps that were taken.
#[derive(Drop)]
pub struct Stopped {
    /// The replies to the steps that were taken.
    pub replies: Vec<Reply>,
}

/// Takes steps one after another, and answers each. The only error is that memory was refused, and then a step is left.
pub fn run(
    alloc: Global,
    plan: &Plan,
    meter: &mut Meter,
    steps: &[Step],
) -> Result<Vec<Reply>, Stopped>
    requires { IsState plan.now meter.old }
    ensures state { IsState plan.now meter.new }
    ensures ok { OnOk result (meter.new ≡ run plan.now meter.old (map step_of steps.now)) }
    ensures replies { IfOk result (λ all. map reply_of all.items
        ≡ replies plan.now meter.old (map step_of steps.now)) }
    ensures stopped { IfErr result (λ stopped. IsStopped plan.now meter.old meter.new
        (map step_of steps.now) (map reply_of stopped.replies.items)) }
{
    if steps.is_empty() {
        return Ok(Vec::new(alloc));
    }
    let Ok(mut replies) = Vec::with_capacity(alloc, steps.len()) else {
        return Err(Stopped {
            replies: Vec::new(alloc),
        });
    };
    for step in steps {
        // Room for the reply stands ready, so that no step is taken without its reply.
        match apply(alloc, plan, meter, step) {
            Ok(reply) => replies.push(reply).unwrap(),
            Err(_) => return Err(Stopped { replies }),
        }
    }
    Ok(replies)
}
