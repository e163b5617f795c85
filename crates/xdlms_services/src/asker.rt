//! What takes the steps of a session.
ghost use Rattle.std.specs.Prelude.{◌≡◌, IfOk, OnErr, OnOk};

use crate::asking::Asking;
use crate::writing::write_reply;
use cosem_data::memory::Memory;
use meter_core::reply::Reply;
use meter_core::step::Step;
use std::alloc::Global;

/// A meter that takes steps and answers them.
pub trait Asker {
    ghost use Rattle.std.specs.Prelude.{◌≡◌, Result, IfOk, OnErr, OnOk};
    ghost use Rattle.cosem_data.specs.declared.memory.Memory.{Memory as MemoryValue};
    ghost use Rattle.meter_core.specs.StepView.{step_of, reply_of};
    ghost use Rattle.meter_theory.specs.Plan as theory;
    ghost use Rattle.meter_theory.specs.Steps as steps;
    ghost use Rattle.meter_theory.specs.Replies as answers;
    ghost use Rattle.xdlms_services.specs.Asking.{IsServiceOf, asked};
    ghost use Rattle.xdlms_services.specs.Conversation.{answered, IsSendable, PutsReply, LosesReply};

    /// The plan that the meter is of.
    ghost plan_of: { Self → theory.Plan };

    /// From the old, this step may be answered so, and leave the new.
    ghost answers: { Self → steps.Step → Result answers.Reply MemoryValue → Self → Type 0 };

    /// Takes a step, and answers it. The only error is that memory was refused.
    fn ask(&mut self, alloc: Global, step: Step) -> Result<Reply, Memory>
        ensures answer { answers self.old (step_of step) (answered result) self.new }
        // What answers a client's step can be sent to it.
        ensures sendable { IfOk result (λ reply. IsSendable (step_of step) (reply_of reply)) }
        ensures plan { plan_of self.new ≡ plan_of self.old };

    /// Takes the step that is asked, and puts the APDU of its reply behind what is there (IEC 62056-5-3, Get-Response-Normal,
    /// Set-Response-Normal and Action-Response-Normal): what `ask` and `write_reply` do, where a meter lends the value.
    ///
    /// # Errors
    /// `Memory` where memory is refused. Where it was refused to the APDU, the step was taken, and its reply is lost.
    fn put_reply(&mut self, alloc: Global, asking: Asking, out: &mut Vec<u8>) -> Result<(), Memory>
        requires { IsServiceOf (step_of asking.step) asking.service }
        ensures reply_put { OnOk result (PutsReply answers self.old self.new
            (asked asking) out.old.items out.new.items) }
        ensures reply_lost { OnErr result (LosesReply answers self.old self.new (asked asking)) }
        ensures same_plan { plan_of self.new ≡ plan_of self.old }
    {
        let Asking {
            service,
            invoke,
            step,
        } = asking;
        let reply = self.ask(alloc, step)?;
        write_reply(invoke, &reply, service, out)
    }
}
