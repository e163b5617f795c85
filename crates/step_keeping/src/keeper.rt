//! What keeps the steps of a meter.

use crate::fault::KeepFault;
use meter_core::reply::Reply;
use meter_core::step::Step;
use object_model::plan::Plan;
use std::alloc::Global;

/// A place where the steps that changed a meter are kept, each before it is answered. Seconds that only moved the clock may wait for
/// the next step that does more.
pub trait Keeps {
    ghost use Rattle.std.specs.Prelude.{◌≡◌, ◌⊎◌, [], ◌∷◌, ◌++◌, Err, IfErr, List, None, OnOk, Option, Some};
    ghost use Rattle.meter_theory.specs.Plan as theory;
    ghost use Rattle.meter_theory.specs.Steps as steps;
    ghost use Rattle.meter_core.specs.StepView.{step_of};
    ghost use Rattle.step_keeping.specs.Keeping.{IsKeptAfter, IsLeft, kept_behind};
    ghost use Rattle.step_keeping.specs.declared.fault.KeepFault.TheVariants as faults;

    /// The steps of a meter of this plan that were kept, in their order; none are known where nothing is kept, or no longer.
    ghost kept: { theory.Plan → Self → Option (List steps.Step) };

    /// A crash now may leave these steps.
    ghost may_leave: { theory.Plan → Self → List steps.Step → Type 0 };

    /// Keeps a step that this port took, which was answered so.
    ///
    /// # Errors
    /// `Memory` and `Unwritten`, and then all is as it was; `NotKept` and `InDoubt`, and then what is kept is no longer known.
    fn keep(
        &mut self,
        alloc: Global,
        plan: &Plan,
        port: u8,
        step: &Step,
        reply: &Reply,
    ) -> Result<(), KeepFault>
        ensures kept { OnOk result (kept plan.now self.new ≡ kept_behind (kept plan.now self.old) (step_of step.now)) }
        // Once the step is kept each crash leaves it, but for seconds that wait.
        ensures durable { OnOk result ((all : List steps.Step) → kept plan.now self.new ≡ Some all →
            (left : List steps.Step) → may_leave plan.now self.new left → IsLeft all left) }
        ensures err { IfErr result (λ fault. IsKeptAfter fault (kept plan.now self.old) (kept plan.now self.new)) }
        ensures not_kept { result ≡ Err faults.NotKept → (all : List steps.Step) → kept plan.now self.old ≡ Some all →
            (left : List steps.Step) → may_leave plan.now self.new left → IsLeft all left }
        // Whatever comes, a crash leaves all steps that were kept before, with this one or without.
        ensures crash { (all : List steps.Step) → kept plan.now self.old ≡ Some all →
            (left : List steps.Step) → may_leave plan.now self.new left →
            IsLeft all left ⊎ IsLeft (all ++ step_of step.now ∷ []) left };

    /// Keeps no further step: what is kept is no longer that of the meter.
    fn shut(&mut self)
        ensures { (P : theory.Plan) → kept P self.new ≡ None };
}

/// Nothing is kept.
#[derive(Clone, Copy, Debug, Drop)]
pub struct Unkept;

impl Keeps for Unkept {
    ghost use Rattle.std.specs.Prelude.{None};

    ghost kept = { λ _ _. None };

    ghost may_leave = { λ _ _ _. ⊥ };

    fn keep(
        &mut self,
        _alloc: Global,
        _plan: &Plan,
        _port: u8,
        _step: &Step,
        _reply: &Reply,
    ) -> Result<(), KeepFault> {
        Ok(())
    }

    fn shut(&mut self) {}
}
