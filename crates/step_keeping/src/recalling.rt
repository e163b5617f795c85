//! What hands out the steps that were kept.

use meter_core::step::Step;

/// Hands out steps that were kept, one after another.
pub trait Recalls {
    ghost use Rattle.std.specs.Prelude.{◌≡◌, [], ◌∷◌, List, MatchOption};
    ghost use Rattle.meter_theory.specs.Steps as steps;
    ghost use Rattle.meter_core.specs.StepView.{step_of};

    /// The steps that are still to be handed out, in their order.
    ghost left: { Self → List steps.Step };

    /// The next step; None where all were handed out.
    fn recall(&mut self) -> Option<Step>
        ensures { MatchOption result ((left self.old ≡ []) × (left self.new ≡ []))
            (λ step. left self.old ≡ step_of step ∷ left self.new) };
}
