//! Steps that may have changed a meter.
ghost use Rattle.std.specs.Prelude.{◌≡◌, IfOk};
ghost use Rattle.meter_core.specs.StepView.{step_of};

use cosem_data::memory::Memory;
use meter_core::step::Step;
use std::alloc::Global;
use std::marker::Model;

/// A step that may have changed a meter, on its way to the readers. Contracts see the step of the theory.
#[derive(Drop)]
pub struct Change {
    step: Step,
}

impl Model for Change {
    ghost use Rattle.meter_theory.specs.Steps as steps;
    ghost use Rattle.meter_core.specs.StepView.{step_of};
    ghost use Rattle.meter_live.specs.Codes.{step_code};

    ghost Value = { steps.Step };

    ghost coded = { step_code };

    ghost view = { λ c. step_of c.step };
}

impl Change {
    /// A copy of the step. The only error is that memory was refused.
    pub(crate) fn of(alloc: Global, step: &Step) -> Result<Change, Memory>
        ensures { IfOk result (λ change. change ≡ step_of step.now) }
    {
        Ok(Change {
            step: step.try_clone(alloc)?,
        })
    }

    /// The step.
    pub fn step(&self) -> &Step
        ensures { step_of result.now ≡ self.now }
    {
        &self.step
    }
}
