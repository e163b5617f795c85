//! Steps that may change a meter.
ghost use Rattle.std.specs.Prelude.{◌≡◌};
ghost use Rattle.meter_core.specs.Changing.{is_changing};
ghost use Rattle.meter_core.specs.StepView.{step_of};

use crate::step::Step;
use association_views::permits::{permit_action, permit_set};
use object_model::plan::Plan;

/// Whether a step may change a meter of the plan, which no state decides: a SET or an ACTION that is granted may, and each step of
/// the meter itself (own profile).
pub fn is_change(plan: &Plan, step: &Step) -> bool
    ensures { result ≡ is_changing plan.now (step_of step.now) }
{
    match step {
        Step::Get { .. } => false,
        Step::Set {
            client,
            attribute,
            selected,
            value,
        } => permit_set(plan, *client, attribute, *selected, value).is_ok(),
        Step::Act {
            client,
            method,
            argument,
        } => permit_action(plan, *client, method, argument).is_ok(),
        Step::Input { .. }
        | Step::CaptureAt { .. }
        | Step::Evaluate { .. }
        | Step::ScheduleAt { .. }
        | Step::Tick
        | Step::ClockAt { .. } => true,
    }
}
