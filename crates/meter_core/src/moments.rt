//! The steps that a meter takes when its clock moves.
ghost use Rattle.std.specs.Prelude.{◌≡◌, option_map};
ghost use Rattle.meter_core.specs.Moments as spec;
ghost use Rattle.meter_core.specs.StepView.{step_of};

use crate::step::Step;
use object_model::object::Object;
use object_model::part::Part;

/// The step that is offered to an object when the clock has moved, if there is one: a profile captures if its period is over, a
/// register monitor is evaluated, and a single action schedule runs its script if the moment is one of its times (own profile).
pub fn offered(object: &Object) -> Option<Step>
    ensures { option_map step_of result ≡ spec.offered object.now }
{
    let name = object.name();
    match object.part() {
        Part::ProfileGeneric(_) => Some(Step::CaptureAt { profile: name }),
        Part::RegisterMonitor(_) => Some(Step::Evaluate { monitor: name }),
        Part::SingleActionSchedule(_) => Some(Step::ScheduleAt { schedule: name }),
        Part::Data(_) | Part::Register(_) | Part::Clock(_) | Part::ScriptTable(_) => None,
    }
}
