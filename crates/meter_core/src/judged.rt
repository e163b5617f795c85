//! Steps that a plan has judged.
ghost use Rattle.std.specs.Prelude.{◌≡◌};
ghost use Rattle.meter_theory.specs.Plan.{Plan as PlanValue};
ghost use Rattle.meter_core.specs.Changing.{is_changing};
ghost use Rattle.meter_core.specs.Judging as spec;
ghost use Rattle.meter_core.specs.Judging.{IsJudged, Says};
ghost use Rattle.meter_core.specs.StepView.{step_of};

use crate::step::Step;
use association_views::permits::{permit_action_at, permit_get, permit_set_at};
use meter_theory::access::AccessCode;
use object_model::plan::Plan;

/// What a plan says of a step, whatever the state is.
#[derive(Clone, Copy, Drop)]
pub struct Judgement {
    /// The code that a SET or an ACTION is refused by. Any other step has none.
    pub refusal: Option<AccessCode>,
    /// The number, from 0 in plan order, of the object that a SET or an ACTION names, if one has the name. Any other step has
    /// none.
    pub number: Option<u16>,
}

/// A step, with what a plan says of it, so that on its way to the meter it is judged once, and its object looked up once.
#[derive(Drop)]
pub struct Judged {
    pub step: Step,
    pub judgement: Judgement,
}

impl Judged {
    /// A step, judged by this plan.
    pub fn by(plan: &Plan, step: Step) -> Judged
        ensures step { result.step ≡ step }
        ensures judged { IsJudged plan.now result }
    {
        let judgement = judge(plan, &step);
        Judged { step, judgement }
    }

    /// Whether the step may change a meter of the plan that judged it: a SET or an ACTION that is granted may, and each step of the
    /// meter itself (own profile).
    pub fn is_change(&self) -> bool
        ensures { (P : PlanValue) → IsJudged P self.now
            → result ≡ is_changing P (step_of self.now.step) }
    {
        match self.step {
            Step::Get { .. } => false,
            _ => self.judgement.refusal.is_none(),
        }
    }
}

/// What a plan says of a step: whether it refuses a SET or an ACTION, and by which code (IEC 62056-5-3, Data-Access-Result,
/// Action-Result), and the number of the object, which is looked up once.
pub(crate) fn judge(plan: &Plan, step: &Step) -> Judgement
    ensures { Says plan.now (step_of step.now) result }
{
    match step {
        Step::Set {
            client,
            attribute,
            selected,
            value,
        } => {
            let instance = plan.instance(&attribute.name);
            let refusal = permit_set_at(&instance, *client, attribute, *selected, value).err();
            Judgement {
                refusal,
                number: instance.number(),
            }
        }
        Step::Act {
            client,
            method,
            argument,
        } => {
            let instance = plan.instance(&method.name);
            let refusal = permit_action_at(&instance, *client, method, argument).err();
            Judgement {
                refusal,
                number: instance.number(),
            }
        }
        _ => Judgement {
            refusal: None,
            number: None,
        },
    }
}

/// Whether a step is a GET that the plan grants.
pub fn grants_get(plan: &Plan, step: &Step) -> bool
    ensures { result ≡ spec.grants_get plan.now (step_of step.now) }
{
    match step {
        Step::Get {
            client,
            attribute,
            selection,
        } => permit_get(plan, *client, attribute, selection).is_ok(),
        _ => false,
    }
}
