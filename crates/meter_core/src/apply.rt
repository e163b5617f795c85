//! One step of a meter.
ghost use Rattle.std.specs.Prelude.{◌≡◌, true, [], Some, None, OnOk, OnErr, IfOk, IsOk};
ghost use Rattle.cosem_data.specs.View.{tree};
ghost use Rattle.cosem_data.specs.declared.cell.CellRef.{CellRef};
ghost use Rattle.meter_theory.specs.declared.access.AccessCode.TheVariants as codes;
ghost use Rattle.meter_theory.specs.Rights.{cell_of, method_of};
ghost use Rattle.meter_theory.specs.Steps as steps;
ghost use Rattle.meter_theory.specs.Steps.{effects, given_value, method_effects, next};
ghost use Rattle.meter_theory.specs.Replies as answers;
ghost use Rattle.meter_theory.specs.Replies.{reply_to};
ghost use Rattle.meter_theory.specs.States.{IsState, MayStand};
ghost use Rattle.meter_effects.specs.Adds.{StandsFor};
ghost use Rattle.object_model.specs.Tables.{number_at};
ghost use Rattle.meter_core.specs.Back.{taken_back};
ghost use Rattle.meter_core.specs.Judging as spec;
ghost use Rattle.meter_core.specs.Judging.{IsJudged, MayBeSet, Says};
ghost use Rattle.meter_core.specs.Memory.{needs_no_memory};
ghost use Rattle.meter_core.specs.StepView.{argument_of, reply_of, step_of, turn_of};

use crate::back::Back;
use crate::judged::{Judged, Judgement, judge};
use crate::reply::Reply;
use crate::shown::show;
use crate::step::Step;
use civil_moment::moment::Moment;
use cosem_data::cell::CellRef;
use cosem_data::data::Data;
use cosem_data::memory::Memory;
use meter_effects::effects::apply_all;
use meter_effects::own_steps::{
    capture_effects, evaluation_effects, schedule_effects, takes_input_at,
};
use meter_effects::scripts::push_method;
use meter_theory::access::AccessCode;
use meter_theory::refs::Descriptor;
use object_model::argument::Argument;
use object_model::effect::Effect;
use object_model::instance::Instance;
use object_model::meter::Meter;
use object_model::plan::Plan;
use std::alloc::Global;

/// What a step was answered, and what takes it back.
#[derive(Drop)]
pub struct Applied {
    pub reply: Reply,
    pub back: Back,
}

/// Takes one step, and answers it. The only error is that memory was refused, and then the meter is as it was; a request
/// that the plan denies is answered without memory.
pub fn apply(alloc: Global, plan: &Plan, meter: &mut Meter, step: &Step) -> Result<Reply, Memory>
    requires { IsState plan.now meter.old }
    ensures state { IsState plan.now meter.new }
    ensures ok { OnOk result (meter.new ≡ next plan.now meter.old (step_of step.now)) }
    ensures reply { IfOk result (λ reply. reply_of reply
        ≡ reply_to plan.now meter.old (step_of step.now)) }
    ensures err { OnErr result (meter.new ≡ meter.old) }
    ensures denied { needs_no_memory plan.now meter.old (step_of step.now) ≡ true → IsOk result }
{
    plan.known();
    let Applied { reply, back } = apply_step(alloc, plan, meter, step)?;
    back.let_go();
    Ok(reply)
}

/// Takes one step, and hands out what takes it back. Of a SET and an ACTION the plan is asked, which refuses no other step.
fn apply_step(alloc: Global, plan: &Plan, meter: &mut Meter, step: &Step) -> Result<Applied, Memory>
    requires { IsState plan.now meter.old }
    ensures ok { OnOk result (meter.new ≡ next plan.now meter.old (step_of step.now)) }
    ensures reply { IfOk result (λ applied. reply_of applied.reply
        ≡ reply_to plan.now meter.old (step_of step.now)) }
    ensures err { OnErr result (meter.new ≡ meter.old) }
    ensures denied { needs_no_memory plan.now meter.old (step_of step.now) ≡ true → IsOk result }
{
    match step {
        Step::Set { .. } | Step::Act { .. } => {
            apply_by(alloc, plan, meter, step, judge(plan, step))
        }
        _ => apply_granted(alloc, plan, meter, step, None),
    }
}

/// The same of a step that the plan has judged, which isn't judged again.
pub fn apply_judged(
    alloc: Global,
    plan: &Plan,
    meter: &mut Meter,
    judged: &Judged,
) -> Result<Applied, Memory>
    requires of_plan { IsState plan.now meter.old }
    requires judged { IsJudged plan.now judged.now }
    ensures state { IsState plan.now meter.new }
    ensures ok { OnOk result (meter.new ≡ next plan.now meter.old (step_of judged.now.step)) }
    ensures reply { IfOk result (λ applied. reply_of applied.reply
        ≡ reply_to plan.now meter.old (step_of judged.now.step)) }
    ensures before { IfOk result (λ applied. taken_back plan.now applied.back meter.new ≡ meter.old) }
    ensures err { OnErr result (meter.new ≡ meter.old) }
    ensures denied { needs_no_memory plan.now meter.old (step_of judged.now.step) ≡ true → IsOk result }
{
    plan.known();
    apply_by(alloc, plan, meter, &judged.step, judged.judgement)
}

/// Takes one step, of which the plan says this.
fn apply_by(
    alloc: Global,
    plan: &Plan,
    meter: &mut Meter,
    step: &Step,
    judgement: Judgement,
) -> Result<Applied, Memory>
    requires of_plan { IsState plan.now meter.old }
    requires judged { Says plan.now (step_of step.now) judgement }
    ensures ok { OnOk result (meter.new ≡ next plan.now meter.old (step_of step.now)) }
    ensures reply { IfOk result (λ applied. reply_of applied.reply
        ≡ reply_to plan.now meter.old (step_of step.now)) }
    ensures before { IfOk result (λ applied. taken_back plan.now applied.back meter.new ≡ meter.old) }
    ensures err { OnErr result (meter.new ≡ meter.old) }
    ensures denied { needs_no_memory plan.now meter.old (step_of step.now) ≡ true → IsOk result }
{
    match judgement.refusal {
        Some(code) => Ok(unchanged(Reply::Code(code))),
        None => apply_granted(alloc, plan, meter, step, judgement.number),
    }
}

/// Takes one step, which the plan doesn't refuse, and which names the object with this number: a GET may still be refused.
fn apply_granted(
    alloc: Global,
    plan: &Plan,
    meter: &mut Meter,
    step: &Step,
    number: Option<u16>,
) -> Result<Applied, Memory>
    requires of_plan { IsState plan.now meter.old }
    requires granted { None ≡ spec.refusal plan.now (step_of step.now) }
    requires named { number ≡ spec.number_named plan.now (step_of step.now) }
    ensures ok { OnOk result (meter.new ≡ next plan.now meter.old (step_of step.now)) }
    ensures reply { IfOk result (λ applied. reply_of applied.reply
        ≡ reply_to plan.now meter.old (step_of step.now)) }
    ensures before { IfOk result (λ applied. taken_back plan.now applied.back meter.new ≡ meter.old) }
    ensures err { OnErr result (meter.new ≡ meter.old) }
    ensures denied { needs_no_memory plan.now meter.old (step_of step.now) ≡ true → IsOk result }
{
    match step {
        Step::Get {
            client,
            attribute,
            selection,
        } => {
            let shown = show(alloc, plan, meter, *client, attribute, selection)?;
            Ok(unchanged(shown.into_reply(alloc)?))
        }
        Step::Set {
            attribute,
            value,
            ..
        } => set(alloc, plan, meter, attribute, value, number),
        Step::Act {
            method,
            argument,
            ..
        } => act(alloc, plan, meter, method, argument, number),
        Step::Input { cell, value } => input(alloc, plan, meter, cell, value),
        Step::Tick => Ok(tick(plan, meter)),
        Step::ClockAt { moment } => Ok(clock_at(plan, meter, *moment)),
        Step::CaptureAt { profile: name }
        | Step::Evaluate { monitor: name }
        | Step::ScheduleAt { schedule: name } => own(alloc, &plan.instance(name), meter, step),
    }
}

/// What changed nothing.
fn unchanged(reply: Reply) -> Applied
    ensures { (result.reply ≡ reply) × (result.back ≡ Back.Nothing) }
{
    Applied {
        reply,
        back: Back::Nothing,
    }
}

/// A second goes by.
fn tick(plan: &Plan, meter: &mut Meter) -> Applied
    requires { IsState plan.now meter.old }
    ensures ok { meter.new ≡ next plan.now meter.old steps.Tick }
    ensures reply { reply_of result.reply ≡ reply_to plan.now meter.old steps.Tick }
    ensures before { taken_back plan.now result.back meter.new ≡ meter.old }
{
    let stood = meter.present(plan);
    meter.tick(plan);
    Applied {
        reply: Reply::Quiet,
        back: Back::Clock(stood),
    }
}

/// A moment is told to the meter.
fn clock_at(plan: &Plan, meter: &mut Meter, moment: Moment) -> Applied
    requires { IsState plan.now meter.old }
    ensures ok { meter.new ≡ next plan.now meter.old (steps.ClockAt moment) }
    ensures reply { reply_of result.reply ≡ reply_to plan.now meter.old (steps.ClockAt moment) }
    ensures before { taken_back plan.now result.back meter.new ≡ meter.old }
{
    let stood = meter.present(plan);
    meter.set_clock(plan, moment);
    Applied {
        reply: Reply::Quiet,
        back: Back::Clock(stood),
    }
}

/// A granted SET (IEC 62056-5-3) of the object with this number: its value, if it brings one, is put in its cell. The only error
/// is that memory was refused.
fn set(
    alloc: Global,
    plan: &Plan,
    meter: &mut Meter,
    attribute: &Descriptor,
    value: &Argument,
    number: Option<u16>,
) -> Result<Applied, Memory>
    requires of_plan { IsState plan.now meter.old }
    requires named { number ≡ number_at plan.now.objects attribute.now.name }
    requires fits { MayBeSet plan.now (cell_of attribute.now) (argument_of value.now) }
    ensures ok { OnOk result (meter.new ≡ effects plan.now meter.old
        (given_value (cell_of attribute.now) (argument_of value.now))) }
    ensures reply { IfOk result (λ applied. reply_of applied.reply ≡ answers.Code codes.Success) }
    ensures before { IfOk result (λ applied. taken_back plan.now applied.back meter.new ≡ meter.old) }
    ensures err { OnErr result (meter.new ≡ meter.old) }
{
    let Argument::Value(value) = value else {
        return Ok(unchanged(Reply::Code(AccessCode::Success)));
    };
    let given = value.try_clone(alloc)?;
    let instance = plan.instance_at(&attribute.name, number);
    let undo = meter.put(&instance, &attribute.attribute(), given);
    Ok(Applied {
        reply: Reply::Code(AccessCode::Success),
        back: Back::Effect(undo),
    })
}

/// A granted ACTION (IEC 62056-5-3) on the object with this number: its method does what it does. The only error is that memory
/// was refused, which without effects it isn't.
fn act(
    alloc: Global,
    plan: &Plan,
    meter: &mut Meter,
    method: &Descriptor,
    argument: &Argument,
    number: Option<u16>,
) -> Result<Applied, Memory>
    requires of_plan { IsState plan.now meter.old }
    requires named { number ≡ number_at plan.now.objects method.now.name }
    ensures ok { OnOk result (meter.new ≡ effects plan.now meter.old
        (method_effects plan.now (method_of method.now) (argument_of argument.now))) }
    ensures reply { IfOk result (λ applied. reply_of applied.reply ≡ answers.Code codes.Success) }
    ensures before { IfOk result (λ applied. taken_back plan.now applied.back meter.new ≡ meter.old) }
    ensures err { OnErr result (meter.new ≡ meter.old) }
    ensures none { method_effects plan.now (method_of method.now) (argument_of argument.now) ≡ []
        → IsOk result }
{
    plan.known();
    let instance = plan.instance_at(&method.name, number);
    let mut effects = Vec::new(alloc);
    push_method(alloc, &instance, &method.method(), argument, &mut effects)?;
    let undos = apply_all(alloc, &instance, meter, effects)?;
    Ok(Applied {
        reply: Reply::Code(AccessCode::Success),
        back: Back::Effects(undos),
    })
}

/// A measured value is put where it goes to the value of a fed object and may stand there. The only error is that memory was
/// refused, which without an effect it isn't.
fn input(
    alloc: Global,
    plan: &Plan,
    meter: &mut Meter,
    cell: &CellRef,
    measured: &Data,
) -> Result<Applied, Memory>
    requires { IsState plan.now meter.old }
    ensures ok { OnOk result (meter.new ≡ next plan.now meter.old (steps.Input cell.now (tree measured.now))) }
    ensures reply { IfOk result (λ applied. reply_of applied.reply ≡ answers.Quiet) }
    ensures before { IfOk result (λ applied. taken_back plan.now applied.back meter.new ≡ meter.old) }
    ensures err { OnErr result (meter.new ≡ meter.old) }
    ensures none { steps.effects_of plan.now meter.old (steps.Input cell.now (tree measured.now)) ≡ []
        → IsOk result }
{
    let instance = plan.instance(&cell.name);
    if !takes_input_at(&instance, cell, measured) {
        return Ok(unchanged(Reply::Quiet));
    }
    let given = measured.try_clone(alloc)?;
    let undo = meter.put(&instance, cell, given);
    Ok(Applied {
        reply: Reply::Quiet,
        back: Back::Effect(undo),
    })
}

/// The turn of a profile, a register monitor or a schedule, which is taken without an answer, and whose name was looked up.
fn own(
    alloc: Global,
    instance: &Instance<'_>,
    meter: &mut Meter,
    step: &Step,
) -> Result<Applied, Memory>
    requires of_plan { IsState instance.now.plan meter.old }
    requires turn { turn_of step.now ≡ Some instance.now.name }
    ensures ok { OnOk result (meter.new ≡ next instance.now.plan meter.old (step_of step.now)) }
    ensures reply { IfOk result (λ applied. reply_of applied.reply
        ≡ reply_to instance.now.plan meter.old (step_of step.now)) }
    ensures before { IfOk result (λ applied. taken_back instance.now.plan applied.back meter.new
        ≡ meter.old) }
    ensures err { OnErr result (meter.new ≡ meter.old) }
    ensures denied { needs_no_memory instance.now.plan meter.old (step_of step.now) ≡ true
        → IsOk result }
{
    instance.plan().known();
    let effects = own_effects(alloc, instance, meter, step)?;
    let undos = apply_all(alloc, instance, meter, effects)?;
    Ok(Applied {
        reply: Reply::Quiet,
        back: Back::Effects(undos),
    })
}

/// The effects of such a turn. The only error is that memory was refused, which without effects it isn't.
fn own_effects(
    alloc: Global,
    instance: &Instance<'_>,
    meter: &Meter,
    step: &Step,
) -> Result<Vec<Effect>, Memory>
    requires of_plan { IsState instance.now.plan meter.now }
    requires turn { turn_of step.now ≡ Some instance.now.name }
    ensures ok { IfOk result (λ list. StandsFor instance.now.plan
        (steps.effects_of instance.now.plan meter.now (step_of step.now)) list.items) }
    ensures none { steps.effects_of instance.now.plan meter.now (step_of step.now) ≡ []
        → IsOk result }
{
    match step {
        Step::CaptureAt { .. } => {
            capture_effects(alloc, instance, meter, meter.present(instance.plan()))
        }
        Step::Evaluate { .. } => evaluation_effects(alloc, instance, meter),
        Step::ScheduleAt { .. } => {
            schedule_effects(alloc, instance, meter, meter.present(instance.plan()))
        }
        _ => Ok(Vec::new(alloc)),
    }
}
