//! The effects of methods and scripts as a list, in order (IEC 62056-6-2, Register, Profile generic, Script table).
ghost use Rattle.std.specs.Prelude.{◌≡◌, ◌∷◌, [], IfOk, OnOk, IsOk};
ghost use Rattle.meter_theory.specs.Plan as plans;
ghost use Rattle.meter_theory.specs.Steps as theory;
ghost use Rattle.object_model.specs.ArgumentView.{argument_of};
ghost use Rattle.object_model.specs.EffectView.{effect_of, MayTake};
ghost use Rattle.meter_effects.specs.Adds.{Adds};
ghost use Rattle.meter_effects.specs.Planned.{planned_of, MayBePlanned};

use crate::walk::{Planned, Visitor, each_of_method_at, each_of_script};
use cosem_data::cell::MethodRef;
use cosem_data::memory::Memory;
use object_model::argument::Argument;
use object_model::effect::Effect;
use object_model::instance::Instance;
use std::alloc::Global;
use std::mem;

/// A list of effects, behind which goes a copy of each that is shown.
#[derive(Drop)]
struct Copies {
    alloc: Global,
    effects: Vec<Effect>,
}

impl Visitor for Copies {
    ghost use Rattle.meter_effects.specs.Planned.{IsCopied};

    type Stop = Memory;

    ghost meets = { λ plan old effect new. IsCopied old.effects.items effect new.effects.items };

    fn visit(&mut self, _object: &Instance<'_>, effect: &Planned<'_>) -> Result<(), Memory> {
        push_effect(&mut self.effects, copied(self.alloc, effect)?)
    }
}

impl Copies {
    /// Behind these effects, which are taken out of their list.
    fn behind(alloc: Global, effects: &mut Vec<Effect>) -> Copies
        ensures { result.effects ≡ effects.old }
    {
        Copies {
            alloc,
            effects: mem::replace(effects, Vec::new(alloc)),
        }
    }
}

/// Adds the effects of a method of what was looked up at its name, when it is called with this argument: of execute those of
/// the script with that number, of reset and capture their own. The only error is that memory was refused, which without effects
/// it isn't.
pub fn push_method(
    alloc: Global,
    instance: &Instance<'_>,
    method: &MethodRef,
    argument: &Argument,
    effects: &mut Vec<Effect>,
) -> Result<(), Memory>
    requires { method.now.name ≡ instance.now.name }
    ensures ok { OnOk result (Adds instance.now.plan
        (theory.method_effects instance.now.plan method.now (argument_of argument.now))
        effects.old.items effects.new.items) }
    ensures none { theory.method_effects instance.now.plan method.now (argument_of argument.now) ≡ []
        → IsOk result }
{
    instance.plan().known();
    let mut copies = Copies::behind(alloc, effects);
    let walked = each_of_method_at(instance, method, argument, &mut copies);
    *effects = copies.effects;
    walked
}

/// Adds the effects of the script of a table with this number; the null script and one that the table lacks are without. The
/// only error is that memory was refused, which without effects it isn't.
pub(crate) fn push_script(
    alloc: Global,
    table: &Instance<'_>,
    script: u16,
    effects: &mut Vec<Effect>,
) -> Result<(), Memory>
    ensures ok { OnOk result (Adds table.now.plan (theory.effects_of_script table.now.plan
        (record { table = table.now.name; script = script }))
        effects.old.items effects.new.items) }
    ensures none { theory.effects_of_script table.now.plan
        (record { table = table.now.name; script = script }) ≡ [] → IsOk result }
{
    table.plan().known();
    let mut copies = Copies::behind(alloc, effects);
    let walked = each_of_script(table, script, &mut copies);
    *effects = copies.effects;
    walked
}

/// A copy of an effect, which owns what it puts. The only error is that memory was refused.
fn copied(alloc: Global, effect: &Planned<'_>) -> Result<Effect, Memory>
    ensures same { IfOk result (λ copy. effect_of copy ≡ planned_of effect.now) }
    ensures may { IfOk result (λ copy. (P : plans.Plan) →
        MayBePlanned P (planned_of effect.now) → MayTake P copy) }
{
    match effect {
        Planned::Put(cell, value) => Ok(Effect::Put(*cell, value.try_clone(alloc)?)),
        Planned::Capture(profile) => Ok(Effect::Capture(*profile)),
        Planned::Clear(profile) => Ok(Effect::Clear(*profile)),
    }
}

/// Adds one effect.
pub(crate) fn push_effect(effects: &mut Vec<Effect>, effect: Effect) -> Result<(), Memory>
    ensures { OnOk result ((P : plans.Plan) → MayTake P effect →
        Adds P (effect_of effect ∷ []) effects.old.items effects.new.items) }
{
    effects.push(effect)?;
    Ok(())
}
