//! The effects of a step, one after another, wholly or not at all.
ghost use Rattle.std.specs.Prelude.{◌≡◌, [], map, IfOk, OnOk, OnErr, IsOk};
ghost use Rattle.meter_theory.specs.Plan.{held};
ghost use Rattle.meter_theory.specs.State.{keys};
ghost use Rattle.meter_theory.specs.States.{IsState};
ghost use Rattle.meter_theory.specs.Steps as theory;
ghost use Rattle.object_model.specs.EffectView.{effect_of, MayTakeAll};
ghost use Rattle.object_model.specs.Undone.{all_undone};

use cosem_data::memory::Memory;
use object_model::effect::Effect;
use object_model::instance::Instance;
use object_model::meter::Meter;
use object_model::plan::Plan;
use object_model::undo::Undo;
use std::alloc::Global;

/// Takes the effects of a step in their order, all or none, and hands out what takes them back: where memory is refused, those
/// that were taken are taken back, and the meter is as it was. What the step names was looked up before. Without effects it takes
/// no memory.
pub fn apply_all(
    alloc: Global,
    named: &Instance<'_>,
    meter: &mut Meter,
    effects: Vec<Effect>,
) -> Result<Vec<Undo>, Memory>
    requires of_plan { IsState named.now.plan meter.old }
    requires fits { MayTakeAll named.now.plan effects.items }
    ensures ok { OnOk result (meter.new
        ≡ theory.effects named.now.plan meter.old (map effect_of effects.items)) }
    ensures before { IfOk result (λ undos. all_undone undos.items meter.new ≡ meter.old) }
    ensures err { OnErr result (meter.new ≡ meter.old) }
    ensures none { effects.items ≡ [] → IsOk result }
{
    if effects.is_empty() {
        return Ok(Vec::new(alloc));
    }
    named.plan().known();
    let mut undos = Vec::with_capacity(alloc, effects.len())?;
    for effect in effects {
        // Room stands ready, so that no effect is taken that can't be taken back.
        match meter.take(alloc, named, effect) {
            Ok(undo) => undos.push(undo).unwrap(),
            Err(refused) => {
                undo_all(named.plan(), meter, undos);
                return Err(refused);
            }
        }
    }
    Ok(undos)
}

/// Takes effects back, given in their order, the last one first.
pub fn undo_all(plan: &Plan, meter: &mut Meter, undos: Vec<Undo>)
    requires { keys meter.old ≡ held plan.now }
    ensures { meter.new ≡ all_undone undos.items meter.old }
{
    let mut undos = undos;
    while let Some(undo) = undos.pop() {
        meter.undo(plan, undo);
    }
}
