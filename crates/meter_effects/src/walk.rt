//! What methods and scripts do, as the plan has it: each effect in order, shown to a visitor, without memory (IEC 62056-6-2,
//! Register, Profile generic, Script table).
ghost use Rattle.std.specs.Prelude.{◌≡◌, ◌==◌, ◌≤◌, ◌∷◌, [], Some, map, flat_map, find, slice_get, option_map, OnOk, IsOk, IfSome};
ghost use Rattle.std.specs.List.{FoldsTo};
ghost use Rattle.meter_theory.specs.Edges.{scripts_effects, scripts_named};
ghost use Rattle.meter_theory.specs.Labels.{all_scripts, calls_effects};
ghost use Rattle.meter_theory.specs.Lists.{for_some};
ghost use Rattle.meter_theory.specs.Menus.{alternatives};
ghost use Rattle.meter_theory.specs.Plan.{object_at};
ghost use Rattle.meter_theory.specs.Steps as theory;
ghost use Rattle.class_control.specs.ActionView.{action_of};
ghost use Rattle.class_control.specs.PartView.{scripts_of_part};
ghost use Rattle.class_control.specs.ScriptView.{script_of};
ghost use Rattle.cosem_class.specs.Parts.{target};
ghost use Rattle.object_model.specs.ArgumentView.{argument_of};
ghost use Rattle.object_model.specs.Tables.{references_at};
ghost use Rattle.meter_effects.specs.Planned.{named_by, planned_of};
ghost use Rattle.meter_effects.specs.Targets.{named_script, AreFew, AreTargets, StartsAt};

use class_control::action::Action;
use class_control::parts::SchedulePart;
use class_control::script::Script;
use cosem_data::cell::{CellRef, MethodRef};
use cosem_data::data::Data;
use cosem_data::name::LogicalName;
use meter_theory::refs::{ScriptRef, UpDown};
use object_model::argument::Argument;
use object_model::cells::{Changed, changed_by_write, register_value};
use object_model::instance::Instance;
use object_model::object::Object;
use object_model::part::Part;
use object_model::plan::Plan;

/// An effect as the plan has it: what it puts is lent, so that nothing is copied (own profile).
#[derive(Clone, Copy)]
pub enum Planned<'a> {
    /// The value goes into the cell.
    Put(CellRef, &'a Data),
    /// The profile with this name captures (IEC 62056-6-2, Profile generic, capture).
    Capture(LogicalName),
    /// The profile with this name is emptied (IEC 62056-6-2, Profile generic, reset).
    Clear(LogicalName),
}

impl Planned<'_> {
    /// The cells that it changes.
    pub fn changed(&self) -> Changed
        ensures { result ≡ theory.changed_by (planned_of self.now) }
    {
        match self {
            Planned::Put(cell, _) => changed_by_write(*cell),
            Planned::Capture(profile) | Planned::Clear(profile) => Changed::entries(*profile),
        }
    }
}

/// What is shown the effects to which a walk comes.
pub trait Visitor {
    ghost use Rattle.std.specs.Prelude.{◌≡◌, OnOk};
    ghost use Rattle.meter_theory.specs.Plan as plans;
    ghost use Rattle.meter_theory.specs.Steps as theory;
    ghost use Rattle.meter_effects.specs.Planned.{named_by, planned_of};

    /// Why a walk is ended early.
    type Stop;

    /// Over the plan the effect leads from the old to the new.
    ghost meets: { plans.Plan → Self → theory.Effect → Self → Type 0 };

    /// Is shown an effect, the next in order, with the object that it changes, which the walk comes to without a search. An error
    /// ends the walk.
    fn visit(&mut self, object: &Instance<'_>, effect: &Planned<'_>) -> Result<(), Self::Stop>
        requires { named_by (planned_of effect.now) ≡ object.now.name }
        ensures { OnOk result (meets object.now.plan self.old (planned_of effect.now) self.new) };
}

/// Shows the effects of the script of a table with this number, in their order; the null script and one that the table lacks
/// are without. The only error is the visitor's.
pub fn each_of_script<V: Visitor>(
    table: &Instance<'_>,
    script: u16,
    visitor: &mut V,
) -> Result<(), V::Stop>
    ensures ok { OnOk result (FoldsTo (V.meets table.now.plan) visitor.old (theory.effects_of_script table.now.plan
        (record { table = table.now.name; script = script }))
        visitor.new) }
    ensures none { theory.effects_of_script table.now.plan
        (record { table = table.now.name; script = script }) ≡ [] → IsOk result }
{
    match script_at(table, script) {
        Some((start, found)) => each_of_actions(table, start, &found.actions, visitor),
        None => Ok(()),
    }
}

/// Shows the effects of a method that is called with this argument: of execute those of the script with that number, of
/// reset and capture their own. The only error is the visitor's.
pub fn each_of_method<V: Visitor>(
    plan: &Plan,
    method: &MethodRef,
    argument: &Argument,
    visitor: &mut V,
) -> Result<(), V::Stop>
    ensures ok { OnOk result (FoldsTo (V.meets plan.now) visitor.old
        (theory.method_effects plan.now method.now (argument_of argument.now)) visitor.new) }
    ensures none { theory.method_effects plan.now method.now (argument_of argument.now) ≡ [] →
        IsOk result }
{
    each_of_method_at(&plan.instance(&method.name), method, argument, visitor)
}

/// As `each_of_method`, of what was looked up at the method's name.
pub(crate) fn each_of_method_at<V: Visitor>(
    instance: &Instance<'_>,
    method: &MethodRef,
    argument: &Argument,
    visitor: &mut V,
) -> Result<(), V::Stop>
    requires { method.now.name ≡ instance.now.name }
    ensures ok { OnOk result (FoldsTo (V.meets instance.now.plan) visitor.old
        (theory.method_effects instance.now.plan method.now (argument_of argument.now)) visitor.new) }
    ensures none { theory.method_effects instance.now.plan method.now (argument_of argument.now) ≡ []
        → IsOk result }
{
    let Some(object) = instance.object() else {
        return Ok(());
    };
    match object.part() {
        Part::ScriptTable(_) => match argument.script_number() {
            Some(script) => each_of_script(instance, script, visitor),
            None => Ok(()),
        },
        _ => each_of_plain_method(instance, object, method.index, visitor),
    }
}

/// Shows the effects that calls of a method may have, whatever they are given: of execute those of each script of its table,
/// of reset and capture their own. The only error is the visitor's.
pub fn each_of_calls<V: Visitor>(
    plan: &Plan,
    method: &MethodRef,
    visitor: &mut V,
) -> Result<(), V::Stop>
    ensures { OnOk result (FoldsTo (V.meets plan.now) visitor.old (calls_effects plan.now method.now) visitor.new) }
{
    each_of_calls_at(&plan.instance(&method.name), method, visitor)
}

/// As `each_of_calls`, of what was looked up at the method's name.
pub fn each_of_calls_at<V: Visitor>(
    instance: &Instance<'_>,
    method: &MethodRef,
    visitor: &mut V,
) -> Result<(), V::Stop>
    requires { method.now.name ≡ instance.now.name }
    ensures { OnOk result (FoldsTo (V.meets instance.now.plan) visitor.old
        (calls_effects instance.now.plan method.now) visitor.new) }
{
    instance.plan().known();
    let Some(object) = instance.object() else {
        return Ok(());
    };
    match object.part() {
        Part::ScriptTable(part) => each_of_table(instance, &part.scripts, visitor),
        _ => each_of_plain_method(instance, object, method.index, visitor),
    }
}

/// Shows the effects of the scripts of a register monitor's actions, action by action, up before down (IEC 62056-6-2, Register
/// monitor). The only error is the visitor's.
pub fn each_of_monitor<V: Visitor>(
    plan: &Plan,
    actions: &[UpDown],
    visitor: &mut V,
) -> Result<(), V::Stop>
    ensures { OnOk result (FoldsTo (V.meets plan.now) visitor.old
        (scripts_effects plan.now (scripts_named actions.now)) visitor.new) }
{
    for action in actions {
        each_of_named(plan, &action.up, visitor)?;
        each_of_named(plan, &action.down, visitor)?;
    }
    Ok(())
}

/// Shows the effects of the scripts that a schedule may run, alternative by alternative (IEC 62056-6-2, Single action schedule;
/// the menu is own profile). The only error is the visitor's.
pub fn each_of_schedule<V: Visitor>(
    plan: &Plan,
    part: &SchedulePart,
    visitor: &mut V,
) -> Result<(), V::Stop>
    ensures { OnOk result (FoldsTo (V.meets plan.now) visitor.old
        (scripts_effects plan.now (alternatives (scripts_of_part part.now))) visitor.new) }
{
    each_of_named(plan, &part.executed_script, visitor)?;
    each_of_scripts(plan, &part.menu, visitor)
}

/// Shows the effects of each of these scripts.
fn each_of_scripts<V: Visitor>(
    plan: &Plan,
    scripts: &[ScriptRef],
    visitor: &mut V,
) -> Result<(), V::Stop>
    ensures { OnOk result (FoldsTo (V.meets plan.now) visitor.old
        (scripts_effects plan.now scripts.now) visitor.new) }
{
    for script in scripts {
        each_of_named(plan, script, visitor)?;
    }
    Ok(())
}

/// Shows the effects of the script with this name, in their order. The only error is the visitor's.
pub fn each_of_named<V: Visitor>(
    plan: &Plan,
    script: &ScriptRef,
    visitor: &mut V,
) -> Result<(), V::Stop>
    ensures { OnOk result (FoldsTo (V.meets plan.now) visitor.old
        (theory.effects_of_script plan.now script.now) visitor.new) }
{
    each_of_script(&plan.instance(&script.table), script.script, visitor)
}

/// The script of a table with this number, and where its targets begin among those to which the table refers; None for the
/// null script and where there is no such script.
fn script_at<'a>(table: &Instance<'a>, script: u16) -> Option<(usize, &'a Script)>
    ensures found { option_map (λ s. script_of s.1.now) result
        ≡ named_script table.now.plan (record { table = table.now.name; script = script }) }
    ensures targets { IfSome result (λ s. AreTargets table.now s.0
        (map action_of s.1.now.actions.items)) }
    ensures few { IfSome result (λ s. s.0 ≤ 2048) }
{
    table.plan().known();
    match table.object()?.part() {
        Part::ScriptTable(part) => script_in(&part.scripts, script),
        _ => None,
    }
}

/// The first script with this number, and how many actions the scripts before it have.
fn script_in(scripts: &[Script], id: u16) -> Option<(usize, &Script)>
    requires { AreFew scripts.now }
    ensures found { option_map (λ s. s.1.now) result ≡ find (λ s. s.id == id) scripts.now }
    ensures start { IfSome result (λ s. StartsAt scripts.now s.0 s.1.now) }
    ensures few { IfSome result (λ s. s.0 ≤ 2048) }
{
    let mut start = 0;
    for script in scripts {
        if script.id == id {
            return Some((start, script));
        }
        start += script.actions.len();
    }
    None
}

/// Shows the effects of each script of a table, whose scripts these are.
fn each_of_table<V: Visitor>(
    table: &Instance<'_>,
    scripts: &[Script],
    visitor: &mut V,
) -> Result<(), V::Stop>
    requires few { AreFew scripts.now }
    requires targets { AreTargets table.now 0
        (flat_map (λ s. map action_of s.actions.items) scripts.now) }
    ensures { OnOk result (FoldsTo (V.meets table.now.plan) visitor.old
        (all_scripts table.now.plan (map script_of scripts.now)) visitor.new) }
{
    let mut first = 0;
    for script in scripts {
        each_of_actions(table, first, &script.actions, visitor)?;
        first += script.actions.len();
    }
    Ok(())
}

/// Shows the effects of actions, in their order, whose targets begin at this place among those to which a table refers. The only
/// error is the visitor's.
pub fn each_of_actions<V: Visitor>(
    table: &Instance<'_>,
    start: usize,
    actions: &[Action],
    visitor: &mut V,
) -> Result<(), V::Stop>
    requires targets { AreTargets table.now start (map action_of actions.now) }
    requires few { start ≤ 2048 }
    ensures ok { OnOk result (FoldsTo (V.meets table.now.plan) visitor.old
        (theory.actions_effects table.now.plan (map action_of actions.now)) visitor.new) }
    ensures none { theory.actions_effects table.now.plan (map action_of actions.now) ≡ [] → IsOk result }
{
    for (place, action) in actions.iter().enumerate() {
        each_of_action(table, start + place, action, visitor)?;
    }
    Ok(())
}

/// Shows the effect of one action, if it has one, whose target is that to which a table refers at this place.
fn each_of_action<V: Visitor>(
    table: &Instance<'_>,
    place: usize,
    action: &Action,
    visitor: &mut V,
) -> Result<(), V::Stop>
    requires { slice_get (references_at table.now.plan table.now.name) place
        ≡ Some (target (action_of action.now)) }
    ensures ok { OnOk result (FoldsTo (V.meets table.now.plan) visitor.old
        (theory.action_effects table.now.plan (action_of action.now)) visitor.new) }
    ensures none { theory.action_effects table.now.plan (action_of action.now) ≡ [] → IsOk result }
{
    let Some(target) = table.referred(place) else {
        unreachable!();
    };
    match action {
        Action::Write { cell, value } => visitor.visit(&target, &Planned::Put(*cell, value)),
        Action::Invoke { method, .. } => match target.object() {
            Some(object) => each_of_plain_method(&target, object, method.index, visitor),
            None => Ok(()),
        },
    }
}

/// Shows the effect of reset or capture of the object here, if it has such a method.
fn each_of_plain_method<V: Visitor>(
    instance: &Instance<'_>,
    object: &Object,
    method: u8,
    visitor: &mut V,
) -> Result<(), V::Stop>
    requires { Some object.now ≡ object_at instance.now.plan instance.now.name }
    ensures ok { OnOk result (FoldsTo (V.meets instance.now.plan) visitor.old
        (theory.plain_method object.now.name object.now.part method) visitor.new) }
    ensures none { theory.plain_method object.now.name object.now.part method ≡ [] → IsOk result }
{
    match plain_effect(object, method) {
        Some(effect) => visitor.visit(instance, &effect),
        None => Ok(()),
    }
}

/// The effect of reset or capture of an object, or None where it has no such method.
fn plain_effect(object: &Object, method: u8) -> Option<Planned<'_>>
    ensures meant { for_some result (λ effect. planned_of effect ∷ [])
        ≡ theory.plain_method object.now.name object.now.part method }
    ensures named { IfSome result (λ effect. named_by (planned_of effect) ≡ object.now.name) }
{
    let name = object.name();
    match object.part() {
        Part::Register(part) => Some(Planned::Put(register_value(name), &part.default)),
        Part::ProfileGeneric(_) if method == 1 => Some(Planned::Clear(name)),
        Part::ProfileGeneric(_) => Some(Planned::Capture(name)),
        _ => None,
    }
}
