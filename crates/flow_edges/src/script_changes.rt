//! The cells that scripts change, by their numbers: those of each script of a plan, found once.
ghost use Rattle.std.specs.Prelude.{◌≡◌, ◌<◌, ◌≤◌, ◌==◌, ◌||◌, ◌++◌, ℕ, List, false, Some, OnOk, IfOk, flat_map, length, map, get_or, slice_get};
ghost use Rattle.std.specs.List.{list_any};
ghost use Rattle.class_control.specs.ActionView.{action_of};
ghost use Rattle.class_control.specs.ScriptView.{script_of};
ghost use Rattle.cosem_data.specs.declared.cell.CellRef.{CellRef as CellValue};
ghost use Rattle.meter_theory.specs.declared.refs.ScriptRef.{ScriptRef as ScriptValue};
ghost use Rattle.meter_theory.specs.Lists.{IsIn};
ghost use Rattle.meter_theory.specs.Plan as plans;
ghost use Rattle.meter_theory.specs.Edges as theory;
ghost use Rattle.meter_theory.specs.Steps.{actions_effects, changed, scripts_of};
ghost use Rattle.meter_effects.specs.Planned.{AreOf};
ghost use Rattle.meter_effects.specs.Targets.{AreFew, AreTargets};
ghost use Rattle.object_model.specs.Tables.{place_of_script};
ghost use Rattle.flow_edges.specs.Marking.{numbers_of, numbers_of_script};

use class_control::action::Action;
use class_control::script::Script;
use cosem_data::cell::CellRef;
use cosem_data::memory::Memory;
use meter_effects::walk::{Planned, Visitor, each_of_actions};
use object_model::instance::Instance;
use object_model::object::Object;
use object_model::part::Part;
use object_model::plan::Plan;
use object_model::script_places::ScriptPlace;
use std::alloc::Global;
use std::marker::Model;

/// The numbers of the cells that the effects change to which a walk came, in its order.
#[derive(Drop)]
struct Numbers {
    numbers: Vec<u16>,
}

impl Visitor for Numbers {
    ghost use Rattle.flow_edges.specs.Marking.{NumbersMore};

    type Stop = Memory;

    ghost meets = { NumbersMore };

    fn visit(&mut self, object: &Instance<'_>, effect: &Planned<'_>) -> Result<(), Memory> {
        let changed = effect.changed();
        push_numbers(object, changed.as_slice(), &mut self.numbers)
    }
}

/// Puts the numbers of those of these cells of an object behind the others that are cells of the plan.
fn push_numbers(
    object: &Instance<'_>,
    cells: &[CellRef],
    numbers: &mut Vec<u16>,
) -> Result<(), Memory>
    requires { AreOf object.now.name cells.now }
    ensures { OnOk result (numbers.new.items
        ≡ numbers.old.items ++ numbers_of object.now.plan cells.now) }
{
    for cell in cells {
        if let Some(number) = object.cell_number(cell.class_id, cell.index) {
            numbers.push(number)?;
        }
    }
    Ok(())
}

/// The numbers of the cells that actions change, whose targets begin at this place among those to which their table refers.
fn changed_by_actions(
    alloc: Global,
    table: &Instance<'_>,
    start: usize,
    actions: &[Action],
) -> Result<Vec<u16>, Memory>
    requires targets { AreTargets table.now start (map action_of actions.now) }
    requires few { start ≤ 2048 }
    ensures { IfOk result (λ numbers. numbers.items ≡ numbers_of table.now.plan
        (changed (actions_effects table.now.plan (map action_of actions.now)))) }
{
    let mut changed = Numbers {
        numbers: Vec::new(alloc),
    };
    each_of_actions(table, start, actions, &mut changed)?;
    Ok(changed.numbers)
}

/// The numbers of the cells that each script of a table changes, whose scripts these are.
fn changed_by_scripts(
    alloc: Global,
    table: &Instance<'_>,
    scripts: &[Script],
) -> Result<Vec<Vec<u16>>, Memory>
    requires few { AreFew scripts.now }
    requires targets { AreTargets table.now 0
        (flat_map (λ s. map action_of s.actions.items) scripts.now) }
    ensures { IfOk result (λ lists. map (λ numbers. numbers.items) lists.items
        ≡ map (numbers_of_script table.now.plan) (map script_of scripts.now)) }
{
    let mut lists = Vec::with_capacity(alloc, scripts.len())?;
    let mut start = 0;
    for script in scripts {
        lists.push(changed_by_actions(alloc, table, start, &script.actions)?)?;
        start += script.actions.len();
    }
    Ok(lists)
}

/// The numbers of the cells that each script of the object with this number changes; none has one that is no table.
fn changed_by_object(
    alloc: Global,
    plan: &Plan,
    number: u16,
    object: &Object,
) -> Result<Vec<Vec<u16>>, Memory>
    requires { slice_get plan.now.objects number ≡ Some object.now }
    ensures { IfOk result (λ lists. map (λ numbers. numbers.items) lists.items
        ≡ map (numbers_of_script plan.now) (scripts_of object.now.part)) }
{
    plan.known();
    match object.part() {
        Part::ScriptTable(part) => {
            changed_by_scripts(alloc, &plan.instance_of(number), &part.scripts)
        }
        _ => Ok(Vec::new(alloc)),
    }
}

/// The cells of a plan that its scripts change, by the numbers of tables, places of scripts, and numbers of cells. Contracts see the
/// plan.
#[derive(Drop)]
pub(crate) struct ScriptChanges<'a> {
    plan: &'a Plan,
    tables: Vec<Vec<Vec<u16>>>,
}

impl<'a> Model for ScriptChanges<'a> {
    ghost use Rattle.std.specs.Prelude.{map};
    ghost use Rattle.meter_theory.specs.Plan as theory;
    ghost use Rattle.meter_theory.specs.PlanCode.{plan_code};
    ghost use Rattle.flow_edges.specs.Marking.{AreChanges};

    ghost Value = { theory.Plan };

    ghost coded = { plan_code };

    ghost view = { λ s. s.plan.now };

    ghost invariant = { λ s. AreChanges s.plan.now
        (map (λ lists. map (λ numbers. numbers.items) lists.items) s.tables.items) };
}

impl<'a> ScriptChanges<'a> {
    /// Those of a plan. The only error is want of memory.
    pub(crate) fn new(alloc: Global, plan: &'a Plan) -> Result<Self, Memory>
        ensures { IfOk result (λ changes. changes ≡ plan.now) }
    {
        plan.known();
        let objects = plan.objects();
        let mut tables = Vec::with_capacity(alloc, objects.len())?;
        for (number, object) in objects.iter().enumerate() {
            tables.push(changed_by_object(alloc, plan, number as u16, object)?)?;
        }
        Ok(ScriptChanges { plan, tables })
    }

    /// Marks the cells that the script changes which stands here.
    pub(crate) fn mark(&self, script: ScriptPlace, marks: &mut Vec<bool>)
        requires marks { length marks.old.items ≡ length (plans.cells self.now) }
        requires stands { (r : ScriptValue) × (place_of_script self.now.objects r ≡ Some script) }
        ensures size { length marks.new.items ≡ length marks.old.items }
        ensures marked { (r : ScriptValue) (before : List CellValue) →
            place_of_script self.now.objects r ≡ Some script →
            marks.old.items ≡ map (theory.among before) (plans.cells self.now) →
            marks.new.items ≡ map (theory.among (before ++ theory.script_changes self.now r)) (plans.cells self.now) }
    {
        self.plan.known();
        let Some(place) = script.place else {
            return;
        };
        let scripts = &self.tables[usize::from(script.table)];
        mark_all(&scripts[usize::from(place)], marks);
    }
}

/// Sets the marks with these numbers, and leaves the others.
fn mark_all(numbers: &[u16], marks: &mut Vec<bool>)
    requires { (n : ℕ) → IsIn numbers.now n → n < length marks.old.items }
    ensures size { length marks.new.items ≡ length marks.old.items }
    ensures marked { (k : ℕ) → k < length marks.old.items → get_or marks.new.items k false
        ≡ (get_or marks.old.items k false || list_any (λ n. n == k) numbers.now) }
{
    for number in numbers {
        marks[usize::from(*number)] = true;
    }
}
