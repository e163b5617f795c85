//! What the cells of a meter held when they were looked at last.
ghost use Rattle.std.specs.Prelude.{◌≡◌, ◌++◌, flat_map, map, IfOk, OnOk};
ghost use Rattle.cosem_data.specs.View.{tree};
ghost use Rattle.cosem_data.specs.Equal.{same_tree};
ghost use Rattle.meter_theory.specs.Plan.{cells};
ghost use Rattle.meter_theory.specs.State.{keys, value};
ghost use Rattle.meter_theory.specs.States.{IsState};
ghost use Rattle.line_words.specs.Changes.{change_lines, change_of, changes_of, is_buffer, told_part};

use crate::held::is_held;
use crate::moving::{push_rows, push_value_line};
use class_control::judge::elements_of;
use cosem_data::cell::CellRef;
use cosem_data::data::Data;
use cosem_data::memory::Memory;
use object_model::instance::Instance;
use object_model::meter::Meter;
use object_model::plan::Plan;
use std::alloc::Global;
use std::marker::Model;

/// A cell, and the value that it held when it was looked at last. Contracts see the pair.
#[derive(Drop)]
struct Kept {
    cell: CellRef,
    value: Data,
}

impl Model for Kept {
    ghost use Rattle.std.specs.Coded.{coded×};
    ghost use Rattle.cosem_data.specs.Tree.{Tree};
    ghost use Rattle.cosem_data.specs.TreeCode.{tree_code};
    ghost use Rattle.cosem_data.specs.View.{tree};
    ghost use Rattle.cosem_data.specs.declared.cell.CellRef.{CellRef as Cell};
    ghost use Rattle.meter_theory.specs.PlanCode.{cell_code};

    ghost Value = { Cell × Tree };

    ghost coded = { coded× cell_code tree_code };

    ghost view = { λ k. (k.cell, tree k.value) };
}

/// What the cells of a meter held when they were looked at last. Contracts see the part of the state that is told: a value for
/// each cell of the plan, in plan order. An inner clock isn't watched (own profile).
#[derive(Drop)]
pub struct Watch {
    kept: Vec<Kept>,
}

impl Model for Watch {
    ghost use Rattle.meter_theory.specs.State.{State};
    ghost use Rattle.meter_theory.specs.PlanCode.{state_code};

    ghost Value = { State };

    ghost coded = { state_code };

    ghost view = { λ w. w.kept.items };
}

impl Watch {
    /// What a meter of the plan holds.
    ///
    /// # Errors
    /// `Memory` where memory is refused.
    pub fn new(alloc: Global, plan: &Plan, meter: &Meter) -> Result<Watch, Memory>
        requires { IsState plan.now meter.now }
        ensures { IfOk result (λ watch. watch ≡ told_part plan.now meter.now) }
    {
        let cells = plan.cells(alloc)?;
        let mut kept = Vec::with_capacity(alloc, cells.len())?;
        for cell in &cells {
            kept.push(Kept {
                cell: *cell,
                value: meter.value(alloc, plan, cell)?,
            })?;
        }
        Ok(Watch { kept })
    }

    /// The lines of the cells whose value isn't the one that was kept, each of which is kept from now on.
    pub(crate) fn changes(
        &mut self,
        alloc: Global,
        plan: &Plan,
        meter: &Meter,
    ) -> Result<Vec<u8>, Memory>
        requires of_plan { IsState plan.now meter.now }
        requires watched { keys self.old ≡ cells plan.now }
        ensures told { IfOk result (λ lines. lines.items
            ≡ change_lines self.old (told_part plan.now meter.now)) }
        ensures kept { OnOk result (self.new ≡ told_part plan.now meter.now) }
    {
        plan.known();
        let mut lines = Vec::new(alloc);
        look_at_all(alloc, plan, meter, &mut self.kept, &mut lines)?;
        Ok(lines)
    }
}

/// Whether a cell holds what was kept of it.
fn is_unchanged(meter: &Meter, instance: &Instance<'_>, kept: &Kept) -> bool
    requires of_plan { IsState instance.now.plan meter.now }
    requires named { kept.now.0.name ≡ instance.now.name }
    ensures { result ≡ same_tree kept.now.1 (value meter.now kept.now.0) }
{
    match meter.held(instance, &kept.cell) {
        Some(held) => is_held(&kept.value, &held),
        None => kept.value == Data::NullData,
    }
}

/// Whether a cell is the buffer of a profile (IEC 62056-6-2, Profile generic).
fn is_buffer(cell: &CellRef) -> bool
    ensures { result ≡ is_buffer cell.now }
{
    cell.class_id == 7 && cell.index == 2
}

/// Puts the lines of a cell that holds another value than before behind others.
#[tactic(auto, unfolding(crate::specs::Changes::changes_of))]
fn push_changes(
    alloc: Global,
    cell: &CellRef,
    before: &Data,
    now: &Data,
    lines: &mut Vec<u8>,
) -> Result<(), Memory>
    ensures { OnOk result (lines.new.items
        ≡ lines.old.items ++ changes_of cell.now (tree before.now) (tree now.now)) }
{
    if is_buffer(cell) {
        push_rows(alloc, cell, elements_of(before), elements_of(now), lines)
    } else {
        push_value_line(alloc, cell, b" is now ", now, lines)
    }
}

/// Looks at a cell again, and puts its line behind others if its value isn't the one that was kept.
#[tactic(auto, unfolding(crate::specs::Changes::change_of))]
fn look_at(
    alloc: Global,
    plan: &Plan,
    meter: &Meter,
    kept: &mut Kept,
    lines: &mut Vec<u8>,
) -> Result<(), Memory>
    requires { IsState plan.now meter.now }
    ensures told { OnOk result (lines.new.items
        ≡ lines.old.items ++ change_of kept.old.0 kept.old.1 (value meter.now kept.old.0)) }
    ensures kept { OnOk result (kept.new ≡ (kept.old.0, value meter.now kept.old.0)) }
{
    let instance = plan.instance(&kept.cell.name);
    if !is_unchanged(meter, &instance, kept) {
        let now = meter.value_at(alloc, &instance, &kept.cell)?;
        push_changes(alloc, &kept.cell, &kept.value, &now, lines)?;
        kept.value = now;
    }
    Ok(())
}

/// Looks at cells again, and puts the lines of those whose value isn't the one that was kept behind others.
fn look_at_all(
    alloc: Global,
    plan: &Plan,
    meter: &Meter,
    kept: &mut [Kept],
    lines: &mut Vec<u8>,
) -> Result<(), Memory>
    requires { IsState plan.now meter.now }
    ensures told { OnOk result (lines.new.items
        ≡ lines.old.items ++ flat_map (λ e. change_of e.0 e.1 (value meter.now e.0)) kept.old) }
    ensures kept { OnOk result (kept.new ≡ map (λ e. (e.0, value meter.now e.0)) kept.old) }
{
    for one in kept.iter_mut() {
        look_at(alloc, plan, meter, one, lines)?;
    }
    Ok(())
}
