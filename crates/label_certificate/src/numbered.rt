//! Labels by the numbers of their cells.
ghost use Rattle.std.specs.Prelude.{◌≡◌, ◌∷◌, ◌++◌, [], IfOk, length, map};
ghost use Rattle.meter_theory.specs.Labels as theory;
ghost use Rattle.meter_theory.specs.Labels.{label_at, labelling_of_policy, nobody, or_else, policy_source};
ghost use Rattle.meter_theory.specs.Lists.{IsIn};
ghost use Rattle.meter_theory.specs.Plan as plans;

use cosem_data::cell::CellRef;
use cosem_data::clients::ClientSet;
use cosem_data::memory::Memory;
use meter_theory::flow::Label;
use object_model::plan::Plan;
use object_model::policy::Policy;
use std::alloc::Global;

/// For each cell of the plan the label of its first entry, if it has one. The only error is want of memory.
pub fn labels_by_number(
    alloc: Global,
    plan: &Plan,
    count: usize,
    entries: &[(CellRef, Label)],
) -> Result<Vec<Option<Label>>, Memory>
    requires { count ≡ length (plans.cells plan.now) }
    ensures { IfOk result (λ found. found.items ≡ map (label_at entries.now) (plans.cells plan.now)) }
{
    let mut found = vec![in alloc; None; count]?;
    for entry in entries {
        put_first(plan, entry, &mut found);
    }
    Ok(found)
}

/// Puts the label of an entry in the place of its cell, unless one is there.
fn put_first(plan: &Plan, entry: &(CellRef, Label), found: &mut Vec<Option<Label>>)
    requires { length found.old.items ≡ length (plans.cells plan.now) }
    ensures { (before : theory.Labels) →
        found.old.items ≡ map (label_at before) (plans.cells plan.now) →
        found.new.items ≡ map (label_at (before ++ entry.now ∷ [])) (plans.cells plan.now) }
{
    plan.known();
    let (cell, label) = *entry;
    let Some(number) = plan.cell_number(&cell) else {
        return;
    };
    let place = usize::from(number);
    if found[place].is_none() {
        found[place] = Some(label);
    }
}

/// The label that each cell has; a cell without one is influenced and learned by nobody. The only error is want of memory.
pub fn labels_or_nobody(alloc: Global, found: &[Option<Label>]) -> Result<Vec<Label>, Memory>
    ensures { IfOk result (λ given. given.items
        ≡ map (or_else (record { influence = nobody; learn = nobody })) found.now) }
{
    let mut given = Vec::with_capacity(alloc, found.len())?;
    for label in found {
        given.push(label_or_nobody(label))?;
    }
    Ok(given)
}

/// A label, or that which lets nobody influence and learn.
fn label_or_nobody(label: &Option<Label>) -> Label
    ensures { result ≡ or_else (record { influence = nobody; learn = nobody }) label.now }
{
    match label {
        Some(label) => *label,
        None => Label {
            influence: ClientSet::new(),
            learn: ClientSet::new(),
        },
    }
}

/// For each cell of the plan the label that the policy gives it. The only error is want of memory.
pub fn policy_labels(
    alloc: Global,
    plan: &Plan,
    cells: &[CellRef],
    policy: &Policy,
) -> Result<Vec<Label>, Memory>
    requires { cells.now ≡ plans.cells plan.now }
    ensures { IfOk result (λ allowed. allowed.items
        ≡ map (labelling_of_policy plan.now policy.now) (plans.cells plan.now)) }
{
    let own = labels_by_number(alloc, plan, cells.len(), policy.table())?;
    let mut allowed = Vec::with_capacity(alloc, cells.len())?;
    for cell in cells {
        allowed.push(policy_label(plan, policy.default_label(), &own, cell))?;
    }
    Ok(allowed)
}

/// The label that a policy gives a cell: that of the cell whose label it takes, or else the default.
fn policy_label(plan: &Plan, default: Label, own: &[Option<Label>], cell: &CellRef) -> Label
    requires cell { IsIn (plans.cells plan.now) cell.now }
    requires own { length own.now ≡ length (plans.cells plan.now) }
    ensures { (table : theory.Labels) → own.now ≡ map (label_at table) (plans.cells plan.now) →
        result ≡ labelling_of_policy plan.now (record { table = table; default = default }) cell.now }
{
    plan.known();
    match plan.cell_number(&source_of(plan, cell)) {
        Some(number) => own[usize::from(number)].unwrap_or(default),
        None => unreachable!(),
    }
}

/// The cell whose label a policy takes for a cell: for what a register monitor has seen that is its monitored value.
pub fn source_of(plan: &Plan, cell: &CellRef) -> CellRef
    ensures { result ≡ policy_source plan.now cell.now }
{
    if cell.index != 0 {
        return *cell;
    }
    match plan.object_at(&cell.name) {
        Some(object) => object.part().monitored().unwrap_or(*cell),
        None => *cell,
    }
}
