//! The policy of a plan: who may influence and who may learn what each cell holds (own profile).
ghost use Rattle.std.specs.Prelude.{◌≡◌, IfOk, IsOk, option_map, find};
ghost use Rattle.cosem_data.specs.Cells.{same_cell};
ghost use Rattle.meter_theory.specs.Labels.{label_at, or_else};
ghost use Rattle.object_model.specs.PolicyView.{policy_of};

use crate::plan::Plan;
use cosem_data::cell::CellRef;
use cosem_data::memory::Memory;
use meter_theory::flow::Label;
use std::alloc::Global;
use std::marker::Model;

/// What makes a policy.
#[derive(Drop)]
pub struct PolicyParts {
    /// Cells with a label of their own, in the order of the configuration.
    pub table: Vec<(CellRef, Label)>,
    /// The label of each other cell.
    pub default: Label,
}

/// A label for every cell: that of its first entry in a table, or else the default (own profile).
#[derive(Drop)]
pub struct Policy {
    table: Vec<(CellRef, Label)>,
    default: Label,
}

impl Model for Policy {
    ghost use Rattle.meter_theory.specs.Labels as theory;

    ghost Value = { theory.Policy };

    ghost view = { λ p. record { table = p.table.items; default = p.default } };
}

impl Policy {
    /// The policy of these parts for this plan. It takes no memory, and gives no error.
    pub fn new(_plan: &Plan, parts: PolicyParts) -> Result<Policy, Memory>
        ensures policy { IfOk result (λ policy. policy ≡ policy_of parts) }
        ensures good { IsOk result }
    {
        let PolicyParts { table, default } = parts;
        Ok(Policy { table, default })
    }

    /// Cells with a label of their own, in the order of the configuration.
    pub fn table(&self) -> &[(CellRef, Label)]
        ensures { result.now ≡ self.now.table }
    {
        &self.table
    }

    /// The label of each cell without one of its own.
    pub fn default_label(&self) -> Label
        ensures { result ≡ self.now.default }
    {
        self.default
    }

    /// Another policy like this one. The only error is want of memory.
    pub fn try_clone(&self, alloc: Global) -> Result<Policy, Memory>
        ensures { IfOk result (λ policy. policy ≡ self.now) }
    {
        let mut table = Vec::with_capacity(alloc, self.table.len())?;
        table.extend_from_slice(&self.table)?;
        Ok(Policy {
            table,
            default: self.default,
        })
    }

    /// The label of a cell: that of the first entry of the cell, or else the default. The inner cell of a register monitor
    /// has no entry of its own, and is labelled by the policy as the cell that the monitor watches (own profile): ask for
    /// that one.
    pub fn label(&self, cell: &CellRef) -> Label
        ensures { result ≡ or_else self.now.default (label_at self.now.table cell.now) }
    {
        match first_entry(&self.table, cell) {
            Some(entry) => entry.1,
            None => self.default,
        }
    }
}

/// The first entry of a cell.
fn first_entry<'a>(table: &'a [(CellRef, Label)], cell: &CellRef) -> Option<&'a (CellRef, Label)>
    ensures { option_map (λ entry. entry.now) result
        ≡ find (λ entry. same_cell entry.0 cell.now) table.now }
{
    table.iter().find(|entry| entry.0 == *cell)
}
