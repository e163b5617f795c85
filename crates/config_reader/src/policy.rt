//! The policy of a configuration without faults: who may influence each cell, and who may learn it (own profile).
ghost use Rattle.std.specs.Prelude.{◌≡◌, ◌≤◌, IfOk, length, map, string_bytes};
ghost use Rattle.meter_theory.specs.declared.limits.TheConstants.{CLIENTS};
ghost use Rattle.object_model.specs.PolicyView as model;
ghost use Rattle.config_rules.specs.Faultless.{AreLabelsOf, HasNamed, IsFaultless, IsLabelOf, IsPolicyOf};
ghost use Rattle.config_rules.specs.PlanOf as theory;

use crate::clients::client_place;
use crate::laws::faultless_configurations_have_room;
use config_judge::directory::Directory;
use config_judge::targets::cell_named;
use config_text::parts::{LabelParts, SetsParts};
use cosem_data::cell::CellRef;
use cosem_data::clients::ClientSet;
use cosem_data::memory::Memory;
use meter_theory::flow::Label;
use object_model::policy::PolicyParts;
use std::alloc::Global;

/// The clients with these names.
fn clients_named(directory: &Directory, names: &[String]) -> ClientSet
    requires few { length directory.now.config.now.clients ≤ CLIENTS }
    ensures { HasNamed directory.now.config.now (map string_bytes names.now) result }
{
    let config = directory.config;
    let clients = config.clients.as_slice();
    let mut set = ClientSet::new();
    for name in names {
        set = set.with(client_place(clients, name.as_str()));
    }
    set
}

/// Who may influence a cell, and who may learn it.
fn label_of(directory: &Directory, sets: &SetsParts) -> Label
    requires few { length directory.now.config.now.clients ≤ CLIENTS }
    ensures { IsLabelOf directory.now.config.now sets.now result }
{
    Label {
        influence: clients_named(directory, sets.influence.as_slice()),
        learn: clients_named(directory, sets.learn.as_slice()),
    }
}

/// The cells with labels of their own, in the configuration's order.
fn labels_of(
    alloc: Global,
    directory: &Directory,
    labels: &[LabelParts],
) -> Result<Vec<(CellRef, Label)>, Memory>
    requires few { length directory.now.config.now.clients ≤ CLIENTS }
    ensures { IfOk result (λ table. AreLabelsOf directory.now.config.now labels.now table.items) }
{
    let mut table = Vec::with_capacity(alloc, labels.len())?;
    for label in labels {
        let cell = cell_named(directory, &label.target);
        table.push((cell, label_of(directory, &label.sets)))?;
    }
    Ok(table)
}

/// What makes the policy of a configuration without faults.
pub(crate) fn policy_parts(alloc: Global, directory: &Directory) -> Result<PolicyParts, Memory>
    requires faultless { IsFaultless directory.now.config.now }
    ensures { IfOk result (λ parts. IsPolicyOf directory.now.config.now (model.policy_of parts)) }
{
    faultless_configurations_have_room();
    let config = directory.config;
    Ok(PolicyParts {
        table: labels_of(alloc, directory, config.labels.as_slice())?,
        default: label_of(directory, &config.policy),
    })
}
