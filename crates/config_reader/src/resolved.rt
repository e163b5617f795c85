//! What the names of a configuration without faults lead to.
ghost use Rattle.std.specs.Prelude.{◌≡◌, IfOk, map};
ghost use Rattle.object_model.specs.PolicyView as model;
ghost use Rattle.config_rules.specs.Faultless.{IsFaultless, IsPolicyOf};
ghost use Rattle.config_rules.specs.PlanOf as plan;

use crate::laws::faultless_configurations_have_room;
use crate::objects::objects_of;
use crate::policy::policy_parts;
use config_judge::directory::Directory;
use cosem_data::memory::Memory;
use object_model::object::Object;
use object_model::policy::PolicyParts;
use std::alloc::Global;

/// What is made of a configuration while its names are looked up: the rest is moved into the plan behind it.
#[derive(Drop)]
pub(crate) struct Resolved {
    /// The objects, in plan order.
    pub objects: Vec<Object>,
    /// The labels of cells.
    pub policy: PolicyParts,
}

/// What the names of a configuration without faults lead to.
pub(crate) fn resolve(alloc: Global, directory: &Directory) -> Result<Resolved, Memory>
    requires faultless { IsFaultless directory.now.config.now }
    ensures objects { IfOk result (λ resolved. resolved.objects.items
        ≡ map (plan.object_of directory.now.config.now) directory.now.config.now.objects) }
    ensures policy { IfOk result (λ resolved.
        IsPolicyOf directory.now.config.now (model.policy_of resolved.policy)) }
{
    faultless_configurations_have_room();
    let config = directory.config;
    let objects = objects_of(alloc, directory, config.objects.as_slice())?;
    let policy = policy_parts(alloc, directory)?;
    Ok(Resolved { objects, policy })
}
