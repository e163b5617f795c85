//! The plan of a configuration without faults.
ghost use Rattle.std.specs.Prelude.{◌≡◌, IfOk, map};
ghost use Rattle.object_model.specs.PlanView as model;
ghost use Rattle.config_rules.specs.Faultless.{IsFaultless};
ghost use Rattle.config_rules.specs.PlanOf as plan;

use crate::clients::{clients_of, rights_of};
use crate::laws::faultless_configurations_have_room;
use config_rules::laws::faultless_configurations_are_sound;
use config_text::parts::ConfigParts;
use cosem_data::memory::Memory;
use object_model::object::Object;
use object_model::plan::{Plan, PlanParts};
use std::alloc::Global;

/// The lists that make the plan of a configuration without faults, of which these are the objects.
fn plan_parts(alloc: Global, config: ConfigParts, objects: Vec<Object>) -> Result<PlanParts, Memory>
    requires faultless { IsFaultless config }
    requires objects { objects.items ≡ map (plan.object_of config) config.objects }
    ensures { IfOk result (λ parts. model.plan_of parts ≡ plan.plan_of config) }
{
    faultless_configurations_have_room();
    let ConfigParts {
        version,
        clients,
        rights,
        ..
    } = config;
    let rights = rights_of(alloc, clients.as_slice(), rights)?;
    let clients = clients_of(alloc, clients)?;
    Ok(PlanParts {
        version,
        clients,
        objects,
        rights,
    })
}

/// The plan of a configuration without faults, of which these are the objects. What no name leads to is moved into it.
pub(crate) fn plan_of(
    alloc: Global,
    config: ConfigParts,
    objects: Vec<Object>,
) -> Result<Plan, Memory>
    requires faultless { IsFaultless config }
    requires objects { objects.items ≡ map (plan.object_of config) config.objects }
    ensures { IfOk result (λ made. made ≡ plan.plan_of config) }
{
    faultless_configurations_are_sound();
    Plan::new(alloc, plan_parts(alloc, config, objects)?)
}
