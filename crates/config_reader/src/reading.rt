//! A configuration's text read whole.
ghost use Rattle.std.specs.Prelude.{◌≡◌, IfOk, map};
ghost use Rattle.object_model.specs.PolicyView as model;
ghost use Rattle.config_text.specs.Refusals.{Finds};
ghost use Rattle.config_rules.specs.Faultless.{IsFaultless, IsPolicyOf};
ghost use Rattle.config_rules.specs.Passes.{found};
ghost use Rattle.config_rules.specs.PlanOf as config;
ghost use Rattle.config_rules.specs.Read.{IsRead};
ghost use Rattle.config_reader.specs.ConfigOf.{Reads, ReadsOrRefuses, config_of, faults_of};

use crate::laws::{configurations_are_read, texts_are_refused_by_the_first_fault};
use crate::plan::plan_of;
use crate::resolved::{Resolved, resolve};
use config_judge::directory::Directory;
use config_judge::judge;
use config_text::fault::ConfigFault;
use config_text::parts::ConfigParts;
use config_text::read_tables;
use cosem_data::memory::Memory;
use object_model::plan::Plan;
use object_model::policy::Policy;
use std::alloc::Global;

/// What the names of a configuration lead to, once it is judged.
fn judge_and_resolve(alloc: Global, parts: &ConfigParts) -> Result<Resolved, ConfigFault>
    requires { IsRead parts.now }
    ensures judged { Finds result (found parts.now) }
    ensures objects { IfOk result (λ resolved. resolved.objects.items
        ≡ map (config.object_of parts.now) parts.now.objects) }
    ensures policy { IfOk result (λ resolved. IsPolicyOf parts.now (model.policy_of resolved.policy)) }
{
    let directory = Directory::new(alloc, parts)?;
    judge(alloc, &directory)?;
    Ok(resolve(alloc, &directory)?)
}

/// The plan and the policy of a configuration without faults, of which this is resolved.
fn make(alloc: Global, parts: ConfigParts, resolved: Resolved) -> Result<(Plan, Policy), Memory>
    requires faultless { IsFaultless parts }
    requires objects { resolved.objects.items ≡ map (config.object_of parts) parts.objects }
    requires policy { IsPolicyOf parts (model.policy_of resolved.policy) }
    ensures plan { IfOk result (λ made. made.0 ≡ config.plan_of parts) }
    ensures policy { IfOk result (λ made. IsPolicyOf parts made.1) }
{
    let Resolved { objects, policy } = resolved;
    let plan = plan_of(alloc, parts, objects)?;
    let policy = Policy::new(&plan, policy)?;
    Ok((plan, policy))
}

/// The plan and the policy of a configuration's text.
///
/// # Errors
/// Every fault of the first pass that has any, C1 to C22, in the order in which they are looked for; C0 where memory was
/// refused, at any time.
#[tactic(auto, unfolding(crate::specs::ConfigOf::config_of, crate::specs::ConfigOf::faults_of, config_rules::specs::Passes::judged))]
fn read_whole(alloc: Global, text: &str) -> Result<(Plan, Policy), ConfigFault>
    ensures { ReadsOrRefuses result (config_of text.now) (faults_of text.now) }
{
    configurations_are_read();
    let parts = read_tables(alloc, text)?;
    let resolved = judge_and_resolve(alloc, &parts)?;
    Ok(make(alloc, parts, resolved)?)
}

/// The plan and the policy of a configuration's text, which is read and judged once.
///
/// # Errors
/// Every fault of the first pass that has any, C1 to C22, in the order in which they are looked for, each with the cause that was
/// met: the first is of the least code, at the first place in the text where it is. C0 where memory was refused, at any time.
pub fn read_config(alloc: Global, text: &str) -> Result<(Plan, Policy), ConfigFault>
    ensures first { Reads result (config_of text.now) }
    ensures faults { ReadsOrRefuses result (config_of text.now) (faults_of text.now) }
{
    texts_are_refused_by_the_first_fault();
    read_whole(alloc, text)
}
