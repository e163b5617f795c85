//! Whether labels are accepted for a plan and its policy, and the plan that was accepted.
ghost use Rattle.std.specs.Prelude.{◌≡◌, IfErr, IfOk, OnOk, string_bytes};
ghost use Rattle.meter_theory.specs.Check.{Refuses};
ghost use Rattle.meter_theory.specs.Labels as theory;
ghost use Rattle.meter_theory.specs.Labels.{Admits, labelling_of, labelling_of_policy};
ghost use Rattle.meter_theory.specs.Safety.{Influence, Secrecy};
ghost use Rattle.flow_checker.specs.Accepted.{AreAllowed};
ghost use Rattle.flow_checker.specs.Answer.{IsRefusedAs, name_at};

use crate::refusal::first_refusal;
use cosem_data::cell::CellRef;
use cosem_data::memory::Memory;
use flow_map::map::FlowMap;
use flow_map::outline::Outline;
use label_certificate::labels::Labels;
use label_certificate::numbered::source_of;
use meter_effects::promises::{admitted_is_influence_safe, admitted_is_secret};
use meter_theory::flow::{Edge, Label, Refusal};
use meter_theory::laws::tests_decide_admission;
use object_model::plan::Plan;
use object_model::policy::Policy;
use std::alloc::Global;
use std::marker::Model;
use std::sync::Arc;

/// Why labels are refused: the first cell, right or edge of the plan that fails the first clause which any fails, or that
/// memory was refused (own profile). A client is given by its name.
#[derive(Debug, Drop)]
pub enum Refused {
    /// The cell has no label.
    NotLabelled(CellRef),
    /// The cell's label allows a client that the policy doesn't.
    PastPolicy(CellRef),
    /// The client has a right that changes the cell, and the label doesn't let it influence the cell.
    Changer(String, CellRef),
    /// The client may read the cell, and the label doesn't let it learn the cell.
    Reader(String, CellRef),
    /// Who may influence the source of the edge may not influence its target.
    InfluenceEscapes(Edge),
    /// Who may learn the target of the edge may not learn its source.
    LearnEscapes(Edge),
    /// Memory was refused, and nothing is known of the labels.
    Memory,
}

impl From<Memory> for Refused {
    ghost use Rattle.std.specs.Prelude.{◌≡◌};
    ghost use Rattle.flow_checker.specs.declared.check.Refused.TheVariants as variants;

    ghost from_gives = { λ _ refused. refused ≡ variants.Memory };

    fn from(_: Memory) -> Refused {
        Refused::Memory
    }
}

/// A plan and its policy, for which labels were accepted: only [`check`] makes one, and [`Checked::share`] another owner of it
/// (own profile).
#[derive(Drop)]
pub struct Checked {
    admitted: Arc<Admitted>,
}

/// What the owners share.
#[derive(Drop)]
struct Admitted {
    plan: Plan,
    policy: Policy,
    // For each cell of the plan, in plan order, the label that the policy gives it.
    labels: Vec<Label>,
}

impl Model for Checked {
    ghost use Rattle.flow_checker.specs.Accepted.{Accepted, IsAdmitted, AreAllowed};
    ghost use Rattle.std.specs.Arc.{arc_value};
    ghost use Rattle.std.specs.Coded.{codes};
    ghost use Rattle.meter_theory.specs.PlanCode.{plan_code};

    ghost Value = { Accepted };

    ghost coded = { Prim.hlevel (codes, plan_code) };

    ghost view = { λ c.
        record { plan = (arc_value c.admitted).plan; policy = (arc_value c.admitted).policy } };

    ghost invariant = { λ c. IsAdmitted
        (record { plan = (arc_value c.admitted).plan; policy = (arc_value c.admitted).policy })
        × AreAllowed (arc_value c.admitted).plan (arc_value c.admitted).policy
        (arc_value c.admitted).labels.items };
}

impl Checked {
    ghost use Rattle.flow_checker.specs.Accepted.{IsAdmitted};

    /// What the type keeps, for callers: there are labels that are admitted for the plan and its policy, and so the plan keeps
    /// what its policy promises about who influences a cell and who learns it.
    pub fn known(&self)
        ensures admitted { IsAdmitted self.now }
        ensures influence { Influence self.now.plan
            (labelling_of_policy self.now.plan self.now.policy) }
        ensures secrecy { Secrecy self.now.plan (labelling_of_policy self.now.plan self.now.policy) }
    {
        let admitted = &self.admitted;
        admitted.plan.known();
        admitted_is_influence_safe();
        admitted_is_secret();
    }

    /// The plan.
    pub fn plan(&self) -> &Plan
        ensures { result.now ≡ self.now.plan }
    {
        &self.admitted.plan
    }

    /// The policy.
    pub fn policy(&self) -> &Policy
        ensures { result.now ≡ self.now.policy }
    {
        &self.admitted.policy
    }

    /// The label that the policy gives a cell; of the inner cell of a register monitor that of the cell that it watches.
    pub fn label(&self, cell: &CellRef) -> Label
        ensures { result ≡ labelling_of_policy self.now.plan self.now.policy cell.now }
    {
        let Admitted {
            plan,
            policy,
            labels,
        } = &*self.admitted;
        match plan.cell_number(cell) {
            Some(number) => labels[usize::from(number)],
            None => policy.label(&source_of(plan, cell)),
        }
    }

    /// Another owner of the plan and its policy, neither of which is copied. The only error is that memory was refused.
    pub fn share(&self) -> Result<Checked, Memory>
        ensures { IfOk result (λ other. other ≡ self.now) }
    {
        Ok(Checked {
            admitted: Arc::try_clone(&self.admitted)?,
        })
    }
}

/// Accepts a plan whose labels pass the six clauses of admission, and no other: it is refused with what fails the first clause
/// that any fails, and is given back. An accepted plan keeps what its policy, and what the labels, promise about who
/// influences a cell, and keeps from each client what they hide from it. Where memory is refused nothing is known (own profile).
pub fn check(
    alloc: Global,
    plan: Plan,
    policy: &Policy,
    labels: &Labels,
) -> Result<Checked, (Refused, Plan)>
    ensures admitted { OnOk result (Admits plan (labelling_of_policy plan policy.now) labels.now) }
    ensures kept { IfOk result (λ checked. checked ≡ record { plan = plan; policy = policy.now }) }
    ensures refused { IfErr result (λ e. IsRefusedAs plan
        (labelling_of_policy plan policy.now) labels.now e.0) }
    ensures returned { IfErr result (λ e. e.1 ≡ plan) }
    ensures influence { OnOk result (Influence plan (labelling_of_policy plan policy.now)
        × Influence plan (labelling_of labels.now)) }
    ensures secrecy { OnOk result (Secrecy plan (labelling_of_policy plan policy.now)
        × Secrecy plan (labelling_of labels.now)) }
{
    plan.known();
    admitted_is_influence_safe();
    admitted_is_secret();
    let (policy, labels) = match judged(alloc, &plan, policy, labels) {
        Ok(kept) => kept,
        Err(refused) => return Err((refused, plan)),
    };
    match Arc::new(
        alloc,
        Admitted {
            plan,
            policy,
            labels,
        },
    ) {
        Ok(admitted) => Ok(Checked { admitted }),
        Err(failed) => Err((Refused::Memory, failed.value.plan)),
    }
}

/// Another policy like this one, and for each cell the label that it gives, where the labels are admitted for it.
fn judged(
    alloc: Global,
    plan: &Plan,
    policy: &Policy,
    labels: &Labels,
) -> Result<(Policy, Vec<Label>), Refused>
    ensures admitted { OnOk result (Admits plan.now
        (labelling_of_policy plan.now policy.now) labels.now) }
    ensures same { IfOk result (λ kept. kept.0 ≡ policy.now) }
    ensures allowed { IfOk result (λ kept. AreAllowed plan.now policy.now kept.1.items) }
    ensures refused { IfErr result (λ e. IsRefusedAs plan.now
        (labelling_of_policy plan.now policy.now) labels.now e) }
{
    let map = FlowMap::new(alloc, plan, policy)?;
    verdict_on(alloc, &map, labels)?;
    Ok((policy.try_clone(alloc)?, map.into_allowed()))
}

/// Whether labels pass the six clauses of admission for the plan and the policy of a map, or else what fails the first clause that
/// any fails. Where memory is refused nothing is known (own profile).
pub fn verdict_on(alloc: Global, map: &FlowMap<'_>, labels: &Labels) -> Result<(), Refused>
    ensures admitted { OnOk result (Admits map.now.plan
        (labelling_of_policy map.now.plan map.now.policy) labels.now) }
    ensures refused { IfErr result (λ e. IsRefusedAs map.now.plan
        (labelling_of_policy map.now.plan map.now.policy) labels.now e) }
{
    map.known();
    tests_decide_admission();
    match first_refusal(alloc, map, labels)? {
        None => Ok(()),
        Some(refusal) => Err(told(alloc, map.plan(), refusal)),
    }
}

/// A refusal with the name of its client.
fn told(alloc: Global, plan: &Outline<'_>, refusal: Refusal) -> Refused
    ensures { (policy : theory.Labelling) (labels : theory.Labels) →
        Refuses plan.now policy labels refusal → IsRefusedAs plan.now policy labels result }
{
    match refusal {
        Refusal::NotLabelled(cell) => Refused::NotLabelled(cell),
        Refusal::PastPolicy(cell) => Refused::PastPolicy(cell),
        Refusal::Changer(client, cell) => match name_of(alloc, plan, client) {
            Ok(name) => Refused::Changer(name, cell),
            Err(_) => Refused::Memory,
        },
        Refusal::Reader(client, cell) => match name_of(alloc, plan, client) {
            Ok(name) => Refused::Reader(name, cell),
            Err(_) => Refused::Memory,
        },
        Refusal::InfluenceEscapes(edge) => Refused::InfluenceEscapes(edge),
        Refusal::LearnEscapes(edge) => Refused::LearnEscapes(edge),
    }
}

/// The name of the client at a place. The only error is want of memory.
fn name_of(alloc: Global, plan: &Outline<'_>, client: u8) -> Result<String, Memory>
    ensures { IfOk result (λ name. string_bytes name ≡ name_at plan.now client) }
{
    match plan.client(client) {
        Some(client) => Ok(String::from_str(alloc, client.name_text())?),
        None => Ok(String::new(alloc)),
    }
}
