//! What is known of the flow of a configuration, with the least labels.
ghost use Rattle.std.specs.Prelude.{◌≡◌, IfOk, map};
ghost use Rattle.meter_theory.specs.Labels.{labelling_of};
ghost use Rattle.meter_theory.specs.Plan as theory;
ghost use Rattle.label_certificate.specs.LabelText.{text_of_labels};
ghost use Rattle.flow_map.specs.Map.{AreLeastOf};

use crate::map::FlowMap;
use cosem_data::memory::Memory;
use label_certificate::labels::Labels;
use label_certificate::least::least_labels;
use label_certificate::numbered::{labels_by_number, labels_or_nobody};
use label_certificate::writing::write_labels;
use meter_theory::flow::Label;
use object_model::plan::Plan;
use object_model::policy::Policy;
use std::alloc::Global;
use std::marker::Model;

/// A map with the least labels of its plan: who may reach each cell. Contracts see the plan, the policy and the labels.
#[derive(Drop)]
pub struct LeastMap<'a> {
    map: FlowMap<'a>,
    labels: Labels,
    reached: Vec<Label>,
}

impl<'a> Model for LeastMap<'a> {
    ghost use Rattle.std.specs.Coded.{codes};
    ghost use Rattle.meter_theory.specs.PlanCode.{plan_code};
    ghost use Rattle.flow_map.specs.Map.{AreReached, Configuration};

    ghost Value = { Configuration };

    ghost coded = { Prim.hlevel (codes, plan_code) };

    ghost view = { λ m. record { plan = m.map.plan; policy = m.map.policy; labels = m.labels } };

    ghost invariant = { λ m. AreReached m.map.plan m.labels m.reached.items };
}

impl<'a> LeastMap<'a> {
    /// The map of a plan and its policy, with the least labels of the plan. The only error is want of memory.
    pub fn new(alloc: Global, plan: &'a Plan, policy: &'a Policy) -> Result<Self, Memory>
        ensures plan { IfOk result (λ least. least.plan ≡ plan.now) }
        ensures policy { IfOk result (λ least. least.policy ≡ policy.now) }
        ensures least { IfOk result (λ least. AreLeastOf plan.now least.labels) }
    {
        let map = FlowMap::new(alloc, plan, policy)?;
        let labels = least_labels(alloc, plan, map.table(), map.granted())?;
        let found = labels_by_number(alloc, plan, map.cells().len(), labels.entries())?;
        let reached = labels_or_nobody(alloc, &found)?;
        Ok(LeastMap {
            map,
            labels,
            reached,
        })
    }

    /// What the type keeps, for callers: the labels are the least of the plan.
    pub fn known(&self)
        ensures { AreLeastOf self.now.plan self.now.labels }
    {
        self.map.known();
    }

    /// The map.
    pub fn map(&self) -> &FlowMap<'a>
        ensures { result.now ≡ record { plan = self.now.plan; policy = self.now.policy } }
    {
        &self.map
    }

    /// The least labels.
    pub fn labels(&self) -> &Labels
        ensures { result.now ≡ self.now.labels }
    {
        &self.labels
    }

    /// For each cell, by its number, the clients that may reach it by the least labels.
    pub fn reached(&self) -> &[Label]
        ensures { result.now ≡ map (labelling_of self.now.labels) (theory.cells self.now.plan) }
    {
        &self.reached
    }

    /// The text of the least labels, in the form in which labels are read. The only error is want of memory.
    pub fn labels_text(&self, alloc: Global) -> Result<Vec<u8>, Memory>
        ensures { IfOk result (λ text. text.items ≡ text_of_labels self.now.plan self.now.labels) }
    {
        write_labels(alloc, self.map.plan().plan(), &self.labels)
    }
}
