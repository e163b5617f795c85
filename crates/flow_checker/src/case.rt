//! Labels that are judged, and what fails the clauses of admission of them: clause by clause, and of each number by number.
ghost use Rattle.std.specs.Prelude.{◌≡◌, ◌++◌, ◌<◌, IfOk, OnOk, length, option_to_list, slice_get};
ghost use Rattle.meter_theory.specs.Labels.{labelling_of};
ghost use Rattle.meter_theory.specs.Plan as plans;
ghost use Rattle.meter_theory.specs.Edges as flows;
ghost use Rattle.flow_checker.specs.Clauses.{IsFound, cell_in, count_of, edge_in, failures_at, failures_of, plan_of, policy_of};
ghost use Rattle.flow_checker.specs.Failures as spec;

use crate::clauses::{Clause, clauses};
use crate::failure::Failure;
use crate::sets::{admits, exceeding};
use cosem_data::cell::CellRef;
use cosem_data::clients::ClientSet;
use cosem_data::memory::Memory;
use flow_edges::ends::{far_of, near_of};
use flow_edges::table::edge_between;
use flow_map::map::FlowMap;
use label_certificate::label_sets::set_for;
use label_certificate::labels::Labels;
use meter_theory::flow::{Edge, Label, Reach};
use std::alloc::Global;

/// Labels that are judged for a plan and its policy, with the label that each cell has, if it has one, by the number of the cell.
#[derive(Drop)]
pub(crate) struct Case<'a> {
    map: &'a FlowMap<'a>,
    labels: &'a Labels,
    found: Vec<Option<Label>>,
}

impl<'a> Case<'a> {
    /// The case of these labels. The only error is want of memory.
    pub(crate) fn new(
        alloc: Global,
        map: &'a FlowMap<'a>,
        labels: &'a Labels,
    ) -> Result<Self, Memory>
        ensures map { IfOk result (λ case. case.map.now ≡ map.now) }
        ensures labels { IfOk result (λ case. case.labels.now ≡ labels.now) }
        ensures found { IfOk result IsFound }
    {
        let found = map.numbered(alloc, labels)?;
        Ok(Case { map, labels, found })
    }

    /// All failures. The only error is want of memory.
    pub(crate) fn failures(&self, alloc: Global) -> Result<Vec<Failure>, Memory>
        requires { IsFound self.now }
        ensures { IfOk result (λ failures. failures.items
            ≡ spec.failures (plan_of self.now) (policy_of self.now) self.now.labels.now) }
    {
        let mut failures = Vec::new(alloc);
        let asked = clauses(alloc, self.map.plan().client_count())?;
        for clause in &asked {
            self.push_clause(*clause, &mut failures)?;
        }
        Ok(failures)
    }

    /// The first failure, if there is one: no clause is asked after the first that fails. The only error is want of memory.
    pub(crate) fn first_failure(&self, alloc: Global) -> Result<Option<Failure>, Memory>
        requires { IsFound self.now }
        ensures { IfOk result (λ first. first ≡ slice_get
            (spec.failures (plan_of self.now) (policy_of self.now) self.now.labels.now) 0) }
    {
        let asked = clauses(alloc, self.map.plan().client_count())?;
        for clause in &asked {
            let mut failures = Vec::new(alloc);
            self.push_clause(*clause, &mut failures)?;
            if let Some(first) = failures.first() {
                return Ok(Some(*first));
            }
        }
        Ok(None)
    }

    /// Puts the failures of a clause after others, in the order of its cells or edges. The error is that memory was refused;
    /// some may then stand there.
    fn push_clause(&self, clause: Clause, failures: &mut Vec<Failure>) -> Result<(), Memory>
        requires { IsFound self.now }
        ensures { OnOk result (failures.new.items ≡ failures.old.items ++ failures_of self.now clause) }
    {
        for number in 0..self.count(clause) {
            self.push_at(clause, number, failures)?;
        }
        Ok(())
    }

    /// How many cells or edges a clause is of.
    fn count(&self, clause: Clause) -> usize
        ensures { result ≡ count_of self.now clause }
    {
        match clause {
            Clause::Labelled | Clause::Policy | Clause::Right(..) => self.map.cells().len(),
            Clause::Flow(_) => self.map.links().len(),
        }
    }

    /// Puts the failures of a clause at the cell or edge with this number after others. The error is that memory was refused;
    /// some may then stand there.
    fn push_at(
        &self,
        clause: Clause,
        number: usize,
        failures: &mut Vec<Failure>,
    ) -> Result<(), Memory>
        requires found { IsFound self.now }
        requires number { number < count_of self.now clause }
        ensures { OnOk result (failures.new.items
            ≡ failures.old.items ++ failures_at self.now clause number) }
    {
        match clause {
            Clause::Labelled => push_one(self.unlabelled(number), failures),
            Clause::Policy => {
                push_one(self.past(Reach::Influence, number), failures)?;
                push_one(self.past(Reach::Learn, number), failures)
            }
            Clause::Right(reach, client) => push_one(self.denied(reach, client, number), failures),
            Clause::Flow(reach) => push_one(self.lost(reach, number), failures),
        }
    }

    /// The failure of a cell that has no label.
    fn unlabelled(&self, number: usize) -> Option<Failure>
        requires found { IsFound self.now }
        requires number { number < length (plans.cells (plan_of self.now)) }
        ensures { option_to_list result ≡ spec.unlabelled self.now.labels.now (cell_in self.now number) }
    {
        if self.found[number].is_some() {
            return None;
        }
        Some(Failure::NotLabelled(self.map.cells()[number]))
    }

    /// The failure of a cell whose label allows clients of a reach that the policy doesn't.
    fn past(&self, reach: Reach, number: usize) -> Option<Failure>
        requires found { IsFound self.now }
        requires number { number < length (plans.cells (plan_of self.now)) }
        ensures { option_to_list result
            ≡ spec.past (policy_of self.now) self.now.labels.now reach (cell_in self.now number) }
    {
        let given = set_for(reach, self.given(number));
        let allowed = set_for(reach, self.map.allowed()[number]);
        let clients = exceeding(given, allowed)?;
        Some(past_failure(reach, self.map.cells()[number], clients))
    }

    /// The failure of a client with a right of a reach at a cell whose label denies it.
    fn denied(&self, reach: Reach, client: u8, number: usize) -> Option<Failure>
        requires found { IsFound self.now }
        requires number { number < length (plans.cells (plan_of self.now)) }
        ensures { option_to_list result
            ≡ spec.denied (plan_of self.now) self.now.labels.now reach (client, cell_in self.now number) }
    {
        let granted = set_for(reach, self.map.granted()[number]);
        if admits(client, granted, set_for(reach, self.given(number))) {
            return None;
        }
        Some(right_failure(reach, client, self.map.cells()[number]))
    }

    /// The failure of an edge along which clients of a reach are lost.
    fn lost(&self, reach: Reach, number: usize) -> Option<Failure>
        requires found { IsFound self.now }
        requires number { number < length (flows.edges (plan_of self.now)) }
        ensures { option_to_list result ≡ spec.lost self.now.labels.now reach (edge_in self.now number) }
    {
        let link = self.map.links()[number];
        let near = set_for(reach, self.given(near_of(reach, link)));
        let far = set_for(reach, self.given(far_of(reach, link)));
        let clients = exceeding(near, far)?;
        Some(edge_failure(reach, edge_between(self.map.cells(), link), clients))
    }

    /// The label of the cell with this number; a cell without one is influenced and learned by nobody.
    fn given(&self, number: usize) -> Label
        requires found { IsFound self.now }
        requires number { number < length (plans.cells (plan_of self.now)) }
        ensures { result ≡ labelling_of self.now.labels.now (cell_in self.now number) }
    {
        self.found[number].unwrap_or(Label {
            influence: ClientSet::new(),
            learn: ClientSet::new(),
        })
    }
}

/// Puts a failure after others, if there is one. The only error is want of memory.
fn push_one(failure: Option<Failure>, failures: &mut Vec<Failure>) -> Result<(), Memory>
    ensures { OnOk result (failures.new.items ≡ failures.old.items ++ option_to_list failure) }
{
    if let Some(failure) = failure {
        failures.push(failure)?;
    }
    Ok(())
}

/// The failure of a cell whose label allows these clients and the policy doesn't.
fn past_failure(reach: Reach, cell: CellRef, clients: ClientSet) -> Failure
    ensures { result ≡ spec.past_failure reach cell clients }
{
    match reach {
        Reach::Influence => Failure::InfluencePastPolicy(cell, clients),
        Reach::Learn => Failure::LearnPastPolicy(cell, clients),
    }
}

/// The failure of a client with a right at a cell whose label denies it.
fn right_failure(reach: Reach, client: u8, cell: CellRef) -> Failure
    ensures { result ≡ spec.right_failure reach client cell }
{
    match reach {
        Reach::Influence => Failure::Changer(client, cell),
        Reach::Learn => Failure::Reader(client, cell),
    }
}

/// The failure of an edge along which these clients are lost.
fn edge_failure(reach: Reach, edge: Edge, clients: ClientSet) -> Failure
    ensures { result ≡ spec.edge_failure reach edge clients }
{
    match reach {
        Reach::Influence => Failure::InfluenceEscapes(edge, clients),
        Reach::Learn => Failure::LearnEscapes(edge, clients),
    }
}
