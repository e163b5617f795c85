//! What is known of the flow of a configuration, made once for all who ask.
ghost use Rattle.std.specs.Prelude.{◌≡◌, ◌<◌, IfOk, length, map};
ghost use Rattle.meter_theory.specs.Edges.{edges};
ghost use Rattle.meter_theory.specs.Labels.{has, label_at, labelling_of_policy};
ghost use Rattle.meter_theory.specs.Plan as theory;
ghost use Rattle.meter_theory.specs.Sound.{IsSound};
ghost use Rattle.meter_theory.specs.Ways.{set_for};
ghost use Rattle.flow_edges.specs.Table.{AreCells, AreWithin, cell_at, edge_at};
ghost use Rattle.label_certificate.specs.Granted.{AreGranted};
ghost use Rattle.flow_map.specs.Granting.{shown_request};

use crate::granting::shown_request;
use crate::outline::Outline;
use crate::request::GrantedRequest;
use cosem_data::cell::CellRef;
use cosem_data::memory::Memory;
use flow_edges::edges::edge_table;
use flow_edges::table::{EdgeTable, Link, edges_between};
use label_certificate::granted::granted_to_cells;
use label_certificate::label_sets::set_for;
use label_certificate::labels::Labels;
use label_certificate::numbered::{labels_by_number, policy_labels};
use meter_theory::flow::{Edge, Label, Reach};
use object_model::plan::Plan;
use object_model::policy::Policy;
use std::alloc::Global;
use std::marker::Model;

/// What is known of the flow of a plan and its policy: the cells, the edges between them, and for each cell whom rights grant it
/// and whom the policy allows it. Cells go by their numbers in plan order. Contracts see the plan and the policy.
#[derive(Drop)]
pub struct FlowMap<'a> {
    outline: Outline<'a>,
    policy: &'a Policy,
    table: EdgeTable,
    granted: Vec<Label>,
    allowed: Vec<Label>,
}

impl<'a> Model for FlowMap<'a> {
    ghost use Rattle.std.specs.Coded.{codes};
    ghost use Rattle.meter_theory.specs.PlanCode.{plan_code};
    ghost use Rattle.flow_map.specs.Map.{AreFactsOf, Mapped};

    ghost Value = { Mapped };

    ghost coded = { Prim.hlevel (codes, plan_code) };

    ghost view = { λ m. record { plan = m.outline; policy = m.policy.now } };

    ghost invariant = { λ m. AreFactsOf (record { plan = m.outline; policy = m.policy.now })
        m.table m.granted.items m.allowed.items };
}

impl<'a> FlowMap<'a> {
    /// What is known of a plan and its policy. The only error is want of memory.
    pub fn new(alloc: Global, plan: &'a Plan, policy: &'a Policy) -> Result<Self, Memory>
        ensures plan { IfOk result (λ map. map.plan ≡ plan.now) }
        ensures policy { IfOk result (λ map. map.policy ≡ policy.now) }
    {
        plan.known();
        let outline = Outline::new(alloc, plan)?;
        let table = edge_table(alloc, plan)?;
        let granted = granted_to_cells(alloc, plan, table.cells())?;
        let allowed = policy_labels(alloc, plan, table.cells(), policy)?;
        Ok(FlowMap {
            outline,
            policy,
            table,
            granted,
            allowed,
        })
    }

    /// What the type keeps, for callers: the plan is sound, and its cells are few and apart.
    pub fn known(&self)
        ensures sound { IsSound self.now.plan }
        ensures cells { AreCells (theory.cells self.now.plan) }
    {
        self.table.known();
        self.outline.known();
    }

    /// What is told of the plan.
    pub fn plan(&self) -> &Outline<'a>
        ensures { result.now ≡ self.now.plan }
    {
        &self.outline
    }

    /// The cells, in plan order.
    pub fn cells(&self) -> &[CellRef]
        ensures { result.now ≡ theory.cells self.now.plan }
    {
        self.table.cells()
    }

    /// The edges between the cells.
    pub fn table(&self) -> &EdgeTable
        ensures { result.now ≡ record { cells = theory.cells self.now.plan; edges = edges self.now.plan } }
    {
        &self.table
    }

    /// The edges, by the numbers of their cells.
    pub fn links(&self) -> &[Link]
        ensures edges { map (edge_at (theory.cells self.now.plan)) result.now ≡ edges self.now.plan }
        ensures within { AreWithin (theory.cells self.now.plan) result.now }
    {
        self.table.links()
    }

    /// The edges, by the names of their cells. The only error is want of memory.
    pub fn edges(&self, alloc: Global) -> Result<Vec<Edge>, Memory>
        ensures { IfOk result (λ list. list.items ≡ edges self.now.plan) }
    {
        edges_between(alloc, self.cells(), self.links())
    }

    /// The request that is shown of those that rights allow a client and by which it influences or learns a cell: a SET before an
    /// ACTION, each the first in plan order, and of an execute the first script of the table that changes the cell (own profile).
    /// None where no right grants the cell.
    pub fn request(&self, reach: Reach, client: u8, cell: &CellRef) -> Option<GrantedRequest>
        ensures { result ≡ shown_request self.now.plan reach client cell.now }
    {
        shown_request(self.outline.plan(), self.cells(), reach, client, cell)
    }

    /// For each cell the clients that have a right to change it, and those that may read it.
    pub fn granted(&self) -> &[Label]
        ensures { AreGranted self.now.plan result.now }
    {
        &self.granted
    }

    /// For each cell the clients whom the policy allows it.
    pub fn allowed(&self) -> &[Label]
        ensures { result.now ≡ map (labelling_of_policy self.now.plan self.now.policy) (theory.cells self.now.plan) }
    {
        &self.allowed
    }

    /// Whether the policy allows a client to reach a cell, by their numbers.
    pub fn allows(&self, reach: Reach, cell: usize, client: u8) -> bool
        requires { cell < length (theory.cells self.now.plan) }
        ensures { result ≡ has (set_for reach (labelling_of_policy self.now.plan self.now.policy
            (cell_at (theory.cells self.now.plan) cell))) client }
    {
        set_for(reach, self.allowed()[cell]).has(client)
    }

    /// For each cell the clients whom the policy allows it, for who keeps that.
    pub fn into_allowed(self) -> Vec<Label>
        ensures { result.items ≡ map (labelling_of_policy self.entry.plan self.entry.policy) (theory.cells self.entry.plan) }
    {
        self.allowed
    }

    /// For each cell the label of its first entry in labels, if it has one. The only error is want of memory.
    pub fn numbered(&self, alloc: Global, labels: &Labels) -> Result<Vec<Option<Label>>, Memory>
        ensures { IfOk result (λ found. found.items ≡ map (label_at labels.now) (theory.cells self.now.plan)) }
    {
        labels_by_number(
            alloc,
            self.outline.plan(),
            self.cells().len(),
            labels.entries(),
        )
    }
}
