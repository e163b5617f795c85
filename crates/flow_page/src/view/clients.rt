//! What is told of the clients.
ghost use Rattle.std.specs.Prelude.{◌≡◌, ◌+◌, ◌<◌, ◌≤◌, ◌^◌, IfOk, count_by, length};
ghost use Rattle.meter_theory.specs.Plan as theory;
ghost use Rattle.meter_theory.specs.Rights.{in_view};
ghost use Rattle.flow_page.specs.Clients as spec;
ghost use Rattle.flow_page.specs.Clients.{AreClients, size_of};
ghost use Rattle.flow_page.specs.Marks.{told};

use crate::page::{ClientRow, Counts};
use crate::view::facts::Facts;
use crate::view::marks::{distance, has_at};
use cosem_data::memory::Memory;
use flow_map::outline::Outline;
use meter_theory::flow::Reach;
use std::alloc::Global;

/// What is told of clients.
#[derive(Drop)]
pub(crate) struct ClientParts {
    /// What is told of each.
    pub rows: Vec<ClientRow>,
    /// The sum of their counts, for influence and for learning.
    pub total: Counts,
}

/// No cells.
const NONE: Counts = Counts {
    by_right: 0,
    by_edges: 0,
    not_allowed: 0,
    no_way: 0,
};

/// What is told of the clients of a plan. The only error is want of memory.
pub(crate) fn clients_of(alloc: Global, facts: &Facts<'_>) -> Result<ClientParts, Memory>
    ensures { IfOk result (λ parts. AreClients (told facts.now) parts.rows.items parts.total) }
{
    let mut rows = Vec::new(alloc);
    let mut total = NONE;
    for client in 0..facts.ways.plan().client_count() {
        let row = client_row(alloc, facts, client)?;
        total = plus(total, plus(row.influence, row.learn));
        rows.push(row)?;
    }
    Ok(ClientParts { rows, total })
}

/// What is told of a client.
fn client_row(alloc: Global, facts: &Facts<'_>, client: u8) -> Result<ClientRow, Memory>
    requires { client < length facts.now.ways.now.plan.clients }
    ensures is { IfOk result (λ row. spec.client_shown row ≡ spec.client_row (told facts.now) client) }
    ensures few { IfOk result (λ row. size_of row.influence + size_of row.learn ≤ 12288) }
{
    let plan = facts.ways.plan();
    let Some(who) = plan.client(client) else {
        unreachable!();
    };
    Ok(ClientRow {
        name: String::from_str(alloc, who.name_text())?,
        sap: who.sap(),
        needs_password: who.needs_password(),
        objects: objects_in_view(plan, client),
        influence: counts_of(facts, Reach::Influence, client),
        learn: counts_of(facts, Reach::Learn, client),
    })
}

/// How many objects a client sees.
fn objects_in_view(plan: &Outline<'_>, client: u8) -> usize
    ensures { result ≡ count_by (λ o. in_view plan.now client o.name) plan.now.objects }
{
    plan.objects()
        .iter()
        .filter(|object| plan.rights_at(&object.name()).in_view(client))
        .count()
}

/// How many cells a client reaches, or could.
fn counts_of(facts: &Facts<'_>, reach: Reach, client: u8) -> Counts
    requires { client < length facts.now.ways.now.plan.clients }
    ensures is { result ≡ spec.counts_of (told facts.now) reach client (length (theory.cells facts.now.ways.now.plan)) }
    ensures few { size_of result ≤ 6144 }
{
    facts.ways.plan().known();
    let mut counts = NONE;
    for cell in 0..facts.ways.cells().len() {
        let distance = distance(facts.ways, reach, client, cell);
        let allowed = has_at(facts.allowed, reach, client, cell);
        counts = plus(counts, counted(distance, allowed));
    }
    counts
}

/// As what a cell counts at this distance, which the policy allows or not.
fn counted(distance: Option<usize>, allowed: bool) -> Counts
    ensures { result ≡ spec.counted distance allowed }
{
    match distance {
        None => Counts {
            no_way: usize::from(allowed),
            ..NONE
        },
        Some(edges) => Counts {
            by_right: usize::from(edges == 0),
            by_edges: usize::from(0 < edges),
            not_allowed: usize::from(!allowed),
            no_way: 0,
        },
    }
}

/// The sum of two counts.
fn plus(counts: Counts, more: Counts) -> Counts
    requires { size_of counts + size_of more < 2 ^ 32 }
    ensures is { result ≡ spec.plus counts more }
    ensures size { size_of result ≡ size_of counts + size_of more }
{
    Counts {
        by_right: counts.by_right + more.by_right,
        by_edges: counts.by_edges + more.by_edges,
        not_allowed: counts.not_allowed + more.not_allowed,
        no_way: counts.no_way + more.no_way,
    }
}
