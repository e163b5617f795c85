//! All that fails of labels, as lines.
ghost use Rattle.std.specs.Prelude.{◌≡◌, ◌++◌, codes, cond, IfOk, OnOk, string_bytes};
ghost use Rattle.flow_checker.specs.Answer.{name_at};
ghost use Rattle.flow_checker.specs.Failures.{failures};
ghost use Rattle.label_certificate.specs.LabelLine.{names_text};
ghost use Rattle.label_certificate.specs.Members.{names_in_set};
ghost use Rattle.meter_theory.specs.Labels.{labelling_of_policy};
ghost use Rattle.value_text.specs.Edges.{edge_text};
ghost use Rattle.value_text.specs.Texts.{cell_text};
ghost use Rattle.verdict.specs.Lines as spec;
ghost use Rattle.verdict.specs.Lines.{failure_lines, refused_by};

use crate::{cell_line, right_line};
use cosem_data::cell::CellRef;
use cosem_data::clients::ClientSet;
use cosem_data::memory::Memory;
use flow_checker::failure::Failure;
use flow_checker::failures::all_failures;
use flow_map::map::FlowMap;
use label_certificate::labels::Labels;
use meter_theory::flow::Edge;
use object_model::plan::Plan;
use object_model::policy::Policy;
use std::alloc::Global;
use value_text::cell::CellText;
use value_text::edge::EdgeText;

/// All that fails of labels for a plan and its policy, each in a line, in the order of the clauses of admission, and within a clause in
/// that of its cells, clients with cells, or edges (own profile). The only error is that memory was refused.
pub fn failures_told(
    alloc: Global,
    plan: &Plan,
    policy: &Policy,
    labels: &Labels,
) -> Result<String, Memory>
    ensures { IfOk result (λ text. string_bytes text ≡ failure_lines plan.now
        (failures plan.now (labelling_of_policy plan.now policy.now) labels.now)) }
{
    let map = FlowMap::new(alloc, plan, policy)?;
    let failures = all_failures(alloc, &map, labels)?;
    lines_of(alloc, plan, &failures)
}

/// A line for each failure.
fn lines_of(alloc: Global, plan: &Plan, failures: &[Failure]) -> Result<String, Memory>
    ensures { IfOk result (λ text. string_bytes text ≡ failure_lines plan.now failures.now) }
{
    let mut text = String::new(alloc);
    for failure in failures {
        push_failure(alloc, plan, *failure, &mut text)?;
    }
    Ok(text)
}

/// Puts the line of a failure behind others. The error is that memory was refused; the line may then stand there in part.
fn push_failure(
    alloc: Global,
    plan: &Plan,
    failure: Failure,
    text: &mut String,
) -> Result<(), Memory>
    ensures { OnOk result (string_bytes text.new
        ≡ string_bytes text.old ++ spec.failure_line plan.now failure) }
{
    let line = failure_line(alloc, plan, failure)?;
    text.push_str(line.as_str())?;
    Ok(())
}

/// The line of a failure: what its refusal names, and the clients that are too many or missing.
fn failure_line(alloc: Global, plan: &Plan, failure: Failure) -> Result<String, Memory>
    ensures { IfOk result (λ line. string_bytes line ≡ spec.failure_line plan.now failure) }
{
    match failure {
        Failure::NotLabelled(cell) => cell_line(alloc, 1, cell),
        Failure::InfluencePastPolicy(cell, clients) => {
            past_line(alloc, plan, 2, cell, "influence", clients)
        }
        Failure::LearnPastPolicy(cell, clients) => {
            past_line(alloc, plan, 2, cell, "learn", clients)
        }
        Failure::Changer(client, cell) => right_line(alloc, 3, name_of(plan, client), cell),
        Failure::Reader(client, cell) => right_line(alloc, 4, name_of(plan, client), cell),
        Failure::InfluenceEscapes(edge, clients) => lost_line(alloc, plan, 5, edge, clients),
        Failure::LearnEscapes(edge, clients) => lost_line(alloc, plan, 6, edge, clients),
    }
}

/// The name of the client at a place.
fn name_of(plan: &Plan, client: u8) -> &str
    ensures { result.now ≡ name_at plan.now client }
{
    match plan.client(client) {
        Some(client) => client.name_text(),
        None => "",
    }
}

/// The line of a cell, of which one set of the label has clients that the policy doesn't.
fn past_line(
    alloc: Global,
    plan: &Plan,
    number: u8,
    cell: CellRef,
    set: &str,
    clients: ClientSet,
) -> Result<String, Memory>
    ensures { IfOk result (λ line. string_bytes line
        ≡ refused_by number (spec.past_text plan.now cell set.now clients)) }
{
    let cell = CellText(cell);
    let names = names_of(alloc, plan, clients)?;
    Ok(format!(in alloc; "refused {number}: {cell} {set} {names}\n")?)
}

/// The line of an edge along which clients are lost.
fn lost_line(
    alloc: Global,
    plan: &Plan,
    number: u8,
    edge: Edge,
    clients: ClientSet,
) -> Result<String, Memory>
    ensures { IfOk result (λ line. string_bytes line
        ≡ refused_by number (spec.lost_text plan.now edge clients)) }
{
    let edge = EdgeText(edge);
    let names = names_of(alloc, plan, clients)?;
    Ok(format!(in alloc; "refused {number}: {edge} {names}\n")?)
}

/// The names of a set's clients, joined by commas in plan order, or `-` where it has none.
fn names_of(alloc: Global, plan: &Plan, set: ClientSet) -> Result<String, Memory>
    ensures { IfOk result (λ names. string_bytes names ≡ names_text (names_in_set plan.now set)) }
{
    plan.known();
    let mut names = String::new(alloc);
    let mut place = 0;
    let mut some = false;
    while let Some(client) = plan.client(place) {
        if set.has(place) {
            push_name(some, client.name_text(), &mut names)?;
            some = true;
        }
        place += 1;
    }
    if !some {
        names.push_str("-")?;
    }
    Ok(names)
}

/// Puts a name behind others, after a comma where names stand before it.
fn push_name(behind: bool, name: &str, names: &mut String) -> Result<(), Memory>
    ensures { OnOk result (string_bytes names.new
        ≡ string_bytes names.old ++ cond behind (codes "," ++ name.now) name.now) }
{
    if behind {
        names.push_str(",")?;
    }
    names.push_str(name)?;
    Ok(())
}
