//! The cells of a report as values of JSON.
ghost use Rattle.std.specs.Prelude.{◌≡◌, ◌<◌, ◌∷◌, ◌++◌, [], IfOk, OnOk, codes, length, map};
ghost use Rattle.serde_json.specs.Data.{put as with_member, string as string_data};
ghost use Rattle.serde_json.specs.View.{members_view, view};
ghost use Rattle.meter_theory.specs.Labels.{labelling_of_policy};
ghost use Rattle.meter_theory.specs.Plan as theory;
ghost use Rattle.value_text.specs.Texts.{cell_text};
ghost use Rattle.flow_edges.specs.Table.{cell_at};
ghost use Rattle.flow_ways.specs.Found.{distance_of};
ghost use Rattle.flow_forms.specs.Csv.{client_names};
ghost use Rattle.flow_forms.specs.Json as spec;

use crate::json_values::{client_name, push_text, push_value, put_member, put_text};
use cosem_data::cell::CellRef;
use cosem_data::clients::ClientSet;
use cosem_data::memory::Memory;
use flow_map::outline::Outline;
use flow_map::words::reach_word;
use flow_ways::ways::Ways;
use label_certificate::label_sets::set_for;
use meter_theory::flow::{Label, Reach};
use serde_json::{Map, Value};
use std::alloc::Global;
use value_text::cell::CellText;

/// The cells with who may reach them and who is allowed to. The error is that memory was refused.
pub(crate) fn cells_value(alloc: Global, ways: &Ways<'_>) -> Result<Value, Memory>
    ensures { IfOk result (λ value. view value ≡ spec.cells_data (client_names ways.now.plan) (distance_of ways.now.plan)
        (labelling_of_policy ways.now.plan ways.now.policy) (theory.cells ways.now.plan)) }
{
    let labels = ways.map().allowed();
    let mut list = Vec::new(alloc);
    for number in 0..labels.len() {
        push_cell(alloc, ways, number, labels[number], &mut list)?;
    }
    Ok(Value::Array(list))
}

/// Puts the cell with this number, which has this label, behind others.
fn push_cell(
    alloc: Global,
    ways: &Ways<'_>,
    number: usize,
    label: Label,
    list: &mut Vec<Value>,
) -> Result<(), Memory>
    requires { number < length (theory.cells ways.now.plan) }
    ensures { OnOk result (map view list.new.items ≡ map view list.old.items
        ++ spec.cell_data (client_names ways.now.plan) (distance_of ways.now.plan) (cell_at (theory.cells ways.now.plan) number) label ∷ []) }
{
    let value = cell_value(alloc, ways, number, label)?;
    push_value(value, list)
}

/// The cell with this number, which has this label.
fn cell_value(alloc: Global, ways: &Ways<'_>, number: usize, label: Label) -> Result<Value, Memory>
    requires { number < length (theory.cells ways.now.plan) }
    ensures { IfOk result (λ value. view value
        ≡ spec.cell_data (client_names ways.now.plan) (distance_of ways.now.plan) (cell_at (theory.cells ways.now.plan) number) label) }
{
    let mut members = Map::new(alloc);
    put_cell(alloc, &ways.cells()[number], &mut members)?;
    put_reach(alloc, ways, number, label, Reach::Influence, &mut members)?;
    put_reach(alloc, ways, number, label, Reach::Learn, &mut members)?;
    Ok(Value::Object(members))
}

/// Puts the text of a cell at its key.
fn put_cell(alloc: Global, cell: &CellRef, members: &mut Map<String, Value>) -> Result<(), Memory>
    ensures { OnOk result (members_view members.new.entries
        ≡ with_member (codes "cell") (string_data (cell_text cell.now)) (members_view members.old.entries)) }
{
    let cell = CellText(*cell);
    let text = format!(in alloc; "{cell}")?;
    put_text(alloc, "cell", &text, members)
}

/// Puts who reaches the cell with this number at the key of the reach.
fn put_reach(
    alloc: Global,
    ways: &Ways<'_>,
    number: usize,
    label: Label,
    reach: Reach,
    members: &mut Map<String, Value>,
) -> Result<(), Memory>
    requires { number < length (theory.cells ways.now.plan) }
    ensures { OnOk result (members_view members.new.entries ≡ spec.put_all (members_view members.old.entries)
        (spec.reach_member (client_names ways.now.plan) (distance_of ways.now.plan) (cell_at (theory.cells ways.now.plan) number) label reach ∷ [])) }
{
    let value = reach_value(alloc, ways, number, set_for(reach, label), reach)?;
    put_member(alloc, reach_word(reach), value, members)
}

/// Who is allowed to reach the cell with this number, which are these, and who may.
fn reach_value(
    alloc: Global,
    ways: &Ways<'_>,
    number: usize,
    set: ClientSet,
    reach: Reach,
) -> Result<Value, Memory>
    requires { number < length (theory.cells ways.now.plan) }
    ensures { IfOk result (λ value. view value ≡ spec.reach_data (client_names ways.now.plan) set
        (λ c. distance_of ways.now.plan reach c (cell_at (theory.cells ways.now.plan) number))) }
{
    let mut members = Map::new(alloc);
    let allowed = allowed_value(alloc, ways.plan(), set)?;
    put_member(alloc, "allowed", allowed, &mut members)?;
    let may = may_value(alloc, ways, number, reach)?;
    put_member(alloc, "may", may, &mut members)?;
    Ok(Value::Object(members))
}

/// The names of these clients.
fn allowed_value(alloc: Global, plan: &Outline<'_>, set: ClientSet) -> Result<Value, Memory>
    ensures { IfOk result (λ value. view value ≡ spec.allowed (client_names plan.now) set) }
{
    let mut list = Vec::new(alloc);
    for client in 0..plan.client_count() {
        push_allowed(alloc, plan, set, client, &mut list)?;
    }
    Ok(Value::Array(list))
}

/// Puts the name of a client behind others, if the set has it.
fn push_allowed(
    alloc: Global,
    plan: &Outline<'_>,
    set: ClientSet,
    client: u8,
    list: &mut Vec<Value>,
) -> Result<(), Memory>
    requires { client < length plan.now.clients }
    ensures { OnOk result (map view list.new.items ≡ map view list.old.items ++ spec.allowed_client (client_names plan.now) set client) }
{
    if set.has(client) {
        push_text(alloc, client_name(plan, client), list)
    } else {
        Ok(())
    }
}

/// How many edges the shortest ways have of each client that may reach the cell with this number.
fn may_value(alloc: Global, ways: &Ways<'_>, number: usize, reach: Reach) -> Result<Value, Memory>
    requires { number < length (theory.cells ways.now.plan) }
    ensures { IfOk result (λ value. view value ≡ spec.may (client_names ways.now.plan)
        (λ c. distance_of ways.now.plan reach c (cell_at (theory.cells ways.now.plan) number))) }
{
    let mut members = Map::new(alloc);
    for client in 0..ways.plan().client_count() {
        put_may(alloc, ways, number, reach, client, &mut members)?;
    }
    Ok(Value::Object(members))
}

/// Puts how many edges the shortest ways of a client have at its name, if there are ways.
fn put_may(
    alloc: Global,
    ways: &Ways<'_>,
    number: usize,
    reach: Reach,
    client: u8,
    members: &mut Map<String, Value>,
) -> Result<(), Memory>
    requires cell { number < length (theory.cells ways.now.plan) }
    requires client { client < length ways.now.plan.clients }
    ensures { OnOk result (members_view members.new.entries ≡ spec.put_all (members_view members.old.entries)
        (spec.may_client (client_names ways.now.plan) (λ c. distance_of ways.now.plan reach c (cell_at (theory.cells ways.now.plan) number)) client)) }
{
    let plan = ways.plan();
    plan.known();
    match ways.distance(reach, number, client) {
        Some(edges) => put_member(
            alloc,
            client_name(plan, client),
            Value::from(edges),
            members,
        ),
        None => Ok(()),
    }
}
