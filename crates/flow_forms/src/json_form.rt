//! The report as JSON.
ghost use Rattle.std.specs.Prelude.{◌≡◌, IfOk, OnOk, codes, false, map};
ghost use Rattle.meter_theory.specs.Labels.{labelling_of_policy};
ghost use Rattle.meter_theory.specs.Plan as theory;
ghost use Rattle.serde_json.specs.Data.{put as with_member, string as string_data};
ghost use Rattle.serde_json.specs.View.{members_view, view};
ghost use Rattle.serde_json.specs.Written.{has_float};
ghost use Rattle.flow_ways.specs.Found.{distance_of};
ghost use Rattle.flow_forms.specs.Csv.{client_names};
ghost use Rattle.flow_forms.specs.Json as spec;
ghost use Rattle.flow_forms.specs.Json.{IsJson};
ghost use Rattle.flow_forms.specs.Rights.{heads_of, rights_of};

use crate::json_cells::cells_value;
use crate::json_rights::{clients_value, objects_value, rights_value};
use crate::json_values::{put_member, put_text};
use cosem_data::memory::Memory;
use flow_map::outline::Outline;
use flow_ways::ways::Ways;
use serde_json::{Map, Value};
use std::alloc::Global;

/// The report of a plan's ways, a policy and the line of a verdict as JSON (RFC 8259): one object and a newline, without spaces, its
/// members in the order of their keys (own profile). It has the cells, with who may reach each by how many edges at least and who is
/// allowed to, the clients, the objects, the rights by client and then object, the verdict, and the version of this form, 1.
///
/// # Errors
/// Memory was refused.
pub fn json_text(alloc: Global, ways: &Ways<'_>, verdict: &str) -> Result<Vec<u8>, Memory>
    ensures { IfOk result (λ text. IsJson ways.now.plan ways.now.policy verdict.now text.items) }
{
    ways.plan().known();
    let report = report_value(alloc, ways, verdict)?;
    line_of(alloc, &report)
}

/// The text of a value that has no float, with a newline behind it.
fn line_of(alloc: Global, value: &Value) -> Result<Vec<u8>, Memory>
    requires { has_float (view value.now) ≡ false }
    ensures { IfOk result (λ text. text.items ≡ spec.json_line (view value.now)) }
{
    let mut text = value.to_vec(alloc)?;
    text.push(b'\n')?;
    Ok(text)
}

/// The report as a value.
fn report_value(alloc: Global, ways: &Ways<'_>, verdict: &str) -> Result<Value, Memory>
    ensures { IfOk result (λ value. view value ≡ spec.report_of ways.now.plan ways.now.policy verdict.now (distance_of ways.now.plan)) }
{
    let mut members = Map::new(alloc);
    put_cells(alloc, ways, &mut members)?;
    put_clients(alloc, ways.plan(), &mut members)?;
    put_objects(alloc, ways.plan(), &mut members)?;
    put_rights(alloc, ways.plan(), &mut members)?;
    put_text(alloc, "verdict", verdict, &mut members)?;
    put_member(alloc, "version", Value::from(1u8), &mut members)?;
    Ok(Value::Object(members))
}

/// Puts the cells at their key.
fn put_cells(alloc: Global, ways: &Ways<'_>, members: &mut Map<String, Value>) -> Result<(), Memory>
    ensures { OnOk result (members_view members.new.entries ≡ with_member (codes "cells")
        (spec.cells_data (client_names ways.now.plan) (distance_of ways.now.plan) (labelling_of_policy ways.now.plan ways.now.policy) (theory.cells ways.now.plan))
        (members_view members.old.entries)) }
{
    let value = cells_value(alloc, ways)?;
    put_member(alloc, "cells", value, members)
}

/// Puts the names of the clients at their key.
fn put_clients(
    alloc: Global,
    plan: &Outline<'_>,
    members: &mut Map<String, Value>,
) -> Result<(), Memory>
    ensures { OnOk result (members_view members.new.entries ≡ with_member (codes "clients")
        (spec.array_of (map string_data (client_names plan.now))) (members_view members.old.entries)) }
{
    let value = clients_value(alloc, plan)?;
    put_member(alloc, "clients", value, members)
}

/// Puts the objects at their key.
fn put_objects(
    alloc: Global,
    plan: &Outline<'_>,
    members: &mut Map<String, Value>,
) -> Result<(), Memory>
    ensures { OnOk result (members_view members.new.entries ≡ with_member (codes "objects")
        (spec.array_of (map (λ o. string_data (spec.head_text o)) (heads_of plan.now))) (members_view members.old.entries)) }
{
    let value = objects_value(alloc, plan)?;
    put_member(alloc, "objects", value, members)
}

/// Puts the rights at their key.
fn put_rights(
    alloc: Global,
    plan: &Outline<'_>,
    members: &mut Map<String, Value>,
) -> Result<(), Memory>
    ensures { OnOk result (members_view members.new.entries ≡ with_member (codes "rights")
        (spec.rights_data (client_names plan.now) (rights_of plan.now) (heads_of plan.now)) (members_view members.old.entries)) }
{
    let value = rights_value(alloc, plan)?;
    put_member(alloc, "rights", value, members)
}
