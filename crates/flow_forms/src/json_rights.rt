//! The objects of a plan and the rights on them as values of JSON.
ghost use Rattle.std.specs.Prelude.{◌≡◌, ◌<◌, ◌∷◌, ◌++◌, [], IfOk, OnOk, flat_map, length, map, string_bytes};
ghost use Rattle.serde_json.specs.Data.{string as string_data};
ghost use Rattle.serde_json.specs.View.{members_view, view};
ghost use Rattle.meter_theory.specs.Plan as theory;
ghost use Rattle.flow_forms.specs.Csv.{client_names};
ghost use Rattle.flow_forms.specs.Json as spec;
ghost use Rattle.flow_forms.specs.Rights.{head_of, heads_of, rights_of};

use crate::json_values::{client_name, push_text, push_value, put_member, put_text};
use cosem_data::memory::Memory;
use flow_map::outline::{ObjectOutline, Outline, RightsAt};
use flow_map::words::access_word;
use meter_theory::flow::Access;
use serde_json::{Map, Value};
use std::alloc::Global;

/// The names of the clients. The error is that memory was refused.
pub(crate) fn clients_value(alloc: Global, plan: &Outline<'_>) -> Result<Value, Memory>
    ensures { IfOk result (λ value. view value ≡ spec.array_of (map string_data (client_names plan.now))) }
{
    let mut list = Vec::new(alloc);
    for client in 0..plan.client_count() {
        push_text(alloc, client_name(plan, client), &mut list)?;
    }
    Ok(Value::Array(list))
}

/// The classes and names of the objects. The error is that memory was refused.
pub(crate) fn objects_value(alloc: Global, plan: &Outline<'_>) -> Result<Value, Memory>
    ensures { IfOk result (λ value. view value ≡ spec.array_of (map (λ o. string_data (spec.head_text o)) (heads_of plan.now))) }
{
    let objects = plan.objects();
    let mut list = Vec::new(alloc);
    for number in 0..objects.len() {
        push_object(alloc, &objects[number], &mut list)?;
    }
    Ok(Value::Array(list))
}

/// Puts the class and the name of an object behind others.
fn push_object(
    alloc: Global,
    object: &ObjectOutline<'_>,
    list: &mut Vec<Value>,
) -> Result<(), Memory>
    ensures { OnOk result (map view list.new.items ≡ map view list.old.items ++ string_data (spec.head_text (head_of object.now)) ∷ []) }
{
    let text = object_text(alloc, object)?;
    push_text(alloc, &text, list)
}

/// An object as `class_id/logical name`.
fn object_text(alloc: Global, object: &ObjectOutline<'_>) -> Result<String, Memory>
    ensures { IfOk result (λ text. string_bytes text ≡ spec.head_text (head_of object.now)) }
{
    let class_id = object.interface().class_id;
    let name = object.name();
    Ok(format!(in alloc; "{class_id}/{name}")?)
}

/// The rights of each client on each object that it sees. The error is that memory was refused.
pub(crate) fn rights_value(alloc: Global, plan: &Outline<'_>) -> Result<Value, Memory>
    ensures { IfOk result (λ value. view value ≡ spec.rights_data (client_names plan.now) (rights_of plan.now) (heads_of plan.now)) }
{
    let mut list = Vec::new(alloc);
    for client in 0..plan.client_count() {
        push_rights(alloc, plan, client, &mut list)?;
    }
    Ok(Value::Array(list))
}

/// Puts the rights of a client on each object that it sees behind others.
fn push_rights(
    alloc: Global,
    plan: &Outline<'_>,
    client: u8,
    list: &mut Vec<Value>,
) -> Result<(), Memory>
    requires { client < length plan.now.clients }
    ensures { OnOk result (map view list.new.items ≡ map view list.old.items
        ++ flat_map (spec.right_if (client_names plan.now) (rights_of plan.now) client) (heads_of plan.now)) }
{
    let objects = plan.objects();
    for number in 0..objects.len() {
        push_right(alloc, plan, client, &objects[number], list)?;
    }
    Ok(())
}

/// Puts the rights of a client on an object behind others, if it sees it.
fn push_right(
    alloc: Global,
    plan: &Outline<'_>,
    client: u8,
    object: &ObjectOutline<'_>,
    list: &mut Vec<Value>,
) -> Result<(), Memory>
    requires { client < length plan.now.clients }
    ensures { OnOk result (map view list.new.items ≡ map view list.old.items
        ++ spec.right_if (client_names plan.now) (rights_of plan.now) client (head_of object.now)) }
{
    if plan.rights_at(&object.name()).in_view(client) {
        let value = right_value(alloc, plan, client, object)?;
        push_value(value, list)
    } else {
        Ok(())
    }
}

/// The rights of a client on an object.
fn right_value(
    alloc: Global,
    plan: &Outline<'_>,
    client: u8,
    object: &ObjectOutline<'_>,
) -> Result<Value, Memory>
    requires { client < length plan.now.clients }
    ensures { IfOk result (λ value. view value
        ≡ spec.right_data (client_names plan.now) (rights_of plan.now) client (head_of object.now)) }
{
    let mut members = Map::new(alloc);
    put_text(alloc, "client", client_name(plan, client), &mut members)?;
    let text = object_text(alloc, object)?;
    put_text(alloc, "object", &text, &mut members)?;
    put_indexes(alloc, plan, client, object, Access::Get, &mut members)?;
    put_indexes(alloc, plan, client, object, Access::Set, &mut members)?;
    put_indexes(alloc, plan, client, object, Access::Act, &mut members)?;
    Ok(Value::Object(members))
}

/// Puts the indexes at which rights allow a client to do something with an object at its key.
fn put_indexes(
    alloc: Global,
    plan: &Outline<'_>,
    client: u8,
    object: &ObjectOutline<'_>,
    access: Access,
    members: &mut Map<String, Value>,
) -> Result<(), Memory>
    ensures { OnOk result (members_view members.new.entries ≡ spec.put_all (members_view members.old.entries)
        (spec.indexes_member (rights_of plan.now) client (head_of object.now) access ∷ [])) }
{
    let value = indexes_value(alloc, plan, client, object, access)?;
    put_member(alloc, access_word(access), value, members)
}

/// The indexes at which rights allow a client to do something with an object.
fn indexes_value(
    alloc: Global,
    plan: &Outline<'_>,
    client: u8,
    object: &ObjectOutline<'_>,
    access: Access,
) -> Result<Value, Memory>
    ensures { IfOk result (λ value. view value ≡ spec.indexes (rights_of plan.now) client (head_of object.now) access) }
{
    let instance = plan.rights_at(&object.name());
    let highest = access.highest(&object.interface());
    let mut list = Vec::new(alloc);
    for place in 0..highest {
        push_index(&instance, access, client, place + 1, &mut list)?;
    }
    Ok(Value::Array(list))
}

/// Puts an index behind others, if rights allow a client to do something with an object at it.
fn push_index(
    instance: &RightsAt<'_>,
    access: Access,
    client: u8,
    index: u8,
    list: &mut Vec<Value>,
) -> Result<(), Memory>
    ensures { OnOk result (map view list.new.items ≡ map view list.old.items
        ++ spec.index_if ((rights_of instance.now.plan).allows client access instance.now.name) index) }
{
    if instance.is_granted(access, client, index) {
        push_value(Value::from(index), list)
    } else {
        Ok(())
    }
}
