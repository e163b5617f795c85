//! Values of JSON, put together.
ghost use Rattle.std.specs.Prelude.{◌≡◌, ◌<◌, ◌∷◌, ◌++◌, [], OnOk, length, map};
ghost use Rattle.serde_json.specs.Data.{put as with_member, string as string_data};
ghost use Rattle.serde_json.specs.View.{members_view, view};
ghost use Rattle.flow_forms.specs.Csv.{client_names};
ghost use Rattle.flow_forms.specs.Json as spec;

use cosem_data::memory::Memory;
use flow_map::outline::Outline;
use serde_json::{Map, Value};
use std::alloc::Global;

/// Puts a value at a key. The error is that memory was refused.
pub(crate) fn put_member(
    alloc: Global,
    key: &str,
    value: Value,
    members: &mut Map<String, Value>,
) -> Result<(), Memory>
    ensures { OnOk result (members_view members.new.entries ≡ with_member key.now (view value) (members_view members.old.entries)) }
{
    serde_json::put(members, alloc, key, value)?;
    Ok(())
}

/// Puts a text at a key. The error is that memory was refused.
pub(crate) fn put_text(
    alloc: Global,
    key: &str,
    text: &str,
    members: &mut Map<String, Value>,
) -> Result<(), Memory>
    ensures { OnOk result (members_view members.new.entries
        ≡ with_member key.now (string_data text.now) (members_view members.old.entries)) }
{
    let value = Value::try_from_str(alloc, text)?;
    put_member(alloc, key, value, members)
}

/// Puts a value behind others. The error is that memory was refused.
pub(crate) fn push_value(value: Value, list: &mut Vec<Value>) -> Result<(), Memory>
    ensures { OnOk result (map view list.new.items ≡ map view list.old.items ++ view value ∷ []) }
{
    serde_json::push(list, value)?;
    Ok(())
}

/// Puts a text behind other values. The error is that memory was refused.
pub(crate) fn push_text(alloc: Global, text: &str, list: &mut Vec<Value>) -> Result<(), Memory>
    ensures { OnOk result (map view list.new.items ≡ map view list.old.items ++ string_data text.now ∷ []) }
{
    let value = Value::try_from_str(alloc, text)?;
    push_value(value, list)
}

/// The name of the client at this place.
pub(crate) fn client_name<'a>(plan: &'a Outline<'_>, client: u8) -> &'a str
    requires { client < length plan.now.clients }
    ensures { result.now ≡ spec.client_at (client_names plan.now) client }
{
    match plan.client(client) {
        Some(who) => who.name_text(),
        None => unreachable!(),
    }
}
