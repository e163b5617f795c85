//! Writing requests in words.
ghost use Rattle.std.specs.Prelude.{◌≡◌, ◌++◌, IfOk, OnOk, option_map};
ghost use Rattle.cosem_data.specs.View.{tree};
ghost use Rattle.class_profile.specs.SelectionView.{descriptor_view};
ghost use Rattle.step_words.specs.RequestWords as spec;

use class_profile::selection::EntryDescriptor;
use cosem_data::data::Data;
use cosem_data::memory::Memory;
use meter_theory::refs::Descriptor;
use object_model::argument::Argument;
use std::alloc::Global;
use value_words::writing::push_value;
use xdlms_services::Request;

/// The selector of an access by entry (IEC 62056-6-2, Profile generic).
pub(crate) const BY_ENTRY: u8 = 2;

/// The Invoke-Id-And-Priority that has no words: id 1, confirmed, of high priority (IEC 62056-5-3).
pub const USUAL_INVOKE: u8 = 0xC1;

/// The service, and the class, name and index of what is named.
fn push_named(
    alloc: Global,
    service: &[u8],
    named: &Descriptor,
    text: &mut Vec<u8>,
) -> Result<(), Memory>
    ensures { OnOk result (text.new.items ≡ text.old.items ++ spec.named_words service.now named.now) }
{
    let Descriptor {
        class_id,
        name,
        index,
    } = *named;
    text.extend_from_slice(service)?;
    text.extend_from_slice(format!(in alloc; "{class_id}/{name}/{index}")?.as_bytes())?;
    Ok(())
}

/// The entries and the columns that are asked for.
fn push_entries(alloc: Global, entries: EntryDescriptor, text: &mut Vec<u8>) -> Result<(), Memory>
    ensures { OnOk result (text.new.items
        ≡ text.old.items ++ spec.entries_words (descriptor_view entries)) }
{
    let EntryDescriptor {
        from_entry,
        to_entry,
        from_selected_value,
        to_selected_value,
    } = entries;
    let words = format!(in alloc;
        " entries {from_entry}..{to_entry} columns {from_selected_value}..{to_selected_value}"
    )?;
    text.extend_from_slice(words.as_bytes())?;
    Ok(())
}

/// A space and a value.
fn push_given(alloc: Global, value: &Data, text: &mut Vec<u8>) -> Result<(), Memory>
    ensures { OnOk result (text.new.items ≡ text.old.items ++ spec.given_words (tree value.now)) }
{
    text.push(b' ')?;
    push_value(alloc, value, text)
}

/// The invoke byte, unless it is the usual one.
pub(crate) fn push_invoke(alloc: Global, invoke: u8, text: &mut Vec<u8>) -> Result<(), Memory>
    ensures { OnOk result (text.new.items ≡ text.old.items ++ spec.invoke_words invoke) }
{
    if invoke != USUAL_INVOKE {
        text.extend_from_slice(format!(in alloc; " invoke {invoke}")?.as_bytes())?;
    }
    Ok(())
}

/// The entry descriptor of a selection by entry.
fn entries_in(selector: u8, parameter: &Argument) -> Option<EntryDescriptor>
    ensures { option_map descriptor_view result ≡ spec.entries_in (selector, parameter.now) }
{
    match parameter {
        Argument::Value(value) if selector == BY_ENTRY => EntryDescriptor::of(value),
        _ => None,
    }
}

/// A GET.
fn get_words(
    alloc: Global,
    invoke: u8,
    attribute: &Descriptor,
    selection: &Option<(u8, Argument)>,
) -> Result<Option<Vec<u8>>, Memory>
    ensures { IfOk result (λ found. option_map (λ words. words.items) found
        ≡ spec.get_words invoke attribute.now selection.now) }
{
    let mut words = Vec::new(alloc);
    push_named(alloc, b"get ", attribute, &mut words)?;
    if let Some((selector, parameter)) = selection {
        let Some(entries) = entries_in(*selector, parameter) else {
            return Ok(None);
        };
        push_entries(alloc, entries, &mut words)?;
    }
    push_invoke(alloc, invoke, &mut words)?;
    Ok(Some(words))
}

/// A service with a value.
fn given_words(
    alloc: Global,
    service: &[u8],
    named: &Descriptor,
    value: &Data,
    invoke: u8,
) -> Result<Vec<u8>, Memory>
    ensures { IfOk result (λ words. words.items
        ≡ (spec.named_words service.now named.now ++ spec.given_words (tree value.now))
        ++ spec.invoke_words invoke) }
{
    let mut words = Vec::new(alloc);
    push_named(alloc, service, named, &mut words)?;
    push_given(alloc, value, &mut words)?;
    push_invoke(alloc, invoke, &mut words)?;
    Ok(words)
}

/// The words of a request, if it has any.
pub(crate) fn request_words(alloc: Global, request: &Request) -> Result<Option<Vec<u8>>, Memory>
    ensures { IfOk result (λ found. option_map (λ words. words.items) found
        ≡ spec.request_words request.now) }
{
    match request {
        Request::Get {
            invoke,
            attribute,
            selection,
        } => get_words(alloc, *invoke, attribute, selection),
        Request::Set {
            invoke,
            attribute,
            selected: false,
            value: Argument::Value(value),
        } => Ok(Some(given_words(alloc, b"set ", attribute, value, *invoke)?)),
        Request::Act {
            invoke,
            method,
            argument: Argument::Absent,
        } => {
            let mut words = Vec::new(alloc);
            push_named(alloc, b"act ", method, &mut words)?;
            push_invoke(alloc, *invoke, &mut words)?;
            Ok(Some(words))
        }
        Request::Act {
            invoke,
            method,
            argument: Argument::Value(value),
        } => Ok(Some(given_words(alloc, b"act ", method, value, *invoke)?)),
        _ => Ok(None),
    }
}
