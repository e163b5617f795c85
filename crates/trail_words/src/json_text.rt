//! A trail's head and its steps as JSON.
ghost use Rattle.std.specs.Prelude.{◌≡◌, ◌++◌, IfOk, OnOk, false, option_map, string_bytes};
ghost use Rattle.serde_json.specs.Data.{put as with_member, string as string_data};
ghost use Rattle.serde_json.specs.View.{members_view, view};
ghost use Rattle.serde_json.specs.Written.{compact_text, has_float};
ghost use Rattle.trail_words.specs.Json as spec;
ghost use Rattle.trail_words.specs.Lines as lines;

use crate::notes::{moment_in, result_in, taker_in};
use crate::steps::{TrailStep, client_of};
use crate::words::words_of;
use cosem_data::memory::Memory;
use serde_json::{Map, Value};
use shown_text::printable::push_printable;
use std::alloc::Global;

/// Puts a step as JSON behind a text. The error is that memory was refused.
pub(crate) fn push_step(
    alloc: Global,
    step: &TrailStep<'_>,
    text: &mut Vec<u8>,
) -> Result<(), Memory>
    ensures { OnOk result (text.new.items ≡ text.old.items ++ compact_text (spec.step_data step.now)) }
{
    let words = words_of(alloc, step.line)?;
    let value = step_value(alloc, step, &words)?;
    push_value(alloc, &value, text)
}

/// Puts a text as JSON behind another, between what stands before it and behind it. The error is that memory was refused.
pub(crate) fn push_framed(
    alloc: Global,
    before: &[u8],
    string: String,
    behind: &[u8],
    text: &mut Vec<u8>,
) -> Result<(), Memory>
    ensures { OnOk result (text.new.items
        ≡ text.old.items ++ (before.now ++ compact_text (string_data (string_bytes string)) ++ behind.now)) }
{
    let value = Value::String(string);
    text.extend_from_slice(before)?;
    push_value(alloc, &value, text)?;
    text.extend_from_slice(behind)?;
    Ok(())
}

/// Puts a value that has no float behind a text.
fn push_value(alloc: Global, value: &Value, text: &mut Vec<u8>) -> Result<(), Memory>
    requires { has_float (view value.now) ≡ false }
    ensures { OnOk result (text.new.items ≡ text.old.items ++ compact_text (view value.now)) }
{
    let written = value.to_vec(alloc)?;
    text.extend_from_slice(&written)?;
    Ok(())
}

/// A step as a value, with these words of its line.
fn step_value(alloc: Global, step: &TrailStep<'_>, words: &[u8]) -> Result<Value, Memory>
    requires { words.now ≡ lines.words_of step.now.line.now }
    ensures { IfOk result (λ value. view value ≡ spec.step_data step.now) }
{
    let tells_moment = step.seconds.is_some();
    let mut members = Map::new(alloc);
    put_shown(alloc, "by", taker_in(step.note, tells_moment), &mut members)?;
    put_shown(alloc, "client", client_of(step.line), &mut members)?;
    put_shown(alloc, "line", Some(step.line), &mut members)?;
    put_shown(
        alloc,
        "moment",
        moment_in(step.note, tells_moment),
        &mut members,
    )?;
    put_shown(
        alloc,
        "result",
        result_in(step.note, tells_moment),
        &mut members,
    )?;
    put_shown(alloc, "step", Some(words), &mut members)?;
    Ok(Value::Object(members))
}

/// Puts a text as a terminal prints it at a key, or null where there is none.
fn put_shown(
    alloc: Global,
    key: &str,
    shown: Option<&[u8]>,
    members: &mut Map<String, Value>,
) -> Result<(), Memory>
    ensures { OnOk result (members_view members.new.entries
        ≡ with_member key.now (spec.shown_data (option_map (λ text. text.now) shown.entry)) (members_view members.old.entries)) }
{
    let value = shown_value(alloc, shown)?;
    serde_json::put(members, alloc, key, value)?;
    Ok(())
}

/// A text as a terminal prints it, or null where there is none.
fn shown_value(alloc: Global, shown: Option<&[u8]>) -> Result<Value, Memory>
    ensures { IfOk result (λ value. view value ≡ spec.shown_data (option_map (λ text. text.now) shown.entry)) }
{
    let Some(shown) = shown else {
        return Ok(Value::Null);
    };
    let mut text = String::new(alloc);
    push_printable(shown, &mut text)?;
    Ok(Value::String(text))
}
