//! What each cause of a fault means, in one sentence (own profile).

use crate::class_words::classes_told;
use crate::execution_times::time_cause;
use crate::hexes::hex_cause;
use crate::takes_words::takes_words;
use config_places::Step;
use config_text::cause::Cause;
use config_text::takes::KeyTakes;
use cosem_data::memory::Memory;
use meter_theory::classes::may_be_fed;
use std::alloc::Global;

/// The last key of steps, nothing where they have none.
pub(crate) fn last_key(steps: &[Step]) -> &str {
    let keys = steps.iter().rev().find_map(|step| match step {
        Step::Key(key) => Some(key.as_str()),
        Step::Element(_) => None,
    });
    keys.unwrap_or("")
}

/// What a key takes where something else stands. The error is that memory was refused.
fn kind_meaning(alloc: Global, takes: KeyTakes, steps: &[Step]) -> Result<String, Memory> {
    let key = last_key(steps);
    let words = takes_words(alloc, takes)?;
    Ok(format!(in alloc; "{key} takes {words}")?)
}

/// What is wrong with a client's name.
fn client_meaning(name: Option<&str>) -> &'static str {
    match name {
        Some("in" | "at" | "eval" | "tick") => {
            "a client can't have this name, by which other lines begin"
        }
        _ => "a client name has a bad form",
    }
}

/// What is wrong with a text that is to be a value or a time. The error is that memory was refused.
fn text_meaning(alloc: Global, cause: &Cause, text: Option<&str>) -> Result<String, Memory> {
    match (cause, text) {
        (Cause::ExecutionTime, Some(text)) => time_cause(alloc, text),
        (_, Some(text)) => hex_cause(alloc, text),
        (_, None) => {
            let words = "the value isn't hex, isn't one Data, or isn't of its kind";
            Ok(String::from_str(alloc, words)?)
        }
    }
}

/// What a cause that is looked for by its code before C11 means.
fn early_meaning(cause: &Cause, text: Option<&str>) -> &'static str {
    match cause {
        Cause::KeyMissing => "the key is missing",
        Cause::KeyUnknown(_) => "the key isn't known",
        Cause::LogicalForm => "a logical name has a bad form",
        Cause::ClientForm(_) => client_meaning(text),
        Cause::ObjectTwice => "an object before it has this name",
        Cause::Association => "this is the name of the current association",
        Cause::ClassUnknown(_) => "the class isn't known",
        Cause::ClientUnknown(_) => "no client has this name",
        Cause::ClientTwice => "a client before it has this name",
        Cause::SapTwice => "a client before it has this sap",
        Cause::NoObject => "no object has this name",
        Cause::NoScriptTable => "no script table has this name",
        Cause::NoScript(_) => "the script table has no script with this id",
        _ => "the class doesn't have this index, or it can't be used there",
    }
}

/// What a cause that is looked for by its code from C11 on means.
fn late_meaning(cause: &Cause) -> &'static str {
    match cause {
        Cause::Rule(_) => {
            "the value is of the kind that is asked there, and breaks a rule of the attribute"
        }
        Cause::Moment => "the time is no moment",
        Cause::NoNumber => "a register monitor watches numbers alone",
        Cause::NotSettable(_) => "what is to be set isn't a settable cell",
        Cause::Counts => "thresholds and actions differ in number",
        Cause::ScriptZero => "the id is 0",
        Cause::ScriptTwice => "a script before it in the table has this id",
        Cause::Execute => "service 2 is on a script table",
        Cause::Limit(_) => "this is more than a limit allows",
        Cause::NoCell(_) => "the object has no cell with this index",
        Cause::LabelTwice => "a label before it is on this cell",
        Cause::Times(_) => "the type doesn't allow these times",
        Cause::SortMethod => "sort_method isn't 1",
        Cause::DataIndex => "data_index isn't 0",
        Cause::SecondClock => "a second clock: a meter has one at most",
        _ => "the alternative is what is configured, or stands before in its menu",
    }
}

/// What a cause means at the place to which steps lead, where this text stands. The error is that memory was refused.
pub(crate) fn meaning_of(
    alloc: Global,
    cause: &Cause,
    steps: &[Step],
    text: Option<&str>,
) -> Result<String, Memory> {
    match cause {
        Cause::Kind(takes) => kind_meaning(alloc, *takes, steps),
        Cause::Value(_) | Cause::ExecutionTime => text_meaning(alloc, cause, text),
        Cause::Fed => {
            let fed = classes_told(alloc, |row| may_be_fed(row.class_id))?;
            Ok(format!(in alloc; "fed is true of a class other than {fed}")?)
        }
        cause if cause.code() <= 10 => Ok(String::from_str(alloc, early_meaning(cause, text))?),
        cause => Ok(String::from_str(alloc, late_meaning(cause))?),
    }
}
