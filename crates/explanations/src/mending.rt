//! How each cause of a fault is mended (own profile).

use crate::class_words::{cells_of, classes_told, serving};
use crate::kind_words::kind_words;
use crate::meaning::last_key;
use crate::takes_words::limit_words;
use config_places::Step;
use config_text::cause::{Cause, NearKey, Rule, Use};
use config_text::known;
use config_text::takes::{KeyTakes, Number};
use cosem_data::kind::Kind;
use cosem_data::memory::Memory;
use meter_theory::classes::{Class, may_be_fed};
use std::alloc::Global;

/// How a key is mended that isn't one of the known ones. The error is that memory was refused.
fn key_mending(alloc: Global, near: &Option<NearKey>, key: &str) -> Result<String, Memory> {
    let words = match near {
        Some(NearKey { key: near }) if near.as_str() == key => {
            "write version = 2, which has this key, or remove it"
        }
        Some(NearKey { key: near }) => {
            return Ok(format!(in alloc; "write {near}, or remove it")?);
        }
        None => "remove it, or mend its name",
    };
    Ok(String::from_str(alloc, words)?)
}

/// How a class is mended that a text of a version doesn't know. The error is that memory was refused.
fn class_mending(alloc: Global, version: u8) -> Result<String, Memory> {
    let known = classes_told(alloc, |row| row.since <= version)?;
    let later = classes_told(alloc, |row| row.since > version)?;
    if later.is_empty() {
        return Ok(format!(in alloc; "use one of the classes {known}")?);
    }
    Ok(format!(in alloc;
        "use one of the classes {known}, or write version = 2, which knows {later} too"
    )?)
}

/// How an index of a class is mended. The error is that memory was refused.
fn index_mending(alloc: Global, wanted: Use, class: u16) -> Result<String, Memory> {
    let indexes = serving(alloc, wanted, class)?;
    if indexes.is_empty() {
        return Ok(format!(in alloc;
            "name another object: no index of the class {class} serves there"
        )?);
    }
    Ok(format!(in alloc; "of the class {class} use {indexes} there")?)
}

/// How a right to set is mended. The error is that memory was refused.
fn settable_mending(alloc: Global, class: u16) -> Result<String, Memory> {
    let indexes = serving(alloc, Use::Settable, class)?;
    if indexes.is_empty() {
        return Ok(format!(in alloc;
            "an object of the class {class} has no settable cell without a menu"
        )?);
    }
    Ok(format!(in alloc; "of the class {class} list {indexes} alone")?)
}

/// How a label on what is no cell is mended. The error is that memory was refused.
fn label_mending(alloc: Global, class: u16) -> Result<String, Memory> {
    let cells = cells_of(alloc, class)?;
    if cells.is_empty() {
        return Ok(format!(in alloc;
            "remove the label: an object of the class {class} has no cell without a menu"
        )?);
    }
    Ok(format!(in alloc; "of the class {class} label {cells}")?)
}

/// How a value is mended that isn't the hex text of one of this kind. The error is that memory was refused.
fn value_mending(alloc: Global, kind: Option<Kind>) -> Result<String, Memory> {
    let Some(kind) = kind else {
        let words = "encode one value, as cosem-flow encode --value does";
        return Ok(String::from_str(alloc, words)?);
    };
    let kind = kind_words(kind);
    Ok(format!(in alloc; "encode one {kind}, as cosem-flow encode --value does")?)
}

/// How a value is mended that breaks a rule.
fn rule_mending(rule: Rule) -> &'static str {
    match rule {
        Rule::Menu => "write one of the alternatives of the object's menu",
        Rule::Moment => "write a date and a time of the years 2000 to 9999",
        Rule::Thresholds => {
            "write as many thresholds as there are actions, of the kind of what is monitored"
        }
        Rule::Times => "write times that the type of the schedule allows",
    }
}

/// What times a schedule of a type has (IEC 62056-6-2, Single action schedule, type).
fn times_mending(kind: u8) -> &'static str {
    match kind {
        1 => "type 1 has one time, whose date may have FF for any; without a time use type 4",
        2 => "type 2 has times that differ in their dates alone, which have no FF",
        3 => "type 3 has times that differ in their dates alone, which may have FF for any",
        4 => "type 4 has times whose dates have no FF",
        _ => "type 5 has times whose dates may have FF for any",
    }
}

/// How it is mended that something isn't there which is named.
fn missing_mending(cause: &Cause) -> &'static str {
    match cause {
        Cause::ClientUnknown(false) => "add the client, or mend its name",
        Cause::ClientUnknown(true) => {
            "add the client, or mend its name; two clients have one name or sap, which may be why"
        }
        Cause::NoScript(true) => {
            "name one that is there; a script has the id 0 or that of another, which may be why"
        }
        _ => "name one that is there",
    }
}

/// How a cause is mended by the same words everywhere.
fn words_of(cause: &Cause) -> &'static str {
    match cause {
        Cause::KeyMissing => "add the key",
        Cause::Kind(KeyTakes::Number(Number::Version)) => {
            "write version = 1, or version = 2 for a meter with a clock"
        }
        Cause::Kind(_) => "give a value of the kind and in the range that the key takes",
        Cause::LogicalForm => {
            "write a logical name as six numbers from 0 to 255 with dots between them, without leading zeros"
        }
        Cause::ClientForm(2) => {
            "write a client name as 1 to 16 of a to z, 0 to 9 and _, other than in, at, eval and tick"
        }
        Cause::ClientForm(_) => {
            "write a client name as 1 to 16 of a to z, 0 to 9 and _, other than in, at and eval"
        }
        Cause::ObjectTwice | Cause::Association => {
            "give each object its own name, and none the name 0.0.40.0.0.255"
        }
        Cause::ClientTwice | Cause::SapTwice => "give each client its own",
        Cause::ClientUnknown(_) | Cause::NoObject | Cause::NoScriptTable | Cause::NoScript(_) => {
            missing_mending(cause)
        }
        Cause::Rule(rule) => rule_mending(*rule),
        Cause::Moment => "write a moment of the years 2000 to 9999, as 2024-02-29T12:00:00",
        Cause::ExecutionTime => {
            "write nine bytes in hex: hour, minute, second and hundredths, then year (two bytes), month, day and day of the week, FF for any"
        }
        Cause::NoNumber => "start that object with a number",
        Cause::Counts => "give one action for each threshold",
        Cause::ScriptZero | Cause::ScriptTwice => "number the scripts from 1, each once",
        Cause::Execute => "write out the actions of the other script",
        Cause::LabelTwice => "label each cell once",
        Cause::Times(kind) => times_mending(*kind),
        Cause::SortMethod | Cause::DataIndex => "leave the key out",
        _ => "list other alternatives alone",
    }
}

/// How a cause is mended at the place to which steps lead. The error is that memory was refused.
pub(crate) fn mending_of(alloc: Global, cause: &Cause, steps: &[Step]) -> Result<String, Memory> {
    match cause {
        Cause::KeyUnknown(near) => key_mending(alloc, near, last_key(steps)),
        Cause::KeyMissing if last_key(steps) == known::VERSION => {
            let words = "add version = 1, or version = 2 for a meter with a clock";
            Ok(String::from_str(alloc, words)?)
        }
        Cause::ClassUnknown(version) => class_mending(alloc, *version),
        Cause::Index(wanted, class) => index_mending(alloc, *wanted, *class),
        Cause::Value(kind) => value_mending(alloc, *kind),
        Cause::NotSettable(class) => settable_mending(alloc, *class),
        Cause::NoCell(class) => label_mending(alloc, *class),
        Cause::Limit(limit) => {
            let words = limit_words(alloc, *limit)?;
            Ok(format!(in alloc; "keep to {words}")?)
        }
        Cause::Fed => {
            let fed = classes_told(alloc, |row| may_be_fed(row.class_id))?;
            Ok(format!(in alloc; "feed objects of the classes {fed} alone")?)
        }
        Cause::SecondClock => {
            let clocks = classes_told(alloc, |row| row.class == Class::Clock)?;
            Ok(format!(in alloc; "keep one object of class {clocks}")?)
        }
        cause => Ok(String::from_str(alloc, words_of(cause))?),
    }
}
