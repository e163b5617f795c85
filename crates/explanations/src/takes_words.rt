//! What the keys of a configuration take, and how much there may be, in words (own profile).

use config_text::cause::Limit;
use config_text::takes::{KeyTakes, Number};
use cosem_data::memory::Memory;
use meter_theory::limits::{
    ACTIONS, CAPTURE_OBJECTS, CLIENTS, EXECUTION_TIMES, MENU, OBJECTS, PROFILE_ENTRIES, SCRIPTS,
    THRESHOLDS, VALUE_BYTES, VALUE_LEVELS,
};
use std::alloc::Global;

/// The whole numbers that a key takes. The error is that memory was refused.
fn number_words(alloc: Global, number: Number) -> Result<String, Memory> {
    let (low, high) = match number {
        Number::Version => return Ok(String::from_str(alloc, "1 or 2")?),
        Number::Service => {
            let words = "1, which writes, or 2, which invokes";
            return Ok(String::from_str(alloc, words)?);
        }
        Number::Entries => (1, PROFILE_ENTRIES),
        number => number.range(),
    };
    Ok(format!(in alloc; "a whole number from {low} to {high}")?)
}

/// What a key takes. The error is that memory was refused.
pub(crate) fn takes_words(alloc: Global, takes: KeyTakes) -> Result<String, Memory> {
    let words = match takes {
        KeyTakes::Number(number) => return number_words(alloc, number),
        KeyTakes::Indexes => {
            let (low, high) = Number::Index.range();
            return Ok(format!(in alloc; "a list of whole numbers from {low} to {high}")?);
        }
        KeyTakes::Scaler => "a whole number from -128 to 127",
        KeyTakes::SortMethod => "the whole number 1",
        KeyTakes::DataIndex => "the whole number 0",
        KeyTakes::Script => "the id of a script",
        KeyTakes::Name => "a text with a name",
        KeyTakes::ClientName => "a client name",
        KeyTakes::LogicalName => "a text with a logical name",
        KeyTakes::Password => "a text of 1 to 64 characters of ASCII",
        KeyTakes::Flag => "true or false",
        KeyTakes::Hex => "a text of hex digits",
        KeyTakes::Moment => "a text with a moment",
        KeyTakes::Hexes => "a list of texts of hex digits",
        KeyTakes::ClientNames => "a list of client names",
        KeyTakes::Table => "a table",
        KeyTakes::Tables => "a list of tables",
        KeyTakes::Lists => "a list of lists of tables",
    };
    Ok(String::from_str(alloc, words)?)
}

/// How much there may be of what is limited. The error is that memory was refused.
pub(crate) fn limit_words(alloc: Global, limit: Limit) -> Result<String, Memory> {
    Ok(match limit {
        Limit::Clients => format!(in alloc; "{CLIENTS} clients")?,
        Limit::Objects => format!(in alloc; "{OBJECTS} objects")?,
        Limit::Captures => format!(in alloc; "{CAPTURE_OBJECTS} captured cells")?,
        Limit::Entries => format!(in alloc; "{PROFILE_ENTRIES} entries")?,
        Limit::Alternatives => format!(in alloc; "1 to {MENU} alternatives")?,
        Limit::Scripts => format!(in alloc; "{SCRIPTS} scripts")?,
        Limit::Actions => format!(in alloc; "{ACTIONS} actions of a script")?,
        Limit::MonitorActions => format!(in alloc; "{THRESHOLDS} actions of a register monitor")?,
        Limit::Value => {
            format!(in alloc; "values of {VALUE_BYTES} bytes that nest {VALUE_LEVELS} deep")?
        }
        Limit::Thresholds => {
            format!(in alloc; "{THRESHOLDS} thresholds, of {VALUE_BYTES} bytes together")?
        }
        Limit::Times => format!(in alloc; "{EXECUTION_TIMES} times")?,
    })
}
