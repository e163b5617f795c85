//! What a table says at a key that holds a text, a number or a yes or no. `at` is the place of the table, up to its dot.

ghost use Rattle.std.specs.Prelude.{◌≡◌, ◌≤◌, ℕ, pos, negsuc, Result};
ghost use Rattle.std.specs.Prelude.{option_map, string_bytes, IfOk, IfSome};
ghost use Rattle.std.specs.Char.{is_ascii};
ghost use Rattle.std.specs.List.{list_all};
ghost use Rattle.std.specs.Result.{result_ok};
ghost use Rattle.toml.specs.View.{table_view, view};
ghost use Rattle.config_text.specs.Fault.{Faults};
ghost use Rattle.config_text.specs.Keys as keys;
ghost use Rattle.config_text.specs.Reading.{Reads};
ghost use Rattle.config_text.specs.KeyTakes.{range_of};
ghost use Rattle.config_text.specs.Values as spec;

use crate::fault::TableFault;
use crate::kept::Kept;
use crate::lookup::value_at;
use crate::place::Place;
use crate::refusal::{missing, untaken};
use crate::takes::{KeyTakes, Number};
use cosem_data::memory::Memory;
use toml::{Table, Value};

/// What stands at a key that has to be there.
///
/// # Errors
/// C2 at the key where it is missing.
pub(crate) fn there<'a>(
    at: &Place<'_>,
    key: &str,
    table: &'a Table,
) -> Result<&'a Value, TableFault>
    ensures { Reads (λ value. view value.now) result (keys.there at.now key.now (table_view table.now)) }
{
    match value_at(table, key) {
        Some(value) => Ok(value),
        None => Err(missing(at, key)),
    }
}

/// The text at a key.
///
/// # Errors
/// C2 at the key where it is missing, C3 where it isn't a text.
#[tactic(auto, unfolding(crate::specs::Values::text_at))]
pub(crate) fn text_at<K: Kept>(
    takes: KeyTakes,
    at: &Place<'_>,
    key: &str,
    table: &Table,
) -> Result<K, TableFault>
    ensures { Reads (λ text. K.says text) result (spec.text_at takes at.now key.now (table_view table.now)) }
{
    match there(at, key, table)?.as_str() {
        Some(found) => Ok(K::keep(at.alloc(), found)?),
        None => Err(untaken(takes, at, key)),
    }
}

/// The text at a key that may be left out.
///
/// # Errors
/// C3 at the key where it isn't a text.
#[tactic(auto, unfolding(crate::specs::Values::optional_text_at))]
pub(crate) fn optional_text_at<K: Kept>(
    takes: KeyTakes,
    at: &Place<'_>,
    key: &str,
    table: &Table,
) -> Result<Option<K>, TableFault>
    ensures { Reads (λ text. option_map K.says text) result (spec.optional_text_at takes at.now key.now
        (table_view table.now)) }
{
    match value_at(table, key) {
        Some(value) => match value.as_str() {
            Some(found) => Ok(Some(K::keep(at.alloc(), found)?)),
            None => Err(untaken(takes, at, key)),
        },
        None => Ok(None),
    }
}

/// Whether all characters are of ASCII.
fn is_ascii_alone(text: &str) -> bool
    ensures { result ≡ list_all is_ascii text.now }
{
    text.as_bytes().iter().all(|byte| byte.is_ascii())
}

/// Whether a text is `low` to `high` ASCII characters.
fn has_ascii(text: &str, low: usize, high: usize) -> bool
    ensures { result ≡ spec.has_ascii low high text.now }
{
    low <= text.len() && text.len() <= high && is_ascii_alone(text)
}

/// The password at a key that may be left out: 1 to 64 characters of ASCII.
///
/// # Errors
/// C3 at the key where it is something else.
#[tactic(auto, unfolding(crate::specs::Values::password_at))]
pub(crate) fn password_at(
    at: &Place<'_>,
    key: &str,
    table: &Table,
) -> Result<Option<String>, TableFault>
    ensures { Reads (λ s. option_map string_bytes s) result
        (spec.password_at at.now key.now (table_view table.now)) }
{
    match value_at(table, key) {
        Some(value) => match value.as_str() {
            Some(found) if has_ascii(found, 1, 64) => {
                Ok(Some(String::from_str(at.alloc(), found)?))
            }
            _ => Err(untaken(KeyTakes::Password, at, key)),
        },
        None => Ok(None),
    }
}

/// A whole number from `low` to `high`.
fn natural(found: Option<i64>, low: u64, high: u64) -> Option<u64>
    ensures value { result ≡ spec.natural_in low high found }
    ensures range { IfSome result (λ n. (low ≤ n) × (n ≤ high)) }
{
    let number = u64::try_from(found?).ok()?;
    if low <= number && number <= high {
        Some(number)
    } else {
        None
    }
}

/// A whole number that a key takes.
pub(crate) fn number(wanted: Number, found: Option<i64>) -> Option<u64>
    ensures value { result ≡ spec.number_in wanted found }
    ensures range { IfSome result (λ n. ((range_of wanted).0 ≤ n) × (n ≤ (range_of wanted).1)) }
{
    let (low, high) = wanted.range();
    natural(found, low, high)
}

/// The whole number at a key.
///
/// # Errors
/// C2 at the key where it is missing, C3 where it is something else.
#[tactic(auto, unfolding(crate::specs::Values::natural_at))]
pub(crate) fn natural_at(
    wanted: Number,
    at: &Place<'_>,
    key: &str,
    table: &Table,
) -> Result<u64, TableFault>
    ensures value { Reads (λ n. n) result (spec.natural_at wanted at.now key.now
        (table_view table.now)) }
    ensures range { IfOk result (λ n. ((range_of wanted).0 ≤ n) × (n ≤ (range_of wanted).1)) }
{
    match number(wanted, there(at, key, table)?.as_integer()) {
        Some(number) => Ok(number),
        None => Err(untaken(KeyTakes::Number(wanted), at, key)),
    }
}

/// The number of a reading, or none where it found a fault instead. The error is that memory was refused.
pub(crate) fn natural_read(reading: &Result<u64, TableFault>) -> Result<Option<u64>, Memory>
    ensures value { IfOk result (λ told. (said : Result ℕ Faults) → Reads (λ n. n) reading.now said → told ≡ result_ok said) }
    ensures read { IfOk result (λ told. told ≡ result_ok reading.now) }
{
    match reading {
        Ok(number) => Ok(Some(*number)),
        Err(TableFault::Keys { .. } | TableFault::Values { .. }) => Ok(None),
        Err(TableFault::Memory) => Err(Memory),
    }
}

/// A scaler, if a number is one.
fn scaler(found: Option<i64>) -> Option<i8>
    ensures { result ≡ spec.integer_in (negsuc 127) (pos 127) found }
{
    let value = found?;
    if -128 <= value && value <= 127 {
        Some(value as i8)
    } else {
        None
    }
}

/// The scaler at a key, -128 to 127.
///
/// # Errors
/// C2 at the key where it is missing, C3 where it is something else.
#[tactic(auto, unfolding(crate::specs::Values::scaler_at))]
pub(crate) fn scaler_at(at: &Place<'_>, key: &str, table: &Table) -> Result<i8, TableFault>
    ensures { Reads (λ n. n) result (spec.scaler_at at.now key.now (table_view table.now)) }
{
    match scaler(there(at, key, table)?.as_integer()) {
        Some(scaler) => Ok(scaler),
        None => Err(untaken(KeyTakes::Scaler, at, key)),
    }
}

/// The integer at a key.
///
/// # Errors
/// C2 at the key where it is missing, C3 where it is something else.
#[tactic(auto, unfolding(crate::specs::Values::integer_at))]
pub(crate) fn integer_at(
    takes: KeyTakes,
    at: &Place<'_>,
    key: &str,
    table: &Table,
) -> Result<i64, TableFault>
    ensures { Reads (λ n. n) result (spec.integer_at takes at.now key.now (table_view table.now)) }
{
    match there(at, key, table)?.as_integer() {
        Some(number) => Ok(number),
        None => Err(untaken(takes, at, key)),
    }
}

/// The integer at a key that may be left out.
///
/// # Errors
/// C3 at the key where it is something else.
#[tactic(auto, unfolding(crate::specs::Values::optional_integer_at))]
pub(crate) fn optional_integer_at(
    takes: KeyTakes,
    at: &Place<'_>,
    key: &str,
    table: &Table,
) -> Result<Option<i64>, TableFault>
    ensures { Reads (λ n. n) result (spec.optional_integer_at takes at.now key.now (table_view table.now)) }
{
    match value_at(table, key) {
        Some(value) => match value.as_integer() {
            Some(number) => Ok(Some(number)),
            None => Err(untaken(takes, at, key)),
        },
        None => Ok(None),
    }
}

/// The yes or no at a key, or `absent` where it is left out.
///
/// # Errors
/// C3 at the key where it is something else.
#[tactic(auto, unfolding(crate::specs::Values::flag_at))]
pub(crate) fn flag_at(
    absent: bool,
    at: &Place<'_>,
    key: &str,
    table: &Table,
) -> Result<bool, TableFault>
    ensures { Reads (λ b. b) result (spec.flag_at absent at.now key.now (table_view table.now)) }
{
    match value_at(table, key) {
        Some(value) => match value.as_bool() {
            Some(flag) => Ok(flag),
            None => Err(untaken(KeyTakes::Flag, at, key)),
        },
        None => Ok(absent),
    }
}
