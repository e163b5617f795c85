//! The arrays of values in the texts of a configuration.
ghost use Rattle.std.specs.Prelude.{◌≡◌, IfOk, map};
ghost use Rattle.cosem_data.specs.View.{tree};
ghost use Rattle.config_rules.specs.PlanOf as plan;

use crate::value::time_and_date;
use config_text::hex_value::{HexBytes, HexValue};
use cosem_data::data::Data;
use cosem_data::memory::Memory;
use std::alloc::Global;

/// A copy of the value that a text is, null-data where it is none.
pub fn value_or_null(alloc: Global, hex: &HexValue) -> Result<Data, Memory>
    ensures { IfOk result (λ value. tree value ≡ plan.value_of hex.now) }
{
    match hex.value() {
        Some(value) => value.try_clone(alloc),
        None => Ok(Data::NullData),
    }
}

/// The time and date that a text is, without bytes where it is no hex text.
fn time_or_none(alloc: Global, hex: &HexBytes) -> Result<Data, Memory>
    ensures { IfOk result (λ value. tree value ≡ plan.time_of hex.now) }
{
    match hex.bytes() {
        Some(bytes) => time_and_date(alloc, bytes),
        None => time_and_date(alloc, &[]),
    }
}

/// Copies of the values that texts are.
pub fn values_of(alloc: Global, texts: &[HexValue]) -> Result<Vec<Data>, Memory>
    ensures { IfOk result (λ values. map tree values.items ≡ map plan.value_of texts.now) }
{
    let mut values = Vec::with_capacity(alloc, texts.len())?;
    for text in texts {
        values.push(value_or_null(alloc, text)?)?;
    }
    Ok(values)
}

/// The times and dates that texts are.
pub fn times_of(alloc: Global, texts: &[HexBytes]) -> Result<Vec<Data>, Memory>
    ensures { IfOk result (λ times. map tree times.items ≡ map plan.time_of texts.now) }
{
    let mut times = Vec::with_capacity(alloc, texts.len())?;
    for text in texts {
        times.push(time_or_none(alloc, text)?)?;
    }
    Ok(times)
}
