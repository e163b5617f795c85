//! The values in the texts of a configuration.
ghost use Rattle.std.specs.Prelude.{◌≡◌, IfOk, Some, is_some};
ghost use Rattle.cosem_data.specs.View.{tree};
ghost use Rattle.cosem_data.specs.Tree.{octet_string};
ghost use Rattle.civil_moment.specs.MomentText.{moment_in};
ghost use Rattle.value_text.specs.Texts.{value_in};
ghost use Rattle.config_rules.specs.Values as spec;

use civil_moment::moment::Moment;
use class_control::times::is_execution_time;
use config_text::hex_value::{HexBytes, HexValue};
use cosem_class::shapes::structure;
use cosem_data::bytes::Bytes;
use cosem_data::data::Data;
use cosem_data::kind::Kind;
use cosem_data::memory::Memory;
use std::alloc::Global;

/// The kind of the value that a text is, none where it is no value.
pub(crate) fn kind_in(hex: &HexValue) -> Option<Kind>
    ensures { result ≡ spec.kind_in hex.now }
{
    match hex.value() {
        Some(value) => Some(value.kind()),
        None => None,
    }
}

fn octets(alloc: Global, bytes: &[u8]) -> Result<Data, Memory>
    ensures { IfOk result (λ value. tree value ≡ octet_string bytes.now) }
{
    Ok(Data::OctetString(Bytes::new(Vec::from_slice(alloc, bytes)?)))
}

/// A structure of time, the first four bytes, and date, the others (IEC 62056-6-2, Single action schedule,
/// execution_time_date).
pub(crate) fn time_and_date(alloc: Global, bytes: &[u8]) -> Result<Data, Memory>
    ensures { IfOk result (λ value. tree value ≡ spec.time_and_date bytes.now) }
{
    let (time, date) = bytes.split_at(bytes.len().min(4));
    structure(alloc, [octets(alloc, time)?, octets(alloc, date)?])
}

/// Whether these are nine bytes, a time and a date with each field in its range.
fn are_time_and_date(alloc: Global, bytes: &[u8]) -> Result<bool, Memory>
    ensures { IfOk result (λ are. are ≡ spec.are_time_and_date (Some bytes.now)) }
{
    let value = time_and_date(alloc, bytes)?;
    Ok(bytes.len() == 9 && is_execution_time(&value))
}

/// Whether a text is the hex text of nine bytes, a time and a date with each field in its range.
pub(crate) fn is_time_text(alloc: Global, hex: &HexBytes) -> Result<bool, Memory>
    ensures { IfOk result (λ is. is ≡ spec.is_time_text hex.now) }
{
    match hex.bytes() {
        Some(bytes) => are_time_and_date(alloc, bytes),
        None => Ok(false),
    }
}

/// Whether a text is the hex text of the encoding of one value.
pub(crate) fn is_value(hex: &HexValue) -> bool
    ensures { result ≡ is_some (value_in hex.now) }
{
    hex.value().is_some()
}

/// Whether a text is a moment: YYYY-MM-DDTHH:MM:SS, of the years 2000 to 9999, which the calendar has (own profile).
pub(crate) fn is_moment_text(text: &str) -> bool
    ensures { result ≡ is_some (moment_in text.now) }
{
    Moment::read(text).is_ok()
}
