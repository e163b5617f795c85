ghost use Rattle.std.specs.Prelude.{◌≡◌, Some};
ghost use Rattle.cosem_data.specs.View.{tree};
ghost use Rattle.meter_theory.specs.Value.{OfKind, is_within_limits};
ghost use Rattle.cosem_class.specs.Judged.{judged, answer_of, coded_answer, rule_answer};

use crate::class::ClassFault;
use cosem_axdr::limits::is_encoded_within;
use cosem_data::data::Data;
use cosem_data::kind::Kind;
use meter_theory::access::AccessCode;
use meter_theory::limits::{VALUE_BYTES, VALUE_LEVELS};

/// Whether a value keeps within the limits of a cell: `VALUE_BYTES` when encoded, `VALUE_LEVELS` of nesting (own profile).
pub fn keeps_limits(value: &Data) -> bool
    ensures { result ≡ is_within_limits (tree value.now) }
{
    is_encoded_within(value, VALUE_BYTES) && value.is_nested_within(VALUE_LEVELS)
}

/// Whether a value may stand in a cell whose kind is kept (own profile). Another tag is `Kind`, and the right tag past the
/// limits `Rule`.
pub fn judge_kind(kind: Kind, value: &Data) -> Result<(), ClassFault>
    ensures { result ≡ answer_of (judged (OfKind kind) (tree value.now)) }
{
    if value.kind() != kind {
        return Err(ClassFault::Kind);
    }
    if !keeps_limits(value) {
        return Err(ClassFault::Rule);
    }
    Ok(())
}

/// An answer with the code of its fault.
pub fn coded(answer: Result<(), ClassFault>) -> Result<(), AccessCode>
    ensures { result ≡ coded_answer answer }
{
    answer?;
    Ok(())
}

/// The same as `judge_kind`, with the code of the fault.
pub fn kind_answer(kind: Kind, value: &Data) -> Result<(), AccessCode>
    ensures { result ≡ rule_answer (Some (OfKind kind)) (tree value.now) }
{
    coded(judge_kind(kind, value))
}
