//! Whether a value may stand in a cell of a register monitor or of a single action schedule.
ghost use Rattle.std.specs.Prelude.{◌≡◌, ◌==◌, ◌&&◌, length, map};
ghost use Rattle.std.specs.List.{list_all};
ghost use Rattle.cosem_data.specs.View.{tree};
ghost use Rattle.cosem_data.specs.Kinds.{kind_of, same_kind};
ghost use Rattle.meter_theory.specs.Value.{ExecutionTimes, Thresholds, elements};
ghost use Rattle.meter_theory.specs.Value as rules;
ghost use Rattle.cosem_class.specs.Judged.{judged, answer_of};

use crate::times::are_execution_times;
use cosem_class::class::ClassFault;
use cosem_class::judge::keeps_limits;
use cosem_data::data::Data;
use cosem_data::kind::Kind;

/// The elements of an array, none of any other value.
pub fn elements_of(value: &Data) -> &[Data]
    ensures { map tree result.now ≡ elements (tree value.now) }
{
    match value {
        Data::Array(elements) => elements.as_slice(),
        _ => &[],
    }
}

/// Whether each value is of this kind.
fn are_of_kind(kind: Kind, values: &[Data]) -> bool
    ensures { result ≡ list_all (λ v. same_kind (kind_of v) kind) (map tree values.now) }
{
    values.iter().all(|value| value.kind() == kind)
}

/// Whether these are so many values of this kind.
fn are_thresholds(number: usize, kind: Kind, values: &[Data]) -> bool
    ensures { result ≡ rules.are_thresholds number kind (map tree values.now) }
{
    values.len() == number && are_of_kind(kind, values)
}

/// Whether a value may be the thresholds of a register monitor with so many actions, over a monitored value of this kind:
/// an array of one value of the kind for each action, within the limits of a cell (IEC 62056-6-2, Register monitor,
/// thresholds; the limits are own profile). Another tag than that of an array is `Kind`, anything else `Rule`.
pub(crate) fn judge_thresholds(number: usize, kind: Kind, value: &Data) -> Result<(), ClassFault>
    ensures { result ≡ answer_of (judged (Thresholds number kind) (tree value.now)) }
{
    if value.kind() != Kind::Array {
        return Err(ClassFault::Kind);
    }
    if !keeps_limits(value) {
        return Err(ClassFault::Rule);
    }
    if !are_thresholds(number, kind, elements_of(value)) {
        return Err(ClassFault::Rule);
    }
    Ok(())
}

/// Whether a value may be the execution_time of a single action schedule of this type, from 1 to 5: an array of elements
/// that fit the type (`are_execution_times`), within the limits of a cell (IEC 62056-6-2, Single action schedule; the
/// limits are own profile). Another tag than that of an array is `Kind`, anything else `Rule`.
pub(crate) fn judge_times(execution_type: u8, value: &Data) -> Result<(), ClassFault>
    ensures { result ≡ answer_of (judged (ExecutionTimes execution_type) (tree value.now)) }
{
    if value.kind() != Kind::Array {
        return Err(ClassFault::Kind);
    }
    if !keeps_limits(value) {
        return Err(ClassFault::Rule);
    }
    if !are_execution_times(execution_type, elements_of(value)) {
        return Err(ClassFault::Rule);
    }
    Ok(())
}
