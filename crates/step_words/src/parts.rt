//! Reading names, moments and values, and the end of a line.
ghost use Rattle.std.specs.Prelude.{◌≡◌, [], IfOk};
ghost use Rattle.cosem_data.specs.View.{tree};
ghost use Rattle.value_words.specs.Stopping.{Reads};
ghost use Rattle.step_words.specs.Parts as spec;
ghost use Rattle.step_words.specs.Parts.{CanBeSent, name_at, moment_at, value_at};

use crate::fault::Asked;
use crate::runs::{Run, run_of};
use civil_moment::moment::Moment;
use cosem_axdr::limits::is_encoded_within;
use cosem_data::data::Data;
use cosem_data::name::LogicalName;
use std::alloc::Global;
use value_text::name::name_in;
use value_words::fault::ValueFault;
use value_words::reading::read_value;
use value_words::stop::{Stop, stop_at};

/// A logical name.
#[tactic(auto, unfolding(crate::specs::Parts::name_at))]
pub(crate) fn name_of(text: &[u8]) -> Result<(LogicalName, &[u8]), Stop<Asked>>
    ensures { Reads (λ x. (x.0, x.1.now)) result (name_at text.now) }
{
    let (digits, rest) = run_of(Run::Name, text);
    match name_in(digits) {
        Some(name) => Ok((name, rest)),
        None => Err(stop_at(text, Asked::Name)),
    }
}

/// A moment, to the end of the line.
#[tactic(auto, unfolding(crate::specs::Parts::moment_at))]
pub(crate) fn moment_of(text: &[u8]) -> Result<Moment, Stop<Asked>>
    ensures { Reads (λ x. (x, [])) result (moment_at text.now) }
{
    match Moment::read_bytes(text).ok() {
        Some(moment) => Ok(moment),
        None => Err(stop_at(text, Asked::Moment)),
    }
}

/// Whether a value is nested at most 16 deep, and its encoding has less than 2^32 bytes.
fn can_be_sent(value: &Data) -> bool
    ensures { result ≡ spec.can_be_sent (tree value.now) }
{
    value.is_nested_within(16) && is_encoded_within(value, u32::MAX as usize)
}

/// A value in words that can be sent.
#[tactic(auto, unfolding(crate::specs::Parts::value_at))]
pub(crate) fn value_of(alloc: Global, text: &[u8]) -> Result<(Data, &[u8]), Stop<Asked>>
    ensures read { Reads (λ x. (tree x.0, x.1.now)) result (value_at text.now) }
    ensures sent { IfOk result (λ x. CanBeSent (tree x.0)) }
{
    match read_value(alloc, text) {
        Ok((value, used)) => {
            if can_be_sent(&value) {
                Ok((value, &text[used..]))
            } else {
                Err(stop_at(text, Asked::ShortValue))
            }
        }
        Err(ValueFault::Memory) => Err(Stop::Memory),
        Err(ValueFault::At { place, asked }) => {
            Err(Stop::At(text.len() - place, Asked::Value(asked)))
        }
    }
}

/// The end of the line, which is asked.
pub(crate) fn end_of(text: &[u8]) -> Result<(), Stop<Asked>>
    ensures { Reads (λ x. x) result (spec.ended tt text.now) }
{
    match text {
        [] => Ok(()),
        [..] => Err(stop_at(text, Asked::End)),
    }
}
