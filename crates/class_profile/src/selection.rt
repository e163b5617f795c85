//! Selective access to a buffer by entry (IEC 62056-6-2, Profile generic, entry_descriptor).
ghost use Rattle.std.specs.Prelude.{◌≡◌, ◌==◌, ◌-◌, cond, drop, take, option_map, map};
ghost use Rattle.cosem_data.specs.View.{tree};
ghost use Rattle.meter_theory.specs.Selection as theory;
ghost use Rattle.meter_theory.specs.Times.{parts_of};
ghost use Rattle.class_profile.specs.SelectionView.{descriptor_view};

use cosem_data::data::Data;

/// The rows from one place to another, and of each the columns from one place to another, counted from 1. A 0 in "from"
/// is read as 1 (own profile), a 0 in "to" is the last, and what lies past the end is dropped.
#[derive(Clone, Copy, Debug, PartialEq, Eq)]
pub struct EntryDescriptor {
    pub from_entry: u32,
    pub to_entry: u32,
    pub from_selected_value: u16,
    pub to_selected_value: u16,
}

impl EntryDescriptor {
    /// The entry descriptor that a selector's parameter is: a structure of exactly two double-long-unsigned and two
    /// long-unsigned.
    pub fn of(parameter: &Data) -> Option<EntryDescriptor>
        ensures { option_map descriptor_view result ≡ theory.descriptor_of (tree parameter.now) }
    {
        match parts_of(parameter) {
            [
                Data::DoubleLongUnsigned(from_entry),
                Data::DoubleLongUnsigned(to_entry),
                Data::LongUnsigned(from_selected_value),
                Data::LongUnsigned(to_selected_value),
            ] => Some(EntryDescriptor {
                from_entry: *from_entry,
                to_entry: *to_entry,
                from_selected_value: *from_selected_value,
                to_selected_value: *to_selected_value,
            }),
            _ => None,
        }
    }
}

/// The parts of a structure, none of any other value.
pub(crate) fn parts_of(value: &Data) -> &[Data]
    ensures { map tree result.now ≡ parts_of (tree value.now) }
{
    match value {
        Data::Structure(parts) => parts.as_slice(),
        _ => &[],
    }
}

/// The values from one place to another, counted from 1. A 0 in "to" is the last, and what lies past the end is dropped.
pub(crate) fn places_between(from: u32, to: u32, values: &[Data]) -> &[Data]
    ensures { result.now ≡ theory.places_between from to values.now }
{
    between(start_of(from), end_of(to, values.len()), values)
}

/// How many places lie before this one, counted from 1.
pub(crate) fn start_of(from: u32) -> usize
    ensures { result ≡ from - 1 }
{
    from.saturating_sub(1) as usize
}

/// How many of so many places there are up to this one, counted from 1, where a 0 is the last.
pub(crate) fn end_of(to: u32, len: usize) -> usize
    ensures { result ≡ cond (to == 0) len to }
{
    if to == 0 { len } else { to as usize }
}

/// The first `end` values without the first `start` of them.
pub(crate) fn between(start: usize, end: usize, values: &[Data]) -> &[Data]
    ensures { result.now ≡ drop start (take end values.now) }
{
    let end = end.min(values.len());
    &values[start.min(end)..end]
}
