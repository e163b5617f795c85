//! Whether what a cell holds is a value that was kept.
ghost use Rattle.std.specs.Prelude.{◌≡◌, map};
ghost use Rattle.cosem_data.specs.View.{tree};
ghost use Rattle.cosem_data.specs.Equal.{same_parts, same_tree};
ghost use Rattle.meter_theory.specs.Times.{clock_value};
ghost use Rattle.meter_theory.specs.Value.{array_of};
ghost use Rattle.object_model.specs.Stored.{held_tree};

use civil_moment::moment::Moment;
use class_control::clock::time_bytes;
use class_profile::rows::Rows;
use cosem_data::data::Data;
use object_model::held::Held;

/// Whether the parts of an array are the rows of a profile.
fn are_rows(parts: &[Data], rows: &Rows) -> bool
    ensures { result ≡ same_parts (map tree parts.now) rows.now }
{
    let (older, newer) = rows.slices();
    match parts.strip_prefix(older) {
        Some(others) => others == newer,
        None => false,
    }
}

/// Whether a value is the array of the rows of a profile.
fn is_buffer(value: &Data, rows: &Rows) -> bool
    ensures { result ≡ same_tree (tree value.now) (array_of rows.now) }
{
    match value {
        Data::Array(parts) => are_rows(parts.as_slice(), rows),
        _ => false,
    }
}

/// Whether a value is the time of a clock that stands at the moment.
fn is_time(value: &Data, moment: Moment) -> bool
    ensures { result ≡ same_tree (tree value.now) (clock_value moment) }
{
    match value {
        Data::OctetString(bytes) => bytes.as_slice() == time_bytes(moment).as_slice(),
        _ => false,
    }
}

/// Whether a value is the one that a cell holds.
pub(crate) fn is_held(value: &Data, held: &Held<'_>) -> bool
    ensures { result ≡ same_tree (tree value.now) (held_tree held.now) }
{
    match held {
        Held::Value(now) => *value == **now,
        Held::Number(now) => *value == Data::DoubleLongUnsigned(*now),
        Held::Rows(rows) => is_buffer(value, rows),
        Held::Time(moment) => is_time(value, *moment),
    }
}
