//! Whether a value's encoding keeps within a limit, told without writing it.
ghost use Rattle.std.specs.Prelude.{◌≡◌, ◌++◌, length, map, nat_le};
ghost use Rattle.cosem_data.specs.Tree.{trees};
ghost use Rattle.cosem_data.specs.View.{tree};
ghost use Rattle.cosem_axdr.specs.Canonical.{canonical, all, shortest, IsRoomAfter};

use cosem_data::data::Data;

/// The room that is left behind the shortest form of a length, where it fits.
#[tactic(auto, unfolding(crate::specs::Canonical::shortest))]
fn room_after_length(n: usize, room: usize) -> Option<usize>
    ensures { IsRoomAfter (length (shortest n)) room result }
{
    if n < 128 {
        room.checked_sub(1)
    } else if n < 0x100 {
        room.checked_sub(2)
    } else if n < 0x1_0000 {
        room.checked_sub(3)
    } else if n < 0x100_0000 {
        room.checked_sub(4)
    } else {
        room.checked_sub(5)
    }
}

/// The room that is left behind a string's length and its bytes, where they fit.
fn room_after_string(bytes: &[u8], room: usize) -> Option<usize>
    ensures { IsRoomAfter (length (shortest (length bytes.now) ++ bytes.now)) room result }
{
    room_after_length(bytes.len(), room)?.checked_sub(bytes.len())
}

/// The room that is left behind the canonical encoding of a value, where it fits.
#[cycle(room)]
fn room_after(value: &Data, room: usize) -> Option<usize>
    ensures { IsRoomAfter (length (canonical (tree value.now))) room result }
{
    let room = room.checked_sub(1)?;
    match value {
        Data::NullData => Some(room),
        Data::Array(items) | Data::Structure(items) => room_after_parts(items.as_slice(), room),
        Data::OctetString(bytes) | Data::VisibleString(bytes) => {
            room_after_string(bytes.as_slice(), room)
        }
        Data::Boolean(_) | Data::Integer(_) | Data::Unsigned(_) | Data::Enumerated(_) => {
            room.checked_sub(1)
        }
        Data::Long(_) | Data::LongUnsigned(_) => room.checked_sub(2),
        Data::DoubleLong(_) | Data::DoubleLongUnsigned(_) => room.checked_sub(4),
        Data::Long64(_) | Data::Long64Unsigned(_) => room.checked_sub(8),
    }
}

/// The room that is left behind the count of the parts and each of them, where they fit.
#[cycle(room)]
fn room_after_parts(parts: &[Data], room: usize) -> Option<usize>
    ensures { IsRoomAfter
        (length (shortest (length parts.now) ++ all (trees (map tree parts.now)))) room result }
{
    let mut left = room_after_length(parts.len(), room)?;
    for part in parts {
        left = room_after(part, left)?;
    }
    Some(left)
}

/// Whether the canonical encoding of the value takes at most so many bytes, its tag included.
///
/// It needs no memory and can't overflow: it goes down with the room that is left.
pub fn is_encoded_within(value: &Data, limit: usize) -> bool
    ensures { result ≡ nat_le (length (canonical (tree value.now))) limit }
{
    room_after(value, limit).is_some()
}
