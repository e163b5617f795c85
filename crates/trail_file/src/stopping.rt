//! A machine that stops in the midst of an append.
ghost use Rattle.std.specs.Prelude.{◌≡◌, ◌∷◌, [], true, IsTrue};
ghost use Rattle.sqlite_disk.specs.Fuse.{inner_of};
ghost use Rattle.trail_file.specs.Text.{is_one_line, recovered};
ghost use Rattle.trail_file.specs.Rest.{EachLeft, IsBeforeOrAfter, IsSettled};

use crate::trail::TrailFile;
use sqlite_disk::{Disk, Fuse};
use std::alloc::Global;

/// An append on a machine that stops behind so many calls of its disk: whatever their number, what the disk may hold then is the
/// entries from before, with the new one or without.
pub fn stopped_after<D: Disk + Drop>(
    trail: TrailFile<D>,
    calls: u64,
    alloc: Global,
    note: &[u8],
    line: &[u8],
) -> TrailFile<Fuse<D>>
    requires usable { IsTrue (D.Disk.is_usable trail.disk) }
    requires settled { IsTrue (D.Disk.is_clean trail.disk)
        → IsSettled (D.Disk.seen trail.disk) (D.Disk.may_leave trail.disk) trail.end (recovered (D.Disk.seen trail.disk)) }
    requires note { is_one_line note.now ≡ true }
    requires line { is_one_line line.now ≡ true }
    ensures { IsTrue (D.Disk.is_clean (inner_of result.disk)) → EachLeft (D.Disk.may_leave (inner_of result.disk))
        (IsBeforeOrAfter (recovered (D.Disk.seen trail.disk)) ((note.now, line.now) ∷ [])) }
{
    let TrailFile { disk, end } = trail;
    let mut stopped = TrailFile {
        disk: Fuse::new(disk, calls),
        end,
    };
    let _outcome = stopped.append(alloc, note, line);
    stopped
}
