//! Opens a trail's file that was looked at.
ghost use Rattle.std.specs.Prelude.{◌≡◌, ◌≢◌, ◌⊎◌, ◌+◌, ◌<◌, ◌∷◌, [], false, length, map, get_or, Err, IsTrue, IfErr, IfOk, OnOk};
ghost use Rattle.sqlite_disk.specs.Disk.{Only};
ghost use Rattle.trail_file.specs.Faults.{is_before_writing};
ghost use Rattle.trail_file.specs.Heads.{head_entry};
ghost use Rattle.trail_file.specs.Opening.{IsUntouched, headed};
ghost use Rattle.trail_file.specs.Text.{entry_of, recovered};
ghost use Rattle.trail_file.specs.Rest.{EachLeft, IsBeforeOrAfter, IsSettled};

use crate::fault::TrailFault;
use crate::head::Head;
use crate::latch::{add, behind_latch};
use crate::looking::Found;
use crate::mending::mend;
use sqlite_disk::Disk;
use std::alloc::Global;

impl Found {
    /// Has the file that was found so at rest, and all of it on the disk: what a crash left behind its entries is cut off, and a new file
    /// gets its head. It gives where the shut latch stands, as `TrailFile` needs it.
    ///
    /// # Errors
    /// `Memory`, and then the file is as it was; `NotKept` and `InDoubt`, and then it is to be looked at again.
    pub fn settle<D: Disk>(&self, alloc: Global, disk: &mut D) -> Result<usize, TrailFault>
        requires usable { IsTrue (D.Disk.is_usable disk.old) }
        requires durable { Only (D.Disk.seen disk.old) (D.Disk.may_leave disk.old) }
        requires bytes { IsTrue (D.Disk.is_clean disk.old) → self.now.bytes.items ≡ D.Disk.seen disk.old }
        // The file has its head and the entries that were found.
        ensures entries { OnOk result (IsTrue (D.Disk.is_clean disk.new)
            → recovered (D.Disk.seen disk.new) ≡ head_entry self.now.head ∷ map entry_of self.now.entries.items) }
        ensures settled { IfOk result (λ end. IsTrue (D.Disk.is_clean disk.new)
            → IsSettled (D.Disk.seen disk.new) (D.Disk.may_leave disk.new) end (recovered (D.Disk.seen disk.new))) }
        ensures usable { OnOk result (IsTrue (D.Disk.is_usable disk.new)) }
        ensures on_disk { OnOk result (Only (D.Disk.seen disk.new) (D.Disk.may_leave disk.new)) }
        ensures calm { D.Disk.is_clean disk.new ≡ D.Disk.is_clean disk.old }
        // Whatever the call answers, a crash leaves the entries that the file had, with its head or without.
        ensures crash { IsTrue (D.Disk.is_clean disk.new) → EachLeft (D.Disk.may_leave disk.new)
            (λ file. (recovered file ≡ recovered (D.Disk.seen disk.old)) ⊎ (recovered file ≡ headed self.now.head (recovered (D.Disk.seen disk.old)))) }
        ensures untouched { IfErr result (λ fault. IsTrue (is_before_writing fault) → (fault ≡ TrailFault.Memory)
            × IsUntouched (D.Disk.seen disk.old) (D.Disk.seen disk.new) (D.Disk.may_leave disk.old) (D.Disk.may_leave disk.new)) }
    {
        if self.end == 0 {
            return begin(alloc, disk, &self.bytes, &self.head);
        }
        mend(disk, &self.bytes, self.end)?;
        Ok(self.end)
    }
}

/// Makes a new file the trail that begins with a head, and gives where its shut latch stands.
fn begin<D: Disk>(
    alloc: Global,
    disk: &mut D,
    bytes: &[u8],
    head: &Head,
) -> Result<usize, TrailFault>
    requires usable { IsTrue (D.Disk.is_usable disk.old) }
    requires durable { Only (D.Disk.seen disk.old) (D.Disk.may_leave disk.old) }
    requires bytes { IsTrue (D.Disk.is_clean disk.old) → bytes.now ≡ D.Disk.seen disk.old }
    requires none { recovered bytes.now ≡ [] }
    requires shut { 1 < length bytes.now → get_or bytes.now 0 0 ≢ 35 }
    ensures stored { OnOk result (IsTrue (D.Disk.is_clean disk.new) → recovered (D.Disk.seen disk.new) ≡ head_entry head.now ∷ []) }
    ensures settled { IfOk result (λ end. IsTrue (D.Disk.is_clean disk.new)
        → IsSettled (D.Disk.seen disk.new) (D.Disk.may_leave disk.new) end (recovered (D.Disk.seen disk.new))) }
    ensures usable { OnOk result (IsTrue (D.Disk.is_usable disk.new)) }
    ensures on_disk { OnOk result (Only (D.Disk.seen disk.new) (D.Disk.may_leave disk.new)) }
    ensures calm { D.Disk.is_clean disk.new ≡ D.Disk.is_clean disk.old }
    ensures crash { IsTrue (D.Disk.is_clean disk.new)
        → EachLeft (D.Disk.may_leave disk.new) (IsBeforeOrAfter [] (head_entry head.now ∷ [])) }
    ensures untouched { IfErr result (λ fault. IsTrue (is_before_writing fault) → (fault ≡ TrailFault.Memory)
        × IsUntouched (D.Disk.seen disk.old) (D.Disk.seen disk.new) (D.Disk.may_leave disk.old) (D.Disk.may_leave disk.new)) }
{
    // All memory first: nothing is written where it is refused.
    let batch = head.batch(alloc)?;
    let behind = behind_latch(alloc, &batch)?;
    mend(disk, bytes, 0)?;
    add(disk, 0, &batch, &behind)?;
    Ok(batch.len())
}
