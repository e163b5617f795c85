//! The latch before the next entry, and what is written round it.
ghost use Rattle.std.specs.Prelude.{◌≡◌, ◌+◌, ◌-◌, ◌^◌, ◌<◌, ◌++◌, ◌∷◌, [], false, length, drop, IsTrue, Err, IfOk, IfErr, OnOk};
ghost use Rattle.sqlite_disk.specs.Disk.{Only};
ghost use Rattle.trail_file.specs.Faults.{is_before_writing};
ghost use Rattle.trail_file.specs.Opening.{IsUntouched};
ghost use Rattle.trail_file.specs.Text.{recovered};
ghost use Rattle.trail_file.specs.Rest.{EachLeft, IsBatch, IsBeforeOrAfter, IsSettled, IsStaged, StandsFor};

use crate::fault::TrailFault;
use sqlite_disk::Disk;
use std::alloc::{AllocError, Global};

/// The open latch, behind which an entry counts.
pub(crate) const OPEN: u8 = b'#';

/// What ends a note and a line; as a latch it is the shut one.
pub(crate) const NEWLINE: u8 = b'\n';

/// What stands behind the first latch of a batch, and a shut latch behind that.
pub(crate) fn behind_latch(alloc: Global, batch: &[u8]) -> Result<Vec<u8>, AllocError>
    requires { 0 < length batch.now }
    ensures { IfOk result (λ v. v.items ≡ drop 1 batch.now ++ 10 ∷ []) }
{
    let mut bytes = batch[1..].to_vec(alloc)?;
    bytes.push(NEWLINE)?;
    Ok(bytes)
}

/// Adds the entries of a batch at the shut latch, all or none. It syncs twice, however many the entries are.
pub(crate) fn add<D: Disk>(
    disk: &mut D,
    end: usize,
    batch: &[u8],
    behind: &[u8],
) -> Result<(), TrailFault>
    requires usable { IsTrue (D.Disk.is_usable disk.old) }
    requires settled { IsTrue (D.Disk.is_clean disk.old)
        → IsSettled (D.Disk.seen disk.old) (D.Disk.may_leave disk.old) end (recovered (D.Disk.seen disk.old)) }
    requires batch { IsBatch batch.now }
    requires behind { behind.now ≡ drop 1 batch.now ++ 10 ∷ [] }
    requires fits { end + length batch.now < 2 ^ 64 - 1 }
    ensures stored { OnOk result (IsTrue (D.Disk.is_clean disk.new)
        → recovered (D.Disk.seen disk.new) ≡ recovered (D.Disk.seen disk.old) ++ recovered batch.now) }
    ensures settled { OnOk result (IsTrue (D.Disk.is_clean disk.new)
        → IsSettled (D.Disk.seen disk.new) (D.Disk.may_leave disk.new) (end + length batch.now) (recovered (D.Disk.seen disk.new))) }
    ensures usable { OnOk result (IsTrue (D.Disk.is_usable disk.new)) }
    ensures on_disk { OnOk result (Only (D.Disk.seen disk.new) (D.Disk.may_leave disk.new)) }
    ensures calm { D.Disk.is_clean disk.new ≡ D.Disk.is_clean disk.old }
    ensures crash { IsTrue (D.Disk.is_clean disk.new)
        → EachLeft (D.Disk.may_leave disk.new) (IsBeforeOrAfter (recovered (D.Disk.seen disk.old)) (recovered batch.now)) }
    ensures not_kept { result ≡ Err TrailFault.NotKept → IsTrue (D.Disk.is_clean disk.new)
        → EachLeft (D.Disk.may_leave disk.new) (StandsFor (recovered (D.Disk.seen disk.old))) }
    ensures written { IfErr result (λ fault. is_before_writing fault ≡ false) }
{
    if !stage(disk, end, behind) {
        return Err(TrailFault::NotKept);
    }
    if !open_latch(disk, end, batch) {
        return Err(TrailFault::InDoubt);
    }
    Ok(())
}

/// Writes bytes behind the shut latch at this place, and has them on the disk. It says whether that was done.
fn stage<D: Disk>(disk: &mut D, end: usize, behind: &[u8]) -> bool
    requires usable { IsTrue (D.Disk.is_usable disk.old) }
    requires settled { IsTrue (D.Disk.is_clean disk.old)
        → IsSettled (D.Disk.seen disk.old) (D.Disk.may_leave disk.old) end (recovered (D.Disk.seen disk.old)) }
    requires fits { end + length behind.now < 2 ^ 64 - 1 }
    requires some { 0 < length behind.now }
    ensures staged { IsTrue result → IsTrue (D.Disk.is_clean disk.new)
        → IsStaged (D.Disk.seen disk.new) end (recovered (D.Disk.seen disk.new)) behind.now }
    ensures durable { IsTrue result → Only (D.Disk.seen disk.new) (D.Disk.may_leave disk.new) }
    ensures same { IsTrue (D.Disk.is_clean disk.new) → recovered (D.Disk.seen disk.new) ≡ recovered (D.Disk.seen disk.old) }
    ensures usable { IsTrue result → IsTrue (D.Disk.is_usable disk.new) }
    ensures calm { D.Disk.is_clean disk.new ≡ D.Disk.is_clean disk.old }
    ensures crash { IsTrue (D.Disk.is_clean disk.new)
        → EachLeft (D.Disk.may_leave disk.new) (StandsFor (recovered (D.Disk.seen disk.old))) }
{
    match disk.write_at(end + 1, behind) {
        Ok(()) => is_synced(disk),
        Err(_) => false,
    }
}

/// Opens the latch before a batch that is on the disk. It says whether the open latch is on the disk.
fn open_latch<D: Disk>(disk: &mut D, end: usize, batch: &[u8]) -> bool
    requires usable { IsTrue (D.Disk.is_usable disk.old) }
    requires staged { IsTrue (D.Disk.is_clean disk.old)
        → IsStaged (D.Disk.seen disk.old) end (recovered (D.Disk.seen disk.old)) (drop 1 batch.now ++ 10 ∷ []) }
    requires durable { Only (D.Disk.seen disk.old) (D.Disk.may_leave disk.old) }
    requires batch { IsBatch batch.now }
    ensures settled { IsTrue result → IsTrue (D.Disk.is_clean disk.new)
        → IsSettled (D.Disk.seen disk.new) (D.Disk.may_leave disk.new) (end + length batch.now) (recovered (D.Disk.seen disk.new)) }
    ensures added { IsTrue result → IsTrue (D.Disk.is_clean disk.new)
        → recovered (D.Disk.seen disk.new) ≡ recovered (D.Disk.seen disk.old) ++ recovered batch.now }
    ensures on_disk { IsTrue result → Only (D.Disk.seen disk.new) (D.Disk.may_leave disk.new) }
    ensures usable { IsTrue result → IsTrue (D.Disk.is_usable disk.new) }
    ensures calm { D.Disk.is_clean disk.new ≡ D.Disk.is_clean disk.old }
    ensures crash { IsTrue (D.Disk.is_clean disk.new)
        → EachLeft (D.Disk.may_leave disk.new) (IsBeforeOrAfter (recovered (D.Disk.seen disk.old)) (recovered batch.now)) }
{
    match disk.write_at(end, &[OPEN]) {
        Ok(()) => is_synced(disk),
        Err(_) => false,
    }
}

/// Syncs, and says whether that was done.
pub(crate) fn is_synced<D: Disk>(disk: &mut D) -> bool
    requires { IsTrue (D.Disk.is_usable disk.old) }
    ensures durable { IsTrue result → Only (D.Disk.seen disk.new) (D.Disk.may_leave disk.new) }
    ensures seen { D.Disk.seen disk.new ≡ D.Disk.seen disk.old }
    ensures usable { IsTrue result → IsTrue (D.Disk.is_usable disk.new) }
    ensures calm { D.Disk.is_clean disk.new ≡ D.Disk.is_clean disk.old }
    ensures crash { EachLeft (D.Disk.may_leave disk.new) (D.Disk.may_leave disk.old) }
{
    match disk.sync() {
        Ok(()) => true,
        Err(_) => false,
    }
}
