//! Mends the end of a file that a crash may have left.
ghost use Rattle.std.specs.Prelude.{◌≡◌, ◌≢◌, ◌+◌, ◌<◌, ◌≤◌, true, false, length, get_or, take, IsTrue, IfErr, OnOk};
ghost use Rattle.sqlite_disk.specs.Disk.{Only};
ghost use Rattle.trail_file.specs.Faults.{is_before_writing};
ghost use Rattle.trail_file.specs.Text.{recovered};
ghost use Rattle.trail_file.specs.Rest.{EachLeft, EndsAt, IsFront, IsSettled, StandsFor};

use crate::fault::TrailFault;
use crate::latch::{NEWLINE, is_synced};
use sqlite_disk::Disk;

/// Has a file, whose bytes are given, end with a shut latch behind its entries, and nothing behind that.
pub(crate) fn mend<D: Disk>(disk: &mut D, bytes: &[u8], end: usize) -> Result<(), TrailFault>
    requires usable { IsTrue (D.Disk.is_usable disk.old) }
    requires durable { Only (D.Disk.seen disk.old) (D.Disk.may_leave disk.old) }
    requires bytes { IsTrue (D.Disk.is_clean disk.old) → bytes.now ≡ D.Disk.seen disk.old }
    requires within { end ≤ length bytes.now }
    requires front { IsFront (take end bytes.now) (recovered bytes.now) }
    requires shut { end + 1 < length bytes.now → get_or bytes.now end 0 ≢ 35 }
    ensures settled { OnOk result (IsTrue (D.Disk.is_clean disk.new)
        → IsSettled (D.Disk.seen disk.new) (D.Disk.may_leave disk.new) end (recovered (D.Disk.seen disk.new))) }
    ensures same { OnOk result (IsTrue (D.Disk.is_clean disk.new)
        → recovered (D.Disk.seen disk.new) ≡ recovered (D.Disk.seen disk.old)) }
    ensures on_disk { OnOk result (Only (D.Disk.seen disk.new) (D.Disk.may_leave disk.new)) }
    ensures usable { OnOk result (IsTrue (D.Disk.is_usable disk.new)) }
    ensures calm { D.Disk.is_clean disk.new ≡ D.Disk.is_clean disk.old }
    ensures crash { IsTrue (D.Disk.is_clean disk.new)
        → EachLeft (D.Disk.may_leave disk.new) (StandsFor (recovered (D.Disk.seen disk.old))) }
    ensures written { IfErr result (λ fault. is_before_writing fault ≡ false) }
{
    trim(disk, bytes, end)?;
    shut(disk, end)
}

/// Cuts off what stands behind the latch, whatever the latch is where nothing stands behind it.
fn trim<D: Disk>(disk: &mut D, bytes: &[u8], end: usize) -> Result<(), TrailFault>
    requires usable { IsTrue (D.Disk.is_usable disk.old) }
    requires durable { Only (D.Disk.seen disk.old) (D.Disk.may_leave disk.old) }
    requires bytes { IsTrue (D.Disk.is_clean disk.old) → bytes.now ≡ D.Disk.seen disk.old }
    requires within { end ≤ length bytes.now }
    requires front { IsFront (take end bytes.now) (recovered bytes.now) }
    requires shut { end + 1 < length bytes.now → get_or bytes.now end 0 ≢ 35 }
    ensures done { OnOk result (IsTrue (D.Disk.is_clean disk.new)
        → EndsAt (D.Disk.seen disk.new) end (recovered (D.Disk.seen disk.old))) }
    ensures durable { OnOk result (Only (D.Disk.seen disk.new) (D.Disk.may_leave disk.new)) }
    ensures usable { OnOk result (IsTrue (D.Disk.is_usable disk.new)) }
    ensures calm { D.Disk.is_clean disk.new ≡ D.Disk.is_clean disk.old }
    ensures crash { IsTrue (D.Disk.is_clean disk.new)
        → EachLeft (D.Disk.may_leave disk.new) (StandsFor (recovered (D.Disk.seen disk.old))) }
    ensures written { IfErr result (λ fault. is_before_writing fault ≡ false) }
{
    if bytes.len() - end <= 1 {
        return Ok(());
    }
    match disk.set_len(end + 1) {
        Ok(()) => {}
        Err(_) => return Err(TrailFault::NotKept),
    }
    if is_synced(disk) {
        Ok(())
    } else {
        Err(TrailFault::NotKept)
    }
}

/// Shuts the latch at the end of a file.
fn shut<D: Disk>(disk: &mut D, end: usize) -> Result<(), TrailFault>
    requires usable { IsTrue (D.Disk.is_usable disk.old) }
    requires durable { Only (D.Disk.seen disk.old) (D.Disk.may_leave disk.old) }
    requires ends { IsTrue (D.Disk.is_clean disk.old)
        → EndsAt (D.Disk.seen disk.old) end (recovered (D.Disk.seen disk.old)) }
    ensures settled { OnOk result (IsTrue (D.Disk.is_clean disk.new)
        → IsSettled (D.Disk.seen disk.new) (D.Disk.may_leave disk.new) end (recovered (D.Disk.seen disk.new))) }
    ensures same { OnOk result (IsTrue (D.Disk.is_clean disk.new)
        → recovered (D.Disk.seen disk.new) ≡ recovered (D.Disk.seen disk.old)) }
    ensures on_disk { OnOk result (Only (D.Disk.seen disk.new) (D.Disk.may_leave disk.new)) }
    ensures usable { OnOk result (IsTrue (D.Disk.is_usable disk.new)) }
    ensures calm { D.Disk.is_clean disk.new ≡ D.Disk.is_clean disk.old }
    ensures crash { IsTrue (D.Disk.is_clean disk.new)
        → EachLeft (D.Disk.may_leave disk.new) (StandsFor (recovered (D.Disk.seen disk.old))) }
    ensures written { IfErr result (λ fault. is_before_writing fault ≡ false) }
{
    match disk.write_at(end, &[NEWLINE]) {
        Ok(()) => {}
        Err(_) => return Err(TrailFault::NotKept),
    }
    if is_synced(disk) {
        Ok(())
    } else {
        Err(TrailFault::NotKept)
    }
}
