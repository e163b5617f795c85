//! A trail's file while it is written.
ghost use Rattle.std.specs.Prelude.{◌≡◌, ◌≤◌, ◌+◌, ◌-◌, ◌^◌, ◌++◌, ◌∷◌, [], true, length, IsTrue, Err, IfErr, OnOk};
ghost use Rattle.sqlite_disk.specs.Disk.{Only};
ghost use Rattle.trail_file.specs.Faults.{is_before_writing};
ghost use Rattle.trail_file.specs.Text.{block, is_one_line, recovered};
ghost use Rattle.trail_file.specs.Rest.{EachLeft, IsBatch, IsBeforeOrAfter, IsSettled, StandsFor};

use crate::entry::batch_of;
use crate::fault::TrailFault;
use crate::latch::{add, behind_latch};
use sqlite_disk::Disk;
use std::alloc::Global;

/// A trail's file, at rest between two calls. [`crate::looking::Found::settle`] gives a disk and a place as it needs them.
#[derive(Drop)]
pub struct TrailFile<D: Disk> {
    pub disk: D,
    /// Where the shut latch stands, which the next entry begins with.
    pub end: usize,
}

impl<D: Disk> TrailFile<D> {
    /// Adds an entry, as `commit` does.
    pub fn append(&mut self, alloc: Global, note: &[u8], line: &[u8]) -> Result<(), TrailFault>
        requires usable { IsTrue (D.Disk.is_usable self.old.disk) }
        requires settled { IsTrue (D.Disk.is_clean self.old.disk)
            → IsSettled (D.Disk.seen self.old.disk) (D.Disk.may_leave self.old.disk) self.old.end (recovered (D.Disk.seen self.old.disk)) }
        requires note { is_one_line note.now ≡ true }
        requires line { is_one_line line.now ≡ true }
        // The file has the entry behind the others, and it stays at rest.
        ensures stored { OnOk result (IsTrue (D.Disk.is_clean self.new.disk)
            → recovered (D.Disk.seen self.new.disk) ≡ recovered (D.Disk.seen self.old.disk) ++ (note.now, line.now) ∷ []) }
        ensures settled { OnOk result (IsTrue (D.Disk.is_clean self.new.disk)
            → IsSettled (D.Disk.seen self.new.disk) (D.Disk.may_leave self.new.disk) self.new.end (recovered (D.Disk.seen self.new.disk))) }
        ensures usable { OnOk result (IsTrue (D.Disk.is_usable self.new.disk)) }
        // It is on the disk: each crash leaves it.
        ensures on_disk { OnOk result (Only (D.Disk.seen self.new.disk) (D.Disk.may_leave self.new.disk)) }
        ensures durable { OnOk result (IsTrue (D.Disk.is_clean self.new.disk) → EachLeft (D.Disk.may_leave self.new.disk)
            (StandsFor (recovered (D.Disk.seen self.old.disk) ++ (note.now, line.now) ∷ []))) }
        ensures calm { D.Disk.is_clean self.new.disk ≡ D.Disk.is_clean self.old.disk }
        // Whatever the call answers, a crash leaves the entries from before, with this one or without.
        ensures crash { IsTrue (D.Disk.is_clean self.new.disk) → EachLeft (D.Disk.may_leave self.new.disk)
            (IsBeforeOrAfter (recovered (D.Disk.seen self.old.disk)) ((note.now, line.now) ∷ [])) }
        ensures not_kept { result ≡ Err TrailFault.NotKept → IsTrue (D.Disk.is_clean self.new.disk)
            → EachLeft (D.Disk.may_leave self.new.disk) (StandsFor (recovered (D.Disk.seen self.old.disk))) }
        ensures full { result ≡ Err TrailFault.Full → 2 ^ 64 - 1 ≤ self.old.end + length (block note.now line.now) }
        ensures untouched { IfErr result (λ fault. IsTrue (is_before_writing fault) → self.new ≡ self.old) }
    {
        let batch = batch_of(alloc, note, line)?;
        self.commit(alloc, &batch)
    }

    /// Adds the entries of a batch, all or none; `push_entry` makes one. At `Ok` they are acknowledged: from then on each crash
    /// leaves them. At an `Err` that comes behind a write the file is to be opened again. It syncs twice, however many the entries are.
    ///
    /// # Errors
    /// `Memory` and `Full`, and then the file is as it was; `NotKept` and `InDoubt`.
    pub fn commit(&mut self, alloc: Global, batch: &[u8]) -> Result<(), TrailFault>
        requires usable { IsTrue (D.Disk.is_usable self.old.disk) }
        requires settled { IsTrue (D.Disk.is_clean self.old.disk)
            → IsSettled (D.Disk.seen self.old.disk) (D.Disk.may_leave self.old.disk) self.old.end (recovered (D.Disk.seen self.old.disk)) }
        requires batch { IsBatch batch.now }
        ensures stored { OnOk result (IsTrue (D.Disk.is_clean self.new.disk)
            → recovered (D.Disk.seen self.new.disk) ≡ recovered (D.Disk.seen self.old.disk) ++ recovered batch.now) }
        ensures settled { OnOk result (IsTrue (D.Disk.is_clean self.new.disk)
            → IsSettled (D.Disk.seen self.new.disk) (D.Disk.may_leave self.new.disk) self.new.end (recovered (D.Disk.seen self.new.disk))) }
        ensures usable { OnOk result (IsTrue (D.Disk.is_usable self.new.disk)) }
        ensures on_disk { OnOk result (Only (D.Disk.seen self.new.disk) (D.Disk.may_leave self.new.disk)) }
        ensures durable { OnOk result (IsTrue (D.Disk.is_clean self.new.disk) → EachLeft (D.Disk.may_leave self.new.disk)
            (StandsFor (recovered (D.Disk.seen self.old.disk) ++ recovered batch.now))) }
        ensures calm { D.Disk.is_clean self.new.disk ≡ D.Disk.is_clean self.old.disk }
        // A crash leaves the entries from before the call, with all of the batch or without.
        ensures crash { IsTrue (D.Disk.is_clean self.new.disk) → EachLeft (D.Disk.may_leave self.new.disk)
            (IsBeforeOrAfter (recovered (D.Disk.seen self.old.disk)) (recovered batch.now)) }
        ensures not_kept { result ≡ Err TrailFault.NotKept → IsTrue (D.Disk.is_clean self.new.disk)
            → EachLeft (D.Disk.may_leave self.new.disk) (StandsFor (recovered (D.Disk.seen self.old.disk))) }
        ensures full { result ≡ Err TrailFault.Full → 2 ^ 64 - 1 ≤ self.old.end + length batch.now }
        ensures untouched { IfErr result (λ fault. IsTrue (is_before_writing fault) → self.new ≡ self.old) }
    {
        let behind = behind_latch(alloc, batch)?;
        let Some(next) = self.end.checked_add(batch.len()) else {
            return Err(TrailFault::Full);
        };
        if next == usize::MAX {
            return Err(TrailFault::Full);
        }
        add(&mut self.disk, self.end, batch, &behind)?;
        self.end = next;
        Ok(())
    }
}
