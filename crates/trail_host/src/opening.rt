//! Opens a trail's file of the system.
ghost use Rattle.std.specs.Prelude.{◌≡◌, ◌∷◌, map, IsTrue, IfOk};
ghost use Rattle.sqlite_disk.specs.Disk.{Only};
ghost use Rattle.trail_file.specs.Heads.{IsHead, head_entry};
ghost use Rattle.trail_file.specs.Opening.{headed};
ghost use Rattle.trail_file.specs.Text.{entry_of, recovered};
ghost use Rattle.trail_file.specs.Rest.{IsSettled};
ghost use Rattle.trail_host.specs.Host.{is_clean, is_usable, seen, may_leave};

use crate::fault::{OpenFault, fault_of};
use sqlite_std_file::{FileFrom, Start, open};
use std::alloc::Global;
use trail_file::head::Head;
use trail_file::looking::{Found, look};
use trail_file::trail::TrailFile;

/// A file that was looked at as a trail; nothing was written to it.
#[derive(Drop)]
pub struct Looked<S: Start> {
    disk: FileFrom<S>,
    found: Found,
    ghost usable: { IsTrue (is_usable S.Start disk) },
    ghost durable: { Only (seen S.Start disk) (may_leave S.Start disk) },
    ghost bytes: { IsTrue (is_clean S.Start disk) → found.bytes.items ≡ seen S.Start disk },
}

/// Looks at the file with this path as the trail that begins with a head, and makes an empty one where there is none; `S` says what it
/// held. The file is locked from then on.
///
/// # Errors
/// Those of the system, and those of `trail_file::looking::look`.
pub fn look_at<S: Start>(
    rt: &HostRuntime,
    alloc: Global,
    path: &str,
    start: S,
    head: &Head,
) -> Result<Looked<S>, OpenFault>
    // What was found is what the file held, and its entries are those behind its head.
    ensures bytes { IfOk result (λ looked. IsTrue (is_clean S.Start looked.disk) → looked.found.bytes.items ≡ S.Start.db) }
    ensures entries { IfOk result (λ looked. IsTrue (is_clean S.Start looked.disk)
        → headed head.now (recovered S.Start.db) ≡ head_entry looked.found.head ∷ map entry_of looked.found.entries.items) }
    ensures digest { IfOk result (λ looked. IsHead looked.found.head × (looked.found.head.digest ≡ head.now.digest)) }
{
    let files = match open(rt, path, start) {
        Ok(files) => files,
        Err(error) => return Err(fault_of(error)),
    };
    let mut disk = files.db;
    match look(alloc, &mut disk, head) {
        Ok(found) => Ok(Looked { disk, found }),
        Err(fault) => Err(OpenFault::Trail(fault)),
    }
}

impl<S: Start> Looked<S> {
    /// What the file was found to have.
    pub fn found(&self) -> &Found
        ensures { result.now ≡ self.now.found }
    {
        &self.found
    }

    /// Opens the file as the trail: it is at rest then.
    ///
    /// # Errors
    /// Those of `trail_file::looking::Found::settle`.
    pub fn settle(self, alloc: Global) -> Result<TrailFile<FileFrom<S>>, OpenFault>
        // It has the head and the entries that were found.
        ensures entries { IfOk result (λ trail. IsTrue (is_clean S.Start trail.disk)
            → recovered (seen S.Start trail.disk) ≡ head_entry self.found.head ∷ map entry_of self.found.entries.items) }
        ensures settled { IfOk result (λ trail. IsTrue (is_clean S.Start trail.disk)
            → IsSettled (seen S.Start trail.disk) (may_leave S.Start trail.disk) trail.end (recovered (seen S.Start trail.disk))) }
        ensures usable { IfOk result (λ trail. IsTrue (is_usable S.Start trail.disk)) }
        ensures calm { IfOk result (λ trail. is_clean S.Start trail.disk ≡ is_clean S.Start self.disk) }
    {
        let Looked { mut disk, found } = self;
        match found.settle(alloc, &mut disk) {
            Ok(end) => Ok(TrailFile { disk, end }),
            Err(fault) => Err(OpenFault::Trail(fault)),
        }
    }
}
