//! Trail's files of the system, which keep the steps of a served meter.
ghost use Rattle.std.specs.Prelude.{◌≡◌, IfOk, IsTrue};
ghost use Rattle.step_keeping.specs.Keeping.{AreKept};
ghost use Rattle.trail_file.specs.Opening.{EndsBefore};
ghost use Rattle.trail_host.specs.Host.{is_clean, seen};
ghost use Rattle.trail_store.specs.Past.{all_left};
ghost use Rattle.trail_store.specs.Stored.{kept_in, stored};
ghost use Rattle.trail_store.specs.declared.store.TheConstants as stores;
ghost use Rattle.step_stores.specs.Files.{IsTrailOf};

use crate::fault::StoreFault;
use crate::notes::SystemNotes;
use crate::stores::{Store, Stores};
use object_model::plan::Plan;
use sha2::{Digest, Sha256};
use sqlite_std_file::{FileFrom, Start, Wary};
use std::alloc::Global;
use trail_file::head::Head;
use trail_file::version::Version;
use trail_host::opening::look_at;
use trail_store::past::Past;
use trail_store::store::{BATCH, TrailStore};

/// The version of this program, which a new file's head tells.
const VERSION: Version = Version {
    major: 0,
    minor: 1,
    patch: 0,
};

/// A file of the system that held what `S` says, and keeps steps with notes by the system's clock.
pub type FileStoreFrom<'r, S> = TrailStore<FileFrom<S>, SystemNotes<'r, HostRuntime>>;

/// The same, of which nothing is supposed but that a torn write may leave any bytes.
pub type FileStore<'r> = FileStoreFrom<'r, Wary>;

/// The system, whose files keep steps.
#[derive(Clone, Copy)]
pub struct HostStores<'r> {
    pub rt: &'r HostRuntime,
}

impl<'r> Stores<FileStore<'r>, Past> for HostStores<'r> {
    fn open_store(
        &self,
        alloc: Global,
        path: &str,
        config: &[u8],
        plan: &Plan,
    ) -> Result<Store<FileStore<'r>, Past>, StoreFault> {
        open_file(self.rt, alloc, path, Wary, config, plan)
    }
}

/// Opens the file with this path as the trail of a meter of the plan, whose configuration has these bytes, and makes it where there is
/// none; `S` says what it held. All is judged before anything is written.
///
/// # Errors
/// It isn't opened, it is the trail of another configuration, it was changed, or the line of an entry says no step that is kept. Memory
/// was refused.
pub fn open_file<'r, S: Start>(
    rt: &'r HostRuntime,
    alloc: Global,
    path: &str,
    start: S,
    config: &[u8],
    plan: &Plan,
) -> Result<Store<FileStoreFrom<'r, S>, Past>, StoreFault>
    // What is handed out is what is kept.
    ensures kept { IfOk result (λ store. AreKept
        (kept_in plan.now store.keeper.is_open (is_clean S.Start store.keeper.trail.disk) (seen S.Start store.keeper.trail.disk) store.keeper.waiting)
        (all_left store.past.seconds store.past.said.items)) }
    // It is what the file held.
    ensures held { IfOk result (λ store. IsTrue (is_clean S.Start store.keeper.trail.disk)
        → all_left store.past.seconds store.past.said.items ≡ stored plan.now S.Start.db) }
    // No more entries stood behind it than those of a step.
    ensures short { IfOk result (λ store. IsTrue (is_clean S.Start store.keeper.trail.disk) → EndsBefore S.Start.db stores.BATCH) }
    // No file of another configuration is opened.
    ensures config { IfOk result (λ store. IsTrue (is_clean S.Start store.keeper.trail.disk)
        → IsTrailOf config.now (seen S.Start store.keeper.trail.disk)) }
{
    let head = Head {
        version: VERSION,
        digest: Sha256::digest(config),
    };
    let looked = look_at(rt, alloc, path, start, &head)?;
    let found = looked.found();
    if BATCH < found.behind() {
        return Err(StoreFault::Changed);
    }
    let past = Past::of(alloc, plan, found.entries())?;
    let trail = looked.settle(alloc)?;
    let notes = SystemNotes { clock: rt };
    Ok(Store {
        past,
        keeper: TrailStore::new(trail, notes),
    })
}
