//! A trail's file as the place where the steps of a live meter are kept.
ghost use Rattle.std.specs.Prelude.{◌≡◌, ◌≤◌, ◌++◌, ◌∷◌, [], false, true, Err, IfErr, IfOk, IsTrue, List, OnErr, OnOk, Option, length, string_bytes};
ghost use Rattle.meter_core.specs.StepView.{step_of};
ghost use Rattle.meter_theory.specs.Plan as plans;
ghost use Rattle.meter_theory.specs.Steps as theory;
ghost use Rattle.line_server.specs.Lines.{IsLine};
ghost use Rattle.trail_file.specs.Rest.{EachLeft, IsBatch, IsBeforeOrAfter, IsSettled, StandsFor};
ghost use Rattle.trail_file.specs.Text as texts;
ghost use Rattle.trail_file.specs.Text.{recovered};
ghost use Rattle.trail_lines.specs.Reading.{says};
ghost use Rattle.trail_lines.specs.Writing.{Says};
ghost use Rattle.trail_lines.specs.declared.limits.TheConstants as limits;
ghost use Rattle.trail_store.specs.declared.store.TheConstants as own;
ghost use Rattle.trail_store.specs.Stored.{AreWaited, IsAdded, IsAtRest, kept_in, steps_in};
ghost use Rattle.step_keeping.specs.Keeping.{IsKeptAfter, ticks};

use crate::notes::Notes;
use cosem_data::memory::Memory;
use meter_core::reply::Reply;
use meter_core::step::Step;
use object_model::plan::Plan;
use sqlite_disk::Disk;
use std::alloc::Global;
use step_keeping::fault::KeepFault;
use step_keeping::keeper::Keeps;
use trail_file::entry::{self, is_one_line, push_entry};
use trail_file::fault::TrailFault;
use trail_file::trail::TrailFile;
use trail_lines::limits::MOVE_SECONDS;
use trail_lines::writing::{write_seconds, write_step};

/// How many entries are added at once at most: that of seconds that waited, and that of a step.
pub const BATCH: usize = 2;

/// What is told of seconds that waited.
const WAITED: &[u8] = b" seconds that moved the clock alone";

/// What is told of a step of which nothing can be told in one line.
const UNTOLD: &[u8] = b" -";

/// A trail's file that keeps the steps of a meter. Seconds that only moved the clock wait for the next step that does more, a day of
/// them at most.
#[derive(Drop)]
pub struct TrailStore<D: Disk + Drop, T: Notes + Drop> {
    trail: TrailFile<D>,
    notes: T,
    /// Whether steps are still kept: none is once the disk has failed.
    is_open: bool,
    /// How many seconds wait.
    waiting: u32,
    ghost usable: { is_open ≡ true → IsTrue (D.Disk.is_usable trail.disk) },
    ghost settled: { is_open ≡ true → IsTrue (D.Disk.is_clean trail.disk) →
        IsAtRest (D.Disk.seen trail.disk) (D.Disk.may_leave trail.disk) trail.end },
    ghost few: { waiting ≤ limits.MOVE_SECONDS },
}

impl<D: Disk + Drop, T: Notes + Drop> TrailStore<D, T> {
    /// Keeps steps behind those of a trail's file, which are kept already.
    pub fn new(trail: TrailFile<D>, notes: T) -> Self
        requires usable { IsTrue (D.Disk.is_usable trail.disk) }
        requires settled { IsTrue (D.Disk.is_clean trail.disk) →
            IsSettled (D.Disk.seen trail.disk) (D.Disk.may_leave trail.disk) trail.end (recovered (D.Disk.seen trail.disk)) }
        ensures trail { result.trail ≡ trail }
        ensures kept { (P : plans.Plan) → kept_in P result.is_open (D.Disk.is_clean result.trail.disk) (D.Disk.seen result.trail.disk) result.waiting
            ≡ kept_in P true (D.Disk.is_clean trail.disk) (D.Disk.seen trail.disk) 0 }
    {
        TrailStore {
            trail,
            notes,
            is_open: true,
            waiting: 0,
        }
    }

    /// Adds the entries of the seconds that wait and of a step. Once the disk has failed nothing is kept any more.
    fn add(&mut self, alloc: Global, batch: &[u8]) -> Result<(), KeepFault>
        requires open { self.old.is_open ≡ true }
        requires batch { IsBatch batch.now }
        ensures ok { OnOk result ((self.new.is_open ≡ true) × (self.new.waiting ≡ 0)
            × IsAdded (D.Disk.is_clean self.old.trail.disk) (D.Disk.is_clean self.new.trail.disk)
            (D.Disk.seen self.old.trail.disk) (D.Disk.seen self.new.trail.disk) (D.Disk.may_leave self.new.trail.disk) (recovered batch.now)) }
        ensures memory { result ≡ Err KeepFault.Memory → (self.new.trail ≡ self.old.trail)
            × (self.new.is_open ≡ true) × (self.new.waiting ≡ self.old.waiting) }
        ensures written { result ≡ Err KeepFault.Unwritten → ⊥ }
        ensures shut { (result ≡ Err KeepFault.Memory → ⊥) → OnErr result (self.new.is_open ≡ false) }
        ensures not_kept { result ≡ Err KeepFault.NotKept → IsTrue (D.Disk.is_clean self.old.trail.disk) →
            EachLeft (D.Disk.may_leave self.new.trail.disk) (StandsFor (recovered (D.Disk.seen self.old.trail.disk))) }
        ensures crash { IsTrue (D.Disk.is_clean self.old.trail.disk) → EachLeft (D.Disk.may_leave self.new.trail.disk)
            (IsBeforeOrAfter (recovered (D.Disk.seen self.old.trail.disk)) (recovered batch.now)) }
    {
        let added = commit(&mut self.trail, alloc, batch);
        match added {
            Ok(()) => self.waiting = 0,
            // Nothing was written.
            Err(KeepFault::Memory) => {}
            Err(_) => self.is_open = false,
        }
        added
    }
}

impl<D: Disk + Drop, T: Notes + Drop> Keeps for TrailStore<D, T> {
    ghost use Rattle.std.specs.Prelude.{◌≡◌, ℕ, List};
    ghost use Rattle.trail_store.specs.Stored.{kept_in, stored};

    ghost kept = { λ P s. kept_in P s.is_open (D.Disk.is_clean s.trail.disk) (D.Disk.seen s.trail.disk) s.waiting };

    ghost may_leave = { λ P s left. (file : List ℕ) × D.Disk.may_leave s.trail.disk file × (left ≡ stored P file) };

    fn keep(
        &mut self,
        alloc: Global,
        plan: &Plan,
        port: u8,
        step: &Step,
        reply: &Reply,
    ) -> Result<(), KeepFault> {
        if !self.is_open {
            return Err(KeepFault::NotKept);
        }
        if is_tick(step) && self.waiting < MOVE_SECONDS {
            self.waiting += 1;
            return Ok(());
        }
        let line = line_of(alloc, plan, step)?;
        let note = self.notes.note(alloc, port, step, reply)?;
        let batch = batch_of(alloc, plan, self.waiting, &note, &line)?;
        self.add(alloc, &batch)
    }

    fn shut(&mut self) {
        self.is_open = false;
    }
}

/// Whether a step only moves the clock on.
fn is_tick(step: &Step) -> bool
    ensures { result ≡ true → step_of step.now ≡ theory.Tick }
{
    matches!(step, Step::Tick)
}

/// The line of a step.
///
/// # Errors
/// `Memory`, and `Unwritten` where no line says the step, as none is that a line or an APDU brought.
fn line_of(alloc: Global, plan: &Plan, step: &Step) -> Result<String, KeepFault>
    ensures line { IfOk result (λ line. Says plan.now (step_of step.now ∷ []) (string_bytes line)) }
    // Nothing was written.
    ensures err { IfErr result (λ fault. (kept : Option (List theory.Step)) → IsKeptAfter fault kept kept) }
{
    match write_step(alloc, plan, step)? {
        Some(line) => Ok(line),
        None => Err(KeepFault::Unwritten),
    }
}

/// The entries of so many seconds that waited, and of the line of a step behind them.
fn batch_of(
    alloc: Global,
    plan: &Plan,
    waiting: u32,
    note: &str,
    line: &str,
) -> Result<Vec<u8>, Memory>
    requires few { waiting ≤ limits.MOVE_SECONDS }
    requires line { IsLine line.now }
    ensures batch { IfOk result (λ batch. IsBatch batch.items) }
    ensures few { IfOk result (λ batch. length (recovered batch.items) ≤ own.BATCH) }
    ensures steps { IfOk result (λ batch. steps_in plan.now (recovered batch.items)
        ≡ ticks waiting ++ says plan.now line.now) }
{
    let mut batch = waited(alloc, plan, waiting)?;
    push_entry(alloc, &mut batch, one_line(note), line.as_bytes())?;
    Ok(batch)
}

/// The entry of so many seconds that waited, or nothing where none did.
fn waited(alloc: Global, plan: &Plan, waiting: u32) -> Result<Vec<u8>, Memory>
    requires { waiting ≤ limits.MOVE_SECONDS }
    ensures { IfOk result (λ batch. AreWaited plan.now waiting batch.items) }
{
    if waiting == 0 {
        return Ok(Vec::new(alloc));
    }
    let seconds = write_seconds(alloc, plan, waiting)?;
    Ok(entry::batch_of(alloc, WAITED, seconds.as_bytes())?)
}

/// The bytes of a note, or those that say nothing where it has more than one line.
fn one_line(note: &str) -> &[u8]
    ensures { texts.is_one_line result.now ≡ true }
{
    let bytes = note.as_bytes();
    if is_one_line(bytes) { bytes } else { UNTOLD }
}

/// Adds a batch to a trail's file.
///
/// # Errors
/// `Memory`, and then the file is as it was; `NotKept` and `InDoubt`.
fn commit<D: Disk + Drop>(
    trail: &mut TrailFile<D>,
    alloc: Global,
    batch: &[u8],
) -> Result<(), KeepFault>
    requires usable { IsTrue (D.Disk.is_usable trail.old.disk) }
    requires settled { IsTrue (D.Disk.is_clean trail.old.disk) →
        IsSettled (D.Disk.seen trail.old.disk) (D.Disk.may_leave trail.old.disk) trail.old.end (recovered (D.Disk.seen trail.old.disk)) }
    requires batch { IsBatch batch.now }
    ensures stored { OnOk result (IsTrue (D.Disk.is_clean trail.new.disk) →
        recovered (D.Disk.seen trail.new.disk) ≡ recovered (D.Disk.seen trail.old.disk) ++ recovered batch.now) }
    ensures settled { OnOk result (IsTrue (D.Disk.is_clean trail.new.disk) →
        IsSettled (D.Disk.seen trail.new.disk) (D.Disk.may_leave trail.new.disk) trail.new.end (recovered (D.Disk.seen trail.new.disk))) }
    ensures usable { OnOk result (IsTrue (D.Disk.is_usable trail.new.disk)) }
    ensures durable { OnOk result (IsTrue (D.Disk.is_clean trail.new.disk) → EachLeft (D.Disk.may_leave trail.new.disk)
        (StandsFor (recovered (D.Disk.seen trail.old.disk) ++ recovered batch.now))) }
    ensures calm { D.Disk.is_clean trail.new.disk ≡ D.Disk.is_clean trail.old.disk }
    ensures crash { IsTrue (D.Disk.is_clean trail.new.disk) → EachLeft (D.Disk.may_leave trail.new.disk)
        (IsBeforeOrAfter (recovered (D.Disk.seen trail.old.disk)) (recovered batch.now)) }
    ensures not_kept { result ≡ Err KeepFault.NotKept → IsTrue (D.Disk.is_clean trail.new.disk) →
        EachLeft (D.Disk.may_leave trail.new.disk) (StandsFor (recovered (D.Disk.seen trail.old.disk))) }
    ensures memory { result ≡ Err KeepFault.Memory → trail.new ≡ trail.old }
    ensures written { result ≡ Err KeepFault.Unwritten → ⊥ }
{
    match trail.commit(alloc, batch) {
        Ok(()) => Ok(()),
        // The file is as long as a file can be: no room is as good as no memory.
        Err(TrailFault::Memory | TrailFault::Full) => Err(KeepFault::Memory),
        Err(TrailFault::NotKept) => Err(KeepFault::NotKept),
        Err(_) => Err(KeepFault::InDoubt),
    }
}
