//! The files of a fleet, read by many workers.
ghost use Rattle.std.specs.Prelude.{◌≡◌, ◌∷◌, ◌++◌, [], IfErr, IfOk, List, ℕ, OnOk, Ok, map, string_bytes};
ghost use Rattle.std.specs.List.{AllZip};
ghost use Rattle.fleet_audit.specs.declared.reading.FleetFault.TheVariants as faults;
ghost use Rattle.fleet_audit.specs.Reading.{AreTextsOf, IsReadAs, IsReading, TellsUnread, config_path, labels_path, part, texts_of, unread_of};

use crate::text::Text;
use crate::threads::in_threads;
use std::alloc::{AllocError, AllocFailed, Global};
use std::num::NonZeroUsize;
use std::thread::Threads;
use text_files::{FileFault, TextFiles};
use thiserror::Error;

/// A file that isn't read as text.
#[derive(Debug, Drop, Error)]
#[error("{path}: {why}")]
pub struct UnreadFile {
    pub path: String,
    pub why: FileFault,
}

/// Why a fleet isn't read.
#[derive(Debug, Drop, Error)]
pub enum FleetFault {
    /// These files aren't read as text: all of them, in the order of the names, and of a name the configuration first.
    #[error("files of the fleet can't be read")]
    Unread(Vec<UnreadFile>),
    /// Memory was refused.
    #[error("out of memory")]
    Memory,
}

impl From<AllocError> for FleetFault {
    ghost from_gives = { λ _ e. e ≡ faults.Memory };

    fn from(_: AllocError) -> Self {
        FleetFault::Memory
    }
}

impl<T: Drop> From<AllocFailed<T>> for FleetFault {
    ghost from_gives = { λ _ e. e ≡ faults.Memory };

    fn from(_: AllocFailed<T>) -> Self {
        FleetFault::Memory
    }
}

/// What the reading of the files came to that names stand for: their texts, as long as each file is read, and the files that aren't.
#[derive(Drop)]
struct Reading {
    texts: Vec<Text>,
    unread: Vec<UnreadFile>,
}

impl Reading {
    ghost use Rattle.std.specs.Prelude.{◌≡◌, ◌++◌, Ok, OnOk};
    ghost use Rattle.fleet_audit.specs.Reading.{texts_of, unread_of};

    /// Puts behind it what the two files of a name came to. The error is that memory was refused.
    fn put(
        &mut self,
        config: Result<String, UnreadFile>,
        labels: Result<String, UnreadFile>,
    ) -> Result<(), AllocError>
        ensures texts { OnOk result (self.new.texts.items
            ≡ self.old.texts.items ++ texts_of config labels) }
        ensures unread { OnOk result (self.new.unread.items
            ≡ self.old.unread.items ++ (unread_of config ++ unread_of labels)) }
    {
        match config {
            Ok(config) => self.put_behind(config, labels),
            Err(file) => {
                self.unread.push(file)?;
                self.put_unread(labels)
            }
        }
    }

    /// Puts behind it what the labels of a name came to whose configuration is read. The error is that memory was refused.
    fn put_behind(
        &mut self,
        config: String,
        labels: Result<String, UnreadFile>,
    ) -> Result<(), AllocError>
        ensures texts { OnOk result (self.new.texts.items
            ≡ self.old.texts.items ++ texts_of (Ok config) labels) }
        ensures unread { OnOk result (self.new.unread.items
            ≡ self.old.unread.items ++ unread_of labels) }
    {
        match labels {
            Ok(labels) => self.texts.push(Text { config, labels })?,
            Err(file) => self.unread.push(file)?,
        }
        Ok(())
    }

    /// Puts a file behind it that isn't read, where it isn't. The error is that memory was refused.
    fn put_unread(&mut self, labels: Result<String, UnreadFile>) -> Result<(), AllocError>
        ensures texts { OnOk result (self.new.texts.items ≡ self.old.texts.items) }
        ensures unread { OnOk result (self.new.unread.items
            ≡ self.old.unread.items ++ unread_of labels) }
    {
        if let Err(file) = labels {
            self.unread.push(file)?;
        }
        Ok(())
    }

    /// Puts behind it what the names behind came to. The error is that memory was refused.
    fn append(&mut self, mut behind: Reading) -> Result<(), AllocError>
        ensures texts { OnOk result (self.new.texts.items
            ≡ self.old.texts.items ++ behind.texts.items) }
        ensures unread { OnOk result (self.new.unread.items
            ≡ self.old.unread.items ++ behind.unread.items) }
    {
        self.texts.append(&mut behind.texts)?;
        self.unread.append(&mut behind.unread)?;
        Ok(())
    }
}

/// The texts of the files that these names stand for, name by name. Each worker reads those of as many names as another, which stand
/// one behind another. All files are read, also where one before isn't.
///
/// # Errors
/// All files that aren't read, in this order; or memory was refused.
pub fn read_fleet<H: AllocGlobal + Threads + Sync, F: TextFiles + Sync>(
    rt: &H,
    files: &F,
    names: &[&str],
    workers: NonZeroUsize,
) -> Result<Vec<Text>, FleetFault>
    ensures texts { IfOk result (λ texts.
        AllZip (AreTextsOf (F.may_read files.now)) (map (λ name. name.now) names.now) texts.items) }
    ensures fault { IfErr result (TellsUnread (F.may_read files.now) (map (λ name. name.now) names.now)) }
{
    let reading = read_parts(rt, files, names, workers)?;
    if reading.unread.is_empty() {
        Ok(reading.texts)
    } else {
        Err(FleetFault::Unread(reading.unread))
    }
}

/// What the reading of the files came to that these names stand for, by so many workers. The error is that memory was refused.
fn read_parts<H: AllocGlobal + Threads + Sync, F: TextFiles + Sync>(
    rt: &H,
    files: &F,
    names: &[&str],
    workers: NonZeroUsize,
) -> Result<Reading, AllocError>
    ensures { IfOk result (λ reading. IsReading (F.may_read files.now) (map (λ name. name.now) names.now)
        reading.texts.items reading.unread.items) }
{
    let alloc = rt.alloc();
    let each = names.len().div_ceil(workers.get()).max(1);
    let parts = in_threads(
        rt,
        alloc,
        names.len().div_ceil(each),
        &|number| -> Result<Reading, AllocError>
            ensures { IfOk result (λ reading. IsReading (F.may_read files.entry.now)
                (map (λ name. name.now) (part names.entry.now each number))
                reading.texts.items reading.unread.items) }
        { read_part(alloc, files, part_of(names, each, number)) },
    )?;
    let mut reading = nothing_read(alloc, names.len())?;
    for part in parts {
        reading.append(part?)?;
    }
    Ok(reading)
}

/// What no reading came to, with room for so many texts. The error is that memory was refused.
fn nothing_read(alloc: Global, room: usize) -> Result<Reading, AllocError>
    ensures texts { IfOk result (λ reading. reading.texts.items ≡ []) }
    ensures unread { IfOk result (λ reading. reading.unread.items ≡ []) }
{
    Ok(Reading {
        texts: Vec::with_capacity(alloc, room)?,
        unread: Vec::new(alloc),
    })
}

/// The names of the part with this number, where each part has so many names; none where there is no such part.
fn part_of<'a, 'b>(names: &'a [&'b str], each: usize, number: usize) -> &'a [&'b str]
    ensures { result.now ≡ part names.now each number }
{
    let (_, behind) = names.split_at(number.saturating_mul(each).min(names.len()));
    let (part, _) = behind.split_at(each.min(behind.len()));
    part
}

/// What the reading of the files came to that these names stand for, name by name. The error is that memory was refused.
fn read_part<F: TextFiles>(alloc: Global, files: &F, names: &[&str]) -> Result<Reading, AllocError>
    ensures { IfOk result (λ reading. IsReading (F.may_read files.now) (map (λ name. name.now) names.now)
        reading.texts.items reading.unread.items) }
{
    let mut reading = nothing_read(alloc, names.len())?;
    for name in names {
        read_named(alloc, files, name, &mut reading)?;
    }
    Ok(reading)
}

/// Puts behind a reading what the two files came to that a name stands for. The error is that memory was refused.
fn read_named<F: TextFiles>(
    alloc: Global,
    files: &F,
    name: &str,
    reading: &mut Reading,
) -> Result<(), AllocError>
    ensures { OnOk result ((names : List (List ℕ))
        → IsReading (F.may_read files.now) names reading.old.texts.items reading.old.unread.items
        → IsReading (F.may_read files.now) (names ++ name.now ∷ [])
        reading.new.texts.items reading.new.unread.items) }
{
    let config = read_kept(files, format!(in alloc; "{name}.toml")?);
    let labels = read_kept(files, format!(in alloc; "{name}.labels")?);
    reading.put(config, labels)
}

/// The text of the file with this path, to be kept; or that it isn't read.
fn read_kept<F: TextFiles>(files: &F, path: String) -> Result<String, UnreadFile>
    ensures { IsReadAs (F.may_read files.now) (string_bytes path) result }
{
    match files.read(path.as_str()) {
        Ok(mut text) => {
            // The whole fleet is kept, and reading leaves up to as much room behind a text as it has.
            text.shrink_to_fit();
            Ok(text)
        }
        Err(why) => Err(UnreadFile { path, why }),
    }
}
