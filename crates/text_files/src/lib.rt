//! Files that are read as text, and why one isn't (own profile).
#![tactic(auto)]

ghost use Rattle.std.specs.Prelude.{◌≡◌, MatchResult, string_bytes};
ghost use Rattle.std.specs.Str.Lossy.{utf8_valid_len};
ghost use Rattle.text_files.specs.Files as spec;
ghost use Rattle.text_files.specs.declared.FileFault.TheVariants.{NotText};

use cosem_data::memory::Memory;
use std::alloc::Global;
use std::fs;
use std::io::ErrorKind;
use thiserror::Error;

/// Why a file isn't read as text (own profile).
#[derive(Clone, Copy, Debug, PartialEq, Eq, Drop, Error)]
pub enum FileFault {
    /// No file has this path.
    #[error("there is no such file")]
    Missing,
    /// The path is that of a folder.
    #[error("it is a folder")]
    Folder,
    /// The system doesn't let it be read.
    #[error("it can't be read")]
    Unreadable,
    /// It isn't UTF-8: the bytes before this one are, counted from 0, and those up to it aren't.
    #[error("it isn't UTF-8: the first byte that is none is byte {byte}, counted from 0")]
    NotText { byte: usize },
    /// Memory was refused.
    #[error("out of memory")]
    Memory,
}

impl FileFault {
    ghost use Rattle.std.specs.Prelude.{IfOk};
    ghost use Rattle.text_files.specs.Files.{fault_words};

    /// The fault as it is told. The error is that memory was refused.
    pub fn told(self, alloc: Global) -> Result<String, Memory>
        ensures { IfOk result (λ text. string_bytes text ≡ fault_words self) }
    {
        let words = match self {
            FileFault::Missing => "there is no such file",
            FileFault::Folder => "it is a folder",
            FileFault::Unreadable => "it can't be read",
            FileFault::NotText { byte } => {
                return Ok(format!(in alloc;
                    "it isn't UTF-8: the first byte that is none is byte {byte}, counted from 0"
                )?);
            }
            FileFault::Memory => "out of memory",
        };
        Ok(String::from_str(alloc, words)?)
    }
}

/// What the system's answer means where it doesn't give a file's bytes.
pub fn fault_of(kind: ErrorKind) -> FileFault
    ensures { result ≡ spec.fault_of kind }
{
    match kind {
        ErrorKind::NotFound => FileFault::Missing,
        ErrorKind::IsADirectory => FileFault::Folder,
        ErrorKind::OutOfMemory => FileFault::Memory,
        _ => FileFault::Unreadable,
    }
}

/// The text that bytes are. The error tells the first byte that isn't UTF-8.
pub fn text_of(bytes: Vec<u8>) -> Result<String, FileFault>
    ensures { MatchResult result (λ text. string_bytes text ≡ bytes.items)
        (λ fault. fault ≡ NotText (utf8_valid_len bytes.items)) }
{
    match String::from_utf8(bytes) {
        Ok(text) => Ok(text),
        Err(error) => Err(FileFault::NotText {
            byte: error.utf8_error().valid_up_to(),
        }),
    }
}

/// Where files are read as text (own profile). What threads share is `Sync`.
pub trait TextFiles {
    ghost use Rattle.std.specs.Prelude.{Ok, Err, MatchResult, string_bytes};
    ghost use Rattle.text_files.specs.Files.{MayRead};

    /// What reading the file with this path may come to: its text, or why it isn't read as one.
    ghost may_read: { Self → MayRead } = { λ _ _ _. Unit {0} };

    /// The text of the file with this path.
    ///
    /// # Errors
    /// Why it isn't read as text.
    fn read(&self, path: &str) -> Result<String, FileFault>
        ensures { MatchResult result
            (λ text. may_read self.now path.now (Ok (string_bytes text)))
            (λ fault. may_read self.now path.now (Err fault)) };
}

/// The files of the system, of which nothing is known before they are read.
impl TextFiles for HostRuntime {
    fn read(&self, path: &str) -> Result<String, FileFault> {
        match fs::read(self, path) {
            Ok(bytes) => text_of(bytes),
            Err(error) => Err(fault_of(error.kind())),
        }
    }
}
