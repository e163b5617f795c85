//! Why a place that keeps steps isn't opened.
ghost use Rattle.std.specs.Prelude.{◌≡◌, IfOk, string_bytes};

use cosem_data::memory::Memory;
use std::alloc::Global;
use thiserror::Error;
use trail_file::fault::TrailFault;
use trail_host::fault::OpenFault;
use trail_store::past::PastFault;

/// Why a place that keeps steps isn't opened (own profile).
#[derive(Clone, Copy, Debug, PartialEq, Eq, Drop, Error)]
pub enum StoreFault {
    /// Memory was refused.
    #[error("out of memory")]
    Memory,
    /// The system neither opens the file nor makes it, or it is no regular file with one name.
    #[error("it can't be opened")]
    System,
    /// Another program, or this one, has the file open.
    #[error("it is in use")]
    Busy,
    /// A file with the name of SQLite's rollback journal lies beside it.
    #[error("a rollback journal lies beside it")]
    Journal,
    /// It is opened, and isn't the trail of the configuration.
    #[error("{0}")]
    Trail(TrailFault),
    /// More whole entries stand behind its end than a crash leaves there, so a byte of it was changed.
    #[error("whole entries stand behind its end: a byte of it was changed")]
    Changed,
    /// The line of the entry with this number behind the head, from 1, says no step.
    #[error("entry {0} says no step")]
    Unreadable(u64),
}

impl StoreFault {
    ghost use Rattle.step_stores.specs.Faults.{fault_words};

    /// The fault as it is told, of the file.
    pub fn told(self, alloc: Global) -> Result<String, Memory>
        ensures { IfOk result (λ text. string_bytes text ≡ fault_words self) }
    {
        let words = match self {
            StoreFault::Memory => "out of memory",
            StoreFault::System => "it can't be opened",
            StoreFault::Busy => "it is in use",
            StoreFault::Journal => "a rollback journal lies beside it",
            StoreFault::Trail(fault) => fault.words(),
            StoreFault::Changed => "whole entries stand behind its end: a byte of it was changed",
            StoreFault::Unreadable(entry) => {
                return Ok(format!(in alloc; "entry {entry} says no step")?);
            }
        };
        Ok(String::from_str(alloc, words)?)
    }
}

impl From<OpenFault> for StoreFault {
    ghost use Rattle.std.specs.Prelude.{◌≡◌};
    ghost use Rattle.step_stores.specs.Faults.{fault_of_opening};

    ghost from_gives = { λ fault told. told ≡ fault_of_opening fault };

    fn from(fault: OpenFault) -> StoreFault {
        match fault {
            OpenFault::System(_) => StoreFault::System,
            OpenFault::Busy => StoreFault::Busy,
            OpenFault::Journal => StoreFault::Journal,
            OpenFault::Trail(TrailFault::Memory) => StoreFault::Memory,
            OpenFault::Trail(fault) => StoreFault::Trail(fault),
        }
    }
}

impl From<PastFault> for StoreFault {
    ghost use Rattle.std.specs.Prelude.{◌≡◌};
    ghost use Rattle.step_stores.specs.Faults.{fault_of_past};

    ghost from_gives = { λ fault told. told ≡ fault_of_past fault };

    fn from(fault: PastFault) -> StoreFault {
        match fault {
            PastFault::Memory => StoreFault::Memory,
            PastFault::Unreadable(entry) => StoreFault::Unreadable(entry),
        }
    }
}
