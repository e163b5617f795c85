//! Why connections are no longer served.
ghost use Rattle.std.specs.Prelude.{◌≡◌, IfOk, string_bytes};

use crate::bind_fault::BindFault;
use cosem_data::memory::Memory;
use std::alloc::{AllocFailed, Global};
use std::error::Error;
use std::fmt;

/// Why connections are no longer served (own profile).
#[derive(Clone, Copy, Debug, Drop)]
pub enum ServerFault {
    /// No connection can be taken at the address, for this reason.
    Bind(BindFault),
    /// No further connection can be taken at the address, as the listening itself fails.
    Listen,
    /// Memory was refused, or no thread was there for the driver.
    Memory,
    /// The gate had a seat give up, as one that is open never does.
    GaveUp,
    /// The board had no port for a seat, or wasn't closed for want of a share.
    Board,
    /// More steps were kept than can be counted.
    Full,
}

impl ServerFault {
    ghost use Rattle.live_server.specs.Faults.{fault_words};

    /// The fault as it is told (own profile).
    pub fn told(self, alloc: Global) -> Result<String, Memory>
        ensures { IfOk result (λ text. string_bytes text ≡ fault_words self) }
    {
        Ok(format!(in alloc; "{self}")?)
    }
}

impl From<Memory> for ServerFault {
    ghost use Rattle.std.specs.Prelude.{◌≡◌};
    ghost use Rattle.live_server.specs.declared.fault.ServerFault.TheVariants as faults;

    ghost from_gives = { λ _ fault. fault ≡ faults.Memory };

    fn from(_memory: Memory) -> ServerFault {
        ServerFault::Memory
    }
}

impl<T: Drop> From<AllocFailed<T>> for ServerFault {
    ghost use Rattle.std.specs.Prelude.{◌≡◌};
    ghost use Rattle.live_server.specs.declared.fault.ServerFault.TheVariants as faults;

    ghost from_gives = { λ _ fault. fault ≡ faults.Memory };

    fn from(_failed: AllocFailed<T>) -> ServerFault {
        ServerFault::Memory
    }
}

// Written by hand, so that a contract knows what is printed.
impl fmt::Display for ServerFault {
    ghost use Rattle.std.specs.Prelude.{Some};
    ghost use Rattle.live_server.specs.Faults.{fault_words};

    ghost output = { λ fault. Some (fault_words fault) };

    fn fmt<W: fmt::Write>(&self, f: &mut fmt::Formatter<W>) -> fmt::Result {
        match *self {
            ServerFault::Bind(fault) => write!(f, "{fault}"),
            ServerFault::Listen => f.write_str("connections can't be taken there"),
            ServerFault::Memory => f.write_str("out of memory"),
            ServerFault::GaveUp => f.write_str("a seat gave up"),
            ServerFault::Board => f.write_str("the meter has no port for a seat"),
            ServerFault::Full => f.write_str("more steps were kept than can be counted"),
        }
    }
}

impl Error for ServerFault {}
