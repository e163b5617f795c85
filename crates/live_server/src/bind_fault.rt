//! Why connections can't be taken at an address.
ghost use Rattle.std.specs.Prelude.{◌≡◌, IfOk, string_bytes};
ghost use Rattle.std.specs.IoError.{error_kind, raw_os_error};
ghost use Rattle.live_server.specs.Binding.{fault_of_kind};

use crate::fault::ServerFault;
use cosem_data::memory::Memory;
use std::alloc::Global;
use std::error::Error;
use std::fmt;
use std::io::{self, ErrorKind};

/// Why connections can't be taken at an address, as the system says (own profile).
#[derive(Clone, Copy, Debug, Drop)]
pub enum BindFault {
    /// Connections are taken there already.
    InUse,
    /// This machine hasn't the address.
    Elsewhere,
    /// The system doesn't let the user take connections there, as at a port below 1024.
    Forbidden,
    /// No address is found for the name of a host.
    Unnamed,
    /// The system has another error, of this number (Linux, errno).
    System(i32),
}

impl BindFault {
    ghost use Rattle.live_server.specs.Binding.{bind_words};

    /// The fault as it is told, of the address.
    pub fn told(self, alloc: Global) -> Result<String, Memory>
        ensures { IfOk result (λ text. string_bytes text ≡ bind_words self) }
    {
        Ok(format!(in alloc; "{self}")?)
    }
}

// Written by hand, so that a contract knows what is printed.
impl fmt::Display for BindFault {
    ghost use Rattle.std.specs.Prelude.{Some};
    ghost use Rattle.live_server.specs.Binding.{bind_words};

    ghost output = { λ fault. Some (bind_words fault) };

    fn fmt<W: fmt::Write>(&self, f: &mut fmt::Formatter<W>) -> fmt::Result {
        match *self {
            BindFault::InUse => f.write_str("it is in use"),
            BindFault::Elsewhere => f.write_str("it is no address of this machine"),
            BindFault::Forbidden => f.write_str("this user may not take connections there"),
            BindFault::Unnamed => f.write_str("no address is found for it"),
            BindFault::System(number) => {
                write!(
                    f,
                    "connections can't be taken there: error {number} of the system"
                )
            }
        }
    }
}

impl Error for BindFault {}

/// What the system's answer means where it doesn't take connections at an address. What looks up a host's name has no number for its errors.
pub(crate) fn fault_of(error: &io::Error) -> ServerFault
    ensures { result ≡ fault_of_kind (error_kind error.now) (raw_os_error error.now) }
{
    match (error.kind(), error.raw_os_error()) {
        (ErrorKind::OutOfMemory, _) => ServerFault::Memory,
        (ErrorKind::AddrInUse, _) => ServerFault::Bind(BindFault::InUse),
        (ErrorKind::AddrNotAvailable, _) => ServerFault::Bind(BindFault::Elsewhere),
        (ErrorKind::PermissionDenied, _) => ServerFault::Bind(BindFault::Forbidden),
        (_, Some(number)) => ServerFault::Bind(BindFault::System(number)),
        (_, None) => ServerFault::Bind(BindFault::Unnamed),
    }
}
