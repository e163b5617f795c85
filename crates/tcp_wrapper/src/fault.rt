//! Why a stream is read no further.
ghost use Rattle.std.specs.Prelude.{◌≡◌};
ghost use Rattle.tcp_wrapper.specs.Faults.{fault_words, number_of};

use thiserror::Error;

/// Why a stream is read no further. A header is judged once its eight bytes are there, and of the first three the first that
/// is met is told (own profile).
#[derive(Clone, Copy, Debug, PartialEq, Eq, Drop, Error)]
#[error("{}", self.words())]
pub enum WrapFault {
    /// The version isn't 0001 (IEC 62056-4-7, the wrapper header).
    Version,
    /// The wPort that the frame goes to isn't 0001, the server's (own profile).
    Destination,
    /// The length is over 1,024 (own profile).
    Length,
    /// Memory was refused.
    Memory,
    /// There was a fault before.
    Failed,
}

impl WrapFault {
    /// The number of the fault, from 1 (own profile).
    pub fn number(self) -> u8
        ensures { result ≡ number_of self }
    {
        match self {
            WrapFault::Version => 1,
            WrapFault::Destination => 2,
            WrapFault::Length => 3,
            WrapFault::Memory => 4,
            WrapFault::Failed => 5,
        }
    }

    /// The fault as it is told, by its number and in words (own profile).
    pub fn words(self) -> &'static str
        ensures { result.now ≡ fault_words self }
    {
        match self {
            WrapFault::Version => "frame fault 1: the version in its header isn't 0001",
            WrapFault::Destination =>
                "frame fault 2: it goes to another wPort than 0001, the server's",
            WrapFault::Length => "frame fault 3: its length is over 1024",
            WrapFault::Memory => "frame fault 4: out of memory",
            WrapFault::Failed => "frame fault 5: there was a fault before",
        }
    }
}
