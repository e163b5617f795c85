//! Why a trail's file isn't opened, or entries aren't acknowledged.
ghost use Rattle.std.specs.Prelude.{◌≡◌};
ghost use Rattle.trail_file.specs.Faults as spec;

use std::alloc::AllocError;
use std::error::Error;
use std::fmt;

/// Why a trail's file isn't opened, or entries aren't acknowledged (own profile).
#[derive(Clone, Copy, Debug, PartialEq, Eq, Drop)]
pub enum TrailFault {
    /// Memory was refused, and nothing was written.
    Memory,
    /// The file would be longer than a file can be, and nothing was written.
    Full,
    /// The disk failed while the file was read, and nothing was written.
    NotRead,
    /// The file is no trail: it begins with no head, and isn't new. Nothing was written.
    Foreign,
    /// The file is the trail of another configuration, and nothing was written.
    OtherConfiguration,
    /// An open latch stands before an entry that isn't whole, which no trail leaves, and nothing was written.
    Damaged,
    /// The disk failed while the latch was shut: no crash leaves the entries.
    NotKept,
    /// The disk failed at the latch: a crash leaves the entries or not.
    InDoubt,
}

impl TrailFault {
    /// The fault as it is told, of the file.
    pub fn words(self) -> &'static str
        ensures { result.now ≡ spec.fault_words self }
    {
        match self {
            TrailFault::Memory => "out of memory",
            TrailFault::Full => "it is too long for another entry",
            TrailFault::NotRead => "it can't be read",
            TrailFault::Foreign => "it is no trail of cosem-flow",
            TrailFault::OtherConfiguration => "it is the trail of another configuration",
            TrailFault::Damaged => "its last entry isn't whole",
            TrailFault::NotKept => "it can't be written, and what was to be added isn't kept",
            TrailFault::InDoubt => {
                "it can't be written, and what was to be added may be kept or not"
            }
        }
    }

    /// Whether nothing was written.
    pub fn is_before_writing(self) -> bool
        ensures { result ≡ spec.is_before_writing self }
    {
        !matches!(self, TrailFault::NotKept | TrailFault::InDoubt)
    }
}

impl From<AllocError> for TrailFault {
    ghost use Rattle.std.specs.Prelude.{◌≡◌};
    ghost use Rattle.trail_file.specs.declared.fault.TrailFault.TheVariants.{Memory};

    ghost from_gives = { λ _ fault. fault ≡ Memory };

    fn from(_: AllocError) -> TrailFault {
        TrailFault::Memory
    }
}

// Written by hand, so that a contract knows what is printed.
impl fmt::Display for TrailFault {
    ghost use Rattle.std.specs.Prelude.{Some};
    ghost use Rattle.trail_file.specs.Faults.{fault_words};

    ghost output = { λ fault. Some (fault_words fault) };

    fn fmt<W: fmt::Write>(&self, f: &mut fmt::Formatter<W>) -> fmt::Result {
        let words = self.words();
        write!(f, "{words}")
    }
}

impl Error for TrailFault {}
