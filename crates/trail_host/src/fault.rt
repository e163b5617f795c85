//! Why a trail's file of the system isn't opened.

use sqlite_std_file::OpenError;
use std::io;
use thiserror::Error;
use trail_file::fault::TrailFault;

/// Why a trail's file of the system isn't opened (own profile).
#[derive(Clone, Copy, Debug, Drop, Error)]
pub enum OpenFault {
    /// The system neither opens the file nor makes it, or it is no regular file with one name.
    #[error("it can't be opened: {0}")]
    System(io::Error),
    /// Another program, or this one, has the file open.
    #[error("it is in use")]
    Busy,
    /// A file with the name of SQLite's rollback journal lies beside it.
    #[error("a rollback journal lies beside it")]
    Journal,
    /// It is opened, and isn't the trail that was expected; or memory was refused.
    #[error("{0}")]
    Trail(TrailFault),
}

/// What the system's answer means for a trail.
pub(crate) fn fault_of(error: OpenError) -> OpenFault {
    match error {
        OpenError::Io(error) => OpenFault::System(error),
        OpenError::OutOfMemory => OpenFault::Trail(TrailFault::Memory),
        OpenError::Busy => OpenFault::Busy,
        OpenError::HotJournal => OpenFault::Journal,
    }
}
