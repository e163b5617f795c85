//! A trail in a text file, in which each entry is on the disk before it is acknowledged (own profile).
//!
//! - [`trail::TrailFile`] is the file while it is written: [`trail::TrailFile::append`] and [`trail::TrailFile::commit`].
//! - [`looking::look`] looks at a file, whatever a crash left of it, before anything is written; [`opening`] opens what was found, and
//!   makes the head of a new file.
//! - [`reading::read_entries`] reads the entries of a file's bytes, without opening it as a trail; [`reading::first_entry`] lends the first.
//! - [`head::Head`] is what a file begins with, [`entry::Entry`] what it has behind that.
//! - [`stopping`] has an append on a machine that stops in its midst.
//!
//! An entry is two lines, a note and a line, behind one byte that is its latch:
//!
//! ```text
//! # cosem-flow 0.1.0                              the head, an entry whose line is a comment too
//! # sha256 5f0c..                                 the digest of the configuration, 64 digits
//! # seat 3: success (0)                           a note
//! manager C101C100010000600B00FF02001101          a line
//!                                                 an empty line: the shut latch
//! ```
//!
//! The latch `#` is open, and any other byte ends the entries. At rest a newline stands behind the last entry: the shut latch. So at
//! rest the file is comments, lines and an empty line. Entries are added behind the shut latch, with another one behind them; once
//! that is on the disk, the byte `#` is written over the latch before them. What a crash leaves behind a shut latch counts for
//! nothing, whatever its bytes are, and a latch that was torn is open or not: so all entries of one call count, or none.
//!
//! What the contracts say of a crash holds over the model of a disk that `sqlite_disk` has: a write since the last sync may be there
//! whole, not at all, or as any bytes in its range, and the other bytes stay. Clauses on values hold where the disk is clean as the
//! call ends, which says that it has returned what was written.
#![tactic(auto)]

pub mod entry;
pub mod fault;
pub mod head;
mod latch;
pub mod looking;
mod mending;
pub mod opening;
pub mod reading;
pub mod stopping;
pub mod trail;
pub mod version;
