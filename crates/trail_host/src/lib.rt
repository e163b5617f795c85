//! A trail's file of the operating system (own profile).
//!
//! [`opening::look_at`] looks at it, and says what was read of it by the record of its calls: if each answer of the system is that of an
//! honest file, the entries are those that the file held. [`opening::Looked::settle`] opens it then. Nothing of a crash is asked of the
//! system that `sqlite_disk`'s model doesn't say.
//!
//! Beside FILE the system gets an empty file FILE-wal, also where the trail is refused, and FILE is locked from that on, so that
//! another program that opens it as a trail, or by SQLite, is told that it is in use. No other code may write to it in that time.
#![tactic(auto)]

pub mod fault;
pub mod opening;
