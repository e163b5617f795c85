//! The association of a client with the meter (IEC 62056-5-3, ACSE services): its AARQ is judged by the plan, and the AARE and
//! the RLRE that answer are written.
//!
//! - [`judging::associate`] tells who is associated and what was agreed, or why not. It takes no memory.
//! - [`answers::write_aare`] and [`answers::write_rlre`] write the answers.
//! - [`apdu::is_aarq`] and [`apdu::is_rlrq`] tell which APDUs are for this crate.
//! - [`laws`] has the laws that the reading of an AARQ is its grammar, for proofs that build on these functions.
//!
//! An AARQ has four fields that are looked at: the application context, which must be that of logical names without ciphering;
//! the mechanism of authentication and its value, a password for the clients that have one; and the InitiateRequest, with the
//! services that the client proposes and the most bytes of an APDU that it takes.
#![tactic(auto)]

pub mod answers;
pub mod apdu;
pub mod association;
pub mod conformance;
pub mod diagnostic;
mod fields;
mod initiate;
pub mod judging;
pub mod laws;
mod password;

pub use answers::{write_aare, write_rlre};
pub use apdu::{is_aarq, is_rlrq};
pub use association::Association;
pub use conformance::Conformance;
pub use diagnostic::Diagnostic;
pub use judging::associate;
