//! The services of IEC 62056-5-3 with logical names: what clients ask of the meter, and what it replies, as APDUs.
//!
//! - [`asking::Asking`] is a request as a step that is asked, and [`asker::Asker`] what takes such steps: [`solo::Solo`] is a meter alone
//!   that does.
#![tactic(auto)]

pub mod asker;
pub mod asking;
pub mod blocks;
pub mod laws;
pub mod reading;
pub mod request;
pub mod requests;
pub mod solo;
pub mod writing;

pub use asking::{Asking, Exception, write_exception};
pub use blocks::{BlockFault, LongGet, fault_block};
pub use reading::{ApduFault, read_apdu};
pub use request::Request;
pub use requests::write_request;
pub use writing::{Service, write_code, write_reply, write_shown, write_value};
