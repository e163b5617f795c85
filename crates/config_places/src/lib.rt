//! Where in the text of a configuration steps lead, for messages (own profile).
#![tactic(auto)]

mod along;
mod naming;
mod path;
mod spot;
mod values;
mod walk;

pub use path::read_path;
pub use spot::{Spot, Step};
pub use walk::find;
