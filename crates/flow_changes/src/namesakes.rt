//! Clients of two configurations that have one name.
use flow_map::outline::Outline;

/// A client of a plan with its name, and the client with this name in another plan, if there is one.
#[derive(Clone, Copy)]
pub(crate) struct Namesakes<'a> {
    pub(crate) name: &'a str,
    pub(crate) plan: &'a Outline<'a>,
    pub(crate) client: u8,
    pub(crate) other_plan: &'a Outline<'a>,
    pub(crate) other: Option<u8>,
}
