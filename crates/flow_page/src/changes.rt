//! What has changed against the configuration before.
use crate::ways::WayLine;
use flow_map::kind::{Change, Kind};

/// What has changed.
#[derive(Drop)]
pub struct Changes {
    /// The names of the clients that gain.
    pub gainers: Vec<String>,
    /// What has changed of each kind of facts, of those kinds of which something has.
    pub kinds: Vec<KindChanges>,
}

/// What has changed of one kind of facts.
#[derive(Drop)]
pub struct KindChanges {
    /// The kind.
    pub kind: Kind,
    /// The changes, of which there is at least one.
    pub facts: Vec<ChangedFact>,
    /// How many more there are than the page has room for.
    pub more: usize,
}

/// A fact that is gained or lost.
#[derive(Drop)]
pub struct ChangedFact {
    /// Which of both.
    pub change: Change,
    /// The fact in words.
    pub words: String,
    /// The lines of the shortest way, of a fact that a client may now reach a cell.
    pub way: Vec<WayLine>,
}
