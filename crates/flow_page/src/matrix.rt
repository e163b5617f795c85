//! The matrix of a page: who reaches what.
use crate::ways::{Anchor, WayLine};
use cosem_data::cell::CellRef;
use flow_map::kind::Change;
use flow_map::request::GrantedRequest;
use meter_theory::flow::Reach;

/// A row of the matrix: a cell, or cells of one class and attribute that have the same marks.
#[derive(Drop)]
pub struct MatrixRow {
    /// Where it stands among the rows.
    pub opening: Opening,
    /// Its cells, of which there is at least one.
    pub cells: Vec<CellRef>,
    /// For each client the mark of influence, and then that of learning.
    pub marks: Vec<Mark>,
}

/// Where a row stands among others: rows of single cells of one object stand together.
#[derive(Clone, Copy, Drop)]
pub enum Opening {
    /// It is the first of all.
    First,
    /// It begins a group after another.
    Next,
    /// It goes on with the group of the row before it.
    Same,
}

/// A mark of the matrix: whether, and how, a client reaches a cell.
#[derive(Drop)]
pub struct Mark {
    /// Whether it is about influence or about learning.
    pub reach: Reach,
    /// By what the client reaches the cell, if it does.
    pub found: Option<Found>,
    /// Whether the policy allows it.
    pub allowed: bool,
    /// Whether it is gained or lost against the configuration before, or neither.
    pub change: Option<Change>,
    /// The row of its way, if the page shows it.
    pub link: Option<WayLink>,
}

/// By what a client reaches a cell.
#[derive(Clone, Copy, Drop)]
pub enum Found {
    /// By a right, which allows this request.
    Right(GrantedRequest),
    /// By so many edges, 1 or more, and a right at the other end.
    Edges(usize),
}

/// Where a page shows a way, and the first lines of it.
#[derive(Drop)]
pub struct WayLink {
    /// Where.
    pub anchor: Anchor,
    /// The first lines.
    pub title: Vec<WayLine>,
}
