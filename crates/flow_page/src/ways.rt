//! Tables of ways.
use cosem_data::cell::CellRef;
use flow_map::request::GrantedRequest;
use meter_theory::flow::{Edge, Reach};

/// A table of ways, those of one right together.
#[derive(Drop)]
pub struct WayTable {
    /// The ways by their rights.
    pub groups: Vec<WayGroup>,
    /// How many ways more there are than it has room for.
    pub left: usize,
}

/// The ways that one right is at the end of.
#[derive(Drop)]
pub struct WayGroup {
    /// Whether they are ways of influence or of learning.
    pub reach: Reach,
    /// The name of the client.
    pub client: String,
    /// The request that the right allows.
    pub request: GrantedRequest,
    /// How many cells they lead to, where the table has all of them and the page shows that.
    pub cells: Option<usize>,
    /// The ways, of which there is at least one.
    pub rows: Vec<WayRow>,
}

/// A way, without the right.
#[derive(Drop)]
pub struct WayRow {
    /// Where it stands on the page.
    pub anchor: Anchor,
    /// The cell that it leads to.
    pub cell: CellRef,
    /// How many other cells are alike.
    pub alike: usize,
    /// Its edges in the order in which values flow, or how many they are.
    pub edges: Vec<WayLine>,
}

/// The place of a way on a page, by the numbers of its client and its cell.
#[derive(Clone, Copy, Drop)]
pub struct Anchor {
    /// Whether it is a way of influence or of learning.
    pub reach: Reach,
    /// The number of the client.
    pub client: u8,
    /// The number of the cell.
    pub cell: usize,
}

/// A line of a way.
#[derive(Drop)]
pub enum WayLine {
    /// The request of this client that a right allows.
    Request {
        client: String,
        request: GrantedRequest,
    },
    /// An edge.
    Edge(Edge),
    /// In place of its lines how many edges a way has, of this client to this cell.
    Long {
        edges: usize,
        client: String,
        cell: CellRef,
    },
}
