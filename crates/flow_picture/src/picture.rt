//! What a picture of the flow shows.
use cosem_data::cell::CellRef;
use cosem_data::clients::ClientSet;
use meter_theory::flow::Cause;

/// A picture of how values flow: boxes of cells, and arrows between them (own profile).
#[derive(Drop)]
pub struct Picture {
    /// The names of the clients.
    pub clients: Vec<String>,
    /// The boxes.
    pub boxes: Vec<PictureBox>,
    /// The arrows between them.
    pub arrows: Vec<Arrow>,
    /// The cells that no edge leads from or to.
    pub alone: Vec<CellRef>,
}

/// Cells that stand in one box: one cell, or cells of one class and attribute.
#[derive(Clone, Copy, Drop)]
pub struct PictureBox {
    /// The first of its cells.
    pub cell: CellRef,
    /// How many there are.
    pub cells: usize,
    /// Who may change one of them by a right.
    pub changers: ClientSet,
    /// Who may read one of them by a right.
    pub readers: ClientSet,
    /// Who may influence one of them, by a right or by edges.
    pub influence: ClientSet,
    /// Who may learn one of them, by a right or by edges.
    pub learn: ClientSet,
}

/// All edges of one cause that lead from cells of one box to those of another, or of the same. One from or to a number that no box
/// has is shown without a name there, and has no line.
#[derive(Clone, Copy, Drop)]
pub struct Arrow {
    /// The number of the box that they lead from.
    pub source: usize,
    /// The number of the box that they lead to.
    pub target: usize,
    /// Their cause.
    pub cause: Cause,
    /// How many there are.
    pub edges: usize,
}
