//! What fails a clause of admission.
use cosem_data::cell::CellRef;
use cosem_data::clients::ClientSet;
use meter_theory::flow::Edge;

/// One failure of a clause of admission, with the clients that are too many or missing (own profile). The clauses stand in their
/// order. Clients are told by their places in the plan.
#[derive(Clone, Copy, Debug, Drop)]
pub enum Failure {
    /// The cell has no label.
    NotLabelled(CellRef),
    /// The cell's label lets these clients influence it, and the policy doesn't.
    InfluencePastPolicy(CellRef, ClientSet),
    /// The cell's label lets these clients learn it, and the policy doesn't.
    LearnPastPolicy(CellRef, ClientSet),
    /// The client has a right that changes the cell, and the label doesn't let it influence the cell.
    Changer(u8, CellRef),
    /// The client may read the cell, and the label doesn't let it learn the cell.
    Reader(u8, CellRef),
    /// These clients may influence the source of the edge, and not its target.
    InfluenceEscapes(Edge, ClientSet),
    /// These clients may learn the target of the edge, and not its source.
    LearnEscapes(Edge, ClientSet),
}
