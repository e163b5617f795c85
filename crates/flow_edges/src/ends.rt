//! The ends of edges, as clients come along them: who may influence goes the way that values flow, and who may learn against it
//! (own profile).
ghost use Rattle.std.specs.Prelude.{◌≡◌};
ghost use Rattle.meter_theory.specs.Ways.{near_end};
ghost use Rattle.flow_edges.specs.Ends.{far_of, near_of};

use crate::table::Link;
use cosem_data::cell::CellRef;
use meter_theory::flow::{Edge, Reach};

/// The number of the cell from which clients come along a link.
pub fn near_of(reach: Reach, link: Link) -> usize
    ensures { result ≡ near_of reach link }
{
    match reach {
        Reach::Influence => link.source,
        Reach::Learn => link.target,
    }
}

/// The number of the cell to which they come.
pub fn far_of(reach: Reach, link: Link) -> usize
    ensures { result ≡ far_of reach link }
{
    match reach {
        Reach::Influence => link.target,
        Reach::Learn => link.source,
    }
}

/// The end of an edge from which clients come along it.
pub fn near_end(reach: Reach, edge: &Edge) -> CellRef
    ensures { result ≡ near_end reach edge.now }
{
    match reach {
        Reach::Influence => edge.source,
        Reach::Learn => edge.target,
    }
}
