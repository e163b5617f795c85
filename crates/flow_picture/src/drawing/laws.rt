//! Theorems about what a picture shows: each function's clauses are its statement, and its body is empty.
ghost use Rattle.std.specs.Prelude.{ℕ, List};
ghost use Rattle.flow_edges.specs.declared.table.Link.{Link};
ghost use Rattle.flow_picture.specs.Arrows.{AreArrows, all_between, arrows_of};

/// Each edge that has both ends in boxes has exactly one arrow with its ends and its cause, each arrow says how many edges have
/// its ends and its cause, and there is one at least.
pub fn each_edge_has_one_arrow()
    ensures { (boxes : List (List ℕ)) (links : List Link) → AreArrows (all_between boxes links) (arrows_of boxes links) }
{}
