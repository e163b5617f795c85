//! Theorems about what a page shows: each function's clauses are its statement, and its body is empty.
ghost use Rattle.std.specs.Prelude.{◌≡◌, ◌<◌, ℕ, List, [], get_or, length, Some};
ghost use Rattle.std.specs.List.{Contains};
ghost use Rattle.cosem_data.specs.declared.cell.CellRef.{CellRef};
ghost use Rattle.meter_theory.specs.Lists.{IsIn};
ghost use Rattle.meter_theory.specs.Plan.{Plan, cells};
ghost use Rattle.meter_theory.specs.Sound.{IsSound};
ghost use Rattle.meter_theory.specs.declared.flow.Reach.{Reach};
ghost use Rattle.flow_map.specs.Grouping.{IsInOne};
ghost use Rattle.flow_ways.specs.Found.{distance_of};
ghost use Rattle.flow_map.specs.declared.request.GrantedRequest.{GrantedRequest};
ghost use Rattle.flow_page.specs.declared.matrix.Found.{Found as FoundValue};
ghost use Rattle.flow_page.specs.Marks.{Told, found_of, request_of};
ghost use Rattle.flow_page.specs.Rows.{AreRows, row_key};

/// Each cell stands in exactly one row of the matrix, and the cells of a row have alike what they share it for: class, attribute,
/// and for each client and reach the word of what is found, whether it is allowed, its change, and what request is refused.
pub fn cells_stand_in_one_row()
    ensures once { (t : Told) (rows : List (List ℕ)) → AreRows t rows → (i : ℕ) → i < length (cells t.plan) → IsInOne rows i }
    ensures alike { (t : Told) (rows : List (List ℕ)) → AreRows t rows → (k i j : ℕ) → k < length rows →
        Contains (get_or rows k []) i → Contains (get_or rows k []) j → row_key t i ≡ row_key t j }
{}

/// Where a client has a way to a cell, something is found, and the way that is shown has a request at its other end: so each way
/// that is refused, or that is reached by edges, is told with its request or counted as left.
pub fn ways_end_at_requests()
    ensures found { (P : Plan) → IsSound P → (reach : Reach) (c : ℕ) (x : CellRef) → IsIn (cells P) x → (d : ℕ) →
        distance_of P reach c x ≡ Some d → (found : FoundValue) × (found_of P reach c x ≡ Some found) }
    ensures request { (P : Plan) → IsSound P → (reach : Reach) (c : ℕ) (x : CellRef) → IsIn (cells P) x → (d : ℕ) →
        distance_of P reach c x ≡ Some d → (request : GrantedRequest) × (request_of P reach c x ≡ Some request) }
{}
