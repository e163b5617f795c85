//! Theorems about ways: each function's clauses are its statement, and its body is empty.
ghost use Rattle.std.specs.Prelude.{◌≡◌, ℕ, List, Some};
ghost use Rattle.cosem_data.specs.declared.cell.CellRef.{CellRef};
ghost use Rattle.meter_theory.specs.Edges.{edges};
ghost use Rattle.meter_theory.specs.Labels.{Policy, labelling_of_policy};
ghost use Rattle.meter_theory.specs.Plan.{Plan, cells};
ghost use Rattle.meter_theory.specs.Sound.{IsSound};
ghost use Rattle.meter_theory.specs.Ways.{Grants, IsWay};
ghost use Rattle.meter_theory.specs.declared.flow.Edge.{Edge};
ghost use Rattle.meter_theory.specs.declared.flow.Reach.{Reach};
ghost use Rattle.flow_ways.specs.Bare.{bare};
ghost use Rattle.flow_ways.specs.Found.{AreDistancesOf, distance_of, way_of};
ghost use Rattle.flow_map.specs.Granting.{Allows, shown_request};
ghost use Rattle.flow_ways.specs.Why.{way_end};
ghost use Rattle.flow_map.specs.declared.request.GrantedRequest.{GrantedRequest};

/// The first rounds within which clients have cells are their distances.
pub fn first_rounds_are_distances()
    ensures { (P : Plan) → IsSound P → AreDistancesOf P (distance_of P) }
{}

/// Where a right grants a client a cell, a request is shown that a right allows and by which the client reaches the cell; and a
/// way ends at such a cell.
pub fn shown_requests_are_allowed()
    ensures allowed { (P : Plan) (reach : Reach) (c : ℕ) (x : CellRef) → IsSound P → Grants P reach c x →
        (request : GrantedRequest) × (shown_request P reach c x ≡ Some request) × Allows P c x request }
    ensures end { (P : Plan) (reach : Reach) (c : ℕ) (x : CellRef) (es : List Edge) → IsWay P reach c x es →
        Grants P reach c (way_end reach x es) }
{}

/// The cells of a plan, its edges, how far each cell is from each client, what a policy says of each cell, and the ways that are shown
/// with the requests at their ends are those of the plan without passwords and values, of which are start values, defaults, thresholds, times, periods, numbers of
/// entries, and what scripts write: two plans that differ in nothing else have the same.
pub fn flow_hangs_on_no_value()
    ensures cells { (P : Plan) → cells (bare P) ≡ cells P }
    ensures edges { (P : Plan) → edges (bare P) ≡ edges P }
    ensures distances { (P : Plan) (reach : Reach) (c : ℕ) (x : CellRef) → distance_of (bare P) reach c x ≡ distance_of P reach c x }
    ensures policy { (P : Plan) (Q : Policy) (x : CellRef) → labelling_of_policy (bare P) Q x ≡ labelling_of_policy P Q x }
    ensures ways { (P : Plan) (reach : Reach) (c : ℕ) (x : CellRef) → way_of (bare P) reach c x ≡ way_of P reach c x }
    ensures requests { (P : Plan) (reach : Reach) (c : ℕ) (x : CellRef) → shown_request (bare P) reach c x ≡ shown_request P reach c x }
{}
