//! Theorems about groups: each function's clauses are its statement, and its body is empty.
ghost use Rattle.std.specs.Prelude.{◌≡◌, ◌<◌, ℕ, List, [], get_or, length, slice_get};
ghost use Rattle.std.specs.List.{Contains};
ghost use Rattle.flow_map.specs.Grouping.{AreGrouped, IsInOne};

/// Each item stands in exactly one group, and the items of a group have equal keys.
pub fn items_stand_in_one_group<K>()
    ensures once { (keys : List K) (groups : List (List ℕ)) → AreGrouped keys groups → (i : ℕ) → i < length keys → IsInOne groups i }
    ensures alike { (keys : List K) (groups : List (List ℕ)) → AreGrouped keys groups → (k i j : ℕ) → k < length groups →
        Contains (get_or groups k []) i → Contains (get_or groups k []) j → slice_get keys i ≡ slice_get keys j }
{}
