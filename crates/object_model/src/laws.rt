//! Theorems about the cells of plans: each function's clauses are its statement, and its body is empty.
ghost use Rattle.std.specs.Prelude.{◌≡◌, ◌≤◌, ◌*◌, ℕ, length, slice_get, true, Some};
ghost use Rattle.cosem_data.specs.Cells.{same_cell};
ghost use Rattle.cosem_data.specs.declared.cell.CellRef.{CellRef};
ghost use Rattle.meter_theory.specs.Plan.{Plan, cells};
ghost use Rattle.meter_theory.specs.Sound.{IsSound};
ghost use Rattle.meter_theory.specs.declared.limits.TheConstants.{OBJECTS};

/// Each cell of a sound plan stands once in plan order, and there are four at most an object.
pub fn cells_are_apart()
    ensures apart { (P : Plan) → IsSound P → (i j : ℕ) (x y : CellRef) → slice_get (cells P) i ≡ Some x →
        slice_get (cells P) j ≡ Some y → same_cell x y ≡ true → i ≡ j }
    ensures few { (P : Plan) → IsSound P → length (cells P) ≤ 4 * OBJECTS }
{}
