//! What holds of profiles beside the laws of their class.
ghost use Rattle.std.specs.Prelude.{◌≡◌, ◌≤◌, ℕ, List, true};
ghost use Rattle.cosem_data.specs.Tree.{Tree};
ghost use Rattle.cosem_data.specs.declared.cell.CellRef.{CellRef};
ghost use Rattle.meter_theory.specs.Lists.{IsIn};
ghost use Rattle.meter_theory.specs.Menus.{Choice, alternatives};
ghost use Rattle.meter_theory.specs.Plan.{Plan};
ghost use Rattle.meter_theory.specs.States.{IsBuffer, IsCount};
ghost use Rattle.meter_theory.specs.Steps.{buffer_after};
ghost use Rattle.class_profile.specs.ProfileClass.{is_buffer, is_count};
ghost use Rattle.class_profile.specs.Reversal.{dropped, buffer_before};

/// What a state of a plan holds of a profile may stand in an object of class 7: its buffer, of the cells of one alternative, and
/// its entries in use.
pub fn states_hold_profiles()
    ensures buffer { (P : Plan) (captured : Choice (List CellRef)) (cells : List CellRef)
        (entries : ℕ) (buffer : Tree) → IsIn (alternatives captured) cells →
        IsBuffer P cells entries buffer → is_buffer captured entries buffer ≡ true }
    ensures count { (entries : ℕ) (count : Tree) → IsCount entries count → is_count entries count ≡ true }
{}

/// A capture that is taken back with the row that it dropped leaves the buffer as it was.
pub fn captures_are_taken_back()
    ensures { (captured : Choice (List CellRef)) (entries : ℕ) (buffer row : Tree) → 1 ≤ entries →
        is_buffer captured entries buffer ≡ true →
        buffer_before (dropped entries buffer) (buffer_after entries buffer row) ≡ buffer }
{}
