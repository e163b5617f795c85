//! What holds of the judgement of every configuration.

ghost use Rattle.std.specs.Prelude.{◌≡◌};
ghost use Rattle.config_text.specs.Parts.{ConfigText};
ghost use Rattle.config_rules.specs.Passes.{found};
ghost use Rattle.config_judge.specs.JudgedNames.{both_halves};

/// The faults of a configuration are those of its names and indexes, and those of the rest where it has none of these.
pub fn names_are_judged_first()
    ensures halves { (c : ConfigText) → both_halves c ≡ found c }
{
    // The proof is the function's contract.
}
