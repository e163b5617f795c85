//! What holds of every configuration that could be read, and of every one without faults.
ghost use Rattle.std.specs.Prelude.{◌≡◌, ◌≤◌, Ok, length, true};
ghost use Rattle.std.specs.List.{list_all};
ghost use Rattle.meter_theory.specs.declared.limits.TheConstants.{CLIENTS};
ghost use Rattle.config_text.specs.Document.{tables_of};
ghost use Rattle.config_text.specs.Parts.{Text, ConfigText};
ghost use Rattle.config_rules.specs.Faultless.{IsFaultless};
ghost use Rattle.config_rules.specs.Passes.{judged};
ghost use Rattle.config_rules.specs.Read.{IsRead};
ghost use Rattle.config_reader.specs.ConfigOf.{AreFaultsOf, config_of, faults_of};
ghost use Rattle.config_reader.specs.Room.{has_room};

/// What the tables of a text say keeps to the ranges of its numbers and to the form of passwords, and each object says what
/// its class asks for; it is without faults where no pass finds one.
pub fn configurations_are_read()
    ensures read { (text : Text) (c : ConfigText) → tables_of text ≡ Ok c → IsRead c }
    ensures faultless { (text : Text) (c : ConfigText) → tables_of text ≡ Ok c →
        judged c ≡ Ok tt → IsFaultless c }
{
    // The proof is the function's contract.
}

/// A text has no faults exactly where it is read; else the first of its faults is the one by which it is refused.
pub fn texts_are_refused_by_the_first_fault()
    ensures faults { (text : Text) → AreFaultsOf (config_of text) (faults_of text) }
{
    // The proof is the function's contract.
}

/// A configuration without faults has at most `CLIENTS` clients, and each profile keeps from 1 to `PROFILE_ENTRIES` entries.
pub fn faultless_configurations_have_room()
    ensures clients { (c : ConfigText) → IsFaultless c → length c.clients ≤ CLIENTS }
    ensures profiles { (c : ConfigText) → IsFaultless c →
        list_all (λ o. has_room o.body) c.objects ≡ true }
{
    // The proof is the function's contract.
}
