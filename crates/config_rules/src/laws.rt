//! What holds of every configuration.
ghost use Rattle.std.specs.Prelude.{◌≡◌};
ghost use Rattle.meter_theory.specs.Plan.{HasNoMenus};
ghost use Rattle.meter_theory.specs.Sound.{IsSound, HasAtMostOneClock};
ghost use Rattle.config_text.specs.Parts.{ConfigText};
ghost use Rattle.config_rules.specs.Faultless.{IsFaultless};
ghost use Rattle.config_rules.specs.PlanOf.{plan_of};
ghost use Rattle.config_rules.specs.Read.{IsRead};

/// A configuration whose tables could be read, and in which no pass finds a fault, describes a sound plan: one in which no
/// fault of a configuration is left. Of such a plan the promises about influence and secrecy hold, and from its start a
/// meter runs.
pub fn faultless_configurations_are_sound()
    ensures sound { (c : ConfigText) → IsFaultless c → IsSound (plan_of c) }
{
    // The proof is the function's contract.
}

/// The plan of a configuration whose tables could be read, and in which no pass finds a fault, has one clock at most, to which no
/// input from outside goes, and none in version 1.
pub fn faultless_configurations_have_at_most_one_clock()
    ensures clock { (c : ConfigText) → IsFaultless c → HasAtMostOneClock (plan_of c) }
{
    // The proof is the function's contract.
}

/// The plan of a configuration of version 1 whose tables could be read has no menus.
pub fn configurations_of_version_1_have_no_menus()
    ensures none { (c : ConfigText) → IsRead c → c.version ≡ 1 → HasNoMenus (plan_of c) }
{
    // The proof is the function's contract.
}
