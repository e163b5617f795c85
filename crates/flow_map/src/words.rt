//! The words of what clients may do with cells.
ghost use Rattle.std.specs.Prelude.{◌≡◌};
ghost use Rattle.flow_map.specs.FlowWords as spec;

use meter_theory::flow::{Access, Reach};

/// The word of a reach.
pub fn reach_word(reach: Reach) -> &'static str
    ensures { result.now ≡ spec.reach_word reach }
{
    match reach {
        Reach::Influence => "influence",
        Reach::Learn => "learn",
    }
}

/// The word of an access.
pub fn access_word(access: Access) -> &'static str
    ensures { result.now ≡ spec.access_word access }
{
    match access {
        Access::Get => "get",
        Access::Set => "set",
        Access::Act => "act",
    }
}
