//! The sets of clients of labels, by a reach (own profile).
ghost use Rattle.std.specs.Prelude.{◌≡◌, map, IfOk};
ghost use Rattle.meter_theory.specs.Ways.{set_for};

use cosem_data::clients::ClientSet;
use cosem_data::memory::Memory;
use meter_theory::flow::{Label, Reach};
use std::alloc::Global;

/// The clients that a label has of this reach.
pub fn set_for(reach: Reach, label: Label) -> ClientSet
    ensures { result ≡ set_for reach label }
{
    match reach {
        Reach::Influence => label.influence,
        Reach::Learn => label.learn,
    }
}

/// The clients that each label has of this reach. The only error is want of memory.
pub fn sets_for(alloc: Global, reach: Reach, labels: &[Label]) -> Result<Vec<ClientSet>, Memory>
    ensures { IfOk result (λ sets. sets.items ≡ map (set_for reach) labels.now) }
{
    let mut sets = Vec::with_capacity(alloc, labels.len())?;
    for label in labels {
        sets.push(set_for(reach, *label))?;
    }
    Ok(sets)
}
