//! All that is wrong with labels.
ghost use Rattle.std.specs.Prelude.{◌≡◌, ◌↔◌, [], IfOk};
ghost use Rattle.meter_theory.specs.Labels.{Admits, labelling_of_policy};
ghost use Rattle.flow_checker.specs.Failures.{failures};

use crate::case::Case;
use crate::failure::Failure;
use cosem_data::memory::Memory;
use flow_map::map::FlowMap;
use label_certificate::labels::Labels;
use meter_theory::laws::tests_decide_admission;
use std::alloc::Global;

/// All that fails the six clauses of admission, each once: clause by clause, and of each in the order of its cells, clients with
/// cells, or edges (own profile). The only error is want of memory.
pub fn all_failures(
    alloc: Global,
    map: &FlowMap<'_>,
    labels: &Labels,
) -> Result<Vec<Failure>, Memory>
    ensures all { IfOk result (λ found. found.items ≡ failures map.now.plan
        (labelling_of_policy map.now.plan map.now.policy) labels.now) }
    ensures nothing { IfOk result (λ found. (found.items ≡ []) ↔ Admits map.now.plan
        (labelling_of_policy map.now.plan map.now.policy) labels.now) }
{
    map.known();
    tests_decide_admission();
    Case::new(alloc, map, labels)?.failures(alloc)
}
