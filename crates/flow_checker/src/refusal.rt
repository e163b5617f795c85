//! The refusal of labels, if there is one.
ghost use Rattle.std.specs.Prelude.{◌≡◌, IfOk};
ghost use Rattle.meter_theory.specs.Labels.{labelling_of_policy};
ghost use Rattle.flow_checker.specs.Answer as spec;
ghost use Rattle.flow_checker.specs.Answer.{IsAnswer};

use crate::case::Case;
use crate::failure::Failure;
use cosem_data::memory::Memory;
use flow_map::map::FlowMap;
use label_certificate::labels::Labels;
use meter_theory::flow::Refusal;
use std::alloc::Global;

/// Why labels are refused for a plan and its policy: the first of all failures, or None where all six clauses pass (own
/// profile). The only error is want of memory.
pub fn first_refusal(
    alloc: Global,
    map: &FlowMap<'_>,
    labels: &Labels,
) -> Result<Option<Refusal>, Memory>
    ensures { IfOk result (λ found. IsAnswer map.now.plan
        (labelling_of_policy map.now.plan map.now.policy) labels.now found) }
{
    let first = Case::new(alloc, map, labels)?.first_failure(alloc)?;
    Ok(first.map(refusal_of))
}

/// The refusal that a failure is, where it is the first.
fn refusal_of(failure: Failure) -> Refusal
    ensures { result ≡ spec.refusal_of failure }
{
    match failure {
        Failure::NotLabelled(cell) => Refusal::NotLabelled(cell),
        Failure::InfluencePastPolicy(cell, _) | Failure::LearnPastPolicy(cell, _) => {
            Refusal::PastPolicy(cell)
        }
        Failure::Changer(client, cell) => Refusal::Changer(client, cell),
        Failure::Reader(client, cell) => Refusal::Reader(client, cell),
        Failure::InfluenceEscapes(edge, _) => Refusal::InfluenceEscapes(edge),
        Failure::LearnEscapes(edge, _) => Refusal::LearnEscapes(edge),
    }
}
