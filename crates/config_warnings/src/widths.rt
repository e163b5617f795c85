//! Of how many cells labels admit clients that the least labels don't (own profile).
ghost use Rattle.std.specs.Prelude.{◌≡◌, IfOk, length, map};
ghost use Rattle.meter_theory.specs.Labels as theory;
ghost use Rattle.meter_theory.specs.Labels.{labelling_of, labelling_of_policy};
ghost use Rattle.config_warnings.specs.Widths as spec;

use cosem_data::cell::CellRef;
use cosem_data::clients::ClientSet;
use cosem_data::memory::Memory;
use flow_map::least::LeastMap;
use label_certificate::labels::Labels;
use label_certificate::numbered::labels_or_nobody;
use meter_theory::flow::Label;
use std::alloc::Global;

/// Of how many cells of a plan its policy admits clients that the least labels don't.
pub fn wider_by_policy(least: &LeastMap<'_>) -> usize
    ensures { result ≡ spec.wider_cells (labelling_of_policy least.now.plan least.now.policy) least.now.labels }
{
    least.known();
    count_wider(least.labels().entries(), least.map().allowed())
}

/// Of how many cells of a plan labels admit clients that the least labels don't. The only error is want of memory.
pub fn wider_by_labels(
    alloc: Global,
    least: &LeastMap<'_>,
    labels: &Labels,
) -> Result<usize, Memory>
    ensures { IfOk result (λ wider. wider ≡ spec.wider_cells (labelling_of labels.now) least.now.labels) }
{
    least.known();
    let found = least.map().numbered(alloc, labels)?;
    let given = labels_or_nobody(alloc, &found)?;
    Ok(count_wider(least.labels().entries(), &given))
}

/// Of how many cells a label, by the number of the cell, admits a client that the least label doesn't.
fn count_wider(least: &[(CellRef, Label)], labels: &[Label]) -> usize
    requires { length labels.now ≡ length least.now }
    ensures { (labelling : theory.Labelling) → labels.now ≡ map labelling (map (λ entry. entry.0) least.now) →
        result ≡ spec.wider_cells labelling least.now }
{
    let mut wider = 0;
    for (number, entry) in least.iter().enumerate() {
        if is_wider(&labels[number], &entry.1) {
            wider += 1;
        }
    }
    wider
}

/// Whether a label admits a client that the least label doesn't.
fn is_wider(label: &Label, least: &Label) -> bool
    ensures { result ≡ spec.is_wider label.now least.now }
{
    !(is_within(label.influence, least.influence) && is_within(label.learn, least.learn))
}

/// Whether each client of a set is in the other.
fn is_within(set: ClientSet, other: ClientSet) -> bool
    ensures { result ≡ theory.within set other }
{
    set.within(other)
}
