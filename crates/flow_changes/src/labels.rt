//! Labels of two configurations side by side.
ghost use Rattle.std.specs.Prelude.{◌≡◌, cond, IfOk, Some, None, length, map};
ghost use Rattle.meter_theory.specs.Labels as theory;
ghost use Rattle.meter_theory.specs.Plan as plans;
ghost use Rattle.flow_changes.specs.Singles.{pair_of};

use cosem_data::cell::CellRef;
use cosem_data::clients::ClientSet;
use cosem_data::memory::Memory;
use flow_map::kind::Kind;
use flow_map::outline::Outline;
use meter_theory::flow::Label;
use std::alloc::Global;

/// What two configurations say of a cell.
#[derive(Clone, Copy)]
pub(crate) struct Pair {
    pub(crate) mine: Label,
    pub(crate) theirs: Label,
}

/// For each of these cells its label, and the one that it has in another plan with these labels.
pub(crate) fn pairs_of(
    alloc: Global,
    kind: Kind,
    cells: &[CellRef],
    mine: &[Label],
    other: &Outline<'_>,
    theirs: &[Label],
) -> Result<Vec<Pair>, Memory>
    requires mine { length mine.now ≡ length cells.now }
    requires theirs { length theirs.now ≡ length (plans.cells other.now) }
    ensures { (Q R : theory.Labelling) → mine.now ≡ map Q cells.now →
        theirs.now ≡ map R (plans.cells other.now) →
        IfOk result (λ pairs. pairs.items ≡ map (λ x. pair_of kind (Q x)
        (cond (plans.is_cell other.now x) (Some (R x)) None)) cells.now) }
{
    let mut pairs = Vec::with_capacity(alloc, cells.len())?;
    for (number, cell) in cells.iter().enumerate() {
        let there = label_there(other, theirs, cell);
        pairs.push(side_by_side(kind, mine[number], there))?;
    }
    Ok(pairs)
}

/// The label of a cell in a plan with these labels, if it is a cell of it.
fn label_there(plan: &Outline<'_>, labels: &[Label], cell: &CellRef) -> Option<Label>
    requires { length labels.now ≡ length (plans.cells plan.now) }
    ensures { (Q : theory.Labelling) → labels.now ≡ map Q (plans.cells plan.now) →
        result ≡ cond (plans.is_cell plan.now cell.now) (Some (Q cell.now)) None }
{
    match plan.cell_number(cell) {
        Some(number) => Some(labels[usize::from(number)]),
        None => None,
    }
}

/// A label beside that of another configuration.
fn side_by_side(kind: Kind, mine: Label, theirs: Option<Label>) -> Pair
    ensures { result ≡ pair_of kind mine theirs }
{
    match theirs {
        Some(theirs) => Pair { mine, theirs },
        None => alone(kind, mine),
    }
}

/// The label of a cell that another configuration lacks: nobody reaches it there, and what the policy allows is told of
/// neither.
fn alone(kind: Kind, mine: Label) -> Pair
    ensures { result ≡ pair_of kind mine None }
{
    let theirs = nobody();
    match kind {
        Kind::May => Pair { mine, theirs },
        Kind::Allowed | Kind::Right | Kind::Client | Kind::Cell | Kind::Edge => Pair {
            mine: theirs,
            theirs,
        },
    }
}

/// The label that lets nobody influence and learn.
fn nobody() -> Label
    ensures { result ≡ record { influence = theory.nobody; learn = theory.nobody } }
{
    Label {
        influence: ClientSet::new(),
        learn: ClientSet::new(),
    }
}
