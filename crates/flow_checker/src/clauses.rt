//! The clauses of admission, in their order.
ghost use Rattle.std.specs.Prelude.{◌≡◌, ◌++◌, IfOk, OnOk};
ghost use Rattle.flow_checker.specs.Clauses.{clauses_of, rights_of};

use cosem_data::memory::Memory;
use meter_theory::flow::Reach;
use std::alloc::Global;

/// A clause of admission; of those on rights what it asks of one client.
#[derive(Clone, Copy, Drop)]
pub(crate) enum Clause {
    /// Each cell has a label.
    Labelled,
    /// The sets of each label lie within those of the policy.
    Policy,
    /// Who has a right that changes a cell may influence it, and who may read a cell may learn it.
    Right(Reach, u8),
    /// Who may influence the source of an edge may influence its target, and who may learn its target may learn its source.
    Flow(Reach),
}

/// All clauses, those on rights client by client. The only error is want of memory.
pub(crate) fn clauses(alloc: Global, clients: u8) -> Result<Vec<Clause>, Memory>
    ensures { IfOk result (λ clauses. clauses.items ≡ clauses_of clients) }
{
    let mut clauses = vec![in alloc; Clause::Labelled, Clause::Policy]?;
    push_rights(Reach::Influence, clients, &mut clauses)?;
    push_rights(Reach::Learn, clients, &mut clauses)?;
    clauses.push(Clause::Flow(Reach::Influence))?;
    clauses.push(Clause::Flow(Reach::Learn))?;
    Ok(clauses)
}

/// Puts the clauses on the rights of each client after others. The error is that memory was refused; some may then stand there.
fn push_rights(reach: Reach, clients: u8, clauses: &mut Vec<Clause>) -> Result<(), Memory>
    ensures { OnOk result (clauses.new.items ≡ clauses.old.items ++ rights_of reach clients) }
{
    for client in 0..clients {
        clauses.push(Clause::Right(reach, client))?;
    }
    Ok(())
}
