//! The verdicts of many workers, one from each in turn.
ghost use Rattle.std.specs.Prelude.{◌≡◌, IfErr, IfOk, IsOkAnd, map};
ghost use Rattle.std.specs.List.{AllZip};
ghost use Rattle.fleet_audit.specs.declared.fault.AuditFault.TheVariants.{Memory};
ghost use Rattle.fleet_audit.specs.Giving.{IsFaultOf};
ghost use Rattle.fleet_audit.specs.Turns.{turns};

use crate::fault::AuditFault;
use std::alloc::Global;
use std::collections::VecDeque;
use verdict::Verdict;

/// The lists of all workers, in their order, or the first fault of one.
pub(crate) fn all_done(
    alloc: Global,
    shares: Vec<Result<Vec<Verdict>, AuditFault>>,
) -> Result<VecDeque<VecDeque<Verdict>>, AuditFault>
    ensures lists { IfOk result (λ lists.
        AllZip (λ share list. IsOkAnd share (λ verdicts. verdicts.items ≡ list.items)) shares.items lists.items) }
    ensures fault { IfErr result (λ fault. IsFaultOf shares.items fault) }
{
    let Ok(mut lists) = VecDeque::with_capacity(alloc, shares.len()) else {
        return Err(AuditFault::Memory);
    };
    for share in shares {
        let Ok(()) = lists.push_back(VecDeque::from(share?)) else {
            return Err(AuditFault::Memory);
        };
    }
    Ok(lists)
}

/// So many verdicts, one from each list in turn.
pub(crate) fn in_turn(
    alloc: Global,
    mut lists: VecDeque<VecDeque<Verdict>>,
    count: usize,
) -> Result<Vec<Verdict>, AuditFault>
    ensures verdicts { IfOk result (λ verdicts. verdicts.items
        ≡ turns count (map (λ list. list.items) lists.items)) }
    ensures fault { IfErr result (λ fault. fault ≡ Memory) }
{
    let Ok(mut verdicts) = Vec::with_capacity(alloc, count) else {
        return Err(AuditFault::Memory);
    };
    for _ in 0..count {
        let Some(mut list) = lists.pop_front() else {
            break;
        };
        let Some(verdict) = list.pop_front() else {
            break;
        };
        let Ok(()) = verdicts.push(verdict) else {
            return Err(AuditFault::Memory);
        };
        let Ok(()) = lists.push_back(list) else {
            return Err(AuditFault::Memory);
        };
    }
    Ok(verdicts)
}
