//! One worker of an audit.
ghost use Rattle.std.specs.Prelude.{◌≡◌, ◌<◌, ◌≤◌, MatchResult, length};
ghost use Rattle.fleet_audit.specs.Audits.{Audits, IsVerdictOf};
ghost use Rattle.fleet_audit.specs.Giving.{IsFaultAt};
ghost use Rattle.fleet_audit.specs.Turns.{every};

use crate::fault::AuditFault;
use crate::text::Text;
use crate::watch::Watch;
use gates::{Gate, Go};
use std::alloc::Global;
use verdict::Verdict;
use verdict::judging::verdict_of;

/// The verdicts of a worker: on the text at the first seat, and on each that stands `workers` behind the one before. It begins
/// no further text once the gate has given up, and tells the watch of each verdict.
pub(crate) fn work<G: Gate, W: Watch>(
    alloc: Global,
    texts: &[Text],
    first: usize,
    workers: usize,
    gate: &G,
    watch: &W,
) -> Result<Vec<Verdict>, AuditFault>
    requires some { 0 < workers }
    requires few { workers ≤ length texts.now }
    ensures { MatchResult result
        (λ verdicts. Audits (every workers first texts.now) verdicts.items)
        (λ fault. IsFaultAt (G.may_give_up gate.now) (length texts.now) fault) }
{
    let Ok(mut verdicts) = Vec::with_capacity(alloc, texts.len() / workers + 1) else {
        return Err(AuditFault::Memory);
    };
    let mut seat = first;
    while let Some(text) = texts.get(seat) {
        if gate.before(seat) == Go::GaveUp {
            return Err(AuditFault::GaveUp);
        }
        let verdict = judge(alloc, text);
        gate.after(seat);
        watch.judged(seat, &verdict);
        let Ok(()) = verdicts.push(verdict) else {
            return Err(AuditFault::Memory);
        };
        seat += workers;
    }
    Ok(verdicts)
}

/// The verdict on a text, of its configuration and its labels.
fn judge(alloc: Global, text: &Text) -> Verdict
    ensures { IsVerdictOf text.now result }
{
    verdict_of(alloc, text.config.as_str(), text.labels.as_str())
}
