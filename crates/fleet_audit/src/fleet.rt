//! The verdicts on a fleet of configurations, by many workers.
ghost use Rattle.std.specs.Prelude.{◌<◌, ◌≤◌, IfErr, IfOk, MatchResult, length};
ghost use Rattle.fleet_audit.specs.Audits.{Audits};
ghost use Rattle.fleet_audit.specs.Giving.{IsFaultAt};
ghost use Rattle.fleet_audit.specs.Turns.{every};

pub use crate::fault::AuditFault;
pub use crate::text::Text;
use crate::threads::in_threads;
use crate::turns::{all_done, in_turn};
use crate::watch::{Unwatched, Watch};
use crate::worker::work;
use gates::Gate;
use std::num::NonZeroUsize;
use std::thread::Threads;
use verdict::Verdict;

/// The verdicts on texts, in their order, by so many workers (own profile): worker w, counted from 0, judges the texts w,
/// w + workers and so on: worker 0, who has as many texts as any other, in the caller's thread, and each other in one of its
/// own, or in the caller's too where none can be started. The gate is asked before each text, and told behind it.
///
/// # Errors
/// That memory was refused for a list, or that the gate gave up: the fault of the first worker that has one. The others judge all
/// their texts.
pub fn audit<R: Threads + AllocGlobal + Sync, G: Gate + Sync>(
    rt: &R,
    texts: Vec<Text>,
    workers: NonZeroUsize,
    gate: &G,
) -> Result<Vec<Verdict>, AuditFault>
    ensures verdicts { IfOk result (λ verdicts. Audits texts.items verdicts.items) }
    // The gate gave up only where it may.
    ensures fault { IfErr result (λ fault.
        IsFaultAt (G.may_give_up gate.now) (length texts.items) fault) }
{
    audit_watched(rt, texts.as_slice(), workers, gate, &Unwatched)
}

/// The verdicts on texts as `audit` comes to them, of which each worker tells the watch as soon as the gate was told.
///
/// # Errors
/// Those of `audit`.
pub fn audit_watched<R: Threads + AllocGlobal + Sync, G: Gate + Sync, W: Watch + Sync>(
    rt: &R,
    texts: &[Text],
    workers: NonZeroUsize,
    gate: &G,
    watch: &W,
) -> Result<Vec<Verdict>, AuditFault>
    ensures verdicts { IfOk result (λ verdicts. Audits texts.now verdicts.items) }
    // The gate gave up only where it may.
    ensures fault { IfErr result (λ fault.
        IsFaultAt (G.may_give_up gate.now) (length texts.now) fault) }
{
    let alloc = rt.alloc();
    let workers = workers.get().min(texts.len());
    let Ok(shares) = in_threads(
        rt,
        alloc,
        workers,
        &|first| -> Result<Vec<Verdict>, AuditFault>
            requires { (first < workers) × (workers ≤ length texts.now) }
            ensures { MatchResult result
                (λ verdicts. Audits (every workers first texts.entry.now) verdicts.items)
                (λ fault. IsFaultAt (G.may_give_up gate.entry.now) (length texts.entry.now) fault) }
        { work(alloc, texts, first, workers, gate, watch) },
    ) else {
        return Err(AuditFault::Memory);
    };
    in_turn(alloc, all_done(alloc, shares)?, texts.len())
}
