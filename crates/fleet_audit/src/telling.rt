//! The verdicts on a fleet of configurations, as lines.
ghost use Rattle.std.specs.Prelude.{◌≡◌, ◌++◌, IfOk, MatchResult, OnOk, map, string_bytes};
ghost use Rattle.fleet_audit.specs.Telling.{TellsAudit, TellsVerdicts, named_line, verdicts_text};
ghost use Rattle.fleet_audit.specs.declared.fault.AuditFault.TheVariants.{Memory as OutOfMemory};

use crate::fault::AuditFault;
use crate::fleet::audit_watched;
use crate::progress::Progress;
use crate::text::Text;
use crate::watch::Watch;
use cosem_data::memory::Memory;
use gates::Open;
use std::alloc::Global;
use std::io::Write;
use std::num::NonZeroUsize;
use std::thread::Threads;
use std::time::Clock;
use verdict::{Verdict, verdict_text};

/// What is told of the verdicts on a fleet (own profile).
#[derive(Debug, Drop)]
pub struct Told {
    /// A line for each name: the name and the verdict on it.
    pub text: String,
    /// Whether all verdicts accept.
    pub is_accepted: bool,
    /// The verdicts themselves.
    pub verdicts: Vec<Verdict>,
}

/// The verdicts on many configurations and their labels, each in a line behind its name, by so many workers, and whether all are
/// accepted. Whatever the number of workers, the lines are those that one would come to. The watch is told of each verdict.
///
/// # Errors
/// Memory was refused for a list or for the lines.
pub fn audit_texts<H: Threads + AllocGlobal + Sync, W: Watch + Sync>(
    rt: &H,
    names: &[&str],
    texts: &[Text],
    workers: NonZeroUsize,
    watch: &W,
) -> Result<Told, AuditFault>
    ensures { MatchResult result (TellsAudit (map (λ name. name.now) names.now) texts.now)
        (λ fault. fault ≡ OutOfMemory) }
{
    let verdicts = audit_watched(rt, texts, workers, &Open, watch)?;
    told_of(rt.alloc(), names, verdicts).map_err(|_| AuditFault::Memory)
}

/// The verdicts as `audit_texts` comes to them. While it goes on, it is told on the error stream how far the audit is, at most ten
/// times a second, in a line that is written over; at its end the line is told once more, and ends.
///
/// # Errors
/// Those of `audit_texts`.
pub fn audit_texts_aloud<H: Threads + AllocGlobal + Clock + Sync, E: Write + Drop + Send>(
    rt: &H,
    names: &[&str],
    texts: &[Text],
    workers: NonZeroUsize,
    errors: E,
) -> Result<Told, AuditFault>
    ensures { MatchResult result (TellsAudit (map (λ name. name.now) names.now) texts.now)
        (λ fault. fault ≡ OutOfMemory) }
{
    let progress = Progress::start(rt.alloc(), rt, texts.len(), errors);
    let told = audit_texts(rt, names, texts, workers, &progress);
    progress.end();
    told
}

/// What is told of these verdicts. The only error is that memory was refused.
fn told_of(alloc: Global, names: &[&str], verdicts: Vec<Verdict>) -> Result<Told, Memory>
    ensures told { IfOk result (TellsVerdicts (map (λ name. name.now) names.now) verdicts.items) }
    ensures verdicts { IfOk result (λ told. told.verdicts.items ≡ verdicts.items) }
{
    Ok(Told {
        text: text_of(alloc, names, &verdicts)?,
        is_accepted: verdicts.iter().all(Verdict::is_accepted),
        verdicts,
    })
}

/// The lines of these verdicts, each behind its name. The only error is that memory was refused.
fn text_of(alloc: Global, names: &[&str], verdicts: &[Verdict]) -> Result<String, Memory>
    ensures { IfOk result (λ text. string_bytes text
        ≡ verdicts_text (map (λ name. name.now) names.now) verdicts.now) }
{
    let mut text = String::new(alloc);
    for (name, verdict) in names.iter().zip(verdicts) {
        push_line(alloc, name, verdict, &mut text)?;
    }
    Ok(text)
}

/// Puts the line of a verdict, behind its name, behind the lines that are there. The only error is that memory was refused; a part
/// of the line may then be there.
fn push_line(alloc: Global, name: &str, verdict: &Verdict, text: &mut String) -> Result<(), Memory>
    ensures { OnOk result (string_bytes text.new
        ≡ string_bytes text.old ++ named_line name.now verdict.now) }
{
    let line = verdict_text(alloc, verdict)?;
    text.push_str(name)?;
    text.push_str(": ")?;
    text.push_str(line.as_str())?;
    Ok(())
}
