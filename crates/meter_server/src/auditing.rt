//! The verdicts on many configurations, of the names that the words and a file have (own profile).
ghost use Rattle.std.specs.Prelude.{◌≡◌, ◌++◌, false, IfOk, MatchResult, map, option_map, string_bytes};
ghost use Rattle.std.specs.Str.Lines.{lines};
ghost use Rattle.fleet_audit.specs.Telling.{TellsAudit};
ghost use Rattle.fleet_audit.specs.declared.fault.AuditFault.TheVariants.{Memory as OutOfMemory};
ghost use Rattle.meter_server.specs.Auditing as spec;
ghost use Rattle.meter_server.specs.Auditing.{AuditsFiles, AuditsNamed, ExplainsAll, ExplainsFleet, ExplainsOne, IsExplained, JudgesFleet, TellsUnreadFleet};
ghost use Rattle.meter_server.specs.Remarks.{told_of};

use crate::files::text_of_file;
use crate::outcome::{Outcome, audited};
use crate::remarks::Remarks;
use crate::texts::{Source, explain_verdict};
use cosem_data::memory::Memory;
use fleet_audit::fault::AuditFault;
use fleet_audit::reading::{FleetFault, read_fleet};
use fleet_audit::telling::{Told, audit_texts, audit_texts_aloud};
use fleet_audit::text::Text;
use fleet_audit::watch::Unwatched;
use shown_text::printable::printable_text;
use std::alloc::Global;
use std::io::Write;
use std::num::NonZeroUsize;
use std::thread::Threads;
use std::time::Clock;
use text_files::TextFiles;
use verdict::Verdict;

/// What an audit is to judge, and what it is to tell.
#[derive(Clone, Copy, Drop)]
pub(crate) struct Audit<'n, 'a> {
    /// How many workers share it.
    pub(crate) workers: NonZeroUsize,
    /// The names that the words have.
    pub(crate) names: &'n [&'a str],
    /// The path of the file that has the names behind them, where it is given.
    pub(crate) names_file: Option<&'a str>,
    /// Whether the verdicts are explained.
    pub(crate) explains: bool,
    /// Whether it is told on the error stream how far the audit is.
    pub(crate) tells_progress: bool,
}

/// A name with the texts of its files and the verdict on them.
#[derive(Clone, Copy, Drop)]
struct One<'a> {
    name: &'a str,
    text: &'a Text,
    verdict: &'a Verdict,
}

/// Names, and as many texts and verdicts.
#[derive(Clone, Copy, Drop)]
struct Judged<'a> {
    names: &'a [&'a str],
    texts: &'a [Text],
    verdicts: &'a [Verdict],
}

impl<'a> Judged<'a> {
    ghost use Rattle.std.specs.Prelude.{◌<◌, [], IfNone, IfSome, length, map};
    ghost use Rattle.meter_server.specs.Auditing.{ExplainsAll, ExplainsOne};
    ghost use Rattle.meter_server.specs.Remarks as remarks;
    ghost use Rattle.meter_server.specs.Remarks.{TellsBoth, whole};

    /// The first name with what belongs to it, and those behind it.
    fn first(self) -> Option<(One<'a>, Judged<'a>)>
        ensures none { IfNone result (ExplainsAll (map (λ name. name.now) self.entry.names.now)
            self.entry.texts.now self.entry.verdicts.now (whole [])) }
        ensures some { IfSome result (λ x. (told : remarks.Told)
            → TellsBoth (ExplainsOne x.0.name.now x.0.verdict.now)
            (ExplainsAll (map (λ name. name.now) x.1.names.now) x.1.texts.now x.1.verdicts.now) told
            → ExplainsAll (map (λ name. name.now) self.entry.names.now) self.entry.texts.now self.entry.verdicts.now told) }
        ensures fewer { IfSome result (λ x. length x.1.names.now < length self.entry.names.now) }
    {
        let (name, names) = self.names.split_first()?;
        let (text, texts) = self.texts.split_first()?;
        let (verdict, verdicts) = self.verdicts.split_first()?;
        let one = One {
            name,
            text,
            verdict,
        };
        let behind = Judged {
            names,
            texts,
            verdicts,
        };
        Some((one, behind))
    }
}

/// The verdicts on many configurations and their labels, each in a line behind its name. The names are those of the words, and behind
/// them those of a file of `lists`, where it is given.
pub(crate) fn audit_named<H, F, L, E>(
    rt: &H,
    files: &F,
    lists: &L,
    audit: Audit<'_, '_>,
    errors: &mut E,
) -> Outcome
where
    H: AllocGlobal + Clock + Threads + Sync,
    F: TextFiles + Sync,
    L: TextFiles,
    E: Write + Send,
    ensures audits { AuditsNamed (F.may_read files.now) (L.may_read lists.now) audit.entry.explains
        (map (λ name. name.now) audit.entry.names.now)
        (option_map (λ path. path.now) audit.entry.names_file) result }
    ensures quiet { audit.entry.tells_progress ≡ false → E.contents errors.new ≡ E.contents errors.old }
{
    let Some(path) = audit.names_file else {
        return audit_files(rt, files, audit, audit.names, errors);
    };
    match text_of_file(rt.alloc(), lists, path) {
        Ok(text) => audit_listed(rt, files, audit, text.as_str(), errors),
        Err(outcome) => outcome,
    }
}

/// The verdicts on the names of the words, and behind them on those of a text.
fn audit_listed<H, F, E>(
    rt: &H,
    files: &F,
    audit: Audit<'_, '_>,
    list: &str,
    errors: &mut E,
) -> Outcome
where
    H: AllocGlobal + Clock + Threads + Sync,
    F: TextFiles + Sync,
    E: Write + Send,
    ensures audits { AuditsFiles (F.may_read files.now) audit.entry.explains
        (map (λ name. name.now) audit.entry.names.now ++ spec.names_in list.now) result }
    ensures quiet { audit.entry.tells_progress ≡ false → E.contents errors.new ≡ E.contents errors.old }
{
    match names_with(rt.alloc(), audit.names, list) {
        Ok(names) => audit_files(rt, files, audit, &names, errors),
        Err(_) => Outcome::Unaudited(AuditFault::Memory),
    }
}

/// Names, and behind them those of a text. The error is that memory was refused.
fn names_with<'a>(alloc: Global, names: &[&'a str], list: &'a str) -> Result<Vec<&'a str>, Memory>
    ensures { IfOk result (λ all. map (λ name. name.now) all.items
        ≡ map (λ name. name.now) names.now ++ spec.names_in list.now) }
{
    let listed = lines_of(alloc, list)?;
    let mut all = Vec::from_slice(alloc, names)?;
    for line in &listed {
        if !line.is_empty() {
            all.push(*line)?;
        }
    }
    Ok(all)
}

/// The lines of a text. The error is that memory was refused.
fn lines_of<'a>(alloc: Global, text: &'a str) -> Result<Vec<&'a str>, Memory>
    ensures { IfOk result (λ found. map (λ line. line.now) found.items ≡ lines text.now) }
{
    Ok(text.lines().collect(alloc)?)
}

/// The verdicts on these names. All files are read first, by the same number of workers. Where that is asked for, it is told on the
/// error stream how far the audit is.
fn audit_files<H, F, E>(
    rt: &H,
    files: &F,
    audit: Audit<'_, '_>,
    names: &[&str],
    errors: &mut E,
) -> Outcome
where
    H: AllocGlobal + Clock + Threads + Sync,
    F: TextFiles + Sync,
    E: Write + Send,
    ensures audits { AuditsFiles (F.may_read files.now) audit.entry.explains
        (map (λ name. name.now) names.now) result }
    ensures quiet { audit.entry.tells_progress ≡ false → E.contents errors.new ≡ E.contents errors.old }
{
    match read_fleet(rt, files, names, audit.workers) {
        Ok(texts) => judge_fleet(rt, audit, names, &texts, errors),
        Err(fault) => fleet_unread(fault),
    }
}

/// How a command ended whose fleet isn't read.
fn fleet_unread(fault: FleetFault) -> Outcome
    ensures { result ≡ spec.unread_fleet fault }
{
    match fault {
        FleetFault::Unread(files) => Outcome::UnreadFleet(files),
        FleetFault::Memory => Outcome::Unaudited(AuditFault::Memory),
    }
}

/// The verdicts on the texts of these names, explained where that is asked for.
fn judge_fleet<H, E>(
    rt: &H,
    audit: Audit<'_, '_>,
    names: &[&str],
    texts: &[Text],
    errors: &mut E,
) -> Outcome
where
    H: AllocGlobal + Clock + Threads + Sync,
    E: Write + Send,
    ensures audits { JudgesFleet audit.entry.explains (map (λ name. name.now) names.now) texts.now result }
    ensures quiet { audit.entry.tells_progress ≡ false → E.contents errors.new ≡ E.contents errors.old }
{
    match tell_fleet(rt, audit, names, texts, errors) {
        Ok(told) => {
            let explanation = explain_fleet(rt.alloc(), audit, names, texts, &told.verdicts);
            audited(told, explanation)
        }
        Err(fault) => Outcome::Unaudited(fault),
    }
}

/// What is told of the verdicts on the texts of these names.
fn tell_fleet<H, E>(
    rt: &H,
    audit: Audit<'_, '_>,
    names: &[&str],
    texts: &[Text],
    errors: &mut E,
) -> Result<Told, AuditFault>
where
    H: AllocGlobal + Clock + Threads + Sync,
    E: Write + Send,
    ensures told { MatchResult result (TellsAudit (map (λ name. name.now) names.now) texts.now)
        (λ fault. fault ≡ OutOfMemory) }
    ensures quiet { audit.entry.tells_progress ≡ false → E.contents errors.new ≡ E.contents errors.old }
{
    if audit.tells_progress {
        audit_texts_aloud(rt, names, texts, audit.workers, errors)
    } else {
        audit_texts(rt, names, texts, audit.workers, &Unwatched)
    }
}

/// What explains these verdicts, where that is asked for.
fn explain_fleet(
    alloc: Global,
    audit: Audit<'_, '_>,
    names: &[&str],
    texts: &[Text],
    verdicts: &[Verdict],
) -> Remarks
    ensures { ExplainsFleet audit.entry.explains (map (λ name. name.now) names.now) texts.now verdicts.now
        (told_of result) }
{
    if audit.explains {
        explain_all(alloc, names, texts, verdicts)
    } else {
        Remarks::none(alloc)
    }
}

/// What explains these verdicts, one behind another.
fn explain_all(alloc: Global, names: &[&str], texts: &[Text], verdicts: &[Verdict]) -> Remarks
    ensures { ExplainsAll (map (λ name. name.now) names.now) texts.now verdicts.now (told_of result) }
{
    let mut told = Remarks::none(alloc);
    let mut left = Judged {
        names,
        texts,
        verdicts,
    };
    while let Some((one, behind)) = left.first() {
        let here = explain_one(alloc, one);
        told = told.with(&here);
        if told.is_cut {
            return told;
        }
        left = behind;
    }
    told
}

/// What explains the verdict on a name, behind the name; nothing where memory is refused for it.
fn explain_one(alloc: Global, one: One<'_>) -> Remarks
    ensures { ExplainsOne one.entry.name.now one.entry.verdict.now (told_of result) }
{
    match explain_named(alloc, one.name, one.text, one.verdict) {
        Ok(explanation) => explanation,
        Err(refused) => Remarks::of(alloc, Err(refused)),
    }
}

/// What explains the verdict on a name, behind the name. The error is that memory was refused for the first of its lines.
fn explain_named(
    alloc: Global,
    name: &str,
    text: &Text,
    verdict: &Verdict,
) -> Result<Remarks, Memory>
    ensures { IfOk result (λ remarks. IsExplained name.now verdict.now (told_of remarks)) }
{
    let config_file = format!(in alloc; "{name}.toml")?;
    let labels_file = format!(in alloc; "{name}.labels")?;
    let config = Source {
        file: config_file.as_str(),
        text: text.config.as_str(),
    };
    let labels = Source {
        file: labels_file.as_str(),
        text: text.labels.as_str(),
    };
    let Remarks { lines, is_cut } = explain_verdict(alloc, config, labels, verdict);
    let lines = behind_name(alloc, name, lines.as_str())?;
    Ok(Remarks { lines, is_cut })
}

/// What explains the verdict on a name, behind the name; nothing where there is nothing to explain.
fn behind_name(alloc: Global, name: &str, explanation: &str) -> Result<String, Memory>
    ensures { IfOk result (λ told. string_bytes told ≡ spec.behind_name name.now explanation.now) }
{
    if explanation.is_empty() {
        return Ok(String::new(alloc));
    }
    let name = printable_text(alloc, name)?;
    Ok(format!(in alloc; "{name}: {explanation}")?)
}
