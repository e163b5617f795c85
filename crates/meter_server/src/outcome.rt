//! How a command ended, and what is told of it (own profile).
ghost use Rattle.std.specs.Prelude.{◌≡◌, ◌++◌, IfOk, option_map, string_bytes};
ghost use Rattle.verdict.specs.Lines.{verdict_line};
ghost use Rattle.meter_server.specs.Outcomes as outcomes;
ghost use Rattle.meter_server.specs.Outcomes.{fault_text, line, output_of, remarks_of, status_of, unbound_line, unread_line, unstored_line};

use crate::remarks::Remarks;
use crate::unread::fleet_lines;
use command_words::WordsFault;
use cosem_data::memory::Memory;
use fleet_audit::fault::AuditFault;
use fleet_audit::reading::UnreadFile;
use fleet_audit::telling::Told;
use frame_server::fault::ServeFault;
use line_server::fault::LineFault;
use live_server::bind_fault::BindFault;
use live_server::fault::ServerFault;
use meter_live::board::Closed;
use shown_text::printable::printable_text;
use std::alloc::Global;
use step_stores::fault::StoreFault;
use step_words::translating::TranslationFault;
use text_files::FileFault;
use verdict::{Verdict, verdict_text};
use whole_writes::fault::ListFault;

/// What is told where a new configuration gives clients what the old one doesn't.
const GIVES_MORE: &str =
    "cosem-flow: the new configuration gives clients what the old one does not\n  ask for the ways with cosem-flow why, or see all of it with cosem-flow report --against\n";

/// Which of two configurations that are compared.
#[derive(Clone, Copy, Debug, PartialEq, Eq, Drop)]
pub enum Side {
    /// The one before.
    Old,
    /// The one behind it.
    New,
}

/// How a command ended.
#[derive(Debug, Drop)]
pub enum Outcome {
    /// It did what it was asked to do.
    Done,
    /// It did that, and warns of what is most likely a slip.
    Warned(Remarks),
    /// It came to this verdict, which is explained, and warns of what is most likely a slip.
    Judged(Verdict, Remarks),
    /// The same, and this text tells all that fails in whole lines.
    JudgedWhole(Verdict, String, Remarks),
    /// It came to this verdict on one of two configurations, which is explained.
    JudgedSide(Side, Verdict, Remarks),
    /// It told how two configurations differ, and whether the new one gives a client what the old one doesn't.
    Compared(bool),
    /// The words of the command line ask for help or the version, or are no command.
    Words(WordsFault),
    /// The file with this path isn't read as text, and why.
    Unread(String, FileFault),
    /// These files of a fleet aren't read as text, and why: all that aren't.
    UnreadFleet(Vec<UnreadFile>),
    /// The words of the command line name a client or a cell that the configuration hasn't, as these words say.
    Stranger(String),
    /// A fault stopped the run of lines.
    Fault(LineFault),
    /// A fault ended the connection.
    Broken(ServeFault),
    /// A fault ended the live meter, or let it not begin.
    Unserved(ServerFault),
    /// No connection can be taken at this address and port, and why.
    Unbound(String, BindFault),
    /// The file with this path, which was to keep the steps of the live meter, isn't opened, and why.
    Unstored(String, StoreFault),
    /// It came to the verdicts on many configurations, which these lines tell, and of which all accept or not. They are explained where
    /// that is asked for.
    Audited {
        text: String,
        is_accepted: bool,
        explanation: Remarks,
    },
    /// It came to no verdicts on them.
    Unaudited(AuditFault),
    /// Its list or its verdict can't be written whole.
    Unwritten(ListFault),
    /// A text wasn't translated, or not written whole.
    Untranslated(TranslationFault),
    /// A write failed since whoever read the output has gone.
    Closed,
}

impl Outcome {
    /// The exit status: 0 done, accepted or helped, 1 a verdict that refuses, 2 a command line that can't be used, 3 any other fault; 141
    /// where the output's reader has gone, as a shell tells of a program that the signal PIPE ended.
    pub fn status(&self) -> u8
        ensures { result ≡ status_of self.now }
    {
        match self {
            Outcome::Done
            | Outcome::Warned(_)
            | Outcome::Judged(Verdict::Accepted, _)
            | Outcome::JudgedWhole(Verdict::Accepted, _, _) => 0,
            Outcome::Judged(_, _) | Outcome::JudgedWhole(_, _, _) | Outcome::JudgedSide(_, _, _) =>
                1,
            Outcome::Compared(gives) => u8::from(*gives),
            Outcome::Words(WordsFault::Help(_) | WordsFault::Version(_)) => 0,
            Outcome::Words(WordsFault::Usage(_)) | Outcome::Stranger(_) => 2,
            Outcome::Words(WordsFault::Memory) => 3,
            Outcome::Audited { is_accepted, .. } => u8::from(!is_accepted),
            Outcome::Unread(_, _)
            | Outcome::UnreadFleet(_)
            | Outcome::Unaudited(_)
            | Outcome::Fault(_)
            | Outcome::Broken(_)
            | Outcome::Unserved(_)
            | Outcome::Unbound(_, _)
            | Outcome::Unstored(_, _)
            | Outcome::Unwritten(_)
            | Outcome::Untranslated(_) => 3,
            Outcome::Closed => 141,
        }
    }

    /// Itself; or `Closed` where a write failed and the output is closed.
    pub(crate) fn unless_closed(self, is_closed: bool) -> Outcome
        ensures { result ≡ outcomes.unless_closed self is_closed }
    {
        if is_closed && self.is_unwritten() {
            Outcome::Closed
        } else {
            self
        }
    }

    /// Whether a write on the output failed.
    fn is_unwritten(&self) -> bool
        ensures { result ≡ outcomes.is_unwritten self.now }
    {
        matches!(
            self,
            Outcome::Fault(LineFault::Write)
                | Outcome::Broken(ServeFault::Write)
                | Outcome::Unwritten(ListFault::Write)
                | Outcome::Untranslated(TranslationFault::Write)
        )
    }

    /// What is told on standard output behind what the command wrote: its verdict or verdicts and all that fails, or the help or the version
    /// that was asked for.
    pub fn output(&self, alloc: Global) -> Result<String, Memory>
        ensures { IfOk result (λ text. string_bytes text ≡ output_of self.now) }
    {
        match self {
            Outcome::Judged(verdict, _) => verdict_text(alloc, verdict),
            Outcome::JudgedWhole(verdict, failures, _) => {
                verdict_behind(alloc, verdict, failures.as_str())
            }
            Outcome::JudgedSide(side, verdict, _) => verdict_on(alloc, *side, verdict),
            Outcome::Words(WordsFault::Help(text) | WordsFault::Version(text)) => {
                Ok(String::from_str(alloc, text.as_str())?)
            }
            Outcome::Audited { text, .. } => Ok(String::from_str(alloc, text.as_str())?),
            _ => Ok(String::new(alloc)),
        }
    }

    /// What is told on standard error beside a verdict or a list; of other ends nothing.
    pub fn remarks(&self) -> Option<&Remarks>
        ensures { option_map (λ remarks. remarks.now) result ≡ remarks_of self.now }
    {
        match self {
            Outcome::Warned(remarks)
            | Outcome::Judged(_, remarks)
            | Outcome::JudgedWhole(_, _, remarks)
            | Outcome::JudgedSide(_, _, remarks)
            | Outcome::Audited {
                explanation: remarks,
                ..
            } => Some(remarks),
            _ => None,
        }
    }

    /// What is told on standard error of any other fault, and of why a line is unreadable, which standard output has told of.
    pub fn fault_text(&self, alloc: Global) -> Result<String, Memory>
        ensures { IfOk result (λ text. string_bytes text ≡ fault_text self.now) }
    {
        match self {
            Outcome::Compared(true) => Ok(String::from_str(alloc, GIVES_MORE)?),
            Outcome::Words(WordsFault::Usage(text)) => Ok(String::from_str(alloc, text.as_str())?),
            Outcome::Words(WordsFault::Memory) => {
                Ok(String::from_str(alloc, "cosem-flow: out of memory\n")?)
            }
            Outcome::Unread(file, why) => unread_text(alloc, file.as_str(), *why),
            Outcome::UnreadFleet(files) => fleet_lines(alloc, files),
            Outcome::Stranger(words) => line_of(alloc, words.as_str()),
            Outcome::Fault(LineFault::Line(number, why)) => {
                Ok(format!(in alloc; "cosem-flow: line {number}: {why}\n")?)
            }
            Outcome::Fault(fault) => line_of(alloc, fault.words()),
            Outcome::Unaudited(fault) => line_of(alloc, fault.words()),
            Outcome::Broken(fault) => line_of(alloc, fault.told(alloc)?.as_str()),
            Outcome::Unserved(fault) => line_of(alloc, fault.told(alloc)?.as_str()),
            Outcome::Unbound(place, why) => unbound_text(alloc, place.as_str(), *why),
            Outcome::Unstored(file, why) => unstored_text(alloc, file.as_str(), *why),
            Outcome::Unwritten(fault) => line_of(alloc, fault.words()),
            Outcome::Untranslated(fault) => line_of(alloc, fault.told(alloc)?.as_str()),
            _ => Ok(String::new(alloc)),
        }
    }
}

/// The line of a verdict on one of two configurations, behind which of them it is on.
fn verdict_on(alloc: Global, side: Side, verdict: &Verdict) -> Result<String, Memory>
    ensures { IfOk result (λ text. string_bytes text ≡ outcomes.side_line side verdict.now) }
{
    let verdict = verdict_text(alloc, verdict)?;
    let mut text = String::from_str(alloc, words_of(side))?;
    text.push_str(verdict.as_str())?;
    Ok(text)
}

/// What stands before the verdict on one of two configurations.
fn words_of(side: Side) -> &'static str
    ensures { result.now ≡ outcomes.side_words side }
{
    match side {
        Side::Old => "old: ",
        Side::New => "new: ",
    }
}

/// The line of a verdict, and behind it these lines.
fn verdict_behind(alloc: Global, verdict: &Verdict, lines: &str) -> Result<String, Memory>
    ensures { IfOk result (λ text. string_bytes text ≡ verdict_line verdict.now ++ lines.now) }
{
    let mut text = verdict_text(alloc, verdict)?;
    text.push_str(lines)?;
    Ok(text)
}

/// The line that tells these words.
fn line_of(alloc: Global, words: &str) -> Result<String, Memory>
    ensures { IfOk result (λ text. string_bytes text ≡ line words.now) }
{
    Ok(format!(in alloc; "cosem-flow: {words}\n")?)
}

/// What is told of a file that isn't read.
fn unread_text(alloc: Global, file: &str, why: FileFault) -> Result<String, Memory>
    ensures { IfOk result (λ text. string_bytes text ≡ unread_line file.now why) }
{
    let file = printable_text(alloc, file)?;
    let why = why.told(alloc)?;
    Ok(format!(in alloc; "cosem-flow: {file}: {why}\n")?)
}

/// What is told of a file that isn't opened as the place where steps are kept.
fn unstored_text(alloc: Global, file: &str, why: StoreFault) -> Result<String, Memory>
    ensures { IfOk result (λ text. string_bytes text ≡ unstored_line file.now why) }
{
    let file = printable_text(alloc, file)?;
    let why = why.told(alloc)?;
    Ok(format!(in alloc; "cosem-flow: {file}: {why}\n")?)
}

/// What is told of an address and port where no connection can be taken.
fn unbound_text(alloc: Global, place: &str, why: BindFault) -> Result<String, Memory>
    ensures { IfOk result (λ text. string_bytes text ≡ unbound_line place.now why) }
{
    let place = printable_text(alloc, place)?;
    let why = why.told(alloc)?;
    Ok(format!(in alloc; "cosem-flow: {place}: {why}\n")?)
}

/// How a command ended whose lines were answered so.
pub fn outcome_of(answer: Result<u64, LineFault>) -> Outcome
    ensures { result ≡ outcomes.outcome_of answer }
{
    match answer {
        Ok(_) => Outcome::Done,
        Err(fault) => Outcome::Fault(fault),
    }
}

/// How a command ended whose connection was served so.
pub(crate) fn served(answer: Result<u64, ServeFault>) -> Outcome
    ensures { result ≡ outcomes.served answer }
{
    match answer {
        Ok(_) => Outcome::Done,
        Err(fault) => Outcome::Broken(fault),
    }
}

/// How a command ended whose live meter ended so.
pub(crate) fn ended(answer: Result<Closed, ServerFault>) -> Outcome
    ensures { result ≡ outcomes.ended answer }
{
    match answer {
        Ok(_) => Outcome::Done,
        Err(fault) => Outcome::Unserved(fault),
    }
}

/// How a command ended whose input was translated so.
pub(crate) fn translated(answer: Result<(), TranslationFault>) -> Outcome
    ensures { result ≡ outcomes.translated answer }
{
    match answer {
        Ok(_) => Outcome::Done,
        Err(fault) => Outcome::Untranslated(fault),
    }
}

/// How a command ended whose list was written so.
pub(crate) fn listed(answer: Result<(), ListFault>) -> Outcome
    ensures { result ≡ outcomes.listed answer }
{
    match answer {
        Ok(()) => Outcome::Done,
        Err(fault) => Outcome::Unwritten(fault),
    }
}

/// How a command ended whose configurations were compared so.
pub(crate) fn compared(answer: Result<bool, ListFault>) -> Outcome
    ensures { result ≡ outcomes.compared answer }
{
    match answer {
        Ok(gives) => Outcome::Compared(gives),
        Err(fault) => Outcome::Unwritten(fault),
    }
}

/// How a command ended whose fleet was audited so, with this explanation of it.
pub(crate) fn audited(told: Told, explanation: Remarks) -> Outcome
    ensures { result ≡ outcomes.audited told explanation }
{
    let Told {
        text,
        is_accepted,
        verdicts: _verdicts,
    } = told;
    Outcome::Audited {
        text,
        is_accepted,
        explanation,
    }
}
