//! Why the words of a command line ask for no command.
ghost use Rattle.std.specs.Prelude.{◌≡◌};
ghost use Rattle.clap.specs.Words.{kind_of};
ghost use Rattle.command_words.specs.Faults.{IsToldAs, TellsText, forms_listed, misuse_text};
ghost use Rattle.command_words.specs.Faults.{conflict_text, missing_text, no_form_text};
ghost use Rattle.command_words.specs.Misuses.{misuse_of};

use crate::misuse::Misuse;
use clap::error::ErrorKind;
use std::alloc::Global;
use thiserror::Error;

/// Why the words of a command line ask for no command. Each text is one or more whole lines.
#[derive(Debug, Drop, Error)]
#[error("{}", self.text())]
pub enum WordsFault {
    /// They ask for help, which is this text, for standard output.
    Help(String),
    /// They ask for the version, which is this text, for standard output.
    Version(String),
    /// They are no command: what is wrong with them and how the program is used, for standard error.
    Usage(String),
    /// Memory was refused.
    Memory,
}

/// The fault that clap's error is: its kind decides, and its own words are the text.
pub(crate) fn fault_told(alloc: Global, error: &clap::Error) -> WordsFault
    ensures { IsToldAs (kind_of error.now) result }
{
    let kind = error.kind();
    if kind == ErrorKind::OutOfMemory {
        return WordsFault::Memory;
    }
    let Ok(text) = format!(in alloc; "{error}") else {
        return WordsFault::Memory;
    };
    match kind {
        ErrorKind::DisplayHelp => WordsFault::Help(text),
        ErrorKind::DisplayVersion => WordsFault::Version(text),
        _ => WordsFault::Usage(text),
    }
}

/// The fault that a misuse is, in clap's words.
pub(crate) fn misuse_told(alloc: Global, misuse: Misuse<'_, '_>) -> WordsFault
    ensures { TellsText (misuse_text (misuse_of misuse.entry)) result }
{
    match misuse {
        Misuse::UnknownForm { command, name } => no_form(alloc, forms_listed(command), name),
        Misuse::OffsetAlone => missing(alloc, "--clock"),
        Misuse::ClockBesideSteps => conflict(alloc, "--clock", "--steps <FILE>"),
        Misuse::TrailAloud => conflict(alloc, "--trail", "--verbose"),
        Misuse::Nameless => missing(alloc, "<NAME>..."),
    }
}

/// The fault that two options can't stand together.
fn conflict(alloc: Global, one: &str, other: &str) -> WordsFault
    ensures { TellsText (conflict_text one.now other.now) result }
{
    match format!(in alloc;
        "error: the argument '{one}' cannot be used with '{other}'\n\nFor more information, try '--help'.\n"
    ) {
        Ok(text) => WordsFault::Usage(text),
        Err(_) => WordsFault::Memory,
    }
}

/// The names of the forms that a command has.
fn forms_listed(command: &str) -> &'static str
    ensures { result.now ≡ forms_listed command.now }
{
    if command == "report" {
        "html, csv, json"
    } else {
        "text, dot"
    }
}

/// The fault that the name of a form is that a command hasn't which has these.
fn no_form(alloc: Global, forms: &str, name: &str) -> WordsFault
    ensures { TellsText (no_form_text forms.now name.now) result }
{
    match format!(in alloc;
        "error: invalid value '{name}' for '--format <FORM>'\n  [possible values: {forms}]\n\nFor more information, try '--help'.\n"
    ) {
        Ok(text) => WordsFault::Usage(text),
        Err(_) => WordsFault::Memory,
    }
}

/// The fault that something isn't there which has to be.
fn missing(alloc: Global, what: &str) -> WordsFault
    ensures { TellsText (missing_text what.now) result }
{
    match format!(in alloc;
        "error: the following required arguments were not provided:\n  {what}\n\nFor more information, try '--help'.\n"
    ) {
        Ok(text) => WordsFault::Usage(text),
        Err(_) => WordsFault::Memory,
    }
}

impl WordsFault {
    ghost use Rattle.command_words.specs.Faults.{fault_text};

    /// The text that is shown.
    pub fn text(&self) -> &str
        ensures { result.now ≡ fault_text self.now }
    {
        match self {
            WordsFault::Help(text) | WordsFault::Version(text) | WordsFault::Usage(text) => {
                text.as_str()
            }
            WordsFault::Memory => "error: out of memory\n",
        }
    }
}
