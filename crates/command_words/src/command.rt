//! What a command line asks for.

use crate::name::CommandName;
use crate::serving::Serving;
use std::fmt;
use std::num::NonZeroUsize;

/// In which form edges are printed (own profile).
#[derive(Clone, Copy, Debug, PartialEq, Eq, Drop)]
pub enum EdgesForm {
    /// Each in a line.
    Text,
    /// As a graph that Graphviz reads.
    Dot,
}

/// In which form a report is written (own profile).
#[derive(Clone, Copy, Debug, PartialEq, Eq, Drop)]
pub enum ReportForm {
    /// As a page for a browser.
    Html,
    /// As records between commas.
    Csv,
    /// As one value of JSON.
    Json,
}

/// Of what is warned on standard error where a configuration has no fault (own profile).
#[derive(Clone, Copy, Debug, PartialEq, Eq, Drop)]
pub enum Warned {
    /// Of nothing.
    Nothing,
    /// Of what is allowed and most likely a slip.
    Slips,
    /// Of that, and of how many cells the labels and the policy admit more clients to than they need.
    SlipsAndWidths,
}

/// What a command line asks for, with the paths of the files that it names (own profile).
#[derive(Drop)]
pub enum Command<'a> {
    /// To answer step lines by the demo configuration, and to tell of each line in words where that is asked for.
    Demo {
        is_verbose: bool,
    },
    /// To answer step lines by a configuration, with lines of a trail's file among them where these are asked for, and to tell of each
    /// line in words where that is asked for.
    Run {
        config: &'a str,
        is_verbose: bool,
        reads_trail: bool,
    },
    /// To print the edges of a configuration, in this form.
    Edges {
        config: &'a str,
        form: EdgesForm,
    },
    /// To print the least labels of a configuration, and to warn of this.
    Label {
        config: &'a str,
        warned: Warned,
    },
    /// To print the verdict on a configuration and on labels for it, and all that is refused where that is asked for, and to warn of this.
    Check {
        config: &'a str,
        labels: &'a str,
        tells_all: bool,
        warned: Warned,
    },
    /// To print by which shortest ways a client may influence and learn a cell.
    Why {
        config: &'a str,
        client: &'a str,
        cell: &'a str,
    },
    /// To print what a new configuration gives and takes.
    Compare {
        old: &'a str,
        new: &'a str,
    },
    /// To write who may change and who may learn what, in this form, with the verdict on these labels where they are given, and
    /// else on the least, and with what has changed against another configuration where that is given.
    Report {
        config: &'a str,
        labels: Option<&'a str>,
        against: Option<&'a str>,
        form: ReportForm,
    },
    /// To print whether a client could notice each step line, by a configuration whose labels are accepted, and to tell what it could
    /// notice where that is asked for.
    Quiet {
        config: &'a str,
        labels: &'a str,
        client: &'a str,
        is_verbose: bool,
    },
    /// To print the verdicts on configurations and their labels, which so many workers come to, from 1 to 64. Each name stands for
    /// two files, NAME.toml and NAME.labels; behind the names come those of a file, where it is given. Where that is asked for, it is
    /// told what explains each verdict that doesn't accept, and how far the audit is.
    Audit {
        workers: NonZeroUsize,
        names: Vec<&'a str>,
        names_file: Option<&'a str>,
        explains: bool,
        tells_progress: bool,
    },
    /// To answer the frames of one connection by a configuration.
    Session {
        config: &'a str,
    },
    /// To answer connections over TCP by a configuration, where the labels for it are accepted, in this way.
    Serve {
        config: &'a str,
        labels: &'a str,
        serving: Serving<'a>,
    },
    /// To print the steps that a trail's file keeps: only those of the client of this name, and only those from this moment on, where
    /// they are given, and as one value of JSON where that is asked for. The moment is the text of the words, which may be none.
    Trail {
        file: &'a str,
        client: Option<&'a str>,
        since: Option<&'a str>,
        is_json: bool,
    },
    /// To make steps in words into step lines, or values in words into their encodings.
    Encode {
        is_value: bool,
    },
    /// To make step lines and replies into words, or the encodings of values.
    Decode {
        is_value: bool,
    },
}

/// Shows which command it is, and not what it holds.
impl fmt::Debug for Command<'_> {
    fn fmt<W: fmt::Write>(&self, f: &mut fmt::Formatter<W>) -> fmt::Result {
        f.write_str(self.name().word())
    }
}

impl Command<'_> {
    /// Which command it is.
    fn name(&self) -> CommandName {
        match self {
            Command::Demo { .. } => CommandName::Demo,
            Command::Run { .. } => CommandName::Run,
            Command::Edges { .. } => CommandName::Edges,
            Command::Label { .. } => CommandName::Label,
            Command::Check { .. } => CommandName::Check,
            Command::Why { .. } => CommandName::Why,
            Command::Compare { .. } => CommandName::Compare,
            Command::Report { .. } => CommandName::Report,
            Command::Quiet { .. } => CommandName::Quiet,
            Command::Audit { .. } => CommandName::Audit,
            Command::Session { .. } => CommandName::Session,
            Command::Serve { .. } => CommandName::Serve,
            Command::Trail { .. } => CommandName::Trail,
            Command::Encode { .. } => CommandName::Encode,
            Command::Decode { .. } => CommandName::Decode,
        }
    }
}
