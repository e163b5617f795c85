//! The commands of the program, with the texts of their help (own profile): a row for each, which says all that clap is told of it.
ghost use Rattle.std.specs.Prelude.{◌≡◌};
ghost use Rattle.command_words.specs.CommandLine.{app_named};
ghost use Rattle.command_words.specs.Rows.{app_of_row};

use crate::arguments;
use crate::arguments::ArgumentRow;
use crate::name::CommandName;

/// What is said of a command.
#[derive(Clone, Copy, Drop)]
pub(crate) struct CommandRow<'a> {
    /// Its name among the words.
    pub(crate) word: &'a str,
    /// What it does.
    pub(crate) about: &'a str,
    pub(crate) example: &'a str,
    /// Its arguments, each the last of its kind so far in the help.
    pub(crate) arguments: &'a [ArgumentRow<'a>],
}

const DEMO: CommandRow<'static> = CommandRow {
    word: "demo",
    about: "Answer the step lines of standard input by the demo configuration",
    example: "Example: cosem-flow demo < steps.txt",
    arguments: &[arguments::TELL_LINES],
};

const RUN: CommandRow<'static> = CommandRow {
    word: "run",
    about: "Answer the step lines of standard input by a configuration",
    example: "Example: cosem-flow run mine.toml < steps.txt",
    arguments: &[
        arguments::TELL_LINES,
        arguments::TRAIL_LINES,
        arguments::CONFIG_FILE,
    ],
};

const EDGES: CommandRow<'static> = CommandRow {
    word: "edges",
    about: "Print from which attribute to which a value may flow",
    example: "Example: cosem-flow edges mine.toml",
    arguments: &[arguments::EDGES_FORM, arguments::CONFIG_SOURCE],
};

const LABEL: CommandRow<'static> = CommandRow {
    word: "label",
    about: "Print the least labels of a configuration",
    example: "Example: cosem-flow label mine.toml > mine.labels",
    arguments: &[
        arguments::TELL_WIDTHS,
        arguments::NO_WARNINGS,
        arguments::CONFIG_SOURCE,
    ],
};

const CHECK: CommandRow<'static> = CommandRow {
    word: "check",
    about: "Print the verdict on labels for a configuration",
    example: "Example: cosem-flow check mine.toml mine.labels",
    arguments: &[
        arguments::ALL,
        arguments::TELL_WIDTHS,
        arguments::NO_WARNINGS,
        arguments::CONFIG_SOURCE,
        arguments::LABELS_SOURCE,
    ],
};

const WHY: CommandRow<'static> = CommandRow {
    word: "why",
    about: "Tell by which shortest ways a client may influence and learn a cell",
    example: "Example: cosem-flow why mine.toml reader 3/1.0.1.8.0.255/2",
    arguments: &[arguments::CONFIG_SOURCE, arguments::CLIENT, arguments::CELL],
};

const COMPARE: CommandRow<'static> = CommandRow {
    word: "compare",
    about: "Print what a new configuration gives and takes",
    example: "Example: cosem-flow compare old.toml new.toml",
    arguments: &[arguments::OLD_FILE, arguments::NEW_FILE],
};

const REPORT: CommandRow<'static> = CommandRow {
    word: "report",
    about: "Write a page on who may change and who may learn what",
    example: "Example: cosem-flow report mine.toml > mine.html",
    arguments: &[
        arguments::REPORT_FORM,
        arguments::AGAINST,
        arguments::CONFIG_SOURCE,
        arguments::GIVEN_LABELS,
    ],
};

const QUIET: CommandRow<'static> = CommandRow {
    word: "quiet",
    about: "Print for each step line of standard input whether the client could notice it: `quiet` or `seen`",
    example: "Example: cosem-flow quiet mine.toml mine.labels public < steps.txt",
    arguments: &[
        arguments::TELL_NOTICES,
        arguments::CONFIG_FILE,
        arguments::LABELS_FILE,
        arguments::CLIENT,
    ],
};

const AUDIT: CommandRow<'static> = CommandRow {
    word: "audit",
    about: "Print the verdicts on many configurations and their labels",
    example: "Example: cosem-flow audit --workers 4 north south",
    arguments: &[
        arguments::WORKERS,
        arguments::NAMES_FILE,
        arguments::EXPLAIN,
        arguments::PROGRESS,
        arguments::NAMES,
    ],
};

const SESSION: CommandRow<'static> = CommandRow {
    word: "session",
    about: "Answer the frames of one connection on standard input by a configuration",
    example: "Example: cosem-flow session mine.toml < frames.bin > answers.bin",
    arguments: &[arguments::CONFIG_FILE],
};

const SERVE: CommandRow<'static> = CommandRow {
    word: "serve",
    about: "Answer connections over TCP by a configuration whose labels are accepted",
    example: "Example: cosem-flow serve mine.toml mine.labels --port 4059 < steps.txt",
    arguments: &[
        arguments::BIND,
        arguments::PORT,
        arguments::SESSIONS,
        arguments::SEATS,
        arguments::IDLE,
        arguments::PENALTY,
        arguments::STORE,
        arguments::STEPS,
        arguments::CLOCK,
        arguments::OFFSET,
        arguments::TELL_CONNECTIONS,
        arguments::CONFIG_FILE,
        arguments::LABELS_FILE,
    ],
};

const TRAIL: CommandRow<'static> = CommandRow {
    word: "trail",
    about: "Print the steps that a trail's file keeps, in words",
    example: "Example: cosem-flow trail mine.trail --client manager",
    arguments: &[
        arguments::OF_CLIENT,
        arguments::SINCE,
        arguments::JSON,
        arguments::TRAIL_FILE,
    ],
};

const ENCODE: CommandRow<'static> = CommandRow {
    word: "encode",
    about: "Make steps in words on standard input into step lines",
    example: "Example: cosem-flow encode < steps.txt | cosem-flow run mine.toml | cosem-flow decode",
    arguments: &[arguments::VALUE],
};

const DECODE: CommandRow<'static> = CommandRow {
    word: "decode",
    about: "Make replies or step lines on standard input into words",
    example: "Example: cosem-flow run mine.toml < steps.hex | cosem-flow decode",
    arguments: &[arguments::VALUE],
};

/// The row of a command.
pub(crate) fn row_of(name: CommandName) -> CommandRow<'static>
    ensures { app_of_row result ≡ app_named name }
{
    match name {
        CommandName::Demo => DEMO,
        CommandName::Run => RUN,
        CommandName::Edges => EDGES,
        CommandName::Label => LABEL,
        CommandName::Check => CHECK,
        CommandName::Why => WHY,
        CommandName::Compare => COMPARE,
        CommandName::Report => REPORT,
        CommandName::Quiet => QUIET,
        CommandName::Audit => AUDIT,
        CommandName::Session => SESSION,
        CommandName::Serve => SERVE,
        CommandName::Trail => TRAIL,
        CommandName::Encode => ENCODE,
        CommandName::Decode => DECODE,
    }
}
