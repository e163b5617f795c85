//! The arguments of the program's commands, with the texts of their help (own profile): a row for each, which says all that clap is
//! told of it.

use clap::ArgAction;
use clap::builder::ValueParser;

/// How an argument stands among the words.
#[derive(Clone, Copy, Drop)]
pub(crate) enum Standing<'a> {
    /// At its place, without a name.
    Placed,
    /// Behind its name, `--id`.
    Named,
    /// Behind its name, `--id`, or behind this letter.
    Lettered(char),
    /// Behind its name, `--id`, as a number that this takes.
    Numbered(ValueParser<'a>),
}

/// What is said of an argument.
#[derive(Clone, Copy, Drop)]
pub(crate) struct ArgumentRow<'a> {
    pub(crate) id: &'a str,
    pub(crate) standing: Standing<'a>,
    pub(crate) is_required: bool,
    pub(crate) action: ArgAction,
    /// What its value is called in the help; nothing where it has none.
    pub(crate) value_names: &'a [&'a str],
    /// Its value where it isn't given; nothing where it has none then.
    pub(crate) defaults: &'a [&'a str],
    pub(crate) help: &'a str,
}

/// An argument that has to stand there.
const NEEDED: ArgumentRow<'static> = ArgumentRow {
    id: "",
    standing: Standing::Placed,
    is_required: true,
    action: ArgAction::Set,
    value_names: &[],
    defaults: &[],
    help: "",
};

/// An option with one value, which needn't stand there.
const OPTION: ArgumentRow<'static> = ArgumentRow {
    standing: Standing::Named,
    is_required: false,
    ..NEEDED
};

/// An option without a value, which may stand there more than once.
const FLAG: ArgumentRow<'static> = ArgumentRow {
    action: ArgAction::Count,
    ..OPTION
};

/// The configuration where standard input has the lines or frames to be answered.
pub(crate) const CONFIG_FILE: ArgumentRow<'static> = ArgumentRow {
    id: "config",
    value_names: &["CONFIG"],
    help: "The file of the configuration, in TOML",
    ..NEEDED
};

/// The configuration elsewhere.
pub(crate) const CONFIG_SOURCE: ArgumentRow<'static> = ArgumentRow {
    help: "The file of the configuration, in TOML; - is standard input",
    ..CONFIG_FILE
};

/// The labels where standard input has the steps.
pub(crate) const LABELS_FILE: ArgumentRow<'static> = ArgumentRow {
    id: "labels",
    value_names: &["LABELS"],
    help: "The file of the labels, in the form that `label` prints",
    ..NEEDED
};

/// The labels elsewhere.
pub(crate) const LABELS_SOURCE: ArgumentRow<'static> = ArgumentRow {
    help: "The file of the labels, in the form that `label` prints; - is standard input",
    ..LABELS_FILE
};

/// The labels that are judged, where they aren't the least ones.
pub(crate) const GIVEN_LABELS: ArgumentRow<'static> = ArgumentRow {
    is_required: false,
    help: "The file of the labels that are judged, - is standard input; the least labels where it isn't given",
    ..LABELS_FILE
};

/// The client that is asked about.
pub(crate) const CLIENT: ArgumentRow<'static> = ArgumentRow {
    id: "client",
    value_names: &["CLIENT"],
    help: "The name of the client, as the configuration has it",
    ..NEEDED
};

/// The cell that is asked about.
pub(crate) const CELL: ArgumentRow<'static> = ArgumentRow {
    id: "cell",
    value_names: &["CELL"],
    help: "The cell, in the form that `label` prints",
    ..NEEDED
};

/// The configuration that is compared with.
pub(crate) const OLD_FILE: ArgumentRow<'static> = ArgumentRow {
    id: "old",
    value_names: &["OLD"],
    help: "The file of the old configuration, in TOML; - is standard input",
    ..NEEDED
};

/// The configuration that is compared.
pub(crate) const NEW_FILE: ArgumentRow<'static> = ArgumentRow {
    id: "new",
    value_names: &["NEW"],
    help: "The file of the new configuration, in TOML; - is standard input",
    ..NEEDED
};

/// The configuration that a report is compared with.
pub(crate) const AGAINST: ArgumentRow<'static> = ArgumentRow {
    id: "against",
    value_names: &["OLD"],
    help: "The file of the configuration before, in TOML, with which it is compared; - is standard input",
    ..OPTION
};

/// In which form edges are printed. Its names are tried once clap has taken the words, since a rule of clap that has names holds
/// where these stand in memory, and so no two such rules are equal.
pub(crate) const EDGES_FORM: ArgumentRow<'static> = ArgumentRow {
    id: "format",
    value_names: &["FORM"],
    defaults: &["text"],
    help: "The form of the list: a line for each edge, or a graph for Graphviz [possible values: text, dot]",
    ..OPTION
};

/// In which form a report is written.
pub(crate) const REPORT_FORM: ArgumentRow<'static> = ArgumentRow {
    defaults: &["html"],
    help: "The form of the report: a page for a browser, or for other programs [possible values: html, csv, json]",
    ..EDGES_FORM
};

/// Whether each line is told of where lines are answered.
pub(crate) const TELL_LINES: ArgumentRow<'static> = ArgumentRow {
    id: "verbose",
    standing: Standing::Lettered('v'),
    help: "Tell on standard error what each line asks, what is answered and what changes",
    ..FLAG
};

/// Whether each line is told of where it is told whether a client could notice it.
pub(crate) const TELL_NOTICES: ArgumentRow<'static> = ArgumentRow {
    help: "Tell on standard error, of each line that is seen, what the client could notice by which step",
    ..TELL_LINES
};

/// Whether it is told too how many cells admit more clients than they need.
pub(crate) const TELL_WIDTHS: ArgumentRow<'static> = ArgumentRow {
    help: "Warn on standard error too of how many cells the labels and the policy admit more clients to than they need",
    ..TELL_LINES
};

/// Whether nothing is warned of.
pub(crate) const NO_WARNINGS: ArgumentRow<'static> = ArgumentRow {
    id: "quiet",
    help: "Warn of nothing",
    ..FLAG
};

/// Whether all that is refused is told.
pub(crate) const ALL: ArgumentRow<'static> = ArgumentRow {
    id: "all",
    help: "Print behind the verdict all that is refused, with the clients that are too many or missing",
    ..FLAG
};

/// How many workers share the work.
pub(crate) const WORKERS: ArgumentRow<'static> = ArgumentRow {
    id: "workers",
    standing: Standing::Numbered(ValueParser::Unsigned(1, 64)),
    is_required: true,
    value_names: &["N"],
    help: "How many workers share the configurations, from 1 to 64",
    ..OPTION
};

/// Whether it is told how far an audit is. The program asks for it itself where standard error is a terminal.
pub(crate) const PROGRESS: ArgumentRow<'static> = ArgumentRow {
    id: "progress",
    help: "Tell on standard error how far the audit is, as it is told on a terminal without this",
    ..FLAG
};

/// The file of names that stand for two files each.
pub(crate) const NAMES_FILE: ArgumentRow<'static> = ArgumentRow {
    id: "names",
    value_names: &["FILE"],
    help: "The file of further names, one a line, which come behind those that are given; - is standard input",
    ..OPTION
};

/// Whether it is told why a verdict doesn't accept.
pub(crate) const EXPLAIN: ArgumentRow<'static> = ArgumentRow {
    id: "explain",
    help: "Tell on standard error, behind its name, what explains each verdict that isn't `accepted`",
    ..FLAG
};

/// Whether single values are translated.
pub(crate) const VALUE: ArgumentRow<'static> = ArgumentRow {
    id: "value",
    help: "Translate values, one a line, and not steps",
    ..FLAG
};

/// Names, each of which stands for two files. Clap doesn't want one, since a file may have them; that there is one or the other is
/// tried once clap has taken the words.
pub(crate) const NAMES: ArgumentRow<'static> = ArgumentRow {
    id: "name",
    is_required: false,
    action: ArgAction::Append,
    value_names: &["NAME"],
    help: "The name of two files: the configuration NAME.toml and its labels NAME.labels",
    ..NEEDED
};

/// Where connections are taken.
pub(crate) const BIND: ArgumentRow<'static> = ArgumentRow {
    id: "bind",
    value_names: &["ADDRESS"],
    defaults: &["127.0.0.1"],
    help: "The IP address or the name of the host where connections are taken",
    ..OPTION
};

/// At which port connections are taken. 4059 is the one registered for DLMS/COSEM.
pub(crate) const PORT: ArgumentRow<'static> = ArgumentRow {
    id: "port",
    standing: Standing::Numbered(ValueParser::Signed(1, 65535)),
    value_names: &["N"],
    defaults: &["4059"],
    help: "The TCP port where connections are taken, from 1 to 65535",
    ..OPTION
};

/// How many connections are answered before the end, which waits for the lines of standard input too.
pub(crate) const SESSIONS: ArgumentRow<'static> = ArgumentRow {
    id: "sessions",
    standing: Standing::Numbered(ValueParser::Unsigned(0, u64::MAX)),
    value_names: &["N"],
    defaults: &["0"],
    help: "After how many connections the meter ends, once the lines have ended too, 0 for never",
    ..OPTION
};

/// How many connections are answered at once at most.
const MOST_SEATS: u64 = 64;

/// How many connections are answered at once.
pub(crate) const SEATS: ArgumentRow<'static> = ArgumentRow {
    id: "seats",
    standing: Standing::Numbered(ValueParser::Unsigned(1, MOST_SEATS)),
    value_names: &["N"],
    defaults: &["64"],
    help: "How many connections are answered at once, from 1 to 64",
    ..OPTION
};

/// How long a connection may be idle.
pub(crate) const IDLE: ArgumentRow<'static> = ArgumentRow {
    id: "idle",
    standing: Standing::Numbered(ValueParser::Unsigned(0, 86400)),
    value_names: &["SECONDS"],
    defaults: &["180"],
    help: "A connection that sent nothing whole for so many seconds is closed, 0 for never",
    ..OPTION
};

/// How long a refused association waits for its answer.
pub(crate) const PENALTY: ArgumentRow<'static> = ArgumentRow {
    id: "penalty",
    standing: Standing::Numbered(ValueParser::Unsigned(0, 8000)),
    value_names: &["MILLISECONDS"],
    defaults: &["500"],
    help: "How long the answer waits behind a refused association; twice as long behind each further one, up to 8 s; 0 for not at all",
    ..OPTION
};

/// Where steps are kept.
pub(crate) const STORE: ArgumentRow<'static> = ArgumentRow {
    id: "store",
    value_names: &["FILE"],
    help: "The file that keeps each step which changed the meter; without it nothing is kept",
    ..OPTION
};

/// Where the lines come from.
pub(crate) const STEPS: ArgumentRow<'static> = ArgumentRow {
    id: "steps",
    value_names: &["FILE"],
    help: "The file or FIFO that the lines are read from, again where its writer closes it; standard input without it",
    ..OPTION
};

/// Whether the system's clock moves the meter's.
pub(crate) const CLOCK: ArgumentRow<'static> = ArgumentRow {
    id: "clock",
    help: "The meter's time follows the system's clock, so many minutes ahead of UTC as `--offset` says",
    ..FLAG
};

/// How far the meter's time is ahead of UTC. It has no default of clap's, so that it is known where it isn't given.
pub(crate) const OFFSET: ArgumentRow<'static> = ArgumentRow {
    id: "offset",
    standing: Standing::Numbered(ValueParser::Signed(-840, 840)),
    value_names: &["MINUTES"],
    help: "By how many minutes the meter's time is ahead of UTC, from -840 to 840, as `--offset=-300` where it is behind [default: 0]",
    ..OPTION
};

/// Whether it is told of connections.
pub(crate) const TELL_CONNECTIONS: ArgumentRow<'static> = ArgumentRow {
    help: "Tell on standard error of connections: opened, associated or refused, released, closed and why",
    ..TELL_LINES
};

/// Whether lines may be those of a trail's file.
pub(crate) const TRAIL_LINES: ArgumentRow<'static> = ArgumentRow {
    id: "trail",
    help: "Read the lines of a trail's file beside step lines, as `serve --store` writes it",
    ..FLAG
};

/// The client whose steps are printed.
pub(crate) const OF_CLIENT: ArgumentRow<'static> = ArgumentRow {
    id: "client",
    value_names: &["NAME"],
    help: "Only steps of the client of this name",
    ..OPTION
};

/// The moment from which steps are printed.
pub(crate) const SINCE: ArgumentRow<'static> = ArgumentRow {
    id: "since",
    value_names: &["MOMENT"],
    help: "Only steps from this moment on, as 2026-03-01T00:00:00",
    ..OPTION
};

/// Whether steps are printed for other programs.
pub(crate) const JSON: ArgumentRow<'static> = ArgumentRow {
    id: "json",
    help: "As one value of JSON in place of lines",
    ..FLAG
};

/// The file whose steps are printed.
pub(crate) const TRAIL_FILE: ArgumentRow<'static> = ArgumentRow {
    id: "file",
    value_names: &["FILE"],
    help: "The file that `serve --store` writes",
    ..NEEDED
};
