//! What is wrong with words that clap takes.
ghost use Rattle.std.specs.Prelude.{◌≡◌, option_map};
ghost use Rattle.clap.specs.Words.{found_of, rows_of, subcommand_rows_of};
ghost use Rattle.command_words.specs.CommandLine as spec;
ghost use Rattle.command_words.specs.Misuses.{misuse_of};

use crate::words::{has_flag, value, values};
use clap::ArgMatches;

/// What is wrong with words that clap takes (own profile).
#[derive(Clone, Copy, Drop)]
pub(crate) enum Misuse<'m, 'a> {
    /// The command has no form of this name.
    UnknownForm { command: &'m str, name: &'a str },
    /// The minutes ahead of UTC are given where the meter follows no clock.
    OffsetAlone,
    /// The meter follows a clock, and is to take lines too, which may move its time.
    ClockBesideSteps,
    /// Of the lines of a trail is to be told in words, which step lines alone have.
    TrailAloud,
    /// Many configurations are to be judged, and neither a name is given nor a file of names.
    Nameless,
}

/// What is wrong with the words that have these matches, where anything is.
pub(crate) fn misuse_in<'m, 'a>(matches: &'m ArgMatches<'a>) -> Option<Misuse<'m, 'a>>
    ensures { option_map misuse_of result ≡ spec.misuse_in (subcommand_rows_of matches.now) }
{
    let Some((command, found)) = matches.subcommand() else {
        return None;
    };
    match value(found, "format") {
        Some(name) if !is_form(command, name) => Some(Misuse::UnknownForm { command, name }),
        _ => misuse_of_options(found),
    }
}

/// What is wrong with options of which each is taken, where anything is.
fn misuse_of_options<'m, 'a>(found: &'m ArgMatches<'a>) -> Option<Misuse<'m, 'a>>
    ensures { option_map misuse_of result ≡ spec.misuse_of_options (rows_of (found_of found.now)) }
{
    if is_offset_alone(found) {
        Some(Misuse::OffsetAlone)
    } else if is_clock_beside_steps(found) {
        Some(Misuse::ClockBesideSteps)
    } else if is_trail_aloud(found) {
        Some(Misuse::TrailAloud)
    } else if is_nameless(found) {
        Some(Misuse::Nameless)
    } else {
        None
    }
}

/// Whether `--clock` stands beside `--steps`.
fn is_clock_beside_steps(found: &ArgMatches<'_>) -> bool
    ensures { result ≡ spec.is_clock_beside_steps (rows_of (found_of found.now)) }
{
    has_flag(found, "clock") && value(found, "steps").is_some()
}

/// Whether `--trail` stands beside `--verbose`.
fn is_trail_aloud(found: &ArgMatches<'_>) -> bool
    ensures { result ≡ spec.is_trail_aloud (rows_of (found_of found.now)) }
{
    has_flag(found, "trail") && has_flag(found, "verbose")
}

/// Whether `--workers` stands there without a name and without `--names`.
fn is_nameless(found: &ArgMatches<'_>) -> bool
    ensures { result ≡ spec.is_nameless (rows_of (found_of found.now)) }
{
    value(found, "workers").is_some()
        && values(found, "name").is_none()
        && value(found, "names").is_none()
}

/// Whether `--offset` stands there without `--clock`.
fn is_offset_alone(found: &ArgMatches<'_>) -> bool
    ensures { result ≡ spec.is_offset_alone (rows_of (found_of found.now)) }
{
    value(found, "offset").is_some() && !has_flag(found, "clock")
}

/// Whether a command has a form of this name.
fn is_form(command: &str, name: &str) -> bool
    ensures { result ≡ spec.is_form command.now name.now }
{
    if command == "report" {
        is_report_form(name)
    } else {
        name == "text" || name == "dot"
    }
}

/// Whether a report has a form of this name. It is a function of its own since a choice of many texts is long to prove.
fn is_report_form(name: &str) -> bool
    ensures { result ≡ spec.is_report_form name.now }
{
    name == "html" || name == "csv" || name == "json"
}
