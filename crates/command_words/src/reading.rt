//! Command lines, read.
ghost use Rattle.std.specs.Prelude.{◌≡◌, IfErr, IfOk, None, Some, is_some, map, option_and_then, option_map, true};
ghost use Rattle.clap.specs.Words.{IsAmong, subcommand_rows_of};
ghost use Rattle.clap.specs.declared.error.kind.ErrorKind.TheVariants.{DisplayHelp, DisplayVersion};
ghost use Rattle.command_words.specs.CommandLine as line;
ghost use Rattle.command_words.specs.Commands as spec;
ghost use Rattle.command_words.specs.Commands.{asked_by, command_of};
ghost use Rattle.command_words.specs.CommandLine.{kinds_of};
ghost use Rattle.command_words.specs.Said.{said_by};
ghost use Rattle.command_words.specs.declared.name.CommandName.TheVariants as names;
ghost use Rattle.command_words.specs.Faults.{HasMistake, IfHelp, IfUsage, IfVersion, IsMisuse, UnlessMemory};

use crate::command::{Command, Warned};
use crate::commands::all_commands;
use crate::fault::{WordsFault, fault_told, misuse_told};
use crate::misuse::misuse_in;
use crate::name::CommandName;
use crate::words::{Words, words_in};
use clap::ArgMatches;
use std::alloc::{AllocError, Global};

/// What the words of a command line ask for, the program's name first. The error is that they ask for help or the version, that
/// they are no command, or that memory was refused.
pub fn read_words<'a>(alloc: Global, words: &'a [&'a str]) -> Result<Command<'a>, WordsFault>
    ensures command { IfOk result (λ command. command_of (map (λ word. word.now) words.now)
        ≡ Some (asked_by command)) }
    ensures no_command { IfErr result (λ fault. UnlessMemory fault
        (command_of (map (λ word. word.now) words.now) ≡ None)) }
    ensures help { IfErr result (λ fault. IfHelp fault
        (IsAmong DisplayHelp (kinds_of (map (λ word. word.now) words.now)))) }
    ensures version { IfErr result (λ fault. IfVersion fault
        (IsAmong DisplayVersion (kinds_of (map (λ word. word.now) words.now)))) }
    ensures usage { IfErr result (λ fault. IfUsage fault
        (HasMistake (kinds_of (map (λ word. word.now) words.now)))) }
{
    let Ok(commands) = all_commands(alloc) else {
        return Err(WordsFault::Memory);
    };
    match commands.try_get_matches_from(words) {
        Ok(matches) => command_of_matches(alloc, &matches),
        Err(error) => Err(fault_told(alloc, &error)),
    }
}

/// What the words ask for of which clap has found these matches.
fn command_of_matches<'a>(
    alloc: Global,
    matches: &ArgMatches<'a>,
) -> Result<Command<'a>, WordsFault>
    requires { is_some (option_and_then spec.asked_in (subcommand_rows_of matches.now)) ≡ true }
    ensures fine { IfOk result (λ _. line.misuse_in (subcommand_rows_of matches.now) ≡ None) }
    ensures command { IfOk result (λ command. Some (asked_by command)
        ≡ option_and_then spec.asked_in (subcommand_rows_of matches.now)) }
    ensures fault { IfErr result (IsMisuse (line.misuse_in (subcommand_rows_of matches.now))) }
{
    if let Some(misuse) = misuse_in(matches) {
        return Err(misuse_told(alloc, misuse));
    }
    match command_in(alloc, matches) {
        Ok(command) => Ok(command),
        Err(_) => Err(WordsFault::Memory),
    }
}

/// The command that the matches name.
fn command_in<'a>(alloc: Global, matches: &ArgMatches<'a>) -> Result<Command<'a>, AllocError>
    requires { is_some (option_and_then spec.asked_in (subcommand_rows_of matches.now)) ≡ true }
    ensures { IfOk result (λ command. Some (asked_by command)
        ≡ option_and_then spec.asked_in (subcommand_rows_of matches.now)) }
{
    let Some((word, found)) = matches.subcommand() else {
        unreachable!();
    };
    let Some(name) = CommandName::named(word) else {
        unreachable!();
    };
    command_named(alloc, name, &words_in(found))
}

/// The command of this name, with what its words say.
fn command_named<'a>(
    alloc: Global,
    name: CommandName,
    words: &Words<'_, 'a>,
) -> Result<Command<'a>, AllocError>
    ensures { IfOk result (λ command. asked_by command ≡ spec.asked_as name (said_by words.now)) }
{
    Ok(match name {
        CommandName::Demo => Command::Demo {
            is_verbose: words.is_verbose,
        },
        CommandName::Run => Command::Run {
            config: words.config,
            is_verbose: words.is_verbose,
            reads_trail: words.reads_trail,
        },
        CommandName::Edges => Command::Edges {
            config: words.config,
            form: words.edges_form,
        },
        CommandName::Label => Command::Label {
            config: words.config,
            warned: warned_of(words.is_silent, words.is_verbose),
        },
        CommandName::Check => Command::Check {
            config: words.config,
            labels: words.labels,
            tells_all: words.tells_all,
            warned: warned_of(words.is_silent, words.is_verbose),
        },
        CommandName::Why => Command::Why {
            config: words.config,
            client: words.client,
            cell: words.cell,
        },
        CommandName::Compare => Command::Compare {
            old: words.old,
            new: words.new,
        },
        CommandName::Report => Command::Report {
            config: words.config,
            labels: words.given_labels,
            against: words.against,
            form: words.report_form,
        },
        CommandName::Quiet => Command::Quiet {
            config: words.config,
            labels: words.labels,
            client: words.client,
            is_verbose: words.is_verbose,
        },
        CommandName::Audit => return audit(alloc, words),
        CommandName::Session => Command::Session {
            config: words.config,
        },
        CommandName::Serve => Command::Serve {
            config: words.config,
            labels: words.labels,
            serving: words.serving,
        },
        CommandName::Trail => Command::Trail {
            file: words.file,
            client: words.given_client,
            since: words.since,
            is_json: words.is_json,
        },
        CommandName::Encode => Command::Encode {
            is_value: words.is_value,
        },
        CommandName::Decode => Command::Decode {
            is_value: words.is_value,
        },
    })
}

/// Of what is warned: of nothing with `--quiet`, and else of more with `-v`.
fn warned_of(is_silent: bool, is_verbose: bool) -> Warned
    ensures { result ≡ spec.warned_of is_silent is_verbose }
{
    if is_silent {
        Warned::Nothing
    } else if is_verbose {
        Warned::SlipsAndWidths
    } else {
        Warned::Slips
    }
}

/// An audit, with a list of its own of the names.
fn audit<'a>(alloc: Global, words: &Words<'_, 'a>) -> Result<Command<'a>, AllocError>
    ensures { IfOk result (λ command. asked_by command
        ≡ spec.asked_as names.Audit (said_by words.now)) }
{
    let names = match words.names {
        Some(names) => Vec::from_slice(alloc, names),
        None => Ok(Vec::new(alloc)),
    };
    match names {
        Ok(names) => Ok(Command::Audit {
            workers: words.workers,
            names,
            names_file: words.names_file,
            explains: words.explains,
            tells_progress: words.tells_progress,
        }),
        Err(error) => Err(error),
    }
}
