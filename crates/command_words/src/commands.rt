//! The commands of the program, as clap takes them: what their rows say.
ghost use Rattle.std.specs.Prelude.{IfOk};
ghost use Rattle.command_words.specs.CommandLine as spec;
ghost use Rattle.command_words.specs.CommandLine.{IsArgument, IsCommand};
ghost use Rattle.command_words.specs.Rows.{app_of_row, placed_rule, rule_of_row};

use crate::arguments::{ArgumentRow, Standing};
use crate::name::NAMES;
use crate::rows::{CommandRow, row_of};
use clap::{Arg, Command};
use std::alloc::{AllocError, Global};

/// The program with all its commands. What is held here is long to drop, so that each call's result is matched, which is shorter
/// to prove than a `?`.
pub(crate) fn all_commands<'a>(alloc: Global) -> Result<Command<'a>, AllocError>
    ensures { IfOk result (IsCommand spec.app) }
{
    let Ok(mut app) = program(alloc) else {
        return Err(AllocError);
    };
    for name in NAMES {
        let Ok(command) = command_of(alloc, &row_of(name)) else {
            return Err(AllocError);
        };
        let Ok(more) = app.subcommand(command) else {
            return Err(AllocError);
        };
        app = more;
    }
    Ok(app)
}

/// The program, without its commands.
fn program<'a>(alloc: Global) -> Result<Command<'a>, AllocError>
    ensures { IfOk result (IsCommand spec.bare_program) }
{
    Command::new(alloc, "cosem-flow")
        .version("0.1.0")
        .about("A meter server for COSEM meters, and a judge of their configurations")
        .after_help("Example: cosem-flow run mine.toml < steps.txt")
        .subcommand_required(true)
        .bin_name("cosem-flow")
}

/// The command of a row.
fn command_of<'a>(alloc: Global, row: &CommandRow<'a>) -> Result<Command<'a>, AllocError>
    ensures { IfOk result (IsCommand (app_of_row row.now)) }
{
    let mut command = Command::new(alloc, row.word)
        .about(row.about)
        .after_help(row.example);
    for argument in row.arguments {
        match command.arg(arg_of(alloc, argument)) {
            Ok(more) => command = more,
            Err(error) => return Err(error),
        }
    }
    Ok(command)
}

/// The argument of a row.
fn arg_of<'a>(alloc: Global, row: &ArgumentRow<'a>) -> Arg<'a>
    ensures { IsArgument (rule_of_row row.now) result }
{
    match row.standing {
        Standing::Placed => placed(alloc, row),
        Standing::Named => placed(alloc, row).long(row.id),
        Standing::Lettered(letter) => placed(alloc, row).long(row.id).short(letter),
        Standing::Numbered(parser) => placed(alloc, row).long(row.id).value_parser(parser),
    }
}

/// The argument of a row, but at its place and without a name.
fn placed<'a>(alloc: Global, row: &ArgumentRow<'a>) -> Arg<'a>
    ensures { IsArgument (placed_rule row.now) result }
{
    Arg::new(alloc, row.id)
        .required(row.is_required)
        .action(row.action)
        .value_names(row.value_names)
        .default_values(row.defaults)
        .help(row.help)
}
