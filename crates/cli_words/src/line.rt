//! The program's command line, as `clap` parses it.

ghost use Rattle.std.specs.Prelude.{◌≡◌, IfOk};
ghost use Rattle.clap.specs.Words.{App, app_of, new_app};
ghost use Rattle.cli_words.specs.Commands as spec;
ghost use Rattle.cli_words.specs.PrivateLine.{IsCommand, IsMade, with_arguments, with_commands};

use crate::arguments::{Argument, made_argument};
use crate::commands::{CommandRow, command_rows, more_options, table_options};
use crate::help::help_of;
use clap::Command;
use std::alloc::{AllocError, Global};

/// Makes the program's command line, with its commands.
pub fn command_line<'a>(alloc: Global) -> Result<Command<'a>, AllocError>
    ensures { IfOk result (λ command. app_of command ≡ spec.command_line) }
{
    with_commands(alloc, program(alloc), command_rows())
}

/// Adds commands to the program, in their order.
fn with_commands<'a>(
    alloc: Global,
    program: Command<'a>,
    rows: &[CommandRow],
) -> Result<Command<'a>, AllocError>
    ensures { (app : App) → IsCommand app program.entry → IsMade (with_commands app rows.now) result }
{
    let mut made = program;
    for row in rows {
        made = made.subcommand(command_of(alloc, row)?)?;
    }
    Ok(made)
}

/// Makes the command line of a command.
fn command_of<'a>(alloc: Global, row: &CommandRow) -> Result<Command<'a>, AllocError>
    ensures { IsMade (spec.app_of_row (spec.row_of row.now)) result }
{
    let command = with_arguments(alloc, titled(alloc, row), row.words)?;
    let command = with_arguments(alloc, command, table_options(row.shared))?;
    let command = with_arguments(alloc, command, more_options(row.shared))?;
    with_arguments(alloc, command, row.options)
}

/// Makes a command that has neither arguments nor subcommands.
fn titled<'a>(alloc: Global, row: &CommandRow) -> Command<'a>
    ensures { IsCommand (new_app row.now.name.now) result }
{
    let help = help_of(row.command);
    let command = Command::new(alloc, row.name).about(help.about);
    with_help(with_usage(command, help.usage), help.end)
}

/// Sets how the help shows the command's use, if that is given.
fn with_usage<'a>(command: Command<'a>, usage: Option<&'a str>) -> Command<'a>
    ensures { (app : App) → IsCommand app command.entry → IsCommand app result }
{
    match usage {
        Some(usage) => command.override_usage(usage),
        None => command,
    }
}

/// Sets what stands at the end of the command's help, if that is given.
fn with_help<'a>(command: Command<'a>, help: Option<&'a str>) -> Command<'a>
    ensures { (app : App) → IsCommand app command.entry → IsCommand app result }
{
    match help {
        Some(help) => command.after_help(help),
        None => command,
    }
}

/// Adds arguments to a command, in their order.
fn with_arguments<'a>(
    alloc: Global,
    command: Command<'a>,
    arguments: &[Argument],
) -> Result<Command<'a>, AllocError>
    ensures { (app : App) → IsCommand app command.entry → IsMade (with_arguments app arguments.now) result }
{
    let mut made = command;
    for argument in arguments {
        made = made.arg(made_argument(alloc, *argument))?;
    }
    Ok(made)
}

/// Makes the program's command line without its commands.
fn program<'a>(alloc: Global) -> Command<'a>
    ensures { IsCommand spec.program result }
{
    Command::new(alloc, "exportdesk")
        .version("1.1.0")
        .about("Decides who may mount what, by the exports files of mountd(8)")
        .after_help(
            "Without words, the first line of standard input gives them, and the file - is the rest.\n\n\
             Status: 0 granted or done, or help was printed; 1 denied, something changes or is not as expected, or\n\
             refused by the rules of edits; 2 bad words, or a file that cannot be read or written; 3 a text has a\n\
             fault; 4 out of memory, a database that cannot be used, or the output could not be written.\n\
             docs/RULES.md explains each rule that an exports text can break.",
        )
        .disable_help_subcommand(true)
        .subcommand_required(true)
}
