//! From words to what the program prints.

ghost use Rattle.std.specs.Prelude.{map};
ghost use Rattle.clap.specs.Words.{kind_of, subcommand_rows_of};
ghost use Rattle.cli_words.specs.Commands.{command_of};
ghost use Rattle.cli_words.specs.Words.{rows_in};
ghost use Rattle.cli_files.specs.Input as spec;
ghost use Rattle.cli_serve.specs.ServeCommand.{AnswersServe};
ghost use Rattle.cli.specs.Commands.{AnswersCommand, AnswersFirstLine, AnswersFound, AnswersGiven, AnswersLine, IsSaid};

use clap::ArgMatches;
use clap::error::ErrorKind;
use cli_edits::init_command::run_init;
use cli_edits::put_command::run_put;
use cli_files::input::{first_line, read_line};
use cli_output::failure::{Failure, ReadFailure};
use cli_output::printed::Printed;
use cli_questions::audit_command::run_audit;
use cli_questions::question_commands::{
    run_ask, run_cat, run_exports, run_files, run_impact, run_of_file, run_show, run_who,
};
use cli_questions::report_command::run_report;
use cli_serve::serve_command::{Service, run_serve};
use cli_texts::check_command::run_check;
use cli_texts::clients_command::run_clients;
use cli_texts::compare_command::run_compare;
use cli_texts::lists_command::run_lists;
use cli_texts::split_command::run_split;
use cli_texts::terms_command::run_terms;
use cli_texts::test_command::run_test;
use cli_texts::try_command::run_try;
use cli_words::commands::Subcommand;
use cli_words::line::command_line;
use cli_words::line_words::{command_words, words_of};
use cli_words::words::found_command;
use cli_write::copy_command::run_copy;
use cli_write::write_command::run_write;
use desk_service::FileQuestion;
use std::alloc::Global;
use std::convert::AsSlice;
use std::io::BufRead;

/// Runs the command on the first line of standard input.
pub fn run_first_line<I: BufRead>(
    rt: &HostRuntime,
    input: &mut I,
    service: &mut Option<Service>,
) -> Result<Printed, Failure>
    ensures { AnswersFirstLine (I.remaining input.old) result }
{
    match read_line(rt.alloc(), input) {
        Ok(bytes) => run_line(rt, bytes.as_slice(), input, service),
        Err(error) => Err(Failure::of_first_line(error)),
    }
}

/// Runs the command whose words a first line has.
fn run_line<I: BufRead>(
    rt: &HostRuntime,
    bytes: &[u8],
    input: &mut I,
    service: &mut Option<Service>,
) -> Result<Printed, Failure>
    ensures { AnswersLine (spec.first_line bytes.now) (I.remaining input.old) result }
{
    let line = match first_line(bytes) {
        Ok(line) => line,
        Err(fault) => return Err(Failure::FirstLine(ReadFailure::Text(fault))),
    };
    match words_of(rt.alloc(), line) {
        Ok(words) => run_words(rt, words.as_slice(), input, service),
        Err(_) => Err(Failure::Memory),
    }
}

/// Runs the command that these words are.
pub fn run_words<S: AsSlice<u8>, I: BufRead>(
    rt: &HostRuntime,
    words: &[S],
    input: &mut I,
    service: &mut Option<Service>,
) -> Result<Printed, Failure>
    ensures { AnswersCommand (map S.items words.now) (I.remaining input.old) result }
{
    let alloc = rt.alloc();
    let line = command_words(alloc, words)?;
    match command_line(alloc)?.try_get_matches_from(line.as_slice()) {
        Ok(matches) => run_found(rt, &matches, input, service),
        Err(error) => clap_output(alloc, &error),
    }
}

/// Runs the command that `clap` found; of `serve`, up to its line.
fn run_found<I: BufRead>(
    rt: &HostRuntime,
    matches: &ArgMatches<'_>,
    input: &mut I,
    service: &mut Option<Service>,
) -> Result<Printed, Failure>
    ensures { AnswersFound (command_of (subcommand_rows_of matches.now)) (I.remaining input.old) result }
{
    let (command, words) = found_command(matches)?;
    run_command(rt, command, words, input, service)
}

/// Runs a command by its words; of `serve`, up to its line. The service that is to run once that is printed is left in `service`.
fn run_command<I: BufRead>(
    rt: &HostRuntime,
    command: Subcommand,
    words: &ArgMatches<'_>,
    input: &mut I,
    service: &mut Option<Service>,
) -> Result<Printed, Failure>
    ensures { AnswersGiven command (rows_in words.now) (I.remaining input.old) result }
{
    match command {
        Subcommand::Try => run_try(rt, words, input),
        Subcommand::Split => run_split(rt, words, input),
        Subcommand::Check => run_check(rt, words, input),
        Subcommand::Clients => run_clients(rt, words, input),
        Subcommand::Lists => run_lists(rt, words, input),
        Subcommand::Terms => run_terms(rt, words, input),
        Subcommand::Compare => run_compare(rt, words, input),
        Subcommand::Test => run_test(rt, words, input),
        Subcommand::Init => run_init(rt, words, input),
        Subcommand::Ask => run_ask(rt, words),
        Subcommand::Show => run_show(rt, words),
        Subcommand::Exports => run_exports(rt, words),
        Subcommand::Who => run_who(rt, words),
        Subcommand::Put => run_put(rt, words, input),
        Subcommand::Impact => run_impact(rt, words, input),
        Subcommand::Audit => run_audit(rt, words, input),
        Subcommand::Log => run_of_file(rt, words, FileQuestion::Revisions),
        Subcommand::Cat => run_cat(rt, words),
        Subcommand::Proposal => run_of_file(rt, words, FileQuestion::Proposal),
        Subcommand::Files => run_files(rt, words),
        Subcommand::Report => run_report(rt, words),
        Subcommand::Write => run_write(rt, words),
        Subcommand::Copy => run_copy(rt, words),
        Subcommand::Serve => start_service(rt, words, service),
    }
}

/// Starts `serve`, and leaves its service to run once its line is printed.
fn start_service(
    rt: &HostRuntime,
    words: &ArgMatches<'_>,
    service: &mut Option<Service>,
) -> Result<Printed, Failure>
    ensures { AnswersServe (rows_in words.now) result }
{
    match run_serve(rt, words) {
        Ok(started) => {
            *service = Some(started.service);
            Ok(started.printed)
        }
        Err(answer) => answer,
    }
}

/// Returns what `clap` says in place of a command: help or the version, or what is wrong with the words.
fn clap_output(alloc: Global, error: &clap::Error) -> Result<Printed, Failure>
    ensures { IsSaid (kind_of error.now) result }
{
    if matches!(error.kind(), ErrorKind::OutOfMemory) {
        return Err(Failure::Memory);
    }
    let text = error.to_string(alloc)?;
    if error.use_stderr() {
        Err(Failure::Usage(text))
    } else {
        Ok(Printed {
            status: 0,
            text,
            note: String::new(alloc),
        })
    }
}
