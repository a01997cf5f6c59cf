//! The command that `clap` finds, and its words by their names.

ghost use Rattle.std.specs.Prelude.{◌≡◌, codes, map};
ghost use Rattle.std.specs.Option.{option_map};
ghost use Rattle.clap.specs.Words.{all_of, first_of, subcommand_rows_of};
ghost use Rattle.cli_words.specs.Commands.{command_of};
ghost use Rattle.cli_words.specs.Words.{Finds, is_set, rows_in};

use crate::commands::{Subcommand, command_named};
use clap::ArgMatches;
use cli_output::failure::Failure;

/// Takes the command that `clap` found, with its words.
pub fn found_command<'m, 'a>(
    matches: &'m ArgMatches<'a>,
) -> Result<(Subcommand, &'m ArgMatches<'a>), Failure>
    ensures { Finds (λ found. (found.0, rows_in found.1.now)) (codes "the command") (command_of (subcommand_rows_of matches.now)) result }
{
    match matches.subcommand() {
        Some((name, words)) => match command_named(name) {
            Some(command) => Ok((command, words)),
            None => Err(Failure::of_missing("the command")),
        },
        None => Err(Failure::of_missing("the command")),
    }
}

/// Returns the word of an argument that has to be given.
pub fn required<'a>(words: &ArgMatches<'a>, name: &'static str) -> Result<&'a str, Failure>
    ensures { Finds (λ word. word.now) name.entry.now (first_of name.entry.now (rows_in words.now)) result }
{
    match given(words, name) {
        Some(word) => Ok(word),
        None => Err(Failure::of_missing(name)),
    }
}

/// Returns the word that stands at the place of an argument and has to be given as another one, which a failure names.
pub fn required_as<'a>(
    words: &ArgMatches<'a>,
    place: &str,
    name: &'static str,
) -> Result<&'a str, Failure>
    ensures { Finds (λ word. word.now) name.entry.now (first_of place.now (rows_in words.now)) result }
{
    match given(words, place) {
        Some(word) => Ok(word),
        None => Err(Failure::of_missing(name)),
    }
}

/// Returns the word of an argument, if it is given.
pub fn given<'a>(words: &ArgMatches<'a>, name: &str) -> Option<&'a str>
    ensures { option_map (λ word. word.now) result ≡ first_of name.now (rows_in words.now) }
{
    words.get_str(name)
}

/// Returns the words of an argument, if there are any.
pub fn all_given<'m, 'a>(words: &'m ArgMatches<'a>, name: &str) -> Option<&'m [&'a str]>
    ensures { option_map (λ found. map (λ word. word.now) found.now) result ≡ all_of name.now (rows_in words.now) }
{
    words.get_strs(name)
}

/// Tests whether an option without a value is given.
pub fn is_set(words: &ArgMatches<'_>, name: &str) -> bool
    ensures { result ≡ is_set name.now (rows_in words.now) }
{
    match words.get_str(name) {
        Some(value) => value == "true",
        None => false,
    }
}
