//! The arguments of a command, and how `clap` takes them.

ghost use Rattle.cli_words.specs.Commands.{flag, option, optional_word, optional_words, repeated_option, required_option, rule_for, word};
ghost use Rattle.cli_words.specs.PrivateLine.{IsArgument};

use clap::{Arg, ArgAction};
use std::alloc::Global;

/// What an argument is.
#[derive(Clone, Copy)]
pub enum Kind {
    /// One word.
    Word,
    /// One word, or left out.
    MaybeWord,
    /// One word or more, or left out.
    MaybeWords,
    /// An option with one value, which the help calls this.
    Valued(&'static str),
    /// An option with one value that has to be given, which the help calls this.
    Needed(&'static str),
    /// An option with one value that may be given more than once, which the help calls this.
    Repeated(&'static str),
    /// An option without a value.
    Flag,
}

/// An argument of a command: an option of this name, or a word that the usage names so.
#[derive(Clone, Copy)]
pub struct Argument {
    pub name: &'static str,
    pub kind: Kind,
    pub help: &'static str,
}

/// Makes an argument.
pub(crate) fn made_argument<'a>(alloc: Global, argument: Argument) -> Arg<'a>
    ensures { IsArgument (rule_for argument) result }
{
    let (name, help) = (argument.name, argument.help);
    match argument.kind {
        Kind::Word => word(alloc, name, help),
        Kind::MaybeWord => optional_word(alloc, name, help),
        Kind::MaybeWords => optional_words(alloc, name, help),
        Kind::Valued(value) => option(alloc, name, value, help),
        Kind::Needed(value) => required_option(alloc, name, value, help),
        Kind::Repeated(value) => repeated_option(alloc, name, value, help),
        Kind::Flag => flag(alloc, name, help),
    }
}

/// Makes an argument that is one word.
fn word<'a>(alloc: Global, name: &'a str, help: &'a str) -> Arg<'a>
    ensures { IsArgument (word name.entry.now) result }
{
    optional_word(alloc, name, help).required(true)
}

/// Makes an argument that is one word, or left out.
fn optional_word<'a>(alloc: Global, name: &'a str, help: &'a str) -> Arg<'a>
    ensures { IsArgument (optional_word name.entry.now) result }
{
    Arg::new(alloc, name).action(ArgAction::Set).help(help)
}

/// Makes an argument that is one word or more, or left out.
fn optional_words<'a>(alloc: Global, name: &'a str, help: &'a str) -> Arg<'a>
    ensures { IsArgument (optional_words name.entry.now) result }
{
    optional_word(alloc, name, help).num_args(1..)
}

/// Makes an option with one value.
fn option<'a>(alloc: Global, name: &'a str, value: &'a str, help: &'a str) -> Arg<'a>
    ensures { IsArgument (option name.entry.now) result }
{
    Arg::new(alloc, name)
        .long(name)
        .value_name(value)
        .action(ArgAction::Set)
        .help(help)
}

/// Makes an option with one value that has to be given.
fn required_option<'a>(alloc: Global, name: &'a str, value: &'a str, help: &'a str) -> Arg<'a>
    ensures { IsArgument (required_option name.entry.now) result }
{
    option(alloc, name, value, help).required(true)
}

/// Makes an option with one value that may be given more than once.
fn repeated_option<'a>(alloc: Global, name: &'a str, value: &'a str, help: &'a str) -> Arg<'a>
    ensures { IsArgument (repeated_option name.entry.now) result }
{
    option(alloc, name, value, help).action(ArgAction::Append)
}

/// Makes an option without a value.
fn flag<'a>(alloc: Global, name: &'a str, help: &'a str) -> Arg<'a>
    ensures { IsArgument (flag name.entry.now) result }
{
    Arg::new(alloc, name)
        .long(name)
        .action(ArgAction::SetTrue)
        .help(help)
}
