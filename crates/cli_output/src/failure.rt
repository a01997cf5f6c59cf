//! Why a command has no answer: bad words, a file that cannot be read, or memory that ran out; and the message of it.

ghost use Rattle.std.specs.Prelude.{◌≡◌, ◌≢◌, [], IfOk, MatchResult};
ghost use Rattle.std.specs.String.{string_bytes};
ghost use Rattle.cli_output.specs.Failure.{IsFileFailure, IsMissing, IsRefusal, IsSystem, IsUnreadLine};
ghost use Rattle.cli_output.specs.declared.failure.Failure.TheVariants.{Memory};

use crate::bad_argument::{ArgumentFault, BadArgument};
use desk_mounts::MountsFault;
use std::alloc::{AllocError, AllocFailed, Global};
use std::io::ErrorKind;
use std::{fmt, io};

/// Where the words of a command come from.
#[derive(Clone, Copy)]
pub enum Origin {
    Arguments,
    /// The first line of standard input.
    FirstLine,
}

/// Why a command has no answer.
#[derive(Drop)]
pub enum Failure {
    /// The word at this place, from 1, is not UTF-8.
    Word(usize),
    /// The words are not a command: the message of `clap`.
    Usage(String),
    /// An argument that `clap` requires is missing.
    Missing(&'static str),
    /// This word cannot be given with `--site`.
    BesideSite(&'static str),
    /// FILE is given beside `--proposal`.
    BesideProposal,
    /// `--mountd` is given beside `--why`.
    BesideWhy,
    /// This form of findings cannot be given with `--sarif`.
    BesideSarif(&'static str),
    /// An argument cannot be parsed.
    Argument(BadArgument),
    /// MOUNT is given beside `--mounts`.
    BesideMounts,
    /// `--and` is given more than 8 times: how often.
    TooManyFiles(usize),
    /// `--zfs` is given without `--site`.
    ZfsAlone,
    /// There are more than 256 different mount points: the argument that gives them, as the usage names it, and how
    /// many there are.
    TooManyMounts(&'static str, usize),
    /// The first line of standard input cannot be read.
    FirstLine(ReadFailure),
    /// Two files are both to be standard input.
    InputTwice,
    /// Both `--key` and `--key-file` are given.
    KeyTwice,
    /// Neither `--key` nor `--key-file` is given.
    NoKey,
    /// The file that this argument names cannot be read: the argument as the usage names it, its word, and why.
    File(&'static str, String, ReadFailure),
    /// The file at this path, in the folder that gets the newest texts, cannot be written.
    Unwritten(String, io::Error),
    /// The port cannot be bound.
    Unbound(u16, io::Error),
    Memory,
}

/// Why bytes are not taken as a text.
#[derive(Clone, Copy)]
pub enum TextFault {
    /// They are over 16,777,216.
    TooLong,
    /// They are not UTF-8: the line and the column, in characters from 1, of the first byte that breaks it.
    NotUtf8 { line: usize, column: usize },
}

/// Why a text cannot be read.
#[derive(Drop)]
pub enum ReadFailure {
    System(io::Error),
    Text(TextFault),
    /// It is a text, but a line does not list a mount point.
    Mounts(MountsFault),
}

impl From<AllocError> for Failure {
    ghost use Rattle.std.specs.Prelude.{◌≡◌};
    ghost use Rattle.cli_output.specs.declared.failure.Failure.TheVariants.{Memory};

    ghost from_gives = { λ _ e. e ≡ Memory };

    fn from(_error: AllocError) -> Failure {
        Failure::Memory
    }
}

impl<T: Drop> From<AllocFailed<T>> for Failure {
    ghost use Rattle.std.specs.Prelude.{◌≡◌};
    ghost use Rattle.cli_output.specs.declared.failure.Failure.TheVariants.{Memory};

    ghost from_gives = { λ _ e. e ≡ Memory };

    fn from(_error: AllocFailed<T>) -> Failure {
        Failure::Memory
    }
}

impl Failure {
    /// Returns the failure of an argument that cannot be parsed.
    pub fn of_argument(
        alloc: Global,
        argument: &'static str,
        word: &str,
        fault: ArgumentFault,
    ) -> Failure
        ensures { IsRefusal argument.entry.now word.now fault result }
    {
        match String::from_str(alloc, word) {
            Ok(word) => Failure::Argument(BadArgument {
                argument,
                word,
                fault,
            }),
            Err(_) => Failure::Memory,
        }
    }

    /// Returns the failure to read the file that a word names.
    pub fn of_file(
        alloc: Global,
        argument: &'static str,
        word: &str,
        failure: ReadFailure,
    ) -> Failure
        ensures { IsFileFailure argument.entry.now word.now failure result }
    {
        match String::from_str(alloc, word) {
            Ok(word) => Failure::File(argument, word, failure),
            Err(_) => Failure::Memory,
        }
    }

    /// Returns the failure of an argument, as the usage names it, that is missing.
    pub fn of_missing(argument: &'static str) -> Failure
        ensures { IsMissing argument.entry.now result }
    {
        Failure::Missing(argument)
    }

    /// Returns the failure to read the first line of standard input.
    pub fn of_first_line(error: io::Error) -> Failure
        ensures { IsUnreadLine result }
    {
        match ReadFailure::of_error(error) {
            Ok(failure) => Failure::FirstLine(failure),
            Err(failure) => failure,
        }
    }
}

impl ReadFailure {
    /// Returns why the system could not read, or that memory ran out.
    pub fn of_error(error: io::Error) -> Result<ReadFailure, Failure>
        ensures { MatchResult result IsSystem (λ failure. failure ≡ Memory) }
    {
        match error.kind() {
            ErrorKind::OutOfMemory => Err(Failure::Memory),
            _ => Ok(ReadFailure::System(error)),
        }
    }
}

/// Writes the message on a failure, in whole lines.
pub fn message(alloc: Global, origin: Origin, failure: &Failure) -> Result<String, AllocError>
    ensures something { IfOk result (λ text. string_bytes text ≢ []) }
{
    if let (Origin::Arguments, Failure::Usage(text)) = (origin, failure) {
        // The message of `clap` names the program itself.
        if !text.is_empty() {
            return text.clone();
        }
    }
    let reason = reason(alloc, failure)?;
    let mut text = String::from_str(alloc, start(origin, failure))?;
    text.push_str(reason.as_str())?;
    Ok(text)
}

/// Returns what a message begins with: the program, and where the words of the command come from if they are at fault.
fn start(origin: Origin, failure: &Failure) -> &'static str
    ensures { result.now ≢ [] }
{
    match (origin, failure) {
        (Origin::Arguments, _) | (_, Failure::File(..)) => "exportdesk: ",
        (Origin::FirstLine, _) => "exportdesk: the first line of standard input: ",
    }
}

/// Writes what failed, in whole lines.
fn reason(alloc: Global, failure: &Failure) -> Result<String, AllocError> {
    match failure {
        Failure::Usage(text) => text.clone(),
        _ => format!(in alloc; "{failure}\n"),
    }
}

impl fmt::Display for Failure {
    fn fmt<W: fmt::Write>(&self, f: &mut fmt::Formatter<W>) -> fmt::Result {
        match self {
            Failure::Word(place) => write!(f, "word {place}: it is not UTF-8"),
            Failure::Usage(text) => f.write_str(text.as_str()),
            Failure::Missing(name) => write!(f, "{name}: it is missing"),
            Failure::BesideSite(name) => write!(f, "{name}: it cannot be given with --site"),
            Failure::BesideProposal => f.write_str("FILE: it cannot be given with --proposal"),
            Failure::BesideWhy => f.write_str("--mountd: it cannot be given with --why"),
            Failure::BesideSarif(name) => write!(f, "{name}: it cannot be given with --sarif"),
            Failure::Argument(bad) => bad.fmt(f),
            Failure::BesideMounts => f.write_str("MOUNT: it cannot be given with --mounts"),
            Failure::TooManyFiles(count) => { write!(f, "--and: over 8 files: there are {count}") }
            Failure::ZfsAlone => f.write_str("--zfs: it needs --site"),
            Failure::TooManyMounts(name, count) => {
                write!(
                    f,
                    "{name}: over 256 different mount points: there are {count}"
                )
            }
            Failure::FirstLine(failure) => failure.fmt(f),
            Failure::InputTwice => f.write_str("two files cannot both be standard input"),
            Failure::KeyTwice => f.write_str("--key and --key-file: only one of them can be given"),
            Failure::NoKey => f.write_str("--key or --key-file: it is missing"),
            Failure::File(argument, word, failure) => {
                write!(f, "{argument} {word:?}: {failure}")
            }
            Failure::Unwritten(path, error) => {
                write!(f, "DIR {path:?}: it cannot be written: {error}")
            }
            Failure::Unbound(port, error) => {
                write!(
                    f,
                    "--port {port}: 127.0.0.1:{port} cannot be bound: {error}"
                )
            }
            Failure::Memory => f.write_str("out of memory"),
        }
    }
}

impl fmt::Display for ReadFailure {
    fn fmt<W: fmt::Write>(&self, f: &mut fmt::Formatter<W>) -> fmt::Result {
        match self {
            ReadFailure::System(error) => error.fmt(f),
            ReadFailure::Text(TextFault::TooLong) => f.write_str("it is over 16777216 bytes"),
            ReadFailure::Text(TextFault::NotUtf8 { line, column }) => {
                write!(f, "line {line}, column {column}: it is not UTF-8")
            }
            ReadFailure::Mounts(fault) => fmt_mounts_fault(*fault, f),
        }
    }
}

/// Writes where a text of mount points has a fault, and which.
fn fmt_mounts_fault<W: fmt::Write>(fault: MountsFault, f: &mut fmt::Formatter<W>) -> fmt::Result {
    let (line, rule) = (fault.line, fault.rule);
    write!(f, "line {line}")?;
    if let Some(word) = rule.word() {
        write!(f, ", word {word}")?;
    }
    let (number, name) = (rule.number(), rule.name());
    write!(f, ": fault {number} {name}: {rule}")
}
