//! The files that words name, read whole as texts. A failure names the argument as the usage does.

ghost use Rattle.std.specs.Prelude.{◌≡◌, ◌≢◌, ◌≤◌, ◌==◌, IfErr, IfOk, IfSome, None, Some, codes, false, length, take};
ghost use Rattle.std.specs.String.{string_bytes};
ghost use Rattle.cli_files.specs.Files as spec;
ghost use Rattle.std.specs.Bool.{Decides};
ghost use Rattle.std.specs.IoError.{error_kind};
ghost use Rattle.std.specs.Option.{option_map};
ghost use Rattle.std.specs.declared.io.ErrorKind.TheVariants.{NotFound};
ghost use Rattle.cli_output.specs.Failure.{IsUnread};
ghost use Rattle.cli_files.specs.Files.{FindsIfThere, FindsOrEmpty, Leaves, ReadsIfGiven, ReadsIfThere, ReadsNamed, ReadsText, TakesText};
ghost use Rattle.cli_files.specs.Input.{text_of};
ghost use Rattle.cli_files.specs.PrivateFiles.{OpensBy};

use crate::input::{read_bytes, text_of};
use crate::opening::Opens;
use cli_output::failure::{Failure, ReadFailure};
use std::alloc::Global;
use std::io;
use std::io::{BufRead, ErrorKind, Read};

/// Why the bytes of a file are not read.
#[derive(Clone, Copy)]
struct Unread {
    /// There is no such file.
    is_missing: bool,
    error: io::Error,
}

/// Tests whether a word names standard input.
pub fn is_input(word: &str) -> bool
    ensures { result ≡ spec.is_input word.now }
{
    word == "-"
}

/// Reads the text of the file that a word names; `-` is standard input.
pub fn read_text<I: BufRead>(
    rt: &HostRuntime,
    argument: &'static str,
    word: &str,
    input: &mut I,
) -> Result<String, Failure>
    ensures text { ReadsText argument.now word.now (I.remaining input.old) result }
    ensures short { IfOk result (λ text. length (string_bytes text) ≤ 16777216) }
    ensures untouched { word.now ≢ codes "-" → input.new ≡ input.old }
{
    text_by(rt, rt.alloc(), argument, word, input)
}

/// Reads the text of the file that a word names, by what opens it.
pub(crate) fn text_by<S: Opens, I: BufRead>(
    system: &S,
    alloc: Global,
    argument: &'static str,
    word: &str,
    input: &mut I,
) -> Result<String, Failure>
    ensures text { ReadsText argument.now word.now (I.remaining input.old) result }
    ensures named { word.now ≢ codes "-" → ReadsNamed argument.now word.now (S.holds system.now word.now) result }
    ensures opened { word.now ≢ codes "-" → IfSome (S.fails system.now word.now) (λ kind. IfOk result (λ _. kind ≡ None)) }
    ensures short { IfOk result (λ text. length (string_bytes text) ≤ 16777216) }
    ensures untouched { word.now ≢ codes "-" → input.new ≡ input.old }
{
    match read_file(system, alloc, word, input) {
        Ok(bytes) => take_text(alloc, argument, word, bytes),
        Err(unread) => Err(unread_failure(alloc, argument, word, unread.error)),
    }
}

/// Reads the text of the file that a word names, or the empty text if there is no word.
pub fn read_if_given<I: BufRead>(
    rt: &HostRuntime,
    argument: &'static str,
    word: Option<&str>,
    input: &mut I,
) -> Result<String, Failure>
    ensures text { ReadsIfGiven argument.now (option_map (λ word. word.now) word.entry) (I.remaining input.old) result }
    ensures short { IfOk result (λ text. length (string_bytes text) ≤ 16777216) }
    ensures left { Leaves (option_map (λ word. word.now) word.entry) (I.remaining input.old) (I.remaining input.new) }
{
    match word {
        Some(word) => read_text(rt, argument, word, input),
        None => Ok(String::new(rt.alloc())),
    }
}

/// Reads the text of the file that a word names, if there is such a file. Standard input is always there.
pub fn read_if_there<I: BufRead>(
    rt: &HostRuntime,
    argument: &'static str,
    word: &str,
    input: &mut I,
) -> Result<Option<String>, Failure>
    ensures text { ReadsIfThere argument.now word.now (I.remaining input.old) result }
    ensures short { IfOk result (λ found. IfSome found (λ text. length (string_bytes text) ≤ 16777216)) }
    ensures untouched { word.now ≢ codes "-" → input.new ≡ input.old }
{
    there_by(rt, rt.alloc(), argument, word, input)
}

/// Reads the text of the file that a word names, if there is such a file, by what opens it.
pub(crate) fn there_by<S: Opens, I: BufRead>(
    system: &S,
    alloc: Global,
    argument: &'static str,
    word: &str,
    input: &mut I,
) -> Result<Option<String>, Failure>
    ensures text { ReadsIfThere argument.now word.now (I.remaining input.old) result }
    ensures found { word.now ≢ codes "-" → IfSome (S.fails system.now word.now) (λ kind. FindsIfThere kind result) }
    ensures short { IfOk result (λ found. IfSome found (λ text. length (string_bytes text) ≤ 16777216)) }
    ensures untouched { word.now ≢ codes "-" → input.new ≡ input.old }
{
    match read_file(system, alloc, word, input) {
        Ok(bytes) => match take_text(alloc, argument, word, bytes) {
            Ok(text) => Ok(Some(text)),
            Err(failure) => Err(failure),
        },
        Err(unread) => {
            if unread.is_missing {
                return Ok(None);
            }
            Err(unread_failure(alloc, argument, word, unread.error))
        }
    }
}

/// Reads the text of the file that a word names, or the empty text if there is no such file.
pub fn read_or_empty<I: BufRead>(
    rt: &HostRuntime,
    argument: &'static str,
    word: &str,
    input: &mut I,
) -> Result<String, Failure>
    ensures text { ReadsIfGiven argument.now (Some word.now) (I.remaining input.old) result }
    ensures short { IfOk result (λ text. length (string_bytes text) ≤ 16777216) }
    ensures left { Leaves (Some word.now) (I.remaining input.old) (I.remaining input.new) }
{
    empty_by(rt, rt.alloc(), argument, word, input)
}

/// Reads the text of the file that a word names, or the empty text if there is no such file, by what opens it.
fn empty_by<S: Opens, I: BufRead>(
    system: &S,
    alloc: Global,
    argument: &'static str,
    word: &str,
    input: &mut I,
) -> Result<String, Failure>
    ensures text { ReadsIfGiven argument.now (Some word.now) (I.remaining input.old) result }
    ensures found { word.now ≢ codes "-" → IfSome (S.fails system.now word.now) (λ kind. FindsOrEmpty kind result) }
    ensures short { IfOk result (λ text. length (string_bytes text) ≤ 16777216) }
    ensures left { Leaves (Some word.now) (I.remaining input.old) (I.remaining input.new) }
{
    match there_by(system, alloc, argument, word, input) {
        Ok(Some(text)) => Ok(text),
        Ok(None) => Ok(String::new(alloc)),
        Err(failure) => Err(failure),
    }
}

/// Takes the bytes of a file as its text.
fn take_text(
    alloc: Global,
    argument: &'static str,
    word: &str,
    bytes: Vec<u8>,
) -> Result<String, Failure>
    ensures text { TakesText argument.now word.now (text_of bytes.items) result }
    ensures short { IfOk result (λ text. length (string_bytes text) ≤ 16777216) }
{
    match text_of(bytes) {
        Ok(text) => Ok(text),
        Err(fault) => Err(Failure::of_file(alloc, argument, word, ReadFailure::Text(fault))),
    }
}

/// Returns the failure to read the file that a word names.
fn unread_failure(alloc: Global, argument: &'static str, word: &str, error: io::Error) -> Failure
    ensures { IsUnread argument.now word.now result }
{
    match ReadFailure::of_error(error) {
        Ok(failure) => Failure::of_file(alloc, argument, word, failure),
        Err(failure) => failure,
    }
}

/// Reads the bytes of the file that a word names; `-` is standard input.
fn read_file<S: Opens, I: BufRead>(
    system: &S,
    alloc: Global,
    word: &str,
    input: &mut I,
) -> Result<Vec<u8>, Unread>
    ensures read { word.now ≡ codes "-" → IfSome (I.remaining input.old)
        (λ given. IfOk result (λ bytes. bytes.items ≡ take 16777217 given)) }
    ensures named { word.now ≢ codes "-" → IfSome (S.holds system.now word.now)
        (λ given. IfOk result (λ bytes. bytes.items ≡ take 16777217 given)) }
    ensures opened { word.now ≢ codes "-" → IfSome (S.fails system.now word.now) (λ kind. OpensBy kind result) }
    ensures there { word.now ≡ codes "-" → IfErr result (λ unread. unread.is_missing ≡ false) }
    ensures untouched { word.now ≢ codes "-" → input.new ≡ input.old }
{
    if word == "-" {
        return read_opened(alloc, input, 0);
    }
    match system.open(word) {
        Ok(file) => {
            let room = system.room_for(&file);
            read_opened(alloc, file, room)
        }
        Err(error) => Err(Unread {
            is_missing: is_missing(error),
            error,
        }),
    }
}

/// Reads the bytes of what is opened.
fn read_opened<R: Read + Drop>(alloc: Global, reader: R, room: usize) -> Result<Vec<u8>, Unread>
    ensures read { IfSome (R.remaining reader) (λ given. IfOk result (λ bytes. bytes.items ≡ take 16777217 given)) }
    ensures there { IfErr result (λ unread. unread.is_missing ≡ false) }
{
    match read_bytes(alloc, reader, room) {
        Ok(bytes) => Ok(bytes),
        Err(error) => Err(Unread {
            is_missing: false,
            error,
        }),
    }
}

/// Tests whether a file cannot be opened by this error because it is not there.
fn is_missing(error: io::Error) -> bool
    ensures { Decides result (error_kind error ≡ NotFound) }
{
    error.kind() == ErrorKind::NotFound
}
