//! The mount points that a text lists.

ghost use Rattle.std.specs.Prelude.{◌≡◌, IfOk, map};
ghost use Rattle.desk_text.specs.Lines.{IsReadable};
ghost use Rattle.desk_text.specs.Path.{read_path};
ghost use Rattle.desk_text.specs.Reading.{Reads, ReadsAs};
ghost use Rattle.desk_text.specs.Views.{word_of};
ghost use Rattle.desk_text.specs.Word.{word_value};
ghost use Rattle.desk_mounts.specs.PrivateReading.{AddsListed};
ghost use Rattle.desk_mounts.specs.Reading as spec;

use crate::rules::{MountsFault, Rule};
use desk_text::{Line, Path, PathFault, ReadError, Word, logical_lines, unquote, words};
use std::alloc::{AllocError, Global};

/// Reads the mount points that a text lists, in the order of its lines, or its first fault. A line of one word is a path, one of two
/// words a line of `zfs mount`, and one of four or more a line of `mount -p`; one of three is a fault. The text has at most
/// 4,294,967,294 bytes.
pub fn read_mounts(alloc: Global, text: &str) -> Result<Vec<Path>, ReadError<MountsFault>>
    requires { IsReadable text.now }
    ensures { ReadsAs (λ v. v.items) result (spec.read_mounts text.now) }
{
    let lines = logical_lines(alloc, text)?;
    let mut found = Vec::new(alloc);
    for line in &lines {
        push_listed(&mut found, line.number(), read_line(alloc, line))?;
    }
    Ok(found)
}

/// Adds the mount point that the line with this number lists, if it lists one; or returns its fault.
fn push_listed(
    found: &mut Vec<Path>,
    number: u32,
    answer: Result<Option<Path>, ReadError<Rule>>,
) -> Result<(), ReadError<MountsFault>>
    ensures { AddsListed number answer found.old.items found.new.items result }
{
    match answer {
        Ok(Some(path)) => {
            found.push(path)?;
            Ok(())
        }
        Ok(None) => Ok(()),
        Err(error) => Err(error.at_line(number)),
    }
}

/// Reads the mount point that a line lists, if it lists one, or the rule that it breaks.
fn read_line(alloc: Global, line: &Line) -> Result<Option<Path>, ReadError<Rule>>
    ensures { Reads result (spec.line_answer line.now) }
{
    match words(alloc, line) {
        Ok(words) => read_words(alloc, words.as_slice()),
        Err(error) => Err(error.map_fault(|_| Rule::OpenQuote)),
    }
}

/// Reads the mount point that a line of these words lists.
fn read_words(alloc: Global, words: &[Word]) -> Result<Option<Path>, ReadError<Rule>>
    ensures { Reads result (spec.words_answer (map (λ w. word_value w.raw) (map word_of words.now))) }
{
    match words {
        [path] => read_only(alloc, path),
        [_, path] => read_second(alloc, path),
        [_, path, kind, _, ..] => read_kept(alloc, path, kind),
        _ => Err(ReadError::Fault(Rule::Words)),
    }
}

/// Reads the mount point of a line of `mount -p`, if its type is not left out.
fn read_kept(alloc: Global, path: &Word, kind: &Word) -> Result<Option<Path>, ReadError<Rule>>
    ensures { Reads result (spec.kept_answer (spec.is_left_out (word_value kind.now.raw.now)) (word_value path.now.raw.now)) }
{
    if is_kind_left_out(alloc, kind)? {
        return Ok(None);
    }
    read_second(alloc, path)
}

/// Tests whether a word is a type that is left out.
fn is_kind_left_out(alloc: Global, kind: &Word) -> Result<bool, AllocError>
    ensures { IfOk result (λ out. out ≡ spec.is_left_out (word_value kind.now.raw.now)) }
{
    let kind = unquote(alloc, kind)?;
    Ok(is_left_out(kind.as_str()))
}

/// Tests whether file systems of a type are left out.
fn is_left_out(kind: &str) -> bool
    ensures { result ≡ spec.is_left_out kind.now }
{
    kind == "devfs"
        || kind == "fdescfs"
        || kind == "procfs"
        || kind == "linprocfs"
        || kind == "linsysfs"
        || kind == "autofs"
        || kind == "swap"
}

/// Reads the mount point that is the only word of a line.
fn read_only(alloc: Global, word: &Word) -> Result<Option<Path>, ReadError<Rule>>
    ensures { Reads result (spec.word_answer (λ fault. Rule.Only fault) (word_value word.now.raw.now)) }
{
    match read_word(alloc, word) {
        Ok(path) => Ok(Some(path)),
        Err(error) => Err(error.map_fault(|fault| Rule::Only(fault))),
    }
}

/// Reads the mount point that is the second word of a line.
fn read_second(alloc: Global, word: &Word) -> Result<Option<Path>, ReadError<Rule>>
    ensures { Reads result (spec.word_answer (λ fault. Rule.Second fault) (word_value word.now.raw.now)) }
{
    match read_word(alloc, word) {
        Ok(path) => Ok(Some(path)),
        Err(error) => Err(error.map_fault(|fault| Rule::Second(fault))),
    }
}

/// Reads the path that a word writes.
fn read_word(alloc: Global, word: &Word) -> Result<Path, ReadError<PathFault>>
    ensures { Reads result (read_path (word_value word.now.raw.now)) }
{
    let text = unquote(alloc, word)?;
    Path::read(alloc, text.as_str())
}
