//! A whole exports text, split into one text for each file system. Each logical line goes as it is written, with all its
//! physical lines.

ghost use Rattle.std.specs.Prelude.{◌≡◌, ◌++◌, IfOk, OnOk, [], length, map, replicate, string_bytes};
ghost use Rattle.desk_text.specs.Lines.{IsReadable};
ghost use Rattle.desk_text.specs.Reading.{Reads, ReadsAs};
ghost use Rattle.desk_split.specs.Splitting as spec;
ghost use Rattle.desk_split.specs.PrivateSplitting.{Sends, with_more};

use desk_exports::lines::WordRoom;
use desk_exports::{GrammarLine, Rule};
use desk_tables::{FileSystems, FsId};
use desk_text::{Line, LineFault, ReadError, logical_lines};
use std::alloc::{AllocError, Global};

/// Splits a whole text, of at most 4,294,967,294 bytes, into a text for each file system, in the order of the table. Each
/// logical line goes to the file system of its first directory, and a `V4:` line to the first file system, if one is
/// listed; comments are left out. The first faulty line is returned: of the rules only OpenQuote and StrayComment are
/// checked, and NotAbsolute, BadPath and DirectoryElsewhere of its first word.
pub fn split(
    alloc: Global,
    text: &str,
    filesystems: &FileSystems,
) -> Result<Vec<String>, ReadError<LineFault<Rule>>>
    requires { IsReadable text.now }
    ensures split { ReadsAs (λ texts. map string_bytes texts.items) result (spec.split_text filesystems.now text.now) }
    ensures count { IfOk result (λ texts. length texts.items ≡ length filesystems.now) }
{
    let lines = logical_lines(alloc, text)?;
    let mut texts = empty_texts(alloc, filesystems.len())?;
    let mut room = WordRoom::new(alloc);
    for line in &lines {
        send_line(alloc, &mut room, filesystems, line, &mut texts)?;
    }
    Ok(texts)
}

/// Makes this many empty texts.
fn empty_texts(alloc: Global, count: usize) -> Result<Vec<String>, AllocError>
    ensures { IfOk result (λ texts. map string_bytes texts.items ≡ replicate count []) }
{
    let mut texts = Vec::with_capacity(alloc, count)?;
    for _ in 0..count {
        texts.push(String::new(alloc))?;
    }
    Ok(texts)
}

/// Adds a logical line to the text of the file system that it goes to, if it goes to one.
fn send_line<'a>(
    alloc: Global,
    room: &mut WordRoom<'a>,
    filesystems: &FileSystems,
    line: &Line<'a>,
    texts: &mut Vec<String>,
) -> Result<(), ReadError<LineFault<Rule>>>
    ensures { Sends filesystems.now result (map string_bytes texts.old.items) (map string_bytes texts.new.items) line.now }
{
    match destination_of(alloc, room, filesystems, line) {
        Ok(Some(fs)) => {
            append_line(texts, fs, line)?;
            Ok(())
        }
        Ok(None) => Ok(()),
        Err(error) => Err(error.at_line(line.number())),
    }
}

/// Finds the file system that a logical line goes to, if it goes to one, or returns the first rule that it breaks.
fn destination_of<'a>(
    alloc: Global,
    room: &mut WordRoom<'a>,
    filesystems: &FileSystems,
    line: &Line<'a>,
) -> Result<Option<FsId>, ReadError<Rule>>
    ensures { Reads result (spec.destination_of filesystems.now line.now) }
{
    match ReadError::split(room.read_line(alloc, line))? {
        Ok(grammar) => match destination_by(filesystems, &grammar) {
            Ok(fs) => Ok(fs),
            Err(rule) => Err(ReadError::Fault(rule)),
        },
        Err(_) => Err(ReadError::Fault(Rule::OpenQuote)),
    }
}

/// Finds the file system that a sorted line goes to.
fn destination_by(filesystems: &FileSystems, line: &GrammarLine) -> Result<Option<FsId>, Rule>
    ensures { result ≡ spec.destination_by filesystems.now line.now }
{
    if line.has_stray_comment {
        return Err(Rule::StrayComment);
    }
    if line.is_v4 {
        return Ok(first_fs(filesystems));
    }
    match line.directories.as_slice().first() {
        Some(Ok(path)) => match filesystems.of(path) {
            Some(fs) => Ok(Some(fs)),
            None => Err(Rule::DirectoryElsewhere),
        },
        Some(Err(_)) => Err(Rule::BadPath),
        None => Err(Rule::NotAbsolute),
    }
}

/// Returns the first file system, if one is listed.
fn first_fs(filesystems: &FileSystems) -> Option<FsId>
    ensures { result ≡ spec.first_fs filesystems.now }
{
    match filesystems.as_slice() {
        [] => None,
        _ => Some(FsId(0)),
    }
}

/// Writes a logical line at the end of the text of a file system, if it has one.
fn append_line(texts: &mut Vec<String>, fs: FsId, line: &Line) -> Result<(), AllocError>
    ensures { OnOk result
        (map string_bytes texts.new.items ≡ with_more (map string_bytes texts.old.items) fs.0 (spec.written_line line.now)) }
{
    if let Some(text) = texts.get_mut(fs.0 as usize) {
        write_line(text, line)?;
    }
    Ok(())
}

/// Writes the physical lines of a logical line at the end of a text.
fn write_line(text: &mut String, line: &Line) -> Result<(), AllocError>
    ensures { OnOk result (string_bytes text.new ≡ string_bytes text.old ++ spec.written_line line.now) }
{
    for part in line.parts() {
        text.push_str(part.whole)?;
        text.push_str(line_end(part.whole))?;
    }
    Ok(())
}

/// Returns what ends a physical line. The reader drops one carriage return before a line feed, so a line that ends with
/// one gets another.
fn line_end(line: &str) -> &'static str
    ensures { result.now ≡ spec.line_end line.now }
{
    if line.ends_with('\r') { "\r\n" } else { "\n" }
}
