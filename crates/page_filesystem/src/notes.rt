//! What is said of each logical line of the text of a file.

ghost use Rattle.std.specs.Prelude.{◌≡◌, ◌++◌, IfOk, OnOk, map};
ghost use Rattle.std.specs.Option.{option_map, option_to_list};
ghost use Rattle.desk_text.specs.Lines.{IsReadable};
ghost use Rattle.desk_exports.specs.Laws.{takes_part};
ghost use Rattle.page_findings.specs.Lines.{line_value};
ghost use Rattle.page_filesystem.specs.Notes as spec;
ghost use Rattle.page_filesystem.specs.Notes.{LinesAscend, NotesAscend};

use crate::gutter::{Note, Said, Told};
use desk_exports::lines::read_grammar_line;
use desk_text::{Line, LogicalLines, ReadError};
use page_data::reasons::are_all;
use page_data::{Class, Reason};
use page_findings::SiteLine;
use std::alloc::{AllocError, Global};

/// Says of each logical line of a text what it does, given the lines of the file system in their order.
pub fn notes_of(alloc: Global, lines: &[SiteLine<'_>], text: &str) -> Result<Vec<Note>, AllocError>
    requires readable { IsReadable text.now }
    requires ascending { LinesAscend (map line_value lines.now) }
    ensures notes { IfOk result (λ notes. notes.items ≡ spec.notes_of (map line_value lines.now) text.now) }
    ensures ascending { IfOk result (λ notes. NotesAscend notes.items) }
{
    let mut left = LogicalLines::new(alloc, text);
    let mut notes = Vec::new(alloc);
    while let Some(line) = left.next()? {
        push_note(alloc, lines, &line, &mut notes)?;
    }
    Ok(notes)
}

/// Adds the note on a logical line, if there is one.
fn push_note(
    alloc: Global,
    lines: &[SiteLine<'_>],
    line: &Line<'_>,
    notes: &mut Vec<Note>,
) -> Result<(), AllocError>
    requires { LinesAscend (map line_value lines.now) }
    ensures { OnOk result (notes.new.items ≡ notes.old.items ++ option_to_list (spec.logical_line_note (map line_value lines.now) line.now)) }
{
    if let Some(note) = logical_line_note(alloc, lines, line)? {
        notes.push(note)?;
    }
    Ok(())
}

/// Says what a logical line does: what the line of its number does, if it takes part, and else that it is not read.
fn logical_line_note(
    alloc: Global,
    lines: &[SiteLine<'_>],
    line: &Line<'_>,
) -> Result<Option<Note>, AllocError>
    requires { LinesAscend (map line_value lines.now) }
    ensures { IfOk result (λ note. note ≡ spec.logical_line_note (map line_value lines.now) line.now) }
{
    if takes_part(alloc, line)? {
        return Ok(numbered_line_note(lines, line.number()));
    }
    Ok(Some(not_read(line.number())))
}

/// Tests whether a logical line takes part: its quotes close, and it does not begin with `V4:`.
fn takes_part(alloc: Global, line: &Line<'_>) -> Result<bool, AllocError>
    ensures { IfOk result (λ takes. takes ≡ takes_part line.now) }
{
    match ReadError::split(read_grammar_line(alloc, line))? {
        Ok(grammar) => Ok(!grammar.is_v4),
        Err(_) => Ok(false),
    }
}

/// Says what the line with a number does, if there is one, by a binary search.
fn numbered_line_note(lines: &[SiteLine<'_>], number: u32) -> Option<Note>
    requires { LinesAscend (map line_value lines.now) }
    ensures { result ≡ option_map spec.site_line_note (spec.line_at (map line_value lines.now) number) }
{
    let place = lines.partition_point(|line| line.row.entry.line < number);
    match lines.get(place) {
        Some(line) if line.row.entry.line == number => Some(site_line_note(line)),
        _ => None,
    }
}

/// Says that a line is not read.
fn not_read(number: u32) -> Note
    ensures { result ≡ spec.not_read number }
{
    Note {
        line: number,
        told: None,
    }
}

/// Says what a line does.
fn site_line_note(line: &SiteLine<'_>) -> Note
    ensures { result ≡ spec.site_line_note (line_value line.now) }
{
    Note {
        line: line.row.entry.line,
        told: Some(site_line_told(line)),
    }
}

/// Tells what a line does, and whether it stands out.
fn site_line_told(line: &SiteLine<'_>) -> Told
    ensures { result ≡ spec.site_line_told (line_value line.now) }
{
    Told {
        said: said_of(line),
        stands_out: line.stands_out(),
    }
}

/// Says what a line grants, unless it stands out because it decides nothing.
fn said_of(line: &SiteLine<'_>) -> Said
    ensures { result ≡ spec.said_for (line_value line.now) (line_value line.now).reasons }
{
    match line.reasons {
        [] => granted(line),
        [first, ..] => said_by(line, *first),
    }
}

/// Says the same, given the first reason for which it stands out.
fn said_by(line: &SiteLine<'_>, reason: Reason<'_>) -> Said
    ensures { result ≡ spec.said_by (line_value line.now) reason.entry }
{
    match reason {
        Reason::NoClient => Said::MatchesNobody,
        Reason::NeverDecides => Said::NeverDecides,
        _ => granted(line),
    }
}

/// Says what a line grants.
fn granted(line: &SiteLine<'_>) -> Said
    ensures { result ≡ spec.granted (line_value line.now) }
{
    Said::Grants {
        class: Class::of_terms(&line.row.entry.terms),
        for_everybody: are_all(&line.row.entry.clients),
        count: line.count,
    }
}
