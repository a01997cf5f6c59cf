//! The text of a file, each line with what it does.

ghost use Rattle.std.specs.Prelude.{◌≡◌, ◌<◌, ◌++◌, OnOk, length};
ghost use Rattle.std.specs.List.{AllPairs};
ghost use Rattle.std.specs.Str.Lines.{lines};
ghost use Rattle.std.specs.String.{string_bytes};
ghost use Rattle.desk_text.specs.Lines.{IsReadable};
ghost use Rattle.page_filesystem.specs.Texts as spec;

use crate::gutter::{Note, count_part, note_on, said_parts, stands_out, told_of};
use desk_tables::FsId;
use page_html::{
    Column, Element, Frame, Part, Tag, Title, push_element, push_line_row, push_table_start,
    push_tag,
};
use std::alloc::{AllocError, Global};

/// How many lines of a text stand in the open.
const OPEN_LINES: u64 = 40;

/// The table.
const TEXT: Frame = Frame {
    class: "text",
    is_titled: false,
    columns: &[
        Column::Name("Line"),
        Column::Plain("It grants"),
        Column::Count("to addresses"),
        Column::Plain("Text"),
    ],
};

/// Adds the text of the file of a file system with a name, folded if it is long, with the notes on its lines in their order.
pub fn push_text_block(
    alloc: Global,
    fs: FsId,
    name: &str,
    text: &str,
    notes: &[Note],
    page: &mut String,
) -> Result<(), AllocError>
    requires readable { IsReadable text.now }
    requires ascending { AllPairs (λ note later. note.line < later.line) notes.now }
    ensures { OnOk result (string_bytes page.new ≡ string_bytes page.old ++ spec.text_block fs.0 name.now notes.now text.now) }
{
    if line_count(text) <= OPEN_LINES {
        return push_text_table(alloc, fs, name, text, notes, page);
    }
    push_folded_text(alloc, fs, name, text, notes, page)
}

/// Adds the text, folded.
fn push_folded_text(
    alloc: Global,
    fs: FsId,
    name: &str,
    text: &str,
    notes: &[Note],
    page: &mut String,
) -> Result<(), AllocError>
    requires readable { IsReadable text.now }
    requires ascending { AllPairs (λ note later. note.line < later.line) notes.now }
    ensures { OnOk result (string_bytes page.new ≡ string_bytes page.old ++ spec.folded_text fs.0 name.now notes.now text.now) }
{
    push_element(
        alloc,
        Element::Fold,
        &[Part::Plural(line_count(text), "line", "lines")],
        page,
    )?;
    push_text_table(alloc, fs, name, text, notes, page)?;
    push_tag(Tag::FoldEnd, page)
}

/// Counts the physical lines of a text.
fn line_count(text: &str) -> u64
    requires { IsReadable text.now }
    ensures { result ≡ length (lines text.now) }
{
    let mut count = 0;
    for _line in text.lines() {
        count += 1;
    }
    count
}

/// Adds the table of the lines of a text, or that it is empty.
fn push_text_table(
    alloc: Global,
    fs: FsId,
    name: &str,
    text: &str,
    notes: &[Note],
    page: &mut String,
) -> Result<(), AllocError>
    requires readable { IsReadable text.now }
    requires ascending { AllPairs (λ note later. note.line < later.line) notes.now }
    ensures { OnOk result (string_bytes page.new ≡ string_bytes page.old ++ spec.text_table fs.0 name.now notes.now text.now) }
{
    if text.is_empty() {
        return push_element(
            alloc,
            Element::Paragraph,
            &[Part::Words("The text is empty: nobody may mount any of its directories.")],
            page,
        );
    }
    push_lines_table(alloc, fs, name, text, notes, page)
}

/// Adds the table of the lines of a text.
fn push_lines_table(
    alloc: Global,
    fs: FsId,
    name: &str,
    text: &str,
    notes: &[Note],
    page: &mut String,
) -> Result<(), AllocError>
    requires readable { IsReadable text.now }
    requires ascending { AllPairs (λ note later. note.line < later.line) notes.now }
    ensures { OnOk result (string_bytes page.new ≡ string_bytes page.old ++ spec.lines_table fs.0 name.now notes.now text.now) }
{
    push_text_start(alloc, name, page)?;
    push_text_rows(alloc, fs, text, notes, page)?;
    push_tag(Tag::TableEnd, page)
}

/// Begins the table.
fn push_text_start(alloc: Global, name: &str, page: &mut String) -> Result<(), AllocError>
    ensures { OnOk result (string_bytes page.new ≡ string_bytes page.old ++ spec.text_start name.now) }
{
    push_table_start(
        alloc,
        &TEXT,
        &[
            Title::Said("Text of "),
            Title::Named(name),
            Title::Said(", and what each line grants"),
        ],
        page,
    )
}

/// Adds the rows of the lines of a text.
fn push_text_rows(
    alloc: Global,
    fs: FsId,
    text: &str,
    notes: &[Note],
    page: &mut String,
) -> Result<(), AllocError>
    requires readable { IsReadable text.now }
    requires ascending { AllPairs (λ note later. note.line < later.line) notes.now }
    ensures { OnOk result (string_bytes page.new ≡ string_bytes page.old ++ spec.text_rows fs.0 notes.now 0 (lines text.now)) }
{
    let mut number = 0;
    for line in text.lines() {
        number += 1;
        push_text_row(alloc, fs, number, note_on(notes, number), line, page)?;
    }
    Ok(())
}

/// Adds the row of the line with a number, given the note on it.
fn push_text_row(
    alloc: Global,
    fs: FsId,
    number: u32,
    note: Option<Note>,
    line: &str,
    page: &mut String,
) -> Result<(), AllocError>
    ensures { OnOk result (string_bytes page.new ≡ string_bytes page.old ++ spec.line_row fs.0 (record { number = number; note = note; text = line.now })) }
{
    let told = told_of(note);
    let said = said_parts(note);
    push_line_row(
        alloc,
        &TEXT,
        fs,
        number,
        stands_out(told),
        &[
            &[Part::Digits(number)],
            &said,
            &[count_part(told)],
            &[Part::Line(line)],
        ],
        page,
    )
}
