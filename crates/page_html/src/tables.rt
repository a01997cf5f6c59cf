//! Tables of the page: each has its columns beside its cells.

ghost use Rattle.std.specs.Prelude.{◌≡◌, ◌≤◌, ◌++◌, ◌∷◌, [], OnOk, length, map};
ghost use Rattle.std.specs.String.{string_bytes};
ghost use Rattle.page_html.specs.Parts.{items_of};
ghost use Rattle.page_html.specs.PrivateTables.{empty_cells};
ghost use Rattle.page_html.specs.Tables as spec;
ghost use Rattle.page_html.specs.Titles.{titles_of};

use crate::part_pieces::push_within;
use crate::parts::{Part, push_parts};
use crate::titles::{Title, push_captions, push_labels};
use desk_tables::FsId;
use std::alloc::{AllocError, Global};

/// A column: its words, and what its cells are.
#[derive(Clone, Copy)]
pub enum Column {
    /// The head of each row.
    Name(&'static str),
    Plain(&'static str),
    /// Numbers, which end at the same place.
    Count(&'static str),
    /// A fact of a list, with its term.
    Fact(&'static str),
}

/// A table, or a list of facts: its class in the style sheet, whether its caption is seen, and its columns.
#[derive(Clone, Copy)]
pub struct Frame {
    pub class: &'static str,
    pub is_titled: bool,
    pub columns: &'static [Column],
}

/// Makes a row of four cells.
pub fn four_cells<'a>(
    first: &'a [Part<'a>],
    second: &'a [Part<'a>],
    third: &'a [Part<'a>],
    fourth: &'a [Part<'a>],
) -> [&'a [Part<'a>]; 4]
    ensures { map (λ cell. items_of cell.now) result ≡ items_of first.now ∷ items_of second.now ∷ items_of third.now ∷ items_of fourth.now ∷ [] }
{
    [first, second, third, fourth]
}

/// Makes a row of five cells.
pub fn five_cells<'a>(
    first: &'a [Part<'a>],
    second: &'a [Part<'a>],
    third: &'a [Part<'a>],
    fourth: &'a [Part<'a>],
    fifth: &'a [Part<'a>],
) -> [&'a [Part<'a>]; 5]
    ensures { map (λ cell. items_of cell.now) result
        ≡ items_of first.now ∷ items_of second.now ∷ items_of third.now ∷ items_of fourth.now ∷ items_of fifth.now ∷ [] }
{
    [first, second, third, fourth, fifth]
}

/// Makes a row of six cells.
pub fn six_cells<'a>(
    first: &'a [Part<'a>],
    second: &'a [Part<'a>],
    third: &'a [Part<'a>],
    fourth: &'a [Part<'a>],
    fifth: &'a [Part<'a>],
    sixth: &'a [Part<'a>],
) -> [&'a [Part<'a>]; 6]
    ensures { map (λ cell. items_of cell.now) result
        ≡ items_of first.now ∷ items_of second.now ∷ items_of third.now ∷ items_of fourth.now ∷ items_of fifth.now ∷ items_of sixth.now ∷ [] }
{
    [first, second, third, fourth, fifth, sixth]
}

/// Makes a row of seven cells.
pub fn seven_cells<'a>(
    first: &'a [Part<'a>],
    second: &'a [Part<'a>],
    third: &'a [Part<'a>],
    fourth: &'a [Part<'a>],
    fifth: &'a [Part<'a>],
    sixth: &'a [Part<'a>],
    seventh: &'a [Part<'a>],
) -> [&'a [Part<'a>]; 7]
    ensures { map (λ cell. items_of cell.now) result
        ≡ items_of first.now ∷ items_of second.now ∷ items_of third.now ∷ items_of fourth.now ∷ items_of fifth.now ∷ items_of sixth.now
        ∷ items_of seventh.now ∷ [] }
{
    [first, second, third, fourth, fifth, sixth, seventh]
}

/// Makes a row of eight cells.
pub fn eight_cells<'a>(
    first: &'a [Part<'a>],
    second: &'a [Part<'a>],
    third: &'a [Part<'a>],
    fourth: &'a [Part<'a>],
    fifth: &'a [Part<'a>],
    sixth: &'a [Part<'a>],
    seventh: &'a [Part<'a>],
    eighth: &'a [Part<'a>],
) -> [&'a [Part<'a>]; 8]
    ensures { map (λ cell. items_of cell.now) result
        ≡ items_of first.now ∷ items_of second.now ∷ items_of third.now ∷ items_of fourth.now ∷ items_of fifth.now ∷ items_of sixth.now
        ∷ items_of seventh.now ∷ items_of eighth.now ∷ [] }
{
    [first, second, third, fourth, fifth, sixth, seventh, eighth]
}

/// Adds a row, with a cell for each column.
pub fn push_row(
    alloc: Global,
    frame: &Frame,
    cells: &[&[Part<'_>]],
    page: &mut String,
) -> Result<(), AllocError>
    requires { length cells.now ≡ length frame.now.columns.now }
    ensures { OnOk result (string_bytes page.new ≡ string_bytes page.old ++ spec.row_html (spec.frame_of frame.now) (map (λ cell. items_of cell.now) cells.now)) }
{
    page.push_str("<tr>")?;
    push_cells(alloc, frame.columns, cells, page)?;
    page.push_str("</tr>\n")
}

/// Adds a row whose last cells are empty.
pub fn push_short_row(
    alloc: Global,
    frame: &Frame,
    cells: &[&[Part<'_>]],
    page: &mut String,
) -> Result<(), AllocError>
    requires { length cells.now ≤ length frame.now.columns.now }
    ensures { OnOk result (string_bytes page.new
        ≡ string_bytes page.old ++ spec.short_row_html (spec.frame_of frame.now) (map (λ cell. items_of cell.now) cells.now)) }
{
    let (first, rest) = frame.columns.split_at(cells.len());
    page.push_str("<tr>")?;
    push_cells(alloc, first, cells, page)?;
    push_empty_cells(alloc, rest, page)?;
    page.push_str("</tr>\n")?;
    Ok(())
}

/// Adds an empty cell for each column.
#[tactic(auto, unfolding(crate::specs::PrivateTables::empty_cells))]
fn push_empty_cells(alloc: Global, columns: &[Column], page: &mut String) -> Result<(), AllocError>
    ensures { OnOk result (string_bytes page.new ≡ string_bytes page.old ++ empty_cells (map spec.column_of columns.now)) }
{
    for column in columns {
        push_cell(alloc, *column, &[], page)?;
    }
    Ok(())
}

/// Adds a row that may stand out.
pub fn push_marked_row(
    alloc: Global,
    frame: &Frame,
    is_marked: bool,
    cells: &[&[Part<'_>]],
    page: &mut String,
) -> Result<(), AllocError>
    requires { length cells.now ≡ length frame.now.columns.now }
    ensures { OnOk result (string_bytes page.new
        ≡ string_bytes page.old ++ spec.marked_row_html is_marked (spec.frame_of frame.now) (map (λ cell. items_of cell.now) cells.now)) }
{
    push_marked_start(is_marked, page)?;
    push_cells(alloc, frame.columns, cells, page)?;
    page.push_str("</tr>\n")
}

/// Begins a row that may stand out.
fn push_marked_start(is_marked: bool, page: &mut String) -> Result<(), AllocError>
    ensures { OnOk result (string_bytes page.new ≡ string_bytes page.old ++ spec.marked_start is_marked) }
{
    page.push_str("<tr")?;
    page.push_str(mark_end(is_marked))
}

/// Returns how the tag of a row ends that may stand out.
fn mark_end(is_marked: bool) -> &'static str
    ensures { result.now ≡ spec.mark_end is_marked }
{
    if is_marked { " class=\"hit\">" } else { ">" }
}

/// Adds the row of a line of a file system, which links lead to, and which may stand out.
pub fn push_line_row(
    alloc: Global,
    frame: &Frame,
    fs: FsId,
    line: u32,
    is_marked: bool,
    cells: &[&[Part<'_>]],
    page: &mut String,
) -> Result<(), AllocError>
    requires { length cells.now ≡ length frame.now.columns.now }
    ensures { OnOk result (string_bytes page.new
        ≡ string_bytes page.old ++ spec.line_row_html fs.0 line is_marked (spec.frame_of frame.now) (map (λ cell. items_of cell.now) cells.now)) }
{
    push_line_row_start(fs.0, line, is_marked, page)?;
    push_cells(alloc, frame.columns, cells, page)?;
    page.push_str("</tr>\n")
}

/// Begins the row of a line.
fn push_line_row_start(
    fs: u32,
    line: u32,
    is_marked: bool,
    page: &mut String,
) -> Result<(), AllocError>
    ensures { OnOk result (string_bytes page.new ≡ string_bytes page.old ++ spec.line_row_start fs line is_marked) }
{
    write!(page, "<tr id=\"f{fs}-{line}\"")?;
    page.push_str(mark_end(is_marked))
}

/// Adds the cells of a row, or some of them.
pub(crate) fn push_cells(
    alloc: Global,
    columns: &[Column],
    cells: &[&[Part<'_>]],
    page: &mut String,
) -> Result<(), AllocError>
    requires { length cells.now ≡ length columns.now }
    ensures { OnOk result (string_bytes page.new ≡ string_bytes page.old ++ spec.cells_html (map spec.column_of columns.now) (map (λ cell. items_of cell.now) cells.now)) }
{
    for place in 0..cells.len() {
        push_cell(alloc, columns[place], cells[place], page)?;
    }
    Ok(())
}

/// Adds a cell of a column.
fn push_cell(
    alloc: Global,
    column: Column,
    parts: &[Part<'_>],
    page: &mut String,
) -> Result<(), AllocError>
    ensures { OnOk result (string_bytes page.new ≡ string_bytes page.old ++ spec.cell_html (spec.column_of column) (items_of parts.now)) }
{
    push_cell_start(column, page)?;
    push_parts(alloc, parts, page)?;
    page.push_str(cell_end(column))
}

/// Begins a cell of a column.
fn push_cell_start(column: Column, page: &mut String) -> Result<(), AllocError>
    ensures { OnOk result (string_bytes page.new ≡ string_bytes page.old ++ spec.cell_start (spec.column_of column)) }
{
    match column {
        Column::Name(_) => page.push_str("<th scope=\"row\">"),
        Column::Plain(_) => page.push_str("<td>"),
        Column::Count(_) => page.push_str("<td class=\"num\">"),
        Column::Fact(words) => push_within("<div><dt>", words, "</dt><dd>", page),
    }
}

/// Returns how it ends.
fn cell_end(column: Column) -> &'static str
    ensures { result.now ≡ spec.cell_end (spec.column_of column) }
{
    match column {
        Column::Name(_) => "</th>",
        Column::Plain(_) => "</td>",
        Column::Count(_) => "</td>",
        Column::Fact(_) => "</dd></div>\n",
    }
}

/// Begins a table, in a box in which it can be scrolled: its title, and the heads of its columns. It ends with `Tag::TableEnd`.
pub fn push_table_start(
    alloc: Global,
    frame: &Frame,
    title: &[Title<'_>],
    page: &mut String,
) -> Result<(), AllocError>
    ensures { OnOk result (string_bytes page.new ≡ string_bytes page.old ++ spec.table_start (spec.frame_of frame.now) (titles_of title.now)) }
{
    push_box(alloc, title, page)?;
    push_class(frame.class, page)?;
    push_caption(alloc, frame.is_titled, title, page)?;
    push_heads(frame.columns, page)?;
    page.push_str("</tr></thead>\n<tbody>\n")
}

/// Begins the box of a table, which is called by its title.
fn push_box(alloc: Global, title: &[Title<'_>], page: &mut String) -> Result<(), AllocError>
    ensures { OnOk result (string_bytes page.new ≡ string_bytes page.old ++ spec.box (titles_of title.now)) }
{
    page.push_str("<div class=\"wide\" tabindex=\"0\" role=\"region\" aria-label=\"")?;
    push_labels(alloc, title, page)?;
    page.push_str("\"><table")
}

/// Adds the end of the tag of a table.
fn push_class(class: &'static str, page: &mut String) -> Result<(), AllocError>
    ensures { OnOk result (string_bytes page.new ≡ string_bytes page.old ++ spec.class_html class.now) }
{
    if class.is_empty() {
        page.push_str(">\n")
    } else {
        push_within(" class=\"", class, "\">\n", page)
    }
}

/// Adds the caption of a table, and begins its head.
fn push_caption(
    alloc: Global,
    is_titled: bool,
    title: &[Title<'_>],
    page: &mut String,
) -> Result<(), AllocError>
    ensures { OnOk result (string_bytes page.new ≡ string_bytes page.old ++ spec.caption is_titled (titles_of title.now)) }
{
    page.push_str(caption_start(is_titled))?;
    push_captions(alloc, title, page)?;
    page.push_str("</caption>\n<thead><tr>")
}

/// Returns the tag of a caption.
fn caption_start(is_titled: bool) -> &'static str
    ensures { result.now ≡ spec.caption_start is_titled }
{
    if is_titled {
        "<caption>"
    } else {
        "<caption class=\"off\">"
    }
}

/// Adds the heads of columns.
#[tactic(auto, unfolding(crate::specs::Tables::heads))]
fn push_heads(columns: &[Column], page: &mut String) -> Result<(), AllocError>
    ensures { OnOk result (string_bytes page.new ≡ string_bytes page.old ++ spec.heads (map spec.column_of columns.now)) }
{
    for column in columns {
        push_head(*column, page)?;
    }
    Ok(())
}

/// Adds the head of a column.
fn push_head(column: Column, page: &mut String) -> Result<(), AllocError>
    ensures { OnOk result (string_bytes page.new ≡ string_bytes page.old ++ spec.head (spec.column_of column)) }
{
    match column {
        Column::Name(words) => push_within("<th scope=\"col\">", words, "</th>", page),
        Column::Plain(words) => push_within("<th scope=\"col\">", words, "</th>", page),
        Column::Fact(words) => push_within("<th scope=\"col\">", words, "</th>", page),
        Column::Count(words) => push_within(
            "<th scope=\"col\" class=\"num\">",
            words,
            "</th>",
            page,
        ),
    }
}
