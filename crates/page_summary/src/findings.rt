//! The lines of the site that stand out.

ghost use Rattle.std.specs.Prelude.{◌≡◌, ◌++◌, OnOk, count_by, length};
ghost use Rattle.std.specs.List.{flat_map};
ghost use Rattle.std.specs.String.{string_bytes};
ghost use Rattle.page_html.specs.Tables.{frame_of};
ghost use Rattle.page_summary.specs.Findings as spec;

use crate::finding_cells::push_lines;
use crate::site_finding::SiteFinding;
use desk_text::Sequence;
use page_data::Level;
use page_html::{
    Column, Element, Frame, Part, Tag, Title, push_element, push_table_start, push_tag,
};
use std::alloc::{AllocError, Global};

/// How many rows of lines that stand out stand in the open.
const OPEN: usize = 24;

/// How many addresses there are.
pub(crate) const SPACE: u64 = 4_294_967_296;

/// The columns of the tables.
const COLUMNS: &[Column] = &[
    Column::Name("Level"),
    Column::Plain("Where"),
    Column::Plain("What, and the line as written"),
    Column::Count("Addresses"),
];

/// Lines that stand out.
const FINDINGS: Frame = Frame {
    class: "f",
    is_titled: false,
    columns: COLUMNS,
};

/// More lines that stand out.
const MORE_FINDINGS: Frame = Frame {
    class: "f",
    is_titled: true,
    columns: COLUMNS,
};

/// A line that stands out and what is told of it, the name of its file system, and its text.
#[derive(Clone, Copy)]
pub struct FindingRow<'a> {
    pub told: SiteFinding<'a>,
    pub system: &'a str,
    pub text: &'a str,
}

/// Adds how many lines are to be looked at first, and how many are to be checked.
pub fn push_counted_findings(
    alloc: Global,
    rows: &[FindingRow<'_>],
    page: &mut String,
) -> Result<(), AllocError>
    ensures { OnOk result (string_bytes page.new ≡ string_bytes page.old ++ spec.counted_findings rows.now) }
{
    let first = count_first(rows);
    push_element(
        alloc,
        Element::Paragraph,
        &[
            Part::Plural(first as u64, "line", "lines"),
            Part::Words(" to look at first, "),
            Part::Number((rows.len() - first) as u64),
            Part::Words(" to check. These are fixed rules over the lines ("),
            Part::Link("read", "below"),
            Part::Words("); what the site intends they do not know."),
        ],
        page,
    )
}

/// Counts the lines that are to be looked at first.
fn count_first(rows: &[FindingRow<'_>]) -> usize
    ensures { result ≡ count_by spec.is_first_row rows.now }
{
    rows.iter().filter(|row| is_first(row)).count()
}

/// Tests whether a line is to be looked at first.
fn is_first(row: &FindingRow<'_>) -> bool
    ensures { result ≡ spec.is_first_row row.now }
{
    match row.told.finding.level() {
        Level::LookFirst => true,
        Level::Check => false,
    }
}

/// Adds the lines that stand out, in the rows given: the first in the open, and the others folded.
pub fn push_findings(
    alloc: Global,
    rows: &[Sequence<FindingRow<'_>>],
    page: &mut String,
) -> Result<(), AllocError>
    ensures { OnOk result (string_bytes page.new ≡ string_bytes page.old ++ spec.findings rows.now) }
{
    if rows.is_empty() {
        push_element(
            alloc,
            Element::Paragraph,
            &[Part::Words("No line stands out by the rules of this report.")],
            page,
        )
    } else {
        push_open_and_folded(alloc, rows, page)
    }
}

/// Adds the first rows in the open, and the others folded.
fn push_open_and_folded(
    alloc: Global,
    rows: &[Sequence<FindingRow<'_>>],
    page: &mut String,
) -> Result<(), AllocError>
    ensures { OnOk result (string_bytes page.new ≡ string_bytes page.old ++ spec.open_and_folded rows.now) }
{
    if rows.len() <= OPEN {
        return push_table(alloc, &FINDINGS, "Lines that stand out", rows, page);
    }
    let (open, folded) = rows.split_at(OPEN);
    push_table(alloc, &FINDINGS, "Lines that stand out", open, page)?;
    push_folded(alloc, folded, page)
}

/// Adds rows that are folded.
fn push_folded(
    alloc: Global,
    rows: &[Sequence<FindingRow<'_>>],
    page: &mut String,
) -> Result<(), AllocError>
    ensures { OnOk result (string_bytes page.new ≡ string_bytes page.old ++ spec.folded_rows rows.now) }
{
    let count = rows.len() as u64;
    push_element(
        alloc,
        Element::Fold,
        &[Part::Plural(count, "more row", "more rows")],
        page,
    )?;
    push_table(
        alloc,
        &MORE_FINDINGS,
        "More lines that stand out",
        rows,
        page,
    )?;
    push_tag(Tag::FoldEnd, page)
}

/// Adds a table of rows.
fn push_table(
    alloc: Global,
    frame: &Frame,
    title: &'static str,
    rows: &[Sequence<FindingRow<'_>>],
    page: &mut String,
) -> Result<(), AllocError>
    requires { length frame.now.columns.now ≡ length spec.columns }
    ensures { OnOk result (string_bytes page.new ≡ string_bytes page.old ++ spec.table (frame_of frame.now) title.now rows.now) }
{
    push_table_start(alloc, frame, &[Title::Said(title)], page)?;
    push_rows(alloc, frame, rows, page)?;
    push_tag(Tag::TableEnd, page)
}

/// Adds rows.
fn push_rows(
    alloc: Global,
    frame: &Frame,
    rows: &[Sequence<FindingRow<'_>>],
    page: &mut String,
) -> Result<(), AllocError>
    requires { length frame.now.columns.now ≡ length spec.columns }
    ensures { OnOk result (string_bytes page.new ≡ string_bytes page.old ++ flat_map (spec.lines_html (frame_of frame.now)) rows.now) }
{
    for row in rows {
        push_lines(alloc, frame, row.as_slice(), page)?;
    }
    Ok(())
}
