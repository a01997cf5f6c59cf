//! The rows of a table of verdicts.

ghost use Rattle.std.specs.Prelude.{◌≡◌, ◌≤◌, ◌^◌, ◌++◌, IfOk, OnOk, map};
ghost use Rattle.std.specs.String.{string_bytes};
ghost use Rattle.desk_policy.specs.Verdict.{verdict_result};
ghost use Rattle.desk_who.specs.Who.{range_value};
ghost use Rattle.page_html.specs.Parts.{item_of};
ghost use Rattle.page_html.specs.Tables.{row_html};
ghost use Rattle.page_places.specs.Rows as spec;

use desk_policy::{Denial, Verdict};
use desk_tables::FsId;
use desk_who::Range;
use page_data::{Class, TableRow};
use page_findings::badge_part;
use page_html::{Column, Frame, Part, Span, push_row};
use std::alloc::{AllocError, Global};

/// How many addresses there are.
const ALL: u64 = 1 << 32;

/// The table.
pub(crate) const VERDICTS: Frame = Frame {
    class: "v",
    is_titled: false,
    columns: &[
        Column::Name("Verdict"),
        Column::Plain("Clients"),
        Column::Count("Addresses"),
        Column::Plain("By, and on what terms"),
    ],
};

/// Adds the row of a verdict on a file system.
pub(crate) fn push_verdict_row(
    alloc: Global,
    fs: FsId,
    row: &TableRow<'_>,
    page: &mut String,
) -> Result<(), AllocError>
    requires { spec.size_of (spec.row_value row.now).spans ≤ 2 ^ 32 }
    ensures { OnOk result (string_bytes page.new ≡ string_bytes page.old ++ row_html spec.verdict_frame (spec.cells fs.0 (spec.row_value row.now))) }
{
    let spans = spans_of(alloc, row.ranges.as_slice())?;
    push_row_of(alloc, fs, row, spans.as_slice(), page)
}

/// Adds the row of a verdict, given the ranges of addresses that have it.
fn push_row_of<'a>(
    alloc: Global,
    fs: FsId,
    row: &'a TableRow<'a>,
    spans: &'a [Span],
    page: &mut String,
) -> Result<(), AllocError>
    requires spans { spans.now ≡ (spec.row_value row.now).spans }
    requires size { spec.size_of spans.now ≤ 2 ^ 32 }
    ensures { OnOk result (string_bytes page.new ≡ string_bytes page.old ++ row_html spec.verdict_frame (spec.cells fs.0 (spec.row_value row.now))) }
{
    let reason = reason_of(fs, &row.verdict);
    push_row(
        alloc,
        &VERDICTS,
        &[
            &[badge_part(Class::of(&row.verdict))],
            &[clients_of(&row.verdict, spans)],
            &[Part::PartOf(size_of(spans), ALL)],
            &reason,
        ],
        page,
    )
}

/// Adds the row of all whom no other row tells of, of whom there are so many.
pub(crate) fn push_others_row(
    alloc: Global,
    count: u64,
    page: &mut String,
) -> Result<(), AllocError>
    ensures { OnOk result (string_bytes page.new ≡ string_bytes page.old ++ row_html spec.verdict_frame (spec.others_cells count)) }
{
    let reason = "no line matches them, or those that match them best list none of these";
    push_row(
        alloc,
        &VERDICTS,
        &[
            &[badge_part(Class::Denied)],
            &[Part::Words("everybody else")],
            &[Part::PartOf(count, ALL)],
            &[Part::Words(reason)],
        ],
        page,
    )
}

/// Gathers ranges of addresses without their verdicts.
fn spans_of(alloc: Global, ranges: &[Range<'_>]) -> Result<Vec<Span>, AllocError>
    ensures { IfOk result (λ spans. spans.items ≡ map spec.span_of (map range_value ranges.now)) }
{
    let mut spans = Vec::with_capacity(alloc, ranges.len())?;
    for range in ranges {
        spans.push(Span {
            first: range.first,
            last: range.last,
        })?;
    }
    Ok(spans)
}

/// Returns the clients who have a verdict: those whom no line matches are all that no other row tells of.
fn clients_of<'a>(verdict: &Verdict<'_>, spans: &'a [Span]) -> Part<'a>
    ensures { item_of result ≡ spec.clients spans.now (verdict_result verdict.now) }
{
    match verdict {
        Verdict::Granted { .. } | Verdict::Denied(Denial::NotListed(_, _)) => Part::Ranges(spans),
        Verdict::Denied(Denial::NoLine(_) | Denial::NoFileSystem) => Part::Words("everybody else"),
    }
}

/// Returns by which line a mount is granted, and on what terms, or why it is denied.
fn reason_of<'a>(fs: FsId, verdict: &Verdict<'a>) -> [Part<'a>; 3]
    ensures { map item_of result ≡ spec.reason fs.0 (verdict_result verdict.now) }
{
    match *verdict {
        Verdict::Granted { line, terms, .. } => [
            Part::LineLink(fs, line),
            Part::Words(": "),
            Part::Terms(terms),
        ],
        Verdict::Denied(Denial::NotListed(_, line)) => [
            Part::LineLink(fs, line),
            Part::Words(" matches them best, but lists none of these"),
            Part::Nothing,
        ],
        Verdict::Denied(Denial::NoLine(_) | Denial::NoFileSystem) => [
            Part::Words("no line matches them"),
            Part::Nothing,
            Part::Nothing,
        ],
    }
}

/// Counts the addresses of ranges.
fn size_of(spans: &[Span]) -> u64
    requires { spec.size_of spans.now ≤ 2 ^ 32 }
    ensures { result ≡ spec.size_of spans.now }
{
    let mut size = 0;
    for span in spans {
        size += span_size(*span);
    }
    size
}

/// Counts the addresses of a range.
pub(crate) fn span_size(span: Span) -> u64
    ensures { result ≡ spec.span_size span }
{
    (u64::from(span.last.number()) + 1).saturating_sub(u64::from(span.first.number()))
}
