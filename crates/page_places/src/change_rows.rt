//! What a proposal would change, and for whom.

ghost use Rattle.std.specs.Prelude.{◌≡◌, ◌++◌, OnOk, map};
ghost use Rattle.std.specs.String.{string_bytes};
ghost use Rattle.desk_policy.specs.Verdict.{verdict_result};
ghost use Rattle.page_html.specs.Parts.{item_of};
ghost use Rattle.page_html.specs.Tables.{row_html, rows_html};
ghost use Rattle.page_places.specs.ChangeRows as spec;

use crate::names::place_part;
use crate::rows::span_size;
use desk_impact::Place;
use desk_policy::Verdict;
use desk_text::Addr;
use page_data::Class;
use page_findings::badge_part;
use page_html::{
    Column, Element, Frame, Part, Span, Tag, Title, push_element, push_row, push_table_start,
    push_tag,
};
use std::alloc::{AllocError, Global};

/// How many changes stand in the open.
const OPEN_ROWS: usize = 24;

/// The table.
const CHANGES: Frame = Frame {
    class: "i",
    is_titled: true,
    columns: &[
        Column::Name("Directory"),
        Column::Plain("Clients"),
        Column::Count("Addresses"),
        Column::Plain("Now"),
        Column::Plain("Then"),
    ],
};

/// What changes at a place for the addresses from the first to the last.
#[derive(Clone, Copy)]
pub struct ChangeRow<'a> {
    pub place: Place<'a>,
    pub first: Addr,
    pub last: Addr,
    pub before: Verdict<'a>,
    pub after: Verdict<'a>,
}

/// Adds the changes that matter to a client, and how many do not.
pub fn push_changes(
    alloc: Global,
    rows: &[ChangeRow<'_>],
    silent: u64,
    page: &mut String,
) -> Result<(), AllocError>
    ensures { OnOk result (string_bytes page.new ≡ string_bytes page.old ++ spec.changes_block rows.now silent) }
{
    push_mattering(alloc, rows, page)?;
    push_silent(alloc, silent, page)
}

/// Adds how many changes are of lines or reasons alone, if some are.
fn push_silent(alloc: Global, count: u64, page: &mut String) -> Result<(), AllocError>
    ensures { OnOk result (string_bytes page.new ≡ string_bytes page.old ++ spec.silent_words count) }
{
    if count == 0 {
        return Ok(());
    }
    let parts = [
        Part::Plural(count, "change", "changes"),
        Part::Words(
            " of lines or reasons alone: the same clients may mount the same on the same terms, and only the line that grants it, or the reason of a denial, is another.",
        ),
    ];
    push_element(alloc, Element::Paragraph, &parts, page)
}

/// Adds the changes that matter, or that there are none.
fn push_mattering(
    alloc: Global,
    rows: &[ChangeRow<'_>],
    page: &mut String,
) -> Result<(), AllocError>
    ensures { OnOk result (string_bytes page.new ≡ string_bytes page.old ++ spec.mattering rows.now) }
{
    if rows.is_empty() {
        let words = [Part::Words("It would change nothing for any client.")];
        return push_element(alloc, Element::Paragraph, &words, page);
    }
    push_some_changes(alloc, rows, page)
}

/// Adds changes, folded if they are many.
fn push_some_changes(
    alloc: Global,
    rows: &[ChangeRow<'_>],
    page: &mut String,
) -> Result<(), AllocError>
    ensures { OnOk result (string_bytes page.new ≡ string_bytes page.old ++ spec.some_changes rows.now) }
{
    if rows.len() <= OPEN_ROWS {
        return push_change_table(alloc, rows, page);
    }
    push_changes_folded(alloc, rows, page)
}

/// Adds changes that are folded.
fn push_changes_folded(
    alloc: Global,
    rows: &[ChangeRow<'_>],
    page: &mut String,
) -> Result<(), AllocError>
    ensures { OnOk result (string_bytes page.new ≡ string_bytes page.old ++ spec.changes_folded rows.now) }
{
    let count = Part::Plural(rows.len() as u64, "change", "changes");
    push_element(alloc, Element::Fold, &[count], page)?;
    push_change_table(alloc, rows, page)?;
    push_tag(Tag::FoldEnd, page)
}

/// Adds the table of changes.
fn push_change_table(
    alloc: Global,
    rows: &[ChangeRow<'_>],
    page: &mut String,
) -> Result<(), AllocError>
    ensures { OnOk result (string_bytes page.new ≡ string_bytes page.old ++ spec.change_table rows.now) }
{
    push_table_start(
        alloc,
        &CHANGES,
        &[Title::Said("What it would change")],
        page,
    )?;
    push_change_rows(alloc, rows, page)?;
    push_tag(Tag::TableEnd, page)
}

/// Adds a row for each change.
#[tactic(auto, unfolding(page_html::specs::Tables::rows_html))]
fn push_change_rows(
    alloc: Global,
    rows: &[ChangeRow<'_>],
    page: &mut String,
) -> Result<(), AllocError>
    ensures { OnOk result (string_bytes page.new ≡ string_bytes page.old ++ rows_html spec.change_frame (map spec.change_cells rows.now)) }
{
    for row in rows {
        push_change_row(alloc, row, page)?;
    }
    Ok(())
}

/// Adds the row of a change.
fn push_change_row(alloc: Global, row: &ChangeRow<'_>, page: &mut String) -> Result<(), AllocError>
    ensures { OnOk result (string_bytes page.new ≡ string_bytes page.old ++ row_html spec.change_frame (spec.change_cells row.now)) }
{
    let span = Span {
        first: row.first,
        last: row.last,
    };
    let before = verdict_parts(&row.before);
    let after = verdict_parts(&row.after);
    push_row(
        alloc,
        &CHANGES,
        &[
            &[place_part(row.place)],
            &[Part::Range(span)],
            &[Part::Number(span_size(span))],
            &before,
            &after,
        ],
        page,
    )
}

/// Returns a verdict in words.
fn verdict_parts<'a>(verdict: &Verdict<'a>) -> [Part<'a>; 5]
    ensures { map item_of result ≡ spec.verdict_items (verdict_result verdict.now) }
{
    let badge = badge_part(Class::of(verdict));
    match *verdict {
        Verdict::Granted { line, terms, .. } => [
            badge,
            Part::Words(" line "),
            Part::Digits(line),
            Part::Words(": "),
            Part::Terms(terms),
        ],
        Verdict::Denied(_) => [
            badge,
            Part::Nothing,
            Part::Nothing,
            Part::Nothing,
            Part::Nothing,
        ],
    }
}
