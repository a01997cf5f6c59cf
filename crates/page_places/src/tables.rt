//! The table of who may mount some directories.

ghost use Rattle.std.specs.Prelude.{◌≡◌, ◌≤◌, ◌++◌, All, OnOk, map};
ghost use Rattle.std.specs.String.{string_bytes};
ghost use Rattle.desk_policy.specs.Verdict.{verdict_result};
ghost use Rattle.page_html.specs.Tables.{rows_html};
ghost use Rattle.page_places.specs.Names.{members_value};
ghost use Rattle.page_places.specs.Rows.{cells, row_value, verdict_frame};
ghost use Rattle.page_places.specs.Tables as spec;

use crate::names::{Members, caption_of};
use crate::rows::{VERDICTS, push_others_row, push_verdict_row};
use desk_policy::Verdict;
use desk_tables::FsId;
use page_data::{Table, TableRow};
use page_html::{Element, Part, Tag, push_element, push_table_start, push_tag};
use std::alloc::{AllocError, Global};

/// How many rows of a table stand in the open.
const OPEN_ROWS: usize = 24;

/// Adds the table of who may mount directories of a file system, folded if it is long.
pub(crate) fn push_table_block(
    alloc: Global,
    fs: FsId,
    members: &Members<'_>,
    table: &Table<'_>,
    page: &mut String,
) -> Result<(), AllocError>
    requires { spec.HasSizes (spec.told_value table.now) }
    ensures { OnOk result (string_bytes page.new
        ≡ string_bytes page.old ++ spec.table_block fs.0 (members_value members.now) (spec.told_value table.now)) }
{
    if row_count(table) <= OPEN_ROWS {
        return push_table(alloc, fs, members, table, page);
    }
    push_folded_table(alloc, fs, members, table, page)
}

/// Adds the table, folded.
fn push_folded_table(
    alloc: Global,
    fs: FsId,
    members: &Members<'_>,
    table: &Table<'_>,
    page: &mut String,
) -> Result<(), AllocError>
    requires { spec.HasSizes (spec.told_value table.now) }
    ensures { OnOk result (string_bytes page.new
        ≡ string_bytes page.old ++ spec.folded_table fs.0 (members_value members.now) (spec.told_value table.now)) }
{
    let count = granting(table.rows.as_slice());
    let summary = [
        Part::Plural(count, "line", "lines"),
        Part::Words(" that grant it"),
    ];
    push_element(alloc, Element::Fold, &summary, page)?;
    push_table(alloc, fs, members, table, page)?;
    push_tag(Tag::FoldEnd, page)
}

/// Counts the rows of a table.
fn row_count(table: &Table<'_>) -> usize
    ensures { result ≡ spec.row_count (spec.told_value table.now) }
{
    let rows = table.rows.as_slice().len();
    if table.denials == 0 { rows } else { rows + 1 }
}

/// Counts the rows of lines that grant.
pub(crate) fn granting(rows: &[TableRow<'_>]) -> u64
    ensures { result ≡ spec.granting (map row_value rows.now) }
{
    let mut count = 0;
    for row in rows {
        count += grants_one(&row.verdict);
    }
    count
}

/// Counts a verdict, if it grants.
fn grants_one(verdict: &Verdict<'_>) -> u64
    ensures value { result ≡ spec.grants_one (verdict_result verdict.now) }
    ensures few { result ≤ 1 }
{
    match verdict {
        Verdict::Granted { .. } => 1,
        Verdict::Denied(_) => 0,
    }
}

/// Adds the table of who may mount directories.
fn push_table(
    alloc: Global,
    fs: FsId,
    members: &Members<'_>,
    table: &Table<'_>,
    page: &mut String,
) -> Result<(), AllocError>
    requires { spec.HasSizes (spec.told_value table.now) }
    ensures { OnOk result (string_bytes page.new ≡ string_bytes page.old ++ spec.table fs.0 (members_value members.now) (spec.told_value table.now)) }
{
    let caption = caption_of(alloc, members)?;
    push_table_start(alloc, &VERDICTS, caption.as_slice(), page)?;
    push_rows(alloc, fs, table.rows.as_slice(), page)?;
    push_others(alloc, table, page)?;
    push_tag(Tag::TableEnd, page)
}

/// Adds a row for each verdict.
#[tactic(auto, unfolding(page_html::specs::Tables::rows_html))]
fn push_rows(
    alloc: Global,
    fs: FsId,
    rows: &[TableRow<'_>],
    page: &mut String,
) -> Result<(), AllocError>
    requires { All spec.HasSize (map row_value rows.now) }
    ensures { OnOk result (string_bytes page.new ≡ string_bytes page.old ++ rows_html verdict_frame (map (λ row. cells fs.0 (row_value row)) rows.now)) }
{
    for row in rows {
        push_verdict_row(alloc, fs, row, page)?;
    }
    Ok(())
}

/// Adds the row of everybody else, if verdicts that deny are joined.
fn push_others(alloc: Global, table: &Table<'_>, page: &mut String) -> Result<(), AllocError>
    ensures { OnOk result (string_bytes page.new ≡ string_bytes page.old ++ spec.others_text (spec.others_of table.now)) }
{
    if table.denials == 0 {
        Ok(())
    } else {
        push_others_row(alloc, table.others, page)
    }
}
