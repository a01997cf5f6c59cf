//! The rows of the verdicts at a place: one for each verdict, with the ranges of addresses that have it.

ghost use Rattle.std.specs.Prelude.{◌≡◌, IfOk, OnOk, map};
ghost use Rattle.std.specs.Bool.{Decides};
ghost use Rattle.desk_policy.specs.Verdict.{verdict_result};
ghost use Rattle.desk_who.specs.Who.{range_value};
ghost use Rattle.page_data.specs.PrivateRows.{AddsRange, EndsAlike};
ghost use Rattle.page_data.specs.Rows as spec;
ghost use Rattle.page_data.specs.Rows.{AreRowsOf, ByOrder, row_value};

use desk_policy::{Denial, Verdict};
use desk_text::Sequence;
use desk_who::{Alike, Range, verdicts_are_discrete};
use std::alloc::{AllocError, Global};

/// A verdict, and the longest ranges of addresses that have it, ascending.
#[derive(Drop)]
pub struct TableRow<'a> {
    pub verdict: Verdict<'a>,
    pub ranges: Sequence<Range<'a>>,
}

/// Puts the ranges of verdicts at a place into rows, one for each verdict: those that grant come first, by their lines, then those that
/// deny, by the lines that they name.
pub fn rows_of<'a>(alloc: Global, ranges: &[Range<'a>]) -> Result<Vec<TableRow<'a>>, AllocError>
    requires { ByOrder (map range_value ranges.now) }
    ensures { IfOk result (λ rows. AreRowsOf (map range_value ranges.now) (map row_value rows.items)) }
{
    verdicts_are_discrete();
    let mut sorted = Vec::from_slice(alloc, ranges)?;
    sorted.sort_by_key(|range| order_of(&range.value))?;
    let mut rows = Vec::new(alloc);
    for range in sorted.as_slice() {
        push_range(alloc, &mut rows, *range)?;
    }
    Ok(rows)
}

/// Returns the place of a verdict in a table.
fn order_of(verdict: &Verdict<'_>) -> u64
    ensures { result ≡ spec.order_of (verdict_result verdict.now) }
{
    match verdict {
        Verdict::Granted { line, .. } => u64::from(*line),
        Verdict::Denied(Denial::NotListed(_, line)) => (1 << 32) + u64::from(*line),
        Verdict::Denied(Denial::NoLine(_)) | Verdict::Denied(Denial::NoFileSystem) => 1 << 33,
    }
}

/// Adds a range to the last row, if that has its verdict, or else in a row of its own.
fn push_range<'a>(
    alloc: Global,
    rows: &mut Vec<TableRow<'a>>,
    range: Range<'a>,
) -> Result<(), AllocError>
    ensures { OnOk result (AddsRange (map row_value rows.old.items) (map row_value rows.new.items) (range_value range.entry)) }
{
    if is_of_last(rows.as_slice(), &range) {
        let last = rows.len() - 1;
        return rows[last].ranges.push(range);
    }
    let mut ranges = Sequence::new(alloc);
    ranges.push(range)?;
    rows.push(TableRow {
        verdict: range.value,
        ranges,
    })?;
    Ok(())
}

/// Tests whether the last row has the verdict of a range.
fn is_of_last(rows: &[TableRow<'_>], range: &Range<'_>) -> bool
    ensures { Decides result (EndsAlike (map row_value rows.now) (range_value range.now)) }
{
    match rows.last() {
        Some(row) => row.verdict.is_alike(&range.value),
        None => false,
    }
}
