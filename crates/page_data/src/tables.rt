//! The table of a group of places: who may mount them, and who may not.

ghost use Rattle.std.specs.Prelude.{◌≡◌, ◌++◌, ◌∷◌, [], IfOk, OnOk, filter, if◌then◌else◌, length, map, nat_lt};
ghost use Rattle.std.specs.Result.{is_ok};
ghost use Rattle.desk_policy.specs.Verdict.{verdict_result};
ghost use Rattle.desk_who.specs.Who.{range_value};
ghost use Rattle.page_data.specs.Groups.{group_value};
ghost use Rattle.page_data.specs.PrivateTables as inner;
ghost use Rattle.page_data.specs.Rows.{ByOrder, row_value};
ghost use Rattle.page_data.specs.Tables as spec;
ghost use Rattle.page_data.specs.Tables.{CanBeTabled, IsTableBy, IsTableOf, addresses_in, denied_ranges, table_value};
ghost use Rattle.page_data.specs.Values.{AreRunsOfSome};

use crate::groups::Group;
use crate::rows::{TableRow, rows_of};
use desk_policy::Verdict;
use desk_text::Sequence;
use desk_who::Range;
use std::alloc::{AllocError, Global};

/// So many verdicts that deny have rows of their own.
const MOST_DENIALS: usize = 5;

/// Who may mount the places of a group, and who may not.
#[derive(Drop)]
pub struct Table<'a> {
    /// The rows of the verdicts that grant, by their lines; and then those of the verdicts that deny, by the lines that they name,
    /// unless they are joined.
    pub rows: Sequence<TableRow<'a>>,
    /// How many addresses those have together that are joined: everybody else.
    pub others: u64,
    /// How many verdicts are joined in it.
    pub denials: usize,
}

/// Puts who may mount the places of a group, and who may not, into a table: those that may mount the first, since all of a group have
/// the same verdicts.
pub fn table_of<'a>(alloc: Global, group: &Group<'a>) -> Result<Table<'a>, AllocError>
    requires { CanBeTabled (group_value group.now) }
    ensures { IfOk result (λ table. IsTableOf (group_value group.now) (table_value table)) }
{
    match group.sections.as_slice().first() {
        Some(first) => table_by(alloc, first.ranges.as_slice()),
        None => table_by(alloc, &[]),
    }
}

/// Puts the verdicts at a place into a table. The rows that deny are joined if they are more than five.
fn table_by<'a>(alloc: Global, ranges: &[Range<'a>]) -> Result<Table<'a>, AllocError>
    requires order { ByOrder (map range_value ranges.now) }
    requires runs { AreRunsOfSome (map range_value ranges.now) }
    ensures { IfOk result (λ table. IsTableBy (map range_value ranges.now) (table_value table)) }
{
    let rows = rows_of(alloc, ranges)?;
    let count = denials_among(rows.as_slice());
    let joined = are_joined(count);
    let shown = rows_shown(alloc, joined, rows)?;
    Ok(Table {
        rows: Sequence::from_vec(shown),
        others: others_if(joined, ranges),
        denials: count_if(joined, count),
    })
}

/// Counts the addresses that are denied, if they are joined.
fn others_if(joined: bool, ranges: &[Range<'_>]) -> u64
    requires { AreRunsOfSome (map range_value ranges.now) }
    ensures { result ≡ (if joined then addresses_in (denied_ranges (map range_value ranges.now)) else 0) }
{
    if joined { denied_among(ranges) } else { 0 }
}

/// Tests whether so many rows that deny are joined.
fn are_joined(denials: usize) -> bool
    ensures { result ≡ nat_lt spec.most_denials denials }
{
    MOST_DENIALS < denials
}

/// Counts the rows that deny.
fn denials_among(rows: &[TableRow<'_>]) -> usize
    ensures { result ≡ length (filter spec.denies_row (map row_value rows.now)) }
{
    let mut count = 0;
    for row in rows {
        count += denials_in(row);
    }
    count
}

/// Counts a row, if it denies.
fn denials_in(row: &TableRow<'_>) -> usize
    ensures { result ≡ (if spec.grants_row (row_value row.now) then 0 else 1) }
{
    if is_granted(&row.verdict) { 0 } else { 1 }
}

/// Keeps a count, if they are joined.
fn count_if(joined: bool, count: usize) -> usize
    ensures { result ≡ (if joined then count else 0) }
{
    if joined { count } else { 0 }
}

/// Keeps the rows that grant, or all, if none are joined.
fn rows_shown<'a>(
    alloc: Global,
    joined: bool,
    rows: Vec<TableRow<'a>>,
) -> Result<Vec<TableRow<'a>>, AllocError>
    ensures { IfOk result (λ kept. map row_value kept.items ≡ (if joined then filter spec.grants_row (map row_value rows.entry.items) else map row_value rows.entry.items)) }
{
    if joined {
        granting(alloc, rows)
    } else {
        Ok(rows)
    }
}

/// Keeps the rows that grant.
fn granting<'a>(alloc: Global, rows: Vec<TableRow<'a>>) -> Result<Vec<TableRow<'a>>, AllocError>
    ensures { IfOk result (λ kept. map row_value kept.items ≡ filter spec.grants_row (map row_value rows.entry.items)) }
{
    let mut kept = Vec::new(alloc);
    for row in rows {
        push_row(&mut kept, row)?;
    }
    Ok(kept)
}

/// Adds a row, if it grants.
fn push_row<'a>(kept: &mut Vec<TableRow<'a>>, row: TableRow<'a>) -> Result<(), AllocError>
    ensures { OnOk result (map row_value kept.new.items ≡ map row_value kept.old.items ++ (if spec.grants_row (row_value row.entry) then row_value row.entry ∷ [] else [])) }
{
    if is_granted(&row.verdict) {
        kept.push(row)?;
    }
    Ok(())
}

/// Tests whether a verdict grants.
fn is_granted(verdict: &Verdict<'_>) -> bool
    ensures { result ≡ is_ok (verdict_result verdict.now) }
{
    match verdict {
        Verdict::Granted { .. } => true,
        Verdict::Denied(_) => false,
    }
}

/// Counts the addresses that are denied.
fn denied_among(ranges: &[Range<'_>]) -> u64
    requires { AreRunsOfSome (map range_value ranges.now) }
    ensures { result ≡ addresses_in (denied_ranges (map range_value ranges.now)) }
{
    let mut count = 0;
    for range in ranges {
        count += denied_in(range);
    }
    count
}

/// Counts those of a range.
fn denied_in(range: &Range<'_>) -> u64
    ensures { result ≡ inner.denied_in (range_value range.now) }
{
    if is_granted(&range.value) {
        0
    } else {
        (u64::from(range.last.number()) + 1).saturating_sub(u64::from(range.first.number()))
    }
}
