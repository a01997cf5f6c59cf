//! Lines of a file system by their numbers.

ghost use Rattle.std.specs.Prelude.{◌≡◌, ◌==◌, All, Contains, IfOk, List, Some, find, map, slice_get};
ghost use Rattle.std.specs.Option.{option_copied};
ghost use Rattle.desk_policy.specs.Policy.{AreAscending};
ghost use Rattle.desk_policy.specs.Verdict.{lists_here};
ghost use Rattle.desk_policy.specs.declared.row.Row.{Row};
ghost use Rattle.desk_index.specs.Keys.{numbers};
ghost use Rattle.desk_index.specs.PrivateNumbered.{rows_numbered};

use desk_policy::Row;
use desk_text::Path;
use std::alloc::{AllocError, Global};

/// Lists the lines of these numbers.
pub fn rows_numbered<'a>(
    alloc: Global,
    rows: &'a [Row],
    lines: &[u32],
) -> Result<Vec<&'a Row>, AllocError>
    requires { AreAscending rows.now }
    ensures { IfOk result (λ found.
        (chosen : List Row) → lines.now ≡ numbers chosen → All (Contains rows.now) chosen → map (λ row. row.now) found.items ≡ chosen) }
{
    let mut found = Vec::with_capacity(alloc, lines.len())?;
    for line in lines {
        if let Some(row) = row_numbered(rows, *line) {
            found.push(row)?;
        }
    }
    Ok(found)
}

/// Finds the line of a number that one of these lines has.
pub fn row_numbered(rows: &[Row], line: u32) -> Option<&Row>
    requires { AreAscending rows.now }
    ensures { (row : Row) → Contains rows.now row → row.entry.line ≡ line → option_copied result ≡ Some row }
{
    let place = rows.partition_point(|row| row.entry.line < line);
    row_at(rows, place)
}

/// Finds the line of this number. The numbers of all lines are given, too: a search in them touches less memory.
pub(crate) fn numbered<'a>(rows: &'a [Row], known: &[u32], number: u32) -> Option<&'a Row>
    requires ascending { AreAscending rows.now }
    requires known { known.now ≡ numbers rows.now }
    ensures { option_copied result ≡ find (λ row. row.entry.line == number) rows.now }
{
    match known.binary_search(&number) {
        Ok(place) => row_at(rows, place),
        Err(_) => None,
    }
}

/// Lends the line at a place.
pub(crate) fn row_at(rows: &[Row], place: usize) -> Option<&Row>
    ensures { option_copied result ≡ slice_get rows.now place }
{
    rows.get(place)
}

/// Finds the first of these lines that lists a path of its own file system.
pub(crate) fn first_listing<'a>(
    rows: &'a [Row],
    known: &[u32],
    lines: &[u32],
    path: &Path,
) -> Option<&'a Row>
    requires ascending { AreAscending rows.now }
    requires known { known.now ≡ numbers rows.now }
    ensures { option_copied result ≡ find (lists_here path.now) (rows_numbered rows.now lines.now) }
{
    for number in lines {
        if let Some(row) = numbered(rows, known, *number) {
            if row.lists_here(path) {
                return Some(row);
            }
        }
    }
    None
}
