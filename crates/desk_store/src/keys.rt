//! Whether the rowids of a table are integers of which none comes twice. So they are in each file of SQLite, and what a DELETE takes
//! out is said by them.

ghost use Rattle.std.specs.Prelude.{◌≡◌, ◌<◌, IfOk, IfSome, IsTrue, MatchOption, None, length, map};
ghost use Rattle.std.specs.List.{IsAllAdjacentAnswer};
ghost use Rattle.sqlite.specs.Order.{column};
ghost use Rattle.sqlite.specs.declared.types.Value.TheVariants.{Int};
ghost use Rattle.sqlite_trees.specs.View.{is_int};
ghost use Rattle.desk_store.specs.Keys.{AreKeysIf, AreWhole, is_below};

use sqlite::Row;
use sqlite_value::value::ValueRef;
use std::alloc::{AllocError, Global};

/// Tests whether rows are rowids of which none comes twice. (They are read in any order.)
pub(crate) fn are_keys(alloc: Global, rows: &[Row]) -> Result<bool, AllocError>
    ensures { IfOk result (AreKeysIf rows.now) }
{
    match keys_in(alloc, rows)? {
        Some(mut keys) => {
            keys.sort_unstable();
            Ok(rise(keys.as_slice()))
        }
        None => Ok(false),
    }
}

/// Reads the rowids in rows; none if one is not an integer.
fn keys_in(alloc: Global, rows: &[Row]) -> Result<Option<Vec<i64>>, AllocError>
    ensures keys { IfOk result (λ found. IfSome found (λ keys. map (λ row. column row 0) rows.now ≡ map Int keys.items)) }
    ensures none { IfOk result (λ found. found ≡ None → AreWhole rows.now → ⊥) }
{
    let mut keys = Vec::new(alloc);
    for row in rows {
        match key_in(row) {
            Some(key) => keys.push(key)?,
            None => return Ok(None),
        }
    }
    Ok(Some(keys))
}

/// Reads the rowid in a row; none if it is not an integer.
fn key_in(row: &Row) -> Option<i64>
    ensures { MatchOption result (0 < length row.now → IsTrue (is_int (column row.now 0)) → ⊥) (λ key. column row.now 0 ≡ Int key) }
{
    match row.get_ref(0) {
        Ok(ValueRef::Int(key)) => Some(key),
        _ => None,
    }
}

/// Tests whether each number is below the next.
fn rise(keys: &[i64]) -> bool
    ensures { IsAllAdjacentAnswer (λ key next below. below ≡ is_below key next) keys.now result }
{
    keys.is_sorted_by(|key, next| key < next)
}
