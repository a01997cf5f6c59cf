//! File systems whose lines list the same, so that none lists more than another.

ghost use Rattle.std.specs.Prelude.{◌≡◌, All, true};
ghost use Rattle.desk_server.specs.PrivateWiderGrants.{ListAlike, ListsOnly};

use desk_policy::Row;
use desk_text::Path;

/// Tests whether these lines write one directory alone, the same, and none has -alldirs.
pub(crate) fn list_alike(rows: &[Row]) -> bool
    ensures { result ≡ true → ListAlike rows.now }
{
    let Some(first) = rows.first() else {
        return false;
    };
    match first.entry.dirs.as_slice() {
        [dir] => all_list_only(rows, dir),
        _ => false,
    }
}

/// Tests whether all these lines write this directory alone, and none has -alldirs.
fn all_list_only(rows: &[Row], dir: &Path) -> bool
    ensures { result ≡ true → All (ListsOnly dir.now) rows.now }
{
    for row in rows {
        if !lists_only(row, dir) {
            return false;
        }
    }
    true
}

/// Tests whether a line writes this directory alone, and does not have -alldirs.
fn lists_only(row: &Row, dir: &Path) -> bool
    ensures { result ≡ true → ListsOnly dir.now row.now }
{
    match row.entry.dirs.as_slice() {
        [own] => !row.entry.alldirs && *own == *dir,
        _ => false,
    }
}
