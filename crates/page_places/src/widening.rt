//! Changes by which clients may do more.

ghost use Rattle.std.specs.Prelude.{◌≡◌, ◌<◌, IfOk, count_by, length, map};
ghost use Rattle.desk_tables.specs.FileSystems.{AreAscending};
ghost use Rattle.page_places.specs.Changes.{row_value};
ghost use Rattle.page_places.specs.Widening as spec;

use crate::change_rows::ChangeRow;
use crate::changes::changes_of;
use desk_policy::PolicyView;
use desk_tables::FsId;
use page_data::Class;
use std::alloc::{AllocError, Global};

/// Counts the changes by which clients may do more, among those that the lines of a file system in another policy would make.
pub fn count_widening<V: PolicyView>(
    alloc: Global,
    before: &V,
    lines: &V,
    fs: FsId,
) -> Result<u64, AllocError>
    requires fs { fs.0 < length (V.in_force before.now).table }
    requires ascending { AreAscending (V.in_force before.now).table }
    requires table { (V.in_force lines.now).table ≡ (V.in_force before.now).table }
    ensures { IfOk result (λ count. spec.AreSoManyIn (V.in_force before.now) (V.in_force lines.now) fs.0 count) }
{
    let changes = changes_of(alloc, before, lines, fs)?;
    Ok(widening_among(changes.rows.as_slice()) as u64)
}

/// Counts the changes by which clients may do more, among some.
fn widening_among(rows: &[ChangeRow<'_>]) -> usize
    ensures { result ≡ count_by spec.widens (map row_value rows.now) }
{
    rows.iter().filter(|row| widens(row)).count()
}

/// Tests whether clients may do more by a change: whether the class of the verdict after it is greater than that before.
fn widens(row: &ChangeRow<'_>) -> bool
    ensures { result ≡ spec.widens (row_value row.now) }
{
    Class::of(&row.before).rank() < Class::of(&row.after).rank()
}
