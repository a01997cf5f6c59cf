//! What lines that are proposed for a file system would change for its clients.

ghost use Rattle.std.specs.Prelude.{◌≡◌, ◌<◌, IfOk, Some, length, map};
ghost use Rattle.desk_tables.specs.FileSystems.{AreAscending};
ghost use Rattle.desk_impact.specs.Impact.{mount_at};
ghost use Rattle.page_places.specs.Changes.{AreChangesIn, changes_value, row_value};
ghost use Rattle.page_places.specs.PrivateChanges.{AreAllChanges, AreTold};

use crate::change_rows::ChangeRow;
use crate::directories::{own_directories, places_with};
use crate::impacts::changes_at_places;
use desk_impact::has_same_effect;
use desk_policy::PolicyView;
use desk_tables::FsId;
use desk_text::{Path, Sequence};
use desk_who::verdicts_are_discrete;
use std::alloc::{AllocError, Global};

/// What would change at the places of a file system.
#[derive(Drop)]
pub struct Changes<'a> {
    /// The changes that matter to a client, in the order of the places and of the addresses.
    pub rows: Sequence<ChangeRow<'a>>,
    /// How many changes there are of lines or reasons alone.
    pub silent: u64,
}

/// Lists what would change if a file system had the lines that it has in another policy, which has the same file systems: at its mount
/// point, at each directory that its lines write in one policy or the other, and at its other directories. What other lines the
/// other policy has does not count.
pub fn changes_of<'a, V: PolicyView>(
    alloc: Global,
    before: &'a V,
    lines: &'a V,
    fs: FsId,
) -> Result<Changes<'a>, AllocError>
    requires fs { fs.0 < length (V.in_force before.now).table }
    requires ascending { AreAscending (V.in_force before.now).table }
    requires table { (V.in_force lines.now).table ≡ (V.in_force before.now).table }
    ensures { IfOk result (λ changes. AreChangesIn (V.in_force before.now) (V.in_force lines.now) fs.0 (changes_value changes)) }
{
    let mount = &before.policy().filesystems().as_slice()[fs.0 as usize].path;
    let all = changes_below(alloc, before, lines, fs, mount)?;
    Ok(those_that_matter(all))
}

/// Lists all that would change, given the mount point.
fn changes_below<'a, V: PolicyView>(
    alloc: Global,
    before: &'a V,
    lines: &'a V,
    fs: FsId,
    mount: &'a Path,
) -> Result<Vec<ChangeRow<'a>>, AllocError>
    requires { mount_at (V.in_force before.now) fs.0 ≡ Some mount.now }
    ensures { IfOk result (λ rows. AreAllChanges (V.in_force before.now) (V.in_force lines.now) fs.0 (map row_value rows.items)) }
{
    let dirs = own_directories(alloc, before.policy(), lines.policy(), fs)?;
    let places = places_with(alloc, mount, dirs.as_slice())?;
    changes_at_places(alloc, before, lines, places.as_slice())
}

/// Keeps the changes that matter to a client, and counts the others.
fn those_that_matter(mut rows: Vec<ChangeRow<'_>>) -> Changes<'_>
    ensures { AreTold (map row_value rows.entry.items) (changes_value result) }
{
    verdicts_are_discrete();
    let count = rows.len();
    rows.retain(|row| !has_same_effect(&row.before, &row.after));
    let silent = (count - rows.len()) as u64;
    Changes {
        rows: Sequence::from_vec(rows),
        silent,
    }
}
