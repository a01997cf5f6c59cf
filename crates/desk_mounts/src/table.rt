//! The table of mount points, or how many there are, if these are too many.

ghost use Rattle.std.specs.Prelude.{IfOk, MatchResult, map};
ghost use Rattle.std.specs.List.{All};
ghost use Rattle.desk_text.specs.Path.{IsPath};
ghost use Rattle.desk_tables.specs.FileSystems.{IsTableOf, unkept};
ghost use Rattle.desk_mounts.specs.Table.{TooManyBy};

use desk_tables::FileSystems;
use desk_tables::laws::table_is_unique;
use desk_text::Path;
use std::alloc::{AllocError, Global};

/// Makes the table of the mount points given, which nobody keeps and no line lists; or tells how many different ones there are, if
/// these are more than 256. An error says that memory ran out.
pub fn table_of(
    alloc: Global,
    mount_points: Vec<Path>,
) -> Result<Result<FileSystems, usize>, AllocError>
    ensures { IfOk result (λ answer. MatchResult answer (IsTableOf mount_points.items) (TooManyBy mount_points.items)) }
{
    let different = different(mount_points);
    // The table has just these.
    table_is_unique();
    have_components(different.as_slice());
    let count = different.len();
    match FileSystems::from_mounts(alloc, different)? {
        Some(filesystems) => Ok(Ok(filesystems)),
        None => Ok(Err(count)),
    }
}

/// Leaves out each mount point that is given again, in any spelling, and puts the others in byte order.
fn different(mut mount_points: Vec<Path>) -> Vec<Path>
    ensures { IsTableOf mount_points.items (map unkept result.items) }
{
    mount_points.sort_unstable();
    mount_points.dedup();
    mount_points
}

/// Looks at each path, and so learns that it has components as a text can write them.
fn have_components(paths: &[Path])
    ensures { All IsPath paths.now }
{
    for path in paths {
        let _text = path.text();
    }
}
