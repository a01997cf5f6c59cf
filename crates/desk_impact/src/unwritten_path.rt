//! A path below a mount point that no line writes.

ghost use Rattle.std.specs.Prelude.{◌≡◌, IfOk};
ghost use Rattle.desk_policy.specs.Verdict.{is_directory_among};
ghost use Rattle.desk_impact.specs.Places.{paths_in};
ghost use Rattle.desk_impact.specs.PrivatePlaces.{AreAscending, IsFree};

use desk_text::Path;
use std::alloc::{AllocError, Global};

/// Finds a path right below a mount point that is none of these, which are in byte order: its name is the first number that is
/// free. Each number costs one search.
pub fn free_path(alloc: Global, mount: &Path, taken: &[&Path]) -> Result<Path, AllocError>
    requires { AreAscending (paths_in taken.now) }
    ensures { IfOk result (IsFree mount.now (paths_in taken.now)) }
{
    for number in 0..taken.len() {
        let path = mount.child(alloc, number)?;
        if !is_among(&path, taken) {
            return Ok(path);
        }
        drop(path);
    }
    let path = mount.child(alloc, taken.len())?;
    Ok(path)
}

/// Tests whether a path is one of these, which are in byte order.
fn is_among(path: &Path, paths: &[&Path]) -> bool
    requires { AreAscending (paths_in paths.now) }
    ensures { result ≡ is_directory_among path.now (paths_in paths.now) }
{
    let first = paths.partition_point(|other| **other < *path);
    match paths.get(first) {
        Some(other) => **other == *path,
        None => false,
    }
}
