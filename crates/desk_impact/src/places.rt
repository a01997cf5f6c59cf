//! The places of which two policies may say something: each mount point, each written directory, and all other directories.

ghost use Rattle.std.specs.Prelude.{◌≡◌, ◌&&◌, ◌++◌, ◌∷◌, [], IfOk, OnOk, filter, map, not};
ghost use Rattle.std.specs.List.{flat_map};
ghost use Rattle.desk_text.specs.Path.{same_path};
ghost use Rattle.desk_tables.specs.FileSystems.{mount_points};
ghost use Rattle.desk_policy.specs.Listings.{written};
ghost use Rattle.desk_impact.specs.Places as spec;
ghost use Rattle.desk_impact.specs.Places.{AreInOrder, ArePlaces, all_written, dirs_below, is_home, paths_in, place_of, places_at, taken_by};
ghost use Rattle.desk_impact.specs.PrivatePlaces.{ArePlacesWith, dirs_with, is_place_in, path_of};

use desk_policy::{Policy, Row};
use desk_tables::{FileSystems, FsId, Mount};
use desk_text::Path;
use std::alloc::{AllocError, Global};

/// Where policies say one thing.
#[derive(Clone, Copy)]
pub enum Place<'a> {
    /// This directory.
    Directory(&'a Path),
    /// All directories of this mount point's file system that no line writes.
    Others(&'a Path),
}

/// Lists the places of two policies, by mount point in byte order: the mount point, the directories below it that a line of
/// either writes, in byte order, and its other directories. Each directory is compared with each mount point, and for each that
/// it is under with all of them once more; two policies have at most 512.
pub fn places_of_both<'a>(
    alloc: Global,
    before: &'a Policy,
    after: &'a Policy,
) -> Result<Vec<Place<'a>>, AllocError>
    ensures { IfOk result (λ places. ArePlaces before.now after.now (map place_of places.items)) }
{
    let mounts = in_order(mounts_of_both(alloc, before, after)?);
    let dirs = in_order(dirs_of_both(alloc, before, after)?);
    places_of_mounts(alloc, mounts.as_slice(), dirs.as_slice())
}

/// Lists the places of a policy, and of the same with these lines for one of its file systems.
pub(crate) fn places_of_proposed<'a>(
    alloc: Global,
    policy: &'a Policy,
    rows: &'a [Row],
) -> Result<Vec<Place<'a>>, AllocError>
    ensures { IfOk result (λ places. ArePlacesWith policy.now rows.now (map place_of places.items)) }
{
    let mounts = in_order(mounts_of_both(alloc, policy, policy)?);
    let dirs = in_order(dirs_with(alloc, policy, rows)?);
    places_of_mounts(alloc, mounts.as_slice(), dirs.as_slice())
}

/// Lists the places of these mount points, of which these directories are written; both are in byte order.
pub(crate) fn places_of_mounts<'a>(
    alloc: Global,
    mounts: &[&'a Path],
    dirs: &[&'a Path],
) -> Result<Vec<Place<'a>>, AllocError>
    ensures { IfOk result (λ places. map place_of places.items ≡ flat_map (places_at (paths_in mounts.now) (paths_in dirs.now)) (paths_in mounts.now)) }
{
    let mut places = Vec::new(alloc);
    for mount in mounts {
        push_places(&mut places, mounts, dirs, mount)?;
    }
    Ok(places)
}

/// Chooses the places in a file system.
pub(crate) fn places_of_system<'a>(
    alloc: Global,
    table: &FileSystems,
    fs: FsId,
    places: &[Place<'a>],
) -> Result<Vec<Place<'a>>, AllocError>
    ensures { IfOk result (λ chosen. map place_of chosen.items ≡ filter (is_place_in table.now fs.0) (map place_of places.now)) }
{
    let mut chosen = Vec::new(alloc);
    for place in places {
        push_if_in(&mut chosen, table, fs, *place)?;
    }
    Ok(chosen)
}

/// Adds a place, if it is in a file system.
fn push_if_in<'a>(
    chosen: &mut Vec<Place<'a>>,
    table: &FileSystems,
    fs: FsId,
    place: Place<'a>,
) -> Result<(), AllocError>
    ensures { OnOk result (map place_of chosen.new.items
        ≡ map place_of chosen.old.items ++ filter (is_place_in table.now fs.0) (place_of place.entry ∷ [])) }
{
    if is_place_in(table, fs, place) {
        chosen.push(place)?;
    }
    Ok(())
}

/// Tests whether a place is in a file system.
pub(crate) fn is_place_in(table: &FileSystems, fs: FsId, place: Place<'_>) -> bool
    ensures { result ≡ is_place_in table.now fs.0 (place_of place.entry) }
{
    match table.of(path_of(place)) {
        Some(own) => own.0 == fs.0,
        None => false,
    }
}

/// Lends the path of a place: the directory, or the mount point of others.
pub(crate) fn path_of(place: Place<'_>) -> &Path
    ensures { result.now ≡ path_of (place_of place.entry) }
{
    match place {
        Place::Directory(path) => path,
        Place::Others(mount) => mount,
    }
}

/// Lists the mount points of two policies and the directories that their lines write, in byte order, each once.
pub fn taken_paths<'a>(
    alloc: Global,
    before: &'a Policy,
    after: &'a Policy,
) -> Result<Vec<&'a Path>, AllocError>
    ensures { IfOk result (λ taken. AreInOrder (taken_by before.now after.now) (paths_in taken.items)) }
{
    let mut taken = mounts_of_both(alloc, before, after)?;
    push_all_written(&mut taken, before)?;
    push_all_written(&mut taken, after)?;
    Ok(in_order(taken))
}

/// Lists the mount points of two policies, some of them twice.
fn mounts_of_both<'a>(
    alloc: Global,
    before: &'a Policy,
    after: &'a Policy,
) -> Result<Vec<&'a Path>, AllocError>
    ensures { IfOk result (λ mounts. paths_in mounts.items ≡ spec.mounts_of_both before.now after.now) }
{
    let mut mounts = Vec::new(alloc);
    push_mounts(&mut mounts, before.filesystems().as_slice())?;
    push_mounts(&mut mounts, after.filesystems().as_slice())?;
    Ok(mounts)
}

/// Lists the directories that lines of two policies write, some of them more than once.
fn dirs_of_both<'a>(
    alloc: Global,
    before: &'a Policy,
    after: &'a Policy,
) -> Result<Vec<&'a Path>, AllocError>
    ensures { IfOk result (λ dirs. paths_in dirs.items ≡ spec.dirs_of_both before.now after.now) }
{
    let mut dirs = Vec::new(alloc);
    push_all_written(&mut dirs, before)?;
    push_all_written(&mut dirs, after)?;
    Ok(dirs)
}

/// Lists the directories that lines of a policy and these lines write, some of them more than once.
fn dirs_with<'a>(
    alloc: Global,
    policy: &'a Policy,
    rows: &'a [Row],
) -> Result<Vec<&'a Path>, AllocError>
    ensures { IfOk result (λ dirs. paths_in dirs.items ≡ dirs_with policy.now rows.now) }
{
    let mut dirs = Vec::new(alloc);
    push_all_written(&mut dirs, policy)?;
    push_written(&mut dirs, rows)?;
    Ok(dirs)
}

/// Puts paths in byte order, each once.
pub fn in_order(mut paths: Vec<&Path>) -> Vec<&Path>
    ensures { AreInOrder (paths_in paths.entry.items) (paths_in result.items) }
{
    paths.sort_unstable();
    paths.dedup_by(|path, last| **path == **last);
    paths
}

/// Adds mount points.
fn push_mounts<'a>(paths: &mut Vec<&'a Path>, mounts: &'a [Mount]) -> Result<(), AllocError>
    ensures { OnOk result (paths_in paths.new.items ≡ paths_in paths.old.items ++ mount_points mounts.now) }
{
    for mount in mounts {
        paths.push(&mount.path)?;
    }
    Ok(())
}

/// Adds the directories that lines of a policy write.
pub(crate) fn push_all_written<'a>(
    paths: &mut Vec<&'a Path>,
    policy: &'a Policy,
) -> Result<(), AllocError>
    ensures { OnOk result (paths_in paths.new.items ≡ paths_in paths.old.items ++ all_written policy.now) }
{
    for rows in policy.rows_by_filesystem() {
        push_written(paths, rows.as_slice())?;
    }
    Ok(())
}

/// Adds the directories that these lines write.
fn push_written<'a>(paths: &mut Vec<&'a Path>, rows: &'a [Row]) -> Result<(), AllocError>
    ensures { OnOk result (paths_in paths.new.items ≡ paths_in paths.old.items ++ written rows.now) }
{
    for row in rows {
        push_paths(paths, row.entry.dirs.as_slice())?;
    }
    Ok(())
}

/// Adds paths.
fn push_paths<'a>(paths: &mut Vec<&'a Path>, dirs: &'a [Path]) -> Result<(), AllocError>
    ensures { OnOk result (paths_in paths.new.items ≡ paths_in paths.old.items ++ dirs.now) }
{
    for dir in dirs {
        paths.push(dir)?;
    }
    Ok(())
}

/// Adds the places of a mount point.
fn push_places<'a>(
    places: &mut Vec<Place<'a>>,
    mounts: &[&'a Path],
    dirs: &[&'a Path],
    mount: &'a Path,
) -> Result<(), AllocError>
    ensures { OnOk result (map place_of places.new.items
        ≡ map place_of places.old.items ++ places_at (paths_in mounts.now) (paths_in dirs.now) mount.now) }
{
    places.push(Place::Directory(mount))?;
    for dir in dirs {
        push_if_below(places, mounts, dir, mount)?;
    }
    places.push(Place::Others(mount))?;
    Ok(())
}

/// Adds a directory, if it is below a mount point, and below no other one between.
fn push_if_below<'a>(
    places: &mut Vec<Place<'a>>,
    mounts: &[&Path],
    dir: &'a Path,
    mount: &Path,
) -> Result<(), AllocError>
    ensures { OnOk result (map place_of places.new.items
        ≡ map place_of places.old.items ++ map spec.Directory (dirs_below (paths_in mounts.now) (dir.now ∷ []) mount.now)) }
{
    if is_below(mounts, dir, mount) {
        places.push(Place::Directory(dir))?;
    }
    Ok(())
}

/// Tests whether a path is below a mount point, and below no other one between.
fn is_below(mounts: &[&Path], path: &Path, mount: &Path) -> bool
    ensures { result ≡ (is_home (paths_in mounts.now) path.now mount.now && not (same_path path.now mount.now)) }
{
    if *path == *mount {
        return false;
    }
    is_home(mounts, path, mount)
}

/// Tests whether a path is under a mount point, and that under each other mount point that the path is under.
fn is_home(mounts: &[&Path], path: &Path, mount: &Path) -> bool
    ensures { result ≡ is_home (paths_in mounts.now) path.now mount.now }
{
    path.is_under(mount)
        && mounts
            .iter()
            .all(|other| !path.is_under(other) || mount.is_under(other))
}
