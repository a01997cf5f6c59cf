//! The directories of a file system that lines write, and its places.

ghost use Rattle.std.specs.Prelude.{◌≡◌, ◌++◌, ◌∷◌, [], IfOk, OnOk, map};
ghost use Rattle.desk_text.specs.Path.{same_path};
ghost use Rattle.desk_tables.specs.FileSystems.{fs_of};
ghost use Rattle.desk_policy.specs.Listings.{written};
ghost use Rattle.desk_policy.specs.Verdict.{is_in};
ghost use Rattle.desk_impact.specs.Places.{AreInOrder, Directory, paths_in, place_of};
ghost use Rattle.page_places.specs.Directories as spec;
ghost use Rattle.page_places.specs.Directories.{below, own_dirs, own_of};

use desk_impact::{Place, in_order};
use desk_policy::{Policy, Row};
use desk_tables::{FileSystems, FsId};
use desk_text::Path;
use std::alloc::{AllocError, Global};

/// Lists the directories of a file system that its lines write by one of two policies, in byte order, each once.
pub(crate) fn own_directories<'a>(
    alloc: Global,
    before: &'a Policy,
    after: &'a Policy,
    fs: FsId,
) -> Result<Vec<&'a Path>, AllocError>
    ensures { IfOk result (λ dirs. AreInOrder (own_dirs before.now after.now fs.0) (paths_in dirs.items)) }
{
    let table = before.filesystems();
    let mut dirs = Vec::new(alloc);
    push_own(&mut dirs, table, fs, before.rows(fs))?;
    push_own(&mut dirs, table, fs, after.rows(fs))?;
    Ok(in_order(dirs))
}

/// Adds the directories of a file system that these lines write.
fn push_own<'a>(
    dirs: &mut Vec<&'a Path>,
    table: &FileSystems,
    fs: FsId,
    rows: &'a [Row],
) -> Result<(), AllocError>
    ensures { OnOk result (paths_in dirs.new.items ≡ paths_in dirs.old.items ++ own_of table.now fs.0 (written rows.now)) }
{
    for row in rows {
        push_own_of_line(dirs, table, fs, row.entry.dirs.as_slice())?;
    }
    Ok(())
}

/// Adds those of a line.
fn push_own_of_line<'a>(
    dirs: &mut Vec<&'a Path>,
    table: &FileSystems,
    fs: FsId,
    paths: &'a [Path],
) -> Result<(), AllocError>
    ensures { OnOk result (paths_in dirs.new.items ≡ paths_in dirs.old.items ++ own_of table.now fs.0 paths.now) }
{
    for path in paths {
        push_if_own(dirs, table, fs, path)?;
    }
    Ok(())
}

/// Adds a directory, if it is in a file system.
fn push_if_own<'a>(
    dirs: &mut Vec<&'a Path>,
    table: &FileSystems,
    fs: FsId,
    path: &'a Path,
) -> Result<(), AllocError>
    ensures { OnOk result (paths_in dirs.new.items ≡ paths_in dirs.old.items ++ own_of table.now fs.0 (path.now ∷ [])) }
{
    if is_own(table, fs, path) {
        dirs.push(path)?;
    }
    Ok(())
}

/// Tests whether a path is in a file system.
fn is_own(table: &FileSystems, fs: FsId, path: &Path) -> bool
    ensures { result ≡ is_in (fs_of table.now path.now) fs.0 }
{
    match table.of(path) {
        Some(own) => own.0 == fs.0,
        None => false,
    }
}

/// Lists the places of a mount point, given the written directories of its file system in byte order.
pub(crate) fn places_with<'a>(
    alloc: Global,
    mount: &'a Path,
    dirs: &[&'a Path],
) -> Result<Vec<Place<'a>>, AllocError>
    ensures { IfOk result (λ places. map place_of places.items ≡ spec.places_with mount.now (paths_in dirs.now)) }
{
    let mut places = Vec::new(alloc);
    places.push(Place::Directory(mount))?;
    for dir in dirs {
        push_if_below(&mut places, mount, dir)?;
    }
    places.push(Place::Others(mount))?;
    Ok(places)
}

/// Adds a directory, unless it is the mount point.
fn push_if_below<'a>(
    places: &mut Vec<Place<'a>>,
    mount: &Path,
    dir: &'a Path,
) -> Result<(), AllocError>
    ensures { OnOk result (map place_of places.new.items ≡ map place_of places.old.items ++ map Directory (below mount.now (dir.now ∷ []))) }
{
    if !is_same(dir, mount) {
        places.push(Place::Directory(dir))?;
    }
    Ok(())
}

/// Tests whether a directory is the mount point.
fn is_same(dir: &Path, mount: &Path) -> bool
    ensures { result ≡ same_path dir.now mount.now }
{
    *dir == *mount
}
