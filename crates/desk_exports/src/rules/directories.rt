//! The rules on the directories of a line. (exports(5))

ghost use Rattle.std.specs.Prelude.{◌≡◌, is_err};
ghost use Rattle.std.specs.List.{list_any};
ghost use Rattle.std.specs.Option.{option_copied};
ghost use Rattle.desk_text.specs.Path.{is_absolute};
ghost use Rattle.desk_exports.specs.Rules as spec;

use crate::grammar::is_absolute;
use crate::names::Names;
use desk_tables::{FileSystems, FsId};
use desk_text::{Path, PathFault};

/// Tests whether a name begins with `/`.
pub(crate) fn has_late_directory(names: &Names) -> bool
    ensures { result ≡ list_any is_absolute names.now }
{
    for index in 0..names.len() {
        if is_absolute(names.get(index)) {
            return true;
        }
    }
    false
}

/// Tests whether a directory is not a valid path.
pub(crate) fn has_bad_path(directories: &[Result<Path, PathFault>]) -> bool
    ensures { result ≡ list_any is_err directories.now }
{
    directories.iter().any(|directory| directory.is_err())
}

/// Tests whether a directory is not in this file system.
pub(crate) fn has_directory_elsewhere(
    filesystems: &FileSystems,
    own_fs: Option<FsId>,
    directories: &[Result<Path, PathFault>],
) -> bool
    ensures { result
        ≡ list_any (spec.is_elsewhere filesystems.now own_fs) directories.now }
{
    directories
        .iter()
        .any(|directory| is_elsewhere(filesystems, own_fs, directory))
}

pub(crate) fn is_elsewhere(
    filesystems: &FileSystems,
    own_fs: Option<FsId>,
    directory: &Result<Path, PathFault>,
) -> bool
    ensures { result ≡ spec.is_elsewhere filesystems.now own_fs directory.now }
{
    let Ok(path) = directory else {
        return false;
    };
    let Some(own_fs) = own_fs else {
        return true;
    };
    match filesystems.of(path) {
        Some(id) => id != own_fs,
        None => true,
    }
}

/// Tests whether a directory is not the mount point of this file system.
pub(crate) fn has_other_directory(
    filesystems: &FileSystems,
    own_fs: Option<FsId>,
    directories: &[Result<Path, PathFault>],
) -> bool
    ensures { let mount = spec.mount_point filesystems.now own_fs in
        result ≡ list_any (spec.is_not_root mount) directories.now }
{
    let mount = mount_point(filesystems, own_fs);
    directories
        .iter()
        .any(|directory| is_not_root(mount, directory))
}

pub(crate) fn mount_point(filesystems: &FileSystems, own_fs: Option<FsId>) -> Option<&Path>
    ensures { option_copied result ≡ spec.mount_point filesystems.now own_fs }
{
    match own_fs {
        Some(own_fs) => filesystems.mount(own_fs),
        None => None,
    }
}

pub(crate) fn is_not_root(mount: Option<&Path>, directory: &Result<Path, PathFault>) -> bool
    ensures { result ≡ spec.is_not_root (option_copied mount.entry) directory.now }
{
    match (mount, directory) {
        (_, Err(_)) => false,
        (None, Ok(_)) => true,
        (Some(mount), Ok(path)) => !(*path == *mount),
    }
}
