//! Whether lines write directories of their own file system, as those do that are read from texts.

ghost use Rattle.std.specs.Prelude.{◌≡◌, ◌<◌, All, Some, length};
ghost use Rattle.std.specs.Bool.{Decides};
ghost use Rattle.desk_tables.specs.FileSystems.{fs_of};
ghost use Rattle.desk_idle.specs.Laws.{WriteDirectories, WritesDirectories};

use desk_index::Index;
use desk_policy::{PolicyView, Row};
use desk_tables::{FileSystems, FsId};
use desk_text::Path;

/// Tests whether each line of a file system writes directories of this file system alone, at least one.
pub fn write_directories(index: &Index, fs: FsId) -> bool
    ensures { Decides result (WriteDirectories index.now fs.0) }
{
    let policy = index.policy();
    for row in policy.rows(fs) {
        if !writes_directories(policy.filesystems(), fs, row) {
            return false;
        }
    }
    true
}

/// Tests it of a line.
fn writes_directories(table: &FileSystems, fs: FsId, row: &Row) -> bool
    ensures { Decides result (WritesDirectories table.now fs.0 row.now) }
{
    let dirs = row.entry.dirs.as_slice();
    are_own(table, fs, dirs) && !dirs.is_empty()
}

/// Tests whether all of these directories are of this file system.
fn are_own(table: &FileSystems, fs: FsId, dirs: &[Path]) -> bool
    ensures { Decides result (All (λ dir. fs_of table.now dir ≡ Some fs.0) dirs.now) }
{
    for dir in dirs {
        if !is_own(table, fs, dir) {
            return false;
        }
    }
    true
}

/// Tests whether a directory is of this file system.
fn is_own(table: &FileSystems, fs: FsId, dir: &Path) -> bool
    ensures { Decides result (fs_of table.now dir.now ≡ Some fs.0) }
{
    match table.of(dir) {
        Some(own) => own.0 == fs.0,
        None => false,
    }
}
