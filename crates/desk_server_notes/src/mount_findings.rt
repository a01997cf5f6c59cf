//! What is found in the file system of a mount point.

ghost use Rattle.std.specs.Prelude.{IfOk};
ghost use Rattle.desk_server_notes.specs.MountFindings.{AreRepeatedAt, AreWiderAt, AreWiderIn};

use desk_idle::write_directories;
use desk_index::Index;
use desk_policy::PolicyView;
use desk_server::{RepeatedClient, WiderGrant, repeated_clients, wider_grants};
use desk_tables::FsId;
use desk_text::Path;
use std::alloc::{AllocError, Global};

/// Finds the lines of the file system of a mount point where mountd(8) grants more than this desk.
pub(crate) fn wider_at<'a>(
    alloc: Global,
    index: &'a Index,
    mount: &Path,
) -> Result<Vec<WiderGrant<'a>>, AllocError>
    ensures { IfOk result (λ found. AreWiderAt index.now mount.now found.items) }
{
    match index.policy().filesystems().printed_as(mount.text()) {
        Some(fs) => wider_in(alloc, index, fs),
        None => Ok(Vec::new(alloc)),
    }
}

/// Finds the lines of a file system where mountd(8) grants more; none unless its lines write directories of their own.
fn wider_in<'a>(
    alloc: Global,
    index: &'a Index,
    fs: FsId,
) -> Result<Vec<WiderGrant<'a>>, AllocError>
    ensures { IfOk result (λ found. AreWiderIn index.now fs.0 found.items) }
{
    if write_directories(index, fs) {
        wider_grants(alloc, index, fs)
    } else {
        Ok(Vec::new(alloc))
    }
}

/// Finds the lines of the file system of a mount point that have a client of an earlier one.
pub(crate) fn repeated_at(
    alloc: Global,
    index: &Index,
    mount: &Path,
) -> Result<Vec<RepeatedClient>, AllocError>
    ensures { IfOk result (λ found. AreRepeatedAt index.now mount.now found.items) }
{
    match index.policy().filesystems().printed_as(mount.text()) {
        Some(fs) => repeated_clients(alloc, index, fs),
        None => Ok(Vec::new(alloc)),
    }
}
