//! What is said of each file system.

ghost use Rattle.std.specs.Prelude.{IfOk, ℕ};
ghost use Rattle.std.specs.List.{AllZip};
ghost use Rattle.desk_tables.specs.FileSystems.{fs_of};
ghost use Rattle.desk_idle.specs.Laws.{WriteDirectories};
ghost use Rattle.desk_remarks.specs.SaidOfSystems.{IsSaidIn, IsSaidOf};

use desk_idle::{Idle, idle_lines_by, selections_of};
use desk_index::Index;
use desk_policy::PolicyView;
use desk_server::{RepeatedClient, WiderGrant, repeated_clients, wider_grants_by};
use desk_tables::{FsId, Mount};
use desk_text::{Path, Sequence};
use std::alloc::{AllocError, Global};

/// What is said of a file system: its lines that decide nothing, those to whose clients the server grants more, and those that have a
/// client of an earlier one.
#[derive(Drop)]
pub struct Said<'i> {
    pub idle: Sequence<Idle>,
    pub wider: Sequence<WiderGrant<'i>>,
    pub repeated: Sequence<RepeatedClient>,
}

/// Finds what is said of the file systems of these mount points.
pub fn said_of_each<'i>(
    alloc: Global,
    index: &'i Index,
    mounts: &[Mount],
) -> Result<Sequence<Said<'i>>, AllocError>
    requires { (fs : ℕ) → WriteDirectories index.now fs }
    ensures { IfOk result (λ saids. AllZip (λ mount said. IsSaidIn index.now (fs_of index.now.table mount.path) said) mounts.now saids) }
{
    let mut saids = Sequence::new(alloc);
    for mount in mounts {
        let said = said_at(alloc, index, &mount.path)?;
        saids.push(said)?;
    }
    Ok(saids)
}

/// Finds what is said of the file system of a mount point.
fn said_at<'i>(alloc: Global, index: &'i Index, mount: &Path) -> Result<Said<'i>, AllocError>
    requires { (fs : ℕ) → WriteDirectories index.now fs }
    ensures { IfOk result (IsSaidIn index.now (fs_of index.now.table mount.now)) }
{
    match index.policy().filesystems().of(mount) {
        Some(fs) => said_of(alloc, index, fs),
        None => Ok(Said {
            idle: Sequence::new(alloc),
            wider: Sequence::new(alloc),
            repeated: Sequence::new(alloc),
        }),
    }
}

/// Finds what is said of a file system.
fn said_of<'i>(alloc: Global, index: &'i Index, fs: FsId) -> Result<Said<'i>, AllocError>
    requires { WriteDirectories index.now fs.0 }
    ensures { IfOk result (IsSaidOf index.now fs.0) }
{
    // Both ask what is selected at the same addresses.
    let selections = selections_of(alloc, index, fs)?;
    let idle = idle_lines_by(alloc, index, fs, selections.as_slice())?;
    let wider = wider_grants_by(alloc, index, fs, selections.as_slice())?;
    drop(selections);
    let repeated = repeated_clients(alloc, index, fs)?;
    Ok(Said {
        idle: Sequence::from_vec(idle),
        wider: Sequence::from_vec(wider),
        repeated: Sequence::from_vec(repeated),
    })
}
