//! What is known of file systems: what is found of all their directories that no line writes, and where that may change.

ghost use Rattle.std.specs.Prelude.{◌≡◌, IfOk, IfSome};
ghost use Rattle.std.specs.Bool.{Decides};
ghost use Rattle.desk_impact.specs.KnownSystems.{fs_number};
ghost use Rattle.desk_impact.specs.PrivateKnownSystems.{IsKnownAt};

use desk_tables::FsId;
use desk_text::{AddrSet, Sequence};
use desk_who::Run;
use std::alloc::{AllocError, Global};

/// What is found of the directories that no line writes in a file system of the one policy and one of the other; and the
/// addresses at which it may change on any directory there.
#[derive(Drop)]
pub struct Known<T> {
    pub old: Option<FsId>,
    pub new: Option<FsId>,
    pub starts: AddrSet,
    pub found: Sequence<Run<T>>,
}

/// Finds the place at which something is known of two file systems.
pub(crate) fn known_place<T>(
    known: &[Known<T>],
    old: Option<FsId>,
    new: Option<FsId>,
) -> Option<usize>
    ensures { IfSome result (IsKnownAt known.now (fs_number old) (fs_number new)) }
{
    for place in 0..known.len() {
        let one = &known[place];
        if is_same(one.old, old) && is_same(one.new, new) {
            return Some(place);
        }
    }
    None
}

/// Tests whether two are one file system, or neither is any.
fn is_same(fs: Option<FsId>, other: Option<FsId>) -> bool
    ensures { Decides result (fs_number fs ≡ fs_number other) }
{
    match (fs, other) {
        (Some(fs), Some(other)) => fs.0 == other.0,
        (None, None) => true,
        (Some(_), None) | (None, Some(_)) => false,
    }
}

/// Copies what is found.
pub(crate) fn copied<T: Copy>(alloc: Global, found: &[Run<T>]) -> Result<Vec<Run<T>>, AllocError>
    ensures { IfOk result (λ copy. copy.items ≡ found.now) }
{
    let mut copy = Vec::new(alloc);
    copy.extend_from_slice(found)?;
    Ok(copy)
}
