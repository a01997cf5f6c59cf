//! What is selected wherever that may change, found once for all who ask.

ghost use Rattle.std.specs.Prelude.{◌≡◌, IfOk};
ghost use Rattle.desk_policy.specs.Policy.{rows_of};
ghost use Rattle.desk_idle.specs.Selections.{AreSelections, IsSelection};

use desk_index::{Index, Weighed};
use desk_policy::PolicyView;
use desk_tables::FsId;
use desk_text::Addr;
use desk_who::starts_among;
use std::alloc::{AllocError, Global};

/// What is selected at an address.
#[derive(Clone, Copy)]
pub struct Selection<'a> {
    pub address: Addr,
    /// The selected lines, which are the heaviest that match the address; none if no line matches it.
    pub group: Option<Weighed<'a>>,
}

/// Lists what is selected of a file system at the first address of all, and at each address at which one of its lines begins or
/// ceases to match, in ascending order. At any other address the same lines are selected as at the last of these before it.
pub fn selections_of<'a>(
    alloc: Global,
    index: &'a Index,
    fs: FsId,
) -> Result<Vec<Selection<'a>>, AllocError>
    ensures { IfOk result (λ found. AreSelections (rows_of index.now fs.0) found.items) }
{
    let starts = starts_among(alloc, index.policy().rows(fs))?;
    let mut found = Vec::with_capacity(alloc, starts.as_slice().len() + 1)?;
    found.push(selection_at(index, fs, Addr::from_number(0)))?;
    for start in starts.as_slice() {
        found.push(selection_at(index, fs, *start))?;
    }
    Ok(found)
}

/// Finds what is selected at an address.
fn selection_at<'a>(index: &'a Index, fs: FsId, address: Addr) -> Selection<'a>
    ensures address { result.address ≡ address }
    ensures selected { IsSelection (rows_of index.now fs.0) result }
{
    // The heaviest lines of all are the selected ones.
    let group = index.heaviest_below(fs, address, 35);
    Selection { address, group }
}
