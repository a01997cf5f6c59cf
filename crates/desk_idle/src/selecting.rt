//! The lines that are selected for an address, by their numbers.

ghost use Rattle.std.specs.Prelude.{◌≡◌, ◌⊎◌, false, true, IfOk, List, OnOk, ℕ};
ghost use Rattle.std.specs.Borrow.{Bor};
ghost use Rattle.std.specs.BTreeSet as sorted;
ghost use Rattle.desk_text.specs.Address.{number_of};
ghost use Rattle.desk_policy.specs.Policy.{rows_of};
ghost use Rattle.desk_idle.specs.Idle.{first_selected};
ghost use Rattle.desk_idle.specs.PrivateMarks.{order_of_lines};

use desk_index::Index;
use desk_tables::FsId;
use desk_text::Addr;
use std::alloc::AllocError;
use std::collections::BTreeSet;

/// Finds the first line of a file system that is selected for an address.
pub(crate) fn first_selected(index: &Index, fs: FsId, address: Addr) -> Option<u32>
    ensures { result ≡ first_selected (rows_of index.now fs.0) (number_of address) }
{
    match index.selected(fs, address) {
        Some(found) => found.lines().first().copied(),
        None => None,
    }
}

/// Adds lines that are selected together to such lists, and tests whether their list is not there yet. A line by itself is not
/// kept: it is told as new each time.
pub(crate) fn add_lines<'a>(
    lists: &mut BTreeSet<&'a [u32]>,
    lines: &'a [u32],
) -> Result<bool, AllocError>
    ensures known { IfOk result (λ is_new. is_new ≡ false → sorted.contains order_of_lines lists.old lines.entry ≡ true) }
    ensures adds { OnOk result ((other : Bor (List ℕ)) → sorted.contains order_of_lines lists.new other ≡ true
        → (lines.now ≡ other.now) ⊎ (sorted.contains order_of_lines lists.old other ≡ true)) }
{
    if lines.len() < 2 {
        return Ok(true);
    }
    Ok(lists.insert(lines)?)
}
