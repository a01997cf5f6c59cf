//! How many revisions and files a database has.

ghost use Rattle.std.specs.Prelude.{◌≡◌, length};
ghost use Rattle.page_summary.specs.Amounts as spec;

use desk_core::Head;

/// Returns how many revisions files have together, given the newest of each, and how many files these are.
pub fn revisions_and_files(heads: &[Head]) -> (u64, u64)
    ensures revisions { result.0 ≡ spec.revisions_of heads.now }
    ensures files { result.1 ≡ length heads.now }
{
    let mut revisions = 0u64;
    for head in heads {
        revisions = revisions.saturating_add(u64::from(head.rev));
    }
    (revisions, heads.len() as u64)
}
