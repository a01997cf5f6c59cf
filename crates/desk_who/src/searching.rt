//! What is looked for at the addresses of a path, and where it is found.

ghost use Rattle.std.specs.Prelude.{◌≡◌, ℕ, List, Option, IfOk, false, map};
ghost use Rattle.desk_text.specs.Address.{number_of};
ghost use Rattle.desk_text.specs.AddrSet.{is_among};
ghost use Rattle.desk_text.specs.declared.address.Addr.{Addr};
ghost use Rattle.desk_policy.specs.Policy.{Content};
ghost use Rattle.desk_who.specs.Runs.{AreRunsWithValue, run_value};
ghost use Rattle.desk_who.specs.PrivateSearching.{AreSought};
ghost use Rattle.desk_who.specs.Searching.{AreFoundStarts, ByRule, IsSilent, found_at};

use crate::runs::{Alike, Run, longest_runs, those_with_value};
use crate::starts::{joined, starts_among};
use desk_policy::{Policy, Row};
use desk_text::laws::sorted_sets_are_unique;
use desk_text::{Addr, AddrSet, Path};
use std::alloc::{AllocError, Global};

/// What is looked for at each address of a path in a policy, by the lines of the path's file system: values such as verdicts.
pub trait Search<T> {
    /// The policy in force.
    ghost in_force: { Self → Content };

    /// The addresses at which something else may be found though no line begins or ceases to match.
    ghost turns: { Self → List ℕ };

    /// What may be found at an address of a path.
    ghost found: { Self → Addr → List (List ℕ) → Option T → Type 0 };

    /// Lends the policy in force.
    fn policy(&self) -> &Policy
        ensures { result.now ≡ in_force self.now };

    /// Lends the addresses at which something else may be found though no line begins or ceases to match, but for the first
    /// address of all.
    fn starts(&self) -> &AddrSet
        ensures turns { result.now ≡ turns self.now }
        ensures behind { is_among 0 result.now ≡ false };

    /// Finds what is looked for at an address of a path, if it is there.
    fn find(&self, address: Addr, path: &Path) -> Option<T>
        ensures { found self.now address path.now result };

    /// Tests whether something may be found at an address, for whichever path. Where it cannot be, no path is asked.
    fn may_find(&self, address: Addr) -> bool
        ensures { result ≡ false → IsSilent (found self.now) (turns self.now) (number_of address) };
}

/// Lists where something is found for a path: the longest runs of addresses at which the same is found, ascending.
pub fn found_runs<T: Alike, S: Search<T>>(
    alloc: Global,
    search: &S,
    path: &Path,
) -> Result<Vec<Run<T>>, AllocError>
    ensures { IfOk result (λ runs. ByRule T.meaning (S.found search.now) (S.in_force search.now) (S.turns search.now) (λ rule.
        AreRunsWithValue (found_at rule (S.in_force search.now) path.now) (map (run_value T.meaning) runs.items))) }
{
    let starts = found_starts(alloc, search, path)?;
    let runs = longest_runs(alloc, &starts, |address| search.find(address, path))?;
    those_with_value(alloc, runs.as_slice())
}

/// Gathers the addresses at which something else may be found for a path; and so for each path of its file system.
pub fn found_starts<T: Alike, S: Search<T>>(
    alloc: Global,
    search: &S,
    path: &Path,
) -> Result<AddrSet, AllocError>
    ensures behind { IfOk result (λ starts. is_among 0 starts ≡ false) }
    ensures starts { IfOk result (λ starts. ByRule T.meaning (S.found search.now) (S.in_force search.now) (S.turns search.now) (λ rule.
        AreFoundStarts rule (S.in_force search.now) path.now starts)) }
{
    let policy = search.policy();
    match policy.filesystems().of(path) {
        Some(fs) => joined(
            sought_among(alloc, search, policy.rows(fs))?,
            search.starts(),
        ),
        None => joined(AddrSet::new(alloc), search.starts()),
    }
}

/// Gathers the addresses at which one of these lines begins or ceases to match and something may be found, but for the first address of
/// all.
fn sought_among<T, S: Search<T>>(
    alloc: Global,
    search: &S,
    rows: &[Row],
) -> Result<AddrSet, AllocError>
    ensures { IfOk result (AreSought (S.found search.now) (S.turns search.now) rows.now) }
{
    sorted_sets_are_unique();
    let starts = starts_among(alloc, rows)?;
    let addresses = starts.as_slice();
    let mut sought = Vec::new(alloc);
    for address in addresses {
        if search.may_find(*address) {
            sought.push(*address)?;
        }
    }
    Ok(AddrSet::from_vec(sought))
}
