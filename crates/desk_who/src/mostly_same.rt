//! What is found for a path, from what is found where the verdicts are mostly the same.

ghost use Rattle.std.specs.Prelude.{◌≡◌, ◌++◌, true, false, IfOk, None, Some, if◌then◌else◌, map, nat_le};
ghost use Rattle.std.specs.List.{flat_map};
ghost use Rattle.std.specs.Option.{option_map};
ghost use Rattle.desk_text.specs.Address.{number_of};
ghost use Rattle.desk_text.specs.AddrSet.{is_among, sorted_set};
ghost use Rattle.desk_who.specs.MostlySame.{AreFoundBeside, AreRunsBeside};
ghost use Rattle.desk_who.specs.PrivateMostlySame.{AreRanges, bounds_of, held_value};
ghost use Rattle.desk_who.specs.Runs.{is_asked, run_value};
ghost use Rattle.desk_who.specs.Searching.{ByRule, found_at};

use crate::runs::{Alike, Run, longest_runs, those_with_value};
use crate::searching::Search;
use crate::starts::push_both;
use desk_text::laws::sorted_sets_are_unique;
use desk_text::{Addr, AddrSet, Path};
use std::alloc::{AllocError, Global};

/// Lists what `found_runs` lists of a path, given the runs of what is found elsewhere, which goes together with what is found for the
/// path except at the decided addresses. The path is asked at these and at the first of all.
pub fn found_beside<T: Alike, S: Search<T>>(
    alloc: Global,
    search: &S,
    path: &Path,
    others: &[Run<T>],
    decided: &AddrSet,
) -> Result<Vec<Run<T>>, AllocError>
    requires { is_among 0 decided.now ≡ false }
    ensures { IfOk result (λ runs. ByRule T.meaning (S.found search.now) (S.in_force search.now) (S.turns search.now) (λ rule.
        AreFoundBeside (found_at rule (S.in_force search.now) path.now) (map (run_value T.meaning) others.now) decided.now (map (run_value T.meaning) runs.items))) }
{
    runs_beside(alloc, others, decided, |address| search.find(address, path))
}

/// Lists the runs with a value, given those of another function of addresses, which goes together with what is found except at the
/// decided addresses: at each other one both say the same, or neither changes. A value is found for the decided addresses and for
/// the first of all.
pub fn runs_beside<T: Alike, F: Fn(Addr) -> Option<T>>(
    alloc: Global,
    others: &[Run<T>],
    decided: &AddrSet,
    find: F,
) -> Result<Vec<Run<T>>, AllocError>
    requires callable { F.IsAlwaysCallable find }
    requires behind { is_among 0 decided.now ≡ false }
    ensures { IfOk result (λ runs.
        AreRunsBeside T.meaning (F.post find) (map (run_value T.meaning) others.now) decided.now (map (run_value T.meaning) runs.items)) }
{
    sorted_sets_are_unique();
    let starts = starts_beside(alloc, others, decided)?;
    let runs = longest_runs(alloc, &starts, |address| {
        value_beside(others, decided, &find, address)
    })?;
    those_with_value(alloc, runs.as_slice())
}

/// Finds the value of an address: of a decided one by asking, of any other by what is known.
fn value_beside<T: Alike, F: Fn(Addr) -> Option<T>>(
    others: &[Run<T>],
    decided: &AddrSet,
    find: &F,
    address: Addr,
) -> Option<T>
    requires { F.IsAlwaysCallable find.now }
    ensures asked { is_asked decided.now (number_of address) ≡ true → F.post find.now address result }
    ensures given { is_asked decided.now (number_of address) ≡ false → AreRanges (map (run_value T.meaning) others.now)
        → option_map T.meaning result ≡ held_value (number_of address) (map (run_value T.meaning) others.now) }
{
    if is_asked(decided, address) {
        find(address)
    } else {
        value_held(others, address)
    }
}

/// Tests whether an address is the first of all, or one of these.
fn is_asked(decided: &AddrSet, address: Addr) -> bool
    ensures { result ≡ is_asked decided.now (number_of address) }
{
    address.number() == 0 || decided.contains(address)
}

/// Finds the value of the range that holds an address, by a binary search.
fn value_held<T: Alike>(others: &[Run<T>], address: Addr) -> Option<T>
    ensures { AreRanges (map (run_value T.meaning) others.now)
        → option_map T.meaning result ≡ held_value (number_of address) (map (run_value T.meaning) others.now) }
{
    let number = address.number();
    let first = others.partition_point(|run| run.last.number() < number);
    match others.get(first) {
        Some(run) => value_within(run, number),
        None => None,
    }
}

/// Finds the value of a range that ends at a number or behind it, if it begins there or before it.
fn value_within<T: Alike>(run: &Run<T>, number: u32) -> Option<T>
    ensures { option_map T.meaning result ≡ (if nat_le (number_of run.now.first) number then Some (T.meaning run.now.value) else None) }
{
    if run.first.number() <= number {
        Some(run.value)
    } else {
        None
    }
}

/// Gathers the decided addresses, and those at which ranges begin and end, but for the first address of all.
fn starts_beside<T: Alike>(
    alloc: Global,
    others: &[Run<T>],
    decided: &AddrSet,
) -> Result<AddrSet, AllocError>
    ensures { IfOk result (λ starts. starts ≡ sorted_set (flat_map (λ run. bounds_of (run_value T.meaning run)) others.now ++ decided.now)) }
{
    let mut starts = Vec::new(alloc);
    for run in others {
        push_both(
            &mut starts,
            run.first.number(),
            u64::from(run.last.number()) + 1,
        )?;
    }
    starts.extend_from_slice(decided.as_slice())?;
    Ok(AddrSet::from_vec(starts))
}
