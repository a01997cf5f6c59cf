//! Values that are looked up among the runs of a function of addresses.

ghost use Rattle.std.specs.Prelude.{◌≡◌, ◌++◌, IfOk, OnOk, false, map};
ghost use Rattle.desk_text.specs.Address.{number_of};
ghost use Rattle.desk_text.specs.AddrSet.{is_among};
ghost use Rattle.desk_who.specs.Runs.{run_value};
ghost use Rattle.page_data.specs.PrivateValues.{AreItsStarts, IsValueAt, start_at};

use desk_text::laws::sorted_sets_are_unique;
use desk_text::{Addr, AddrSet};
use desk_who::{Alike, Run};
use std::alloc::{AllocError, Global};

/// Finds the value of an address, by a binary search.
pub(crate) fn value_at<T: Alike>(runs: &[Run<T>], address: Addr) -> Option<T>
    ensures { IsValueAt T.meaning runs.now (number_of address) result }
{
    let number = address.number();
    let first = runs.partition_point(|run| run.last.number() < number);
    match runs.get(first) {
        Some(run) => Some(run.value),
        None => None,
    }
}

/// Gathers the addresses at which runs begin, but for the first address of all.
pub(crate) fn starts_of<T: Alike>(alloc: Global, runs: &[Run<T>]) -> Result<AddrSet, AllocError>
    ensures behind { IfOk result (λ starts. is_among 0 starts ≡ false) }
    ensures starts { IfOk result (λ starts. AreItsStarts (map (run_value T.meaning) runs.now) starts) }
{
    sorted_sets_are_unique();
    let mut starts = Vec::new(alloc);
    for run in runs {
        push_start(&mut starts, run.first)?;
    }
    Ok(AddrSet::from_vec(starts))
}

/// Adds an address, if it is not the first of all.
fn push_start(starts: &mut Vec<Addr>, address: Addr) -> Result<(), AllocError>
    ensures { OnOk result (map number_of starts.new.items ≡ map number_of starts.old.items ++ start_at (number_of address)) }
{
    if address.number() != 0 {
        starts.push(address)?;
    }
    Ok(())
}
