//! What runs over addresses: the longest ranges of addresses that have one value.

ghost use Rattle.std.specs.Prelude.{◌≡◌, false, IfOk, Option, map};
ghost use Rattle.std.specs.Bool.{Decides};
ghost use Rattle.std.specs.Option.{option_map};
ghost use Rattle.desk_text.specs.AddrSet.{is_among};
ghost use Rattle.desk_who.specs.Runs.{AreRunsFound, run_value, those_with_value};

use desk_text::{Addr, AddrSet};
use std::alloc::{AllocError, Global};

/// Neighbouring addresses that have one value.
#[derive(Clone, Copy)]
pub struct Run<T> {
    pub first: Addr,
    pub last: Addr,
    pub value: T,
}

/// A value that is told apart from others by what it means.
pub trait Alike: Copy {
    /// What values can mean.
    ghost Meaning: { Type 0 };

    /// What a value means: the value itself, or the class that it is of.
    ghost meaning: { Self → Meaning };

    /// Tests whether two values mean the same.
    fn is_alike(&self, other: &Self) -> bool
        ensures { Decides result (meaning self.now ≡ meaning other.now) };
}

impl<T: Alike> Alike for Option<T> {
    ghost Meaning = { Option T.Meaning };

    ghost meaning = { option_map T.meaning };

    fn is_alike(&self, other: &Option<T>) -> bool {
        match (self, other) {
            (Some(value), Some(other)) => value.is_alike(other),
            (None, None) => true,
            (Some(_), None) | (None, Some(_)) => false,
        }
    }
}

/// Lists the longest runs of addresses for which values are found that mean the same, ascending, given the addresses at which
/// that may change. A value is found for each of these addresses, and for the first of all.
pub fn longest_runs<T: Alike, F: Fn(Addr) -> T>(
    alloc: Global,
    starts: &AddrSet,
    find: F,
) -> Result<Vec<Run<T>>, AllocError>
    requires callable { F.IsAlwaysCallable find }
    requires behind { is_among 0 starts.now ≡ false }
    ensures { IfOk result (λ runs. AreRunsFound T.meaning (F.post find) starts.now runs.items) }
{
    let mut runs = Vec::new(alloc);
    let mut first = Addr::from_number(0);
    let mut value = find(first);
    for start in starts.as_slice() {
        let number = start.number();
        let next = find(*start);
        if !value.is_alike(&next) {
            let last = Addr::from_number(number - 1);
            runs.push(Run { first, last, value })?;
            first = *start;
            value = next;
        }
    }
    let last = Addr::from_number(u32::MAX);
    runs.push(Run { first, last, value })?;
    Ok(runs)
}

/// Gathers the runs that have a value.
pub(crate) fn those_with_value<T: Alike>(
    alloc: Global,
    runs: &[Run<Option<T>>],
) -> Result<Vec<Run<T>>, AllocError>
    ensures { IfOk result (λ found. map (run_value T.meaning) found.items ≡ those_with_value (map (run_value (option_map T.meaning)) runs.now)) }
{
    let mut found = Vec::new(alloc);
    for run in runs {
        if let Some(value) = run.value {
            found.push(Run {
                first: run.first,
                last: run.last,
                value,
            })?;
        }
    }
    Ok(found)
}
