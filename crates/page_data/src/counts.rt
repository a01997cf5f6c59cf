//! How many addresses of a range are of which class.

ghost use Rattle.std.specs.Prelude.{◌≡◌, ◌≤◌, ◌^◌, map};
ghost use Rattle.desk_text.specs.Address.{number_of};
ghost use Rattle.page_data.specs.Classes.{class_run};
ghost use Rattle.page_data.specs.Counts.{AreCountsFrom, granted_of};
ghost use Rattle.page_data.specs.PrivateCounts as spec;
ghost use Rattle.page_data.specs.Values.{AreRunsOfSome};

use crate::class::Class;
use desk_text::Addr;
use desk_who::{Alike, Run};

/// How many addresses are of each class.
#[derive(Clone, Copy)]
pub struct Counts {
    pub denied: u64,
    pub read_only: u64,
    pub read_write: u64,
    pub root_kept: u64,
}

impl Counts {
    /// Adds up how many may mount something.
    pub fn granted(&self) -> u64
        requires { granted_of self.now ≤ 2 ^ 32 }
        ensures { result ≡ granted_of self.now }
    {
        self.read_only + self.read_write + self.root_kept
    }
}

/// Counts the addresses from the first to the last by their classes.
pub fn counts_within(runs: &[Run<Class>], first: Addr, last: Addr) -> Counts
    requires { AreRunsOfSome (map class_run runs.now) }
    ensures { AreCountsFrom (map class_run runs.now) (number_of first) (number_of last) result }
{
    let _last = last.number();
    Counts {
        denied: count_of(runs, Class::Denied, first, last),
        read_only: count_of(runs, Class::ReadOnly, first, last),
        read_write: count_of(runs, Class::ReadWrite, first, last),
        root_kept: count_of(runs, Class::RootKept, first, last),
    }
}

/// Counts those of one class.
fn count_of(runs: &[Run<Class>], class: Class, first: Addr, last: Addr) -> u64
    requires { AreRunsOfSome (map class_run runs.now) }
    ensures { result ≡ spec.shared_by_class class (number_of first) (number_of last) (map class_run runs.now) }
{
    let _last = last.number();
    let mut count = 0;
    for run in runs {
        if run.value.is_alike(&class) {
            count += shared(run, first, last);
        }
    }
    count
}

/// Counts the addresses that a run shares with a range.
fn shared(run: &Run<Class>, first: Addr, last: Addr) -> u64
    ensures { result ≡ spec.shared (number_of first) (number_of last) (class_run run.now) }
{
    let begin = run.first.number().max(first.number());
    let end = run.last.number().min(last.number());
    (u64::from(end) + 1).saturating_sub(u64::from(begin))
}
