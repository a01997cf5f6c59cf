//! How many addresses of some ranges are of which class.

ghost use Rattle.std.specs.Prelude.{◌≡◌, ◌+◌, ◌-◌, ◌≤◌, ◌^◌, map};
ghost use Rattle.page_data.specs.Classes.{class_run};
ghost use Rattle.page_data.specs.Counts.{AreCountsFrom};
ghost use Rattle.page_data.specs.Values.{AreRunsOfSome};
ghost use Rattle.page_filesystem.specs.Shares.{size_of};
ghost use Rattle.page_filesystem.specs.Counting as spec;
ghost use Rattle.page_filesystem.specs.Counting.{AreCountsOverFrom, outside_private};

use desk_text::Addr;
use desk_who::Run;
use page_data::{Class, Counts, counts_add_up, counts_within};

/// Counts all addresses by their classes.
pub fn all_counts(classes: &[Run<Class>]) -> Counts
    requires { AreRunsOfSome (map class_run classes.now) }
    ensures counts { AreCountsFrom (map class_run classes.now) 0 (2 ^ 32 - 1) result }
    ensures all { result.denied + result.read_only + result.read_write + result.root_kept ≡ 2 ^ 32 }
{
    counts_between(classes, 0, u32::MAX)
}

/// Counts the addresses from the first to the last.
pub(crate) fn counts_between(classes: &[Run<Class>], first: u32, last: u32) -> Counts
    requires { AreRunsOfSome (map class_run classes.now) }
    ensures counts { AreCountsFrom (map class_run classes.now) first last result }
    ensures size { result.denied + result.read_only + result.read_write + result.root_kept ≡ last + 1 - first }
{
    counts_add_up();
    counts_within(classes, Addr::from_number(first), Addr::from_number(last))
}

/// Counts the addresses that are in no private network: those below the first, those between two of them, and those above the last.
pub(crate) fn counts_outside(classes: &[Run<Class>]) -> Counts
    requires { AreRunsOfSome (map class_run classes.now) }
    ensures counts { AreCountsOverFrom (map class_run classes.now) outside_private result }
    ensures size { size_of result ≤ 2 ^ 32 }
{
    let below = counts_between(classes, 0x0000_0000, 0x09ff_ffff);
    let second = counts_between(classes, 0x0b00_0000, 0xac0f_ffff);
    let third = counts_between(classes, 0xac20_0000, 0xc0a7_ffff);
    let above = counts_between(classes, 0xc0a9_0000, 0xffff_ffff);
    added(&below, &added(&second, &added(&third, &above)))
}

/// Adds counts.
fn added(counts: &Counts, others: &Counts) -> Counts
    requires { size_of counts.now + size_of others.now ≤ 2 ^ 32 }
    ensures sum { result ≡ spec.added counts.now others.now }
    ensures size { size_of result ≡ size_of counts.now + size_of others.now }
{
    Counts {
        denied: counts.denied + others.denied,
        read_only: counts.read_only + others.read_only,
        read_write: counts.read_write + others.read_write,
        root_kept: counts.root_kept + others.root_kept,
    }
}
