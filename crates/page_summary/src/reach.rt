//! How far file systems reach.

ghost use Rattle.std.specs.Prelude.{◌≡◌, map};
ghost use Rattle.page_data.specs.Classes.{class_run};
ghost use Rattle.page_data.specs.Values.{AreRunsOfSome};
ghost use Rattle.page_maps.specs.Figures.{images_of};
ghost use Rattle.page_summary.specs.Reaching.{IsReachOf, MaySomething, most_among};

use crate::overview::Reach;
use desk_text::Addr;
use desk_who::Run;
use page_data::{Class, counts_add_up, counts_within};
use page_maps::FixedMaps;

/// Finds how far the runs of what addresses may reach, and puts their maps beside it.
pub(crate) fn reach_of<'a>(runs: &[Run<Class>], maps: &'a FixedMaps) -> Reach<'a>
    requires { AreRunsOfSome (map class_run runs.now) }
    ensures { IsReachOf (map class_run runs.now) (images_of maps.now) result }
{
    Reach {
        most: most_among(runs),
        maps,
        addresses: count_allowed(runs),
    }
}

/// Finds the greatest class of runs.
fn most_among(runs: &[Run<Class>]) -> Class
    ensures { result ≡ most_among (map class_run runs.now) }
{
    let mut most = Class::Denied;
    for run in runs {
        most = most.most(run.value);
    }
    most
}

/// Counts the addresses that may something.
fn count_allowed(runs: &[Run<Class>]) -> u64
    requires { AreRunsOfSome (map class_run runs.now) }
    ensures { MaySomething (map class_run runs.now) result }
{
    counts_add_up();
    let first = Addr::from_number(0);
    let last = Addr::from_number(u32::MAX);
    let counts = counts_within(runs, first, last);
    counts.granted()
}
