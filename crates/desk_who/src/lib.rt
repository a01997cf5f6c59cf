//! Who may mount a directory: the verdict of every address, by ranges; and at which addresses something is found.
//!
//! ```text
//! let ranges = who(alloc, &view, &path)?;
//! who_text(alloc, view.policy(), ranges.as_slice())?      // "0.0.0.0-255.255.255.255 denied 2 NoLine /a\n"
//! ```
#![tactic(auto)]

pub mod laws;
pub mod mostly_same;
pub mod range_prints;
pub mod ranges;
pub mod runs;
pub mod searching;
pub mod starts;

pub use laws::{
    no_run_is_no_value, ranges_tell_verdicts, runs_are_unique, runs_exist, runs_pass_tests,
    runs_tell_values, runs_with_value_are_unique, there_is_one_list, verdicts_are_discrete,
};
pub use mostly_same::{found_beside, runs_beside};
pub use range_prints::{push_range, span_text, who_text};
pub use ranges::{Range, who};
pub use runs::{Alike, Run, longest_runs};
pub use searching::{Search, found_runs, found_starts};
pub use starts::{joined, starts_among, starts_under, starts_within};
