//! What another policy would change, for the clients of one directory and of every directory; and what is found at a
//! directory and at all below it.
//!
//! ```text
//! let changes = impact(alloc, &old, &new, &path)?;    // none, if both policies say the same of every client
//! let report = impact_report(alloc, desk.view(), &new, false)?;
//! report.text         // "== /u2\n- 0.0.0.0-.. denied 2 NoLine /u2\n+ 0.0.0.0-.. granted line 1 ..\n1 change\n"
//! report.mattering    // 1
//! ```
#![tactic(auto)]

pub mod change_prints;
pub mod changes;
pub mod known_systems;
pub mod laws;
pub mod listed_changes;
pub mod mostly_same;
pub mod place_changes;
mod place_findings;
pub mod places;
pub mod report;
mod same_rows;
mod sayings;
pub mod sections;
mod unlike_lines;
mod unwritten_path;
pub mod writings;

pub use change_prints::impact_text;
pub use changes::{
    Change, TwoVerdicts, has_same_effect, impact, starts_of_both, those_that_matter,
};
pub use known_systems::Known;
pub use laws::{
    impacts_are_unique, impacts_tell_changes, impacts_tell_effects, mounts_have_others,
    no_section_is_nothing_found, other_paths_have_none, paths_have_homes, places_tell_all,
    places_tell_scope, same_sayings_are_no_change,
};
pub use listed_changes::{ListedChange, ListedPlace, list_changes, list_line_changes};
pub use mostly_same::impact_beside;
pub use place_changes::changes_at;
pub use places::{Place, in_order, places_of_both, taken_paths};
pub use report::{Report, impact_report, lines_report, push_heading};
pub use sections::{Section, found_in, places_below};
pub use writings::{Writing, writings_of_both};
