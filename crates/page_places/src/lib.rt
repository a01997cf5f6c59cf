//! Who may mount which directory, as a part of the page: the groups of directories, and what a proposal would change at them.
//!
//! ```text
//! let listed = listed_groups(alloc, openings, system.sections.into_vec())?;
//! push_groups(alloc, fs, listed.groups.as_slice(), &mut page)?;
//! changes_of(alloc, view, &proposed, fs)?.silent      // 2
//! ```
#![tactic(auto)]

pub mod change_rows;
pub mod changes;
mod directories;
pub mod groups;
mod impacts;
pub mod laws;
pub mod listed_laws;
mod listed_openings;
pub mod listing;
pub mod lists;
mod maps;
pub mod names;
pub mod openings;
pub mod rows;
pub mod tables;
mod unlisted_places;
pub mod widening;

pub use change_rows::{ChangeRow, push_changes};
pub use changes::{Changes, changes_of};
pub use groups::{GroupPart, push_group, push_groups};
pub use laws::{places_are_told_in_one_way, tables_have_sizes};
pub use listed_laws::{changes_are_of_whole, listed_add_up};
pub use listing::{ListedGroups, listed_groups};
pub use lists::{push_groups_start, push_not_listed};
pub use openings::PlaceOpening;
pub use widening::count_widening;
