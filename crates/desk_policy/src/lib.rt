//! The policy of a site: the lines in force, their contradictions, who may mount what, and as whom a client acts.
//! (exports(5))
//!
//! ```text
//! let view: Plain = compile(alloc, &site)?;    // if site.is_readable()
//! let verdict = view.decide(address, &path);
//! verdict_text(alloc, view.policy(), &verdict, &None)?     // "granted line 2 ro sec=sys root=65534:65533"
//! ```
#![tactic(auto)]

pub mod acting_as;
pub mod contradiction;
mod first_lines;
mod known_names;
pub mod laws;
pub mod listing_prints;
pub mod listings;
pub mod names;
pub mod parsing;
pub mod per_site;
pub mod per_table;
pub mod policy;
pub mod prints;
pub mod row;
pub mod row_addrs;
pub mod site;
pub mod site_fault;
pub mod site_file;
mod terms;
pub mod unlisted_custodians;
pub mod verdict;
pub mod view;
pub mod warning;
mod weights;

pub use acting_as::act_as;
pub use contradiction::{Contradiction, contradiction_in, contradictions};
pub use laws::{
    addresses_are_unique, ascending_entries_ascend_in_each_file, each_has_its_lines,
    each_has_its_own_lines, exports_files_are_not_of_the_seven, first_faulty_file_is_reported,
    least_lines_are_named, lines_are_selected_by_keys, lines_have_directories,
    lines_write_their_own, listed_are_granted, listings_show_their_own,
    listings_show_what_is_granted, no_class_is_warned_of_by_profile_two, one_file_is_replaced,
    warnings_change_no_answer,
};
pub use listing_prints::{all_exports, all_terms, listing_text};
pub use listings::{Shown, listing};
pub use names::{addresses_of, first_name_for};
pub use parsing::{
    SiteContents, SiteTables, parse, parse_whole, parse_whole_with, parse_whole_without_warnings,
    read_contents, read_lines,
};
pub use per_site::PerSite;
pub use per_table::PerTable;
pub use policy::{Policy, are_ascending};
pub use prints::{mount_text, name_of, verdict_text};
pub use row::Row;
pub use row_addrs::RowAddrs;
pub use site::{ExportsText, Site};
pub use site_fault::{FaultPlace, SiteFault, SiteRule};
pub use site_file::{SiteFile, exports_file_name, exports_place, mount_of};
pub use terms::same_terms;
pub use unlisted_custodians::unlisted_line;
pub use verdict::{Denial, Verdict, decide};
pub use view::{Plain, PolicyView, compile, contradiction_of_rows, least_contradiction};
pub use warning::{Warning, WarningKind, netgroup_warnings, whole_warnings};
pub use weights::weight_of;
