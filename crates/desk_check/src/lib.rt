//! What `check` prints of findings, as text, with its hints, or as JSON; and of one fault of other commands, beside its
//! line.
//!
//! ```text
//! // with the file system `/usr`, no tables, and `/usr -maprot=root 10.0.0.5` in the file `exports`:
//! let gathered = gather(alloc, sources, filesystems, false)?;
//! report_found(alloc, form, &gathered)?.text
//! // exports:1:6: fault 5 UnknownOption: "-maprot=root" is not an option of exports(5)
//! // 1 fault, 0 warnings
//! ```
#![tactic(auto)]

mod check_report;
mod finding_json;
mod finding_prints;
mod hints;
mod ignored_warnings;
mod told_fault;
mod told_site;

pub use check_report::{CheckForm, Checked, passes, report_found, report_heard};
pub use desk_shown::push_shown;
pub use finding_json::{add_number, add_text, findings_json, push_json};
pub use finding_prints::{finding_text, findings_text, push_marked_line, push_message, push_word};
pub use ignored_warnings::{are_warnings, is_ignored, numbers_in, take_ignored};
pub use told_fault::{fault_json, split_fault_json, tell_fault, tell_split_fault};
pub use told_site::tell_site_fault;
