//! Why a mount is granted or denied: the lines of the directory's file system that match the client, heaviest first,
//! and which of them decides.
//!
//! ```text
//! let below = why_text(alloc, &view, asked)?;
//! // line 1 name friends: decides, does not list /u2/x
//! // line 2 network 131.104.48.0/24: outweighed by line 1, lists /u2/x
//! // lines of /u2 that match 131.104.48.20: 2 of 2
//! ```
#![tactic(auto)]

pub mod laws;
pub mod line_prints;
pub mod matches;
pub mod why_prints;

pub use laws::{heaviest_are_selected, matching_lines_are_by_weight, verdicts_are_what_lines_say};
pub use line_prints::Asked;
pub use matches::matching;
pub use why_prints::why_text;
