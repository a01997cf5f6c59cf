//! The desk of a database, as a command opens it: on a copy, for a question, and for edits; and what is printed if
//! there is none, or if it refuses.
//!
//! ```text
//! let desk = open_copied_desk(&rt, "site.db")?; // nothing changes the files of the database
//! ```
#![tactic(auto)]

pub mod desks;
pub mod refusal_lines;
pub mod refusal_notes;
pub mod site_notes;

use desk_index::Index;

/// The view by which the program decides.
pub type View = Index;
