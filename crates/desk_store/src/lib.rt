//! A desk: a site's files with all their revisions, in a database of SQLite, and the policy in force. (this project's
//! own)
//!
//! ```text
//! let done = desk.edit(alloc, &edit)?;                      // judged, stored in one commit, put in force
//! let text = desk.revision(alloc, "hosts", done.rev)?;
//! let verdict = desk.view().decide(address, &path);
//! ```
#![tactic(auto)]

mod creating;
mod database;
pub mod desk;
pub mod error;
mod first_revisions;
mod gathered_revisions;
mod keys;
pub mod laws;
mod newest_revisions;
mod opening;
mod pending_proposals;
mod rows;
mod signatures;
mod stored_rows;
mod storing;
mod tables;

pub use desk::{Desk, Done, Revision, Signature};
pub use error::{
    CreateError, DeskError, MEMORY_NUMBER, SCHEMA_NUMBER, STORE_NUMBER, StoreFault, Task,
};
pub use laws::{
    answered_edits_keep_site_histories, calls_are_a_run, crashes_leave_desks,
    crashes_leave_first_histories, declared_tables_are_ours, edits_are_a_run, one_history,
    pending_edits_have_no_answer, stops_in_opening_leave_desks,
};
