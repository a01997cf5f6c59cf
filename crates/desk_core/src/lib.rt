//! Edits of a site's files: who may change which file, what an edit is answered, and what it puts in force or leaves as
//! a proposal. (this project's own)
//!
//! ```text
//! let mut state: State<Plain> = State::from_heads(alloc, heads, proposals)?;
//! match state.judge(alloc, &edit)? {
//!     Judged::Already { rev, proposed } => rev,
//!     Judged::Accepted(accepted) => state.apply(accepted),     // takes no memory
//! }
//! ```
#![tactic(auto)]

pub mod change;
pub mod edit;
pub mod entry;
pub mod foresight;
pub mod head;
pub mod judging;
pub mod laws;
pub mod listing;
pub mod prints;
pub mod proposal;
mod site;
pub mod state;

pub use change::compile_heads;
pub use edit::{Edit, Refusal, RefusalRow};
pub use entry::Entry;
pub use foresight::{ForeseenSite, Foresight};
pub use head::{Head, LAST_REVISION, LONGEST_REVISION, can_be_kept, newest_among};
pub use judging::{Case, is_exports_name, is_file_name, is_guarded, is_known};
pub use laws::{
    answered_edits_keep_the_numbers, answers_are_right, consistent_sites_have_no_fault,
    edits_take_effect, foreseen_sites_are_judged, guarded_files_are_marked,
    guarded_files_have_two_keepers, histories_stay_numbered, known_files_are_listed,
    known_files_have_names, standing_of_a_longer_history,
};
pub use listing::{HeldFile, held_files};
pub use proposal::{Proposal, can_be_pending, proposal_among};
pub use state::{Accepted, Judged, State};
