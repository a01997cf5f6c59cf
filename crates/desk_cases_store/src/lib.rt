//! Answers to the questions of worked cases on the revisions of a site's files: edits, databases and desks.
//!
//! ```text
//! let mut subject: Subject<MemStore, Index> = Subject::new(alloc);
//! let is_known = desk_cases_store::answer(alloc, &mut subject, &mut out, "database", "")?;
//! ```
#![tactic(auto)]

mod databases;
mod desks;
mod edits;
mod questions;
mod stores;
mod subject;
mod views;

pub use questions::answer;
pub use stores::Fresh;
pub use subject::Subject;
pub use views::ByKeys;
