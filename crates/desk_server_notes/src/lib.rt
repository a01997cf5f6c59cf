//! What standard error says of mountd(8) about a stored policy: at how many lines mountd decides otherwise, and what it
//! grants that it did not grant before.
//!
//! ```text
//! // with `/a/x 10.0.0.5` and `/a -network 10.0.0.0/24`:
//! counts_note(alloc, &index)?
//! // "exportdesk: mountd(8) grants more than this desk at 1 line: see exportdesk check\n"
//! ```
#![tactic(auto)]

pub mod counts;
mod mount_findings;
pub mod news;

pub use counts::counts_note;
pub use news::news_note;
