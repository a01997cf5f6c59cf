//! The bodies of HTTP replies, as compact JSON with the keys of each object in byte order. (RFC 8259)
//!
//! ```text
//! verdict_body(alloc, policy, &verdict, &None)?    // {"fs":"/usr","line":3,"reason":3,"verdict":"denied"}
//! done_body(alloc, false, 2)?                      // {"already":false,"rev":2}
//! ```
#![tactic(auto)]

pub mod edits;
pub mod exports;
pub mod members;
pub mod ranges;
pub mod revisions;
pub mod verdicts;

pub use edits::{done_body, proposed_body, refusal_body};
pub use exports::exports_body;
pub use ranges::who_body;
pub use revisions::{file_body, proposal_body, revisions_body};
pub use verdicts::verdict_body;
