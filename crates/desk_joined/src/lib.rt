//! Several exports texts read as one, each to its own end, and which of them each line is of.
//!
//! ```text
//! // /etc/exports is `/usr \` without a line end, /etc/zfs/exports `/home -ro`
//! joined.text // both added: `/usr \`, an empty line, `/home -ro`, an empty line
//! ```
#![tactic(auto)]

mod joining;
pub mod laws;

pub use joining::{Joined, NamedText};
