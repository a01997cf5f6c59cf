//! Exports texts of a whole site, split into one for each file system, and joined again.
//!
//! ```
//! // # exports:/u1 rev 2 (ulf)
//! // /u1 -ro 10.0.0.5
//! //
//! // # exports:/u2 rev 1 (site)
//! // /u2 10.0.0.6
//! //
//! let text = join(alloc, &files)?;
//! let texts = split(alloc, text.as_str(), &filesystems)?; // `/u1 -ro 10.0.0.5` and `/u2 10.0.0.6`, each a text
//! ```
#![tactic(auto)]

pub mod joining;
pub mod laws;
pub mod split_fault;
pub mod splitting;

pub use joining::{ExportsFile, join};
pub use split_fault::SplitFault;
pub use splitting::split;
