//! The objects of JSON that commands print and HTTP does not have, as compact text with the keys of each object in byte order. (RFC 8259)
//!
//! ```text
//! log_object(alloc, "hosts", &signatures)?    // {"name":"hosts","revisions":[{"author":"site","rev":1}]}
//! exports_object(alloc, &policy)?             // {"exports":[{"alldirs":false,"clients":["(everyone)"],"dirs":["/usr"],..}]}
//! ```
#![tactic(auto)]

pub mod changes;
pub mod exports;
pub mod files;
pub mod log;
pub mod named;
pub mod why;

pub use changes::{changes_name_mounts, changes_object};
pub use exports::exports_object;
pub use files::files_object;
pub use log::log_object;
pub use named::{verdict_object, who_object};
pub use why::why_object;
