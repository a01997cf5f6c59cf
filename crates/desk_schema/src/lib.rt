//! The tables of the desk's database: how they are declared, and whether a schema declares them, and of which version.
//! (this project's own)
//!
//! ```text
//! declared_version(conn.schema())                           // Some(Version::Second)
//! ```
#![tactic(auto)]

pub mod declared;

pub use declared::{
    Version, are_referred, declared_version, declares_approval, declares_file_rev, declares_meta,
    declares_proposal, has_later, has_table,
};
