//! The files that a command is given, read whole as texts: one by one, standard input among them, and those of a site's
//! folder; and the file systems of a folder, or of a text of mount points.
//!
//! ```text
//! read_text(rt, "FILE", "-", input)? // all that standard input has, if that is a text
//! ```
#![tactic(auto)]

pub mod files;
pub mod folder_systems;
pub mod input;
pub mod mounts_file;
mod opening;
pub mod site_folder;
