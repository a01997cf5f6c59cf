//! The commands `write` and `copy`: the newest texts of a database, written back into a folder, and a copy of it in one
//! new file.
//!
//! ```text
//! run_write(&rt, words)? // of `write desk.db /etc`: status 0, "written exports\n"
//! run_copy(&rt, words)? // of `copy desk.db backup.db`: status 0, "copied\n"
//! ```
#![tactic(auto)]

mod checked_copy;
pub mod copy_command;
mod new_file;
mod replacing;
mod texts_back;
pub mod write_command;
