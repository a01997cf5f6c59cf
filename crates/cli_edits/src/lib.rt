//! The commands that change a database: `init` makes one of a site's files, and `put` makes an edit.
//!
//! ```text
//! run_put(&rt, words, &mut input) // status 0: `accepted rev 2`
//! ```
#![tactic(auto)]

pub mod init_command;
pub mod put_command;
mod server_note;
