//! The table of the commands. The command line that `clap` parses is made from it. The crate tells which command and
//! which words were found, and reads words such as numbers, addresses and credentials.
//!
//! ```text
//! let matches = command_line(alloc)?.try_get_matches_from(&["exportdesk", "log", "site.db", "hosts"])?;
//! let (command, words) = found_command(&matches)?; // Subcommand::Log
//! required(words, "NAME")?                         // "hosts"
//! ```
#![tactic(auto)]

pub mod arguments;
pub mod commands;
mod help;
pub mod line;
pub mod line_words;
pub mod values;
pub mod words;
