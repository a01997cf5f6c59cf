//! The commands that ask a database: `ask`, `show`, `exports`, `who`, `log`, `cat`, `proposal`, `files`, `impact`,
//! `audit` and `report`.
//!
//! ```text
//! run_exports(&rt, words) // prints the directories of all exports lines
//! run_report(&rt, words)  // of `report site.db`: status 0, "<!DOCTYPE html> .."
//! ```
#![tactic(auto)]

mod answering;
pub mod audit_command;
mod file_lines;
mod notes;
mod objects;
mod printing;
pub mod question_commands;
pub mod report_command;
mod revision_lines;
