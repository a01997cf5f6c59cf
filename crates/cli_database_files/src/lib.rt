//! The files of a database: DB itself, its log DB-wal, and a copy of both in memory.
//!
//! ```text
//! let conn = open_copy(&rt, "desk.db")?;    // a connection on what the files hold now; nothing changes them
//! ```
#![tactic(auto)]

pub mod copied_file;
pub mod copy;
pub mod copying;
pub mod database_file;
pub mod kept;
pub mod log_file;
pub mod named;
pub mod names;
pub mod new_files;
pub mod obstacles;
pub mod one_file;
