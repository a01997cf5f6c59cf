//! The lines of a file system that decide nothing: no verdict names them, for whatever client and directory.
//!
//! ```text
//! // with `/a -network 10.0.0.0/31` and `/a 10.0.0.0 10.0.0.1`:
//! let found = idle_lines(alloc, &index, fs)?;
//! // line 1, Shadowed by line 2 at 10.0.0.0
//! ```
#![tactic(auto)]

pub mod idle;
pub mod laws;
pub mod listed;
mod marks;
mod selecting;
pub mod selections;
pub mod writing;

pub use idle::{Idle, Reason, idle_lines, idle_lines_by};
pub use laws::{
    idle_lines_are_listed_before, idle_lines_change_nothing, lines_decide_by_what_they_bring,
    read_lines_write_directories,
};
pub use listed::Listed;
pub use selections::{Selection, selections_of};
pub use writing::write_directories;
