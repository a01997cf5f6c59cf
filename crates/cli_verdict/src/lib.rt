//! The verdict on one mount, or on a directory for every client, by either rule, as commands print it, and why: in lines, or as one
//! object.
//!
//! ```text
//! try_text(alloc, "/usr 10.0.0.5\n", &tables, filesystems, question)?.text
//! // "granted line 1 rw sec=sys root=65534:65533\n"
//! ```
#![tactic(auto)]

pub mod asking;
pub mod changes;
pub mod object_lines;
pub mod ranges;
pub mod try_text;

pub use asking::{Asking, read_asking};
pub use changes::changes_status;
pub use object_lines::object_line;
pub use ranges::print_ranges;
pub use try_text::{MountQuestion, Tried, print_tried, printed_verdict, tried_by, tried_with};
