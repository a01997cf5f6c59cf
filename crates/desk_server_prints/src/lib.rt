//! The notes on standard error that say where mountd(8) grants otherwise, and which lines it may leave out.
//!
//! ```text
//! // with `/a/x 10.0.0.5` and `/a/y 10.0.0.5`:
//! left_out_note(alloc, &index)?
//! // "exportdesk: mountd(8) may answer otherwise, since it may leave out line 2 of /a: line 1 has 10.0.0.5\n"
//! ```
#![tactic(auto)]

pub mod granting_line;
pub mod left_out_lines;
pub mod listing;

pub use granting_line::wider_note;
pub use left_out_lines::left_out_note;
pub use listing::{first_wider_note, server_who};
