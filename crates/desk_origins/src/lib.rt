//! Which of several texts, read one behind another, a line is of, and how it is named by its text.
//!
//! ```text
//! // the lines of /etc/exports are 1 to 3 of all, those of /etc/zfs/exports 4 to 9
//! LineName { origins, line: 6 } // prints `3 of /etc/zfs/exports`
//! ```
#![tactic(auto)]

mod origins;

pub use origins::{LineName, Origin, OwnPlace, copied, origin_of, own_line, own_place};
