//! Netgroup files: the groups, their members, and the hosts of each. (netgroup(5))
//!
//! ```text
//! // With the lines `staff (a,,) admins` and `admins (b,,) staff`:
//! let netgroups = Netgroups::read(alloc, text)?;
//! netgroups.hosts_of(alloc, "staff")?       // Some of `a` and `b`: a group that is met again adds nothing
//! netgroups.hosts_of(alloc, "a")?           // None: no line defines it
//! ```
#![tactic(auto)]

pub mod faults;
pub mod group_line;
mod index;
pub mod laws;
mod line;
pub mod netgroups;
mod slices;
pub mod token;
mod walk;

pub use faults::{GroupFault, GroupRule, PlacedFault};
pub use group_line::{GroupLine, Member};
pub use netgroups::Netgroups;
pub use slices::member_places;
pub use token::{Token, tokens};
