//! Answers to the questions of worked cases on texts, tables, exports and policies.
//!
//! ```text
//! let is_known = desk_cases_texts::answer(alloc, &mut site, &mut out, "path", "/usr//local")?;
//! ```
#![tactic(auto)]

mod addresses;
pub mod answers;
mod credentials;
mod custodians;
mod entries;
pub mod escapes;
mod expectations;
mod exports;
mod faults;
mod filesystems;
mod hosts;
pub mod indexes;
mod lines;
mod listings;
mod netgroups;
mod nets;
mod networks;
mod parts;
mod paths;
pub mod policies;
mod questions;
mod ranges;
mod reasons;
mod reports;
mod servers;
pub mod site;
pub mod sites;

pub use questions::answer;
