//! What is said of lines that break no rule: those that decide nothing, networks of every address, those where
//! mountd(8) decides otherwise, and opinions.
//!
//! ```text
//! // with `/a 10.0.0.5` and `/a 10.0.0.5` once more:
//! let found = find_remarks(alloc, policy, &[], false)?;
//! // line 2: Remark::Repeated, by line 1 at 10.0.0.5
//! ```
#![tactic(auto)]

mod entry_remarks;
mod idle_remarks;
pub mod laws;
pub mod remark;
mod remarks;
mod said_of_systems;
mod server_remarks;
mod unwarned_lines;

pub use laws::lines_left_out_change_nothing;
pub use remark::{Example, LineRemark, OtherLine, Remark};
pub use remarks::find_remarks;
