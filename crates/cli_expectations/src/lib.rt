//! Whether a policy keeps what a text expects of it, as the commands `test` and `audit` print it.
//!
//! ```text
//! print_tested(alloc, &tables, &view, file)?
//! // Printed { status: 1, text: "promises:1: broken: everybody may not write /usr\n== /usr\n..", note }
//! ```
#![tactic(auto)]

mod breaches_json;
mod breaches_log;
pub mod expectations_file;
mod fault_prints;
mod faults_log;
pub mod laws;
mod log_rules;
mod named_lines;
mod refused_text;
pub mod tested_policy;

pub use log_rules::each_has_its_rule;
