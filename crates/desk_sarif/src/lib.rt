//! What `check` prints of findings as a log of SARIF 2.1.0, the form that code hosts show beside a change.
//!
//! ```text
//! // with the file system `/usr`, no tables, and `/usr -maprot=root 10.0.0.5` in the file `exports`:
//! let gathered = gather(alloc, sources, filesystems, false)?;
//! report_log(alloc, false, &gathered)?.text
//! // {"$schema":..,"runs":[{..,"results":[{"level":"error","locations":[..],"message":{"text":
//! // "\"-maprot=root\" is not an option of exports(5)"},"ruleId":"exports/5"}],"tool":..}],"version":"2.1.0"}
//! ```
#![tactic(auto)]

mod log_report;
mod logs;
mod sarif;
mod sarif_rules;
mod sarif_uri;

pub use log_report::{report_heard_log, report_log};
pub use logs::{
    column_behind, line_place, line_value, log_text, message_value, place_value, slice_region,
};
pub use sarif::findings_sarif;
pub use sarif_rules::{each_has_its_rule, ids_differ};
