//! The page of a report, as a whole: it shows who may mount which directory of a site, on what terms, by which line and
//! by whose hand.
//!
//! ```text
//! page_of_state(alloc, "site.db", &state)?      // <!DOCTYPE html> ..
//! ```
#![tactic(auto)]

mod foreseen_sites;
mod found_in_site;
pub mod laws;
pub mod page;
mod sections;
pub mod state_page;
mod system_parts;
pub mod waiting_proposals;
mod widening_proposals;

pub use laws::{
    pages_are_told_in_one_way, printed_pages_are_made_of_blocks, systems_are_told_in_one_way,
};
pub use page::{ReportedSite, report_page};
pub use state_page::page_of_state;
pub use waiting_proposals::{Outcome, Waiting};
