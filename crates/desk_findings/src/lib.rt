//! What is wrong with an exports text and its tables, or with the files of a site: the findings as data, each with its
//! place.
//!
//! ```text
//! // with the file system `/usr`, no tables, and `/usr -maprot=root 10.0.0.5` in the file `exports`:
//! let gathered = gather(alloc, sources, filesystems, false)?;
//! gathered.findings[0].matter  // Matter::Fault(SiteRule::Line(Rule::UnknownOption), None)
//! gathered.findings[0].slice() // "-maprot=root", at line 1 and column 6
//! ```
#![tactic(auto)]

mod check_faults;
mod check_folder;
mod check_odd;
mod check_site;
mod check_text;
mod finding;
mod laws;
mod odd_words;
mod one_fault;
mod one_site_fault;

pub use check_faults::{Source, line_at, lines_of};
pub use check_folder::{Systems, gather_folder};
pub use check_site::{SiteSources, gather_site};
pub use check_text::{Gathered, WholeSources, gather, read_sources};
pub use finding::{Finding, Matter, has_fault};
pub use laws::{
    faultless_texts_write, nothing_found_in_a_site_is_the_servers, nothing_found_is_the_servers,
    silent_findings_are_the_servers,
};
pub use one_fault::{find_split_fault, first_about};
pub use one_site_fault::{are_readable, find_contradiction, find_line_fault};
