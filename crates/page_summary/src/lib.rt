//! The header and the summary of the page: its key figures, what stands out, the flavours, the file systems and the
//! digest of the site's state.
//!
//! ```text
//! push_header(alloc, &Header { database: "site.db", revisions: 23, files: 19, state }, &mut page)?;
//! push_figures_of(alloc, policy, lines.as_slice(), proposals, &mut page)?;
//! site_findings(alloc, lines.as_slice(), deciding.as_slice())?        // /u2 line 4: root stays root, 65,536 addresses; ..
//! push_findings_of(alloc, policy, lines.as_slice(), deciding.as_slice(), heads, &mut page)?;
//! ```
#![tactic(auto)]

pub mod amounts;
pub mod figures;
mod files;
mod finding_cells;
pub mod finding_rows;
pub mod findings;
pub mod flavours;
pub mod flavours_rows;
pub mod header;
pub mod key_figures;
pub mod laws;
pub mod overview;
pub mod proposals;
mod reach;
pub mod sections;
pub mod shared_rows;
pub mod site_finding;
pub mod state;
pub mod system_rows;
pub mod unique_laws;

pub use amounts::revisions_and_files;
pub use figures::{KeyFigures, push_figures};
pub use finding_rows::push_findings_of;
pub use findings::{FindingRow, push_counted_findings, push_findings};
pub use flavours::{FlavoursRow, push_flavours_table};
pub use flavours_rows::push_flavours_of;
pub use header::{Header, push_header};
pub use key_figures::push_figures_of;
pub use laws::{alike_lines_share_a_row, named_lines_decide};
pub use overview::{Reach, SystemRow, push_overview};
pub use proposals::{ProposalRow, push_standing_proposals};
pub use sections::{Section, push_footer, push_section_end, push_section_start};
pub use shared_rows::rows_of_findings;
pub use site_finding::{SiteFinding, site_findings};
pub use state::state_digest;
pub use system_rows::{SystemsData, push_overview_of};
pub use unique_laws::summary_is_told_in_one_way;
