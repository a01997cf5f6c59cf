//! What the page says of one file system, given its groups of directories (page_places) and its maps as HTML.
//!
//! ```text
//! let notes = notes_of(alloc, lines_in(lines, fs), text)?;        // line 4: grants read-only for everybody; line 5: not read
//! let shares = shares_of(alloc, classes, policy.rows(fs))?;
//! shares.shares.as_slice()[2].counts.read_only                    // of 10.0.0.0/8: 65536
//! ```
#![tactic(auto)]

pub mod counted_shares;
pub mod counting;
pub mod facts;
pub mod findings;
pub mod gutter;
pub mod laws;
pub mod notes;
pub mod outcomes;
pub mod own_lines;
pub mod own_parts;
pub mod parts;
pub mod proposals;
mod sections;
pub mod shares;
pub mod texts;

pub use counted_shares::{Shares, shares_of};
pub use counting::all_counts;
pub use facts::push_facts;
pub use findings::push_findings;
pub use gutter::{Note, Said, Told};
pub use laws::{each_line_has_a_note, file_systems_are_told_in_one_way, outside_is_outside};
pub use notes::notes_of;
pub use outcomes::{Outcome, push_outcome};
pub use own_lines::lines_in;
pub use own_parts::{FileSystemData, push_file_system_of};
pub use parts::{FileSystemPart, ProposalPart, push_file_system};
pub use proposals::{push_proposal_start, push_proposed_text};
pub use shares::{Share, Space, push_shares_block};
pub use texts::push_text_block;
