//! What a report tells of a site as a whole: the lines that stand out, which lines decide in place of those that never do, the key
//! figures and the flavours; and how the page says why a line stands out, and of which class something is.
//!
//! ```text
//! let server = server_of_site(alloc, &index)?;
//! let reasons = reasons_of_site(alloc, policy, systems.as_slice(), server.as_slice())?;
//! let lines = lines_of_site(alloc, policy, systems.as_slice(), reasons.as_slice())?;
//! findings_of_site(alloc, lines.as_slice())?          // /u2 line 4: root stays root, 65,536 addresses; ..
//! figures_of_site(alloc, policy, lines.as_slice())?.for_everybody     // 2
//! deciding_lines(alloc, policy, fs, system.sections.as_slice(), reasons.as_slice())?.of_line(4)     // [2, 3]
//! finding_parts(alloc, &finding)?                       // for everybody, read-write, sec=sys
//! badge_part(Class::RootKept)                           // <span class="b r">root kept</span>
//! ```
#![tactic(auto)]

pub mod badges;
pub mod deciding;
pub mod figures;
pub mod finding_words;
pub mod findings;
pub mod flavours;
mod joining;
pub mod laws;
pub mod lines;
mod lists;
mod naming;
pub mod reasons;
pub mod server;

pub use badges::{Measure, badge_part, level_part, measured};
pub use deciding::{Deciding, NeverDecides, deciding_lines};
pub use figures::{Figures, figures_of_site};
pub use finding_words::{Finding, finding_parts};
pub use findings::findings_of_site;
pub use flavours::{FlavourUse, flavours_in_use};
pub use laws::{counted_lines_grant, lines_are_told_in_one_way, read_lines_have_few_flavours};
pub use lines::{SiteLine, lines_of_site};
pub use reasons::reasons_of_site;
pub use server::server_of_site;
