//! What waits: proposals, and what would be in force.

use desk_core::Proposal;
use desk_policy::SiteFault;
use desk_tables::FsId;

/// What would be in force with a proposal.
#[derive(Drop)]
pub enum Outcome<V> {
    /// Other lines for its file system: those of this view, which has the same file systems and no other lines.
    Lines(V),
    /// Nothing: the site would have this fault.
    Refused(SiteFault),
}

/// A proposal for the exports file of a listed file system.
#[derive(Drop)]
pub struct Waiting<'a, V> {
    pub fs: FsId,
    pub proposal: &'a Proposal,
    pub outcome: Outcome<V>,
}
