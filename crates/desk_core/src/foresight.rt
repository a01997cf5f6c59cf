//! What would be in force if a file had another text.

use desk_policy::SiteTables;
use desk_tables::FsId;

/// What would be in force if a file had another text.
#[derive(Drop)]
pub enum Foresight<V> {
    /// The policy of the site with the text.
    Whole(V),
    /// The policy in force, but with other lines for this file system: those of this view, which has the same file systems and no
    /// other lines.
    Lines(FsId, V),
}

/// A site as it would be in force if a file had another text: the view of its policy, and the tables that its exports files are
/// read with.
#[derive(Drop)]
pub struct ForeseenSite<V> {
    pub view: V,
    pub tables: SiteTables,
}
