//! The lines of a site that stand out.

ghost use Rattle.std.specs.Prelude.{◌≡◌, IfOk, map};
ghost use Rattle.page_findings.specs.Findings as spec;
ghost use Rattle.page_findings.specs.Findings.{AreFindings};
ghost use Rattle.page_findings.specs.Lines.{line_value};

use crate::lines::SiteLine;
use page_data::{Level, level_of_reasons};
use std::alloc::{AllocError, Global};

impl SiteLine<'_> {
    /// Tests whether the line stands out.
    pub fn stands_out(&self) -> bool
        ensures { result ≡ spec.stands_out (line_value self.now) }
    {
        !self.reasons.is_empty()
    }

    /// Returns the level of the line: it is to be looked at first, if it stands out for a reason that is.
    pub fn level(&self) -> Level
        ensures { result ≡ spec.level_of_line (line_value self.now) }
    {
        level_of_reasons(self.reasons)
    }

    /// Returns what tells its place among the lines that stand out.
    fn order(&self) -> [u64; 4]
        ensures { result ≡ spec.order_of (line_value self.now) }
    {
        let fewer = u64::MAX - self.count;
        [
            rank_of(self.level()),
            fewer,
            u64::from(self.fs.0),
            u64::from(self.row.entry.line),
        ]
    }
}

/// Returns the place of a level among the levels.
fn rank_of(level: Level) -> u64
    ensures { result ≡ spec.level_rank level }
{
    match level {
        Level::LookFirst => 0,
        Level::Check => 1,
    }
}

/// Lists those of the lines that stand out: those to be looked at first come first, of one level those that grant something to most
/// addresses, and then the others by file system and line.
pub fn findings_of_site<'a>(
    alloc: Global,
    lines: &[SiteLine<'a>],
) -> Result<Vec<SiteLine<'a>>, AllocError>
    ensures { IfOk result (λ found. AreFindings (map line_value lines.now) (map line_value found.items)) }
{
    let mut found = Vec::from_slice(alloc, lines)?;
    found.retain(|line| line.stands_out());
    found.sort_unstable_by_key(SiteLine::order);
    Ok(found)
}
