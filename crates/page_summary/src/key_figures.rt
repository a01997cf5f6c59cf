//! The key figures of a site.

ghost use Rattle.std.specs.Prelude.{◌≡◌, List, OnOk, count_by, map};
ghost use Rattle.std.specs.String.{string_bytes};
ghost use Rattle.page_findings.specs.Figures.{AreFigures};
ghost use Rattle.page_findings.specs.Lines.{LineValue, line_value};
ghost use Rattle.page_summary.specs.Figures as page_spec;
ghost use Rattle.page_summary.specs.Adding.{Adds};
ghost use Rattle.page_summary.specs.KeyFigures.{AreKeyFigures};

use crate::figures::{KeyFigures, push_figures};
use desk_core::Proposal;
use desk_policy::Policy;
use desk_tables::Mount;
use page_findings::{Figures, SiteLine, figures_of_site};
use std::alloc::{AllocError, Global};

/// Begins the summary, and adds the key figures of a site, given the lines of all its file systems, and all proposals.
pub fn push_figures_of(
    alloc: Global,
    policy: &Policy,
    lines: &[SiteLine<'_>],
    proposals: &[Proposal],
    page: &mut String,
) -> Result<(), AllocError>
    ensures { OnOk result (Adds (AreKeyFigures policy.now (map line_value lines.now) proposals.now) page_spec.figures
        (string_bytes page.old) (string_bytes page.new)) }
{
    let counted = figures_of_site(alloc, policy, lines)?;
    let figures = key_figures(policy, &counted, proposals);
    push_figures(alloc, &figures, page)
}

/// Gathers the key figures, given those that are counted over the lines.
fn key_figures(policy: &Policy, counted: &Figures, proposals: &[Proposal]) -> KeyFigures
    ensures { (lines : List LineValue) → AreFigures policy.now lines counted.now → AreKeyFigures policy.now lines proposals.now result }
{
    KeyFigures {
        systems: counted.filesystems as u64,
        guarded: count_guarded(policy.filesystems().as_slice()) as u64,
        lines: counted.lines as u64,
        directories: counted.directories as u64,
        for_everybody: counted.for_everybody as u64,
        writable: counted.for_everybody_read_write as u64,
        root_kept: counted.root_kept as u64,
        root_for_many: counted.root_kept_for_networks as u64,
        idle: counted.without_effect as u64,
        warnings: policy.warnings().len() as u64,
        proposals: proposals.len() as u64,
    }
}

/// Counts the mount points whose exports files are guarded.
fn count_guarded(mounts: &[Mount]) -> usize
    ensures { result ≡ count_by (λ mount. mount.guarded) mounts.now }
{
    mounts.iter().filter(|mount| mount.guarded).count()
}
