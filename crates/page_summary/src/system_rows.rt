//! The file systems of a site.

ghost use Rattle.std.specs.Prelude.{◌≡◌, ◌+◌, ◌<◌, IfOk, OnOk, count_by, length, map};
ghost use Rattle.std.specs.String.{string_bytes};
ghost use Rattle.page_data.specs.Laws.{IsSoundSite};
ghost use Rattle.page_data.specs.Systems.{AreSystems, system_value};
ghost use Rattle.page_summary.specs.Adding.{Adds};
ghost use Rattle.page_summary.specs.SiteData.{HasParts, site_parts};
ghost use Rattle.page_summary.specs.SystemRows as spec;
ghost use Rattle.page_summary.specs.SystemRows.{AreOverviewRows, AreSystemRows, IsRowOf, overview_text};

use crate::files::has_proposal;
use crate::overview::{SystemRow, push_overview};
use crate::reach::reach_of;
use desk_core::{Head, Proposal, newest_among};
use desk_policy::{Policy, exports_file_name};
use desk_tables::FsId;
use desk_text::Sequence;
use page_data::{FileSystemReport, Level, LineReasons, classes_of_site, level_of_reasons};
use page_maps::FixedMaps;
use std::alloc::{AllocError, Global};

/// What is given of a site: its policy, what is found of each file system, why its lines stand out, the newest revisions of files, their
/// proposals, and the maps, first those of all file systems together and then those of each.
#[derive(Clone, Copy)]
pub struct SystemsData<'a> {
    pub policy: &'a Policy,
    pub systems: &'a [FileSystemReport<'a>],
    pub reasons: &'a [Sequence<LineReasons<'a>>],
    pub heads: &'a [Head],
    pub proposals: &'a [Proposal],
    pub maps: &'a [FixedMaps],
}

/// Adds the key of the maps, a row for all file systems together, and one for each.
pub fn push_overview_of(
    alloc: Global,
    site: &SystemsData<'_>,
    page: &mut String,
) -> Result<(), AllocError>
    requires { HasParts site.now }
    ensures { OnOk result (Adds (AreOverviewRows (site_parts site.now)) overview_text (string_bytes page.old) (string_bytes page.new)) }
{
    let classes = classes_of_site(alloc, site.systems)?;
    let together = reach_of(classes.as_slice(), &site.maps[0]);
    let rows = system_rows(alloc, site)?;
    push_overview(alloc, &together, rows.as_slice(), page)
}

/// Makes the row of each file system.
fn system_rows<'a>(alloc: Global, site: &SystemsData<'a>) -> Result<Vec<SystemRow<'a>>, AllocError>
    requires { HasParts site.now }
    ensures { IfOk result (λ rows. AreSystemRows (site_parts site.now) rows.items) }
{
    let mut rows = Vec::new(alloc);
    for place in 0..site.systems.len() {
        rows.push(system_row(alloc, site, place)?)?;
    }
    Ok(rows)
}

/// Makes the row of the file system at a place.
fn system_row<'a>(
    alloc: Global,
    site: &SystemsData<'a>,
    place: usize,
) -> Result<SystemRow<'a>, AllocError>
    requires parts { HasParts site.now }
    requires listed { place < length site.now.systems.now }
    ensures { IfOk result (IsRowOf (site_parts site.now) place) }
{
    let mount = &site.policy.filesystems().as_slice()[place];
    let runs = site.systems[place].classes.as_slice();
    let reasons = site.reasons[place].as_slice();
    let name = mount.path.text();
    let file = exports_file_name(alloc, name)?;
    Ok(SystemRow {
        fs: FsId(place as u32),
        name,
        reach: reach_of(runs, &site.maps[place + 1]),
        custodians: mount.custodians.as_slice(),
        guarded: mount.guarded,
        head: newest_among(site.heads, file.as_str()),
        has_proposal: has_proposal(site.proposals, file.as_str()),
        first: count_first(reasons) as u64,
        check: count_check(reasons) as u64,
    })
}

/// Counts the lines that are to be looked at first.
fn count_first(lines: &[LineReasons<'_>]) -> usize
    ensures { result ≡ count_by spec.is_first_line lines.now }
{
    lines.iter().filter(|line| is_first_line(line)).count()
}

/// Counts the lines that are to be checked.
fn count_check(lines: &[LineReasons<'_>]) -> usize
    ensures { result ≡ count_by spec.is_check_line lines.now }
{
    lines.iter().filter(|line| is_check_line(line)).count()
}

/// Tests whether a line is to be looked at first.
fn is_first_line(line: &LineReasons<'_>) -> bool
    ensures { result ≡ spec.is_first_line line.now }
{
    match level_of_reasons(line.reasons.as_slice()) {
        Level::LookFirst => true,
        Level::Check => false,
    }
}

/// Tests whether a line is to be checked.
fn is_check_line(line: &LineReasons<'_>) -> bool
    ensures { result ≡ spec.is_check_line line.now }
{
    !line.reasons.is_empty() && !is_first_line(line)
}
