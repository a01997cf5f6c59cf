//! The sections of the page, but for the parts on each file system.

ghost use Rattle.std.specs.Prelude.{◌≤◌, [], OnOk, length};
ghost use Rattle.std.specs.String.{string_bytes};
ghost use Rattle.desk_core.specs.Standing.{standing_in};
ghost use Rattle.page_lists.specs.Reading.{how_to_read};
ghost use Rattle.page_maps.specs.NetworkTable.{GainsNetworks};
ghost use Rattle.page_summary.specs.Header.{header};
ghost use Rattle.page_summary.specs.Sections.{footer};
ghost use Rattle.page_summary.specs.declared.sections.Section.TheVariants.{Files, Names, Networks, Systems, Warnings};
ghost use Rattle.page_lists.specs.Warnings.{AddsWarnings};
ghost use Rattle.page_summary.specs.SystemRows.{AreOverviewRows, overview_text};
ghost use Rattle.page_site.specs.Page as spec;
ghost use Rattle.page_site.specs.Page.{InSection, IsHeader};
ghost use Rattle.page_site.specs.Pieces.{Gains, Just, Then, Told};
ghost use Rattle.page_site.specs.PrivateSections.{CanBeWritten, parts_found};

use desk_core::{Head, Proposal};
use desk_policy::{Policy, SiteTables};
use desk_text::Sequence;
use page_data::{FileSystemReport, LineReasons};
use page_findings::{Deciding, SiteLine};
use page_html::push_page_head;
use page_lists::{
    index_of_names, push_files_of, push_hosts_of, push_how_to_read, push_make_again,
    push_netgroups_of, push_warnings_of,
};
use page_maps::{FixedMaps, push_networks, push_shapes};
use page_summary::{
    Header, ProposalRow, Section, SystemsData, push_figures_of, push_findings_of, push_flavours_of,
    push_footer, push_header, push_overview_of, push_section_end, push_section_start,
    push_standing_proposals, revisions_and_files, state_digest,
};
use std::alloc::{AllocError, Global};

/// What the sections are made of: the policy in force and the tables of its site, the newest revisions and the proposals, and what is
/// found of them.
#[derive(Clone, Copy)]
pub(crate) struct Parts<'a> {
    pub policy: &'a Policy,
    pub heads: &'a [Head],
    pub proposals: &'a [Proposal],
    pub systems: &'a [FileSystemReport<'a>],
    pub reasons: &'a [Sequence<LineReasons<'a>>],
    pub deciding: &'a [Deciding],
    pub lines: &'a [SiteLine<'a>],
    /// The small maps, of all file systems together and then of each.
    pub maps: &'a [FixedMaps],
    /// The proposals by which clients may do more.
    pub widening: &'a [ProposalRow<'a>],
}

/// What the lists are made of.
#[derive(Clone, Copy)]
pub(crate) struct Listed<'a> {
    pub policy: &'a Policy,
    pub tables: &'a SiteTables,
    pub heads: &'a [Head],
    pub proposals: &'a [Proposal],
}

/// Adds what stands before the parts on each file system.
pub(crate) fn push_front(
    alloc: Global,
    database: &str,
    parts: &Parts<'_>,
    page: &mut String,
) -> Result<(), AllocError>
    requires { CanBeWritten parts.now }
    ensures { OnOk result (Gains (spec.IsFront parts.now.policy.now parts.now.heads.now parts.now.proposals.now (parts_found parts.now) database.now)
        (string_bytes page.old) (string_bytes page.new)) }
{
    push_beginning(alloc, database, parts.heads, parts.proposals, page)?;
    push_summary(alloc, parts, page)?;
    push_tables(alloc, parts, page)
}

/// Adds the head of the page, the shapes that its maps refer to, and its header.
fn push_beginning(
    alloc: Global,
    database: &str,
    heads: &[Head],
    proposals: &[Proposal],
    page: &mut String,
) -> Result<(), AllocError>
    ensures { OnOk result (Gains (spec.IsBeginning heads.now proposals.now database.now) (string_bytes page.old) (string_bytes page.new)) }
{
    push_page_head(database, page)?;
    push_shapes(page)?;
    push_header_of(alloc, database, heads, proposals, page)
}

/// Adds the header.
fn push_header_of(
    alloc: Global,
    database: &str,
    heads: &[Head],
    proposals: &[Proposal],
    page: &mut String,
) -> Result<(), AllocError>
    ensures { OnOk result (Gains (Told (IsHeader heads.now proposals.now database.now) header) (string_bytes page.old) (string_bytes page.new)) }
{
    let state = state_digest(alloc, heads, proposals)?;
    let (revisions, files) = revisions_and_files(heads);
    let told = Header {
        database,
        revisions,
        files,
        state: state.as_str(),
    };
    push_header(alloc, &told, page)
}

/// Adds the summary.
fn push_summary(alloc: Global, parts: &Parts<'_>, page: &mut String) -> Result<(), AllocError>
    requires { CanBeWritten parts.now }
    ensures { OnOk result (Gains (spec.IsSummary parts.now.policy.now parts.now.heads.now parts.now.proposals.now (parts_found parts.now))
        (string_bytes page.old) (string_bytes page.new)) }
{
    push_figures_of(alloc, parts.policy, parts.lines, parts.proposals, page)?;
    let table = parts.policy.filesystems();
    push_standing_proposals(alloc, table, parts.widening, page)?;
    push_findings_of(
        alloc,
        parts.policy,
        parts.lines,
        parts.deciding,
        parts.heads,
        page,
    )?;
    push_flavours_of(alloc, parts.policy, parts.lines, page)?;
    push_section_end(page)
}

/// Adds the tables of the file systems and of the networks.
fn push_tables(alloc: Global, parts: &Parts<'_>, page: &mut String) -> Result<(), AllocError>
    requires { CanBeWritten parts.now }
    ensures { OnOk result (Gains (spec.AreTables parts.now.policy.now parts.now.heads.now parts.now.proposals.now (parts_found parts.now))
        (string_bytes page.old) (string_bytes page.new)) }
{
    push_systems_table(alloc, parts, page)?;
    push_networks_table(alloc, parts, page)
}

/// Adds the section with the table of the file systems.
fn push_systems_table(alloc: Global, parts: &Parts<'_>, page: &mut String) -> Result<(), AllocError>
    requires { CanBeWritten parts.now }
    ensures { OnOk result (Gains (InSection Systems (Told (AreOverviewRows
        (spec.parts_of parts.now.policy.now parts.now.heads.now parts.now.proposals.now (parts_found parts.now))) overview_text))
        (string_bytes page.old) (string_bytes page.new)) }
{
    let site = SystemsData {
        policy: parts.policy,
        systems: parts.systems,
        reasons: parts.reasons,
        heads: parts.heads,
        proposals: parts.proposals,
        maps: parts.maps,
    };
    push_section_start(Section::Systems, page)?;
    push_overview_of(alloc, &site, page)?;
    push_section_end(page)
}

/// Adds the section with the table of the networks.
fn push_networks_table(
    alloc: Global,
    parts: &Parts<'_>,
    page: &mut String,
) -> Result<(), AllocError>
    requires { CanBeWritten parts.now }
    ensures { OnOk result (Gains (InSection Networks (GainsNetworks parts.now.policy.now [])) (string_bytes page.old) (string_bytes page.new)) }
{
    push_section_start(Section::Networks, page)?;
    push_networks(alloc, parts.policy, parts.systems, page)?;
    push_section_end(page)
}

/// Adds what stands behind the parts on each file system.
pub(crate) fn push_back(
    alloc: Global,
    database: &str,
    listed: &Listed<'_>,
    page: &mut String,
) -> Result<(), AllocError>
    requires { length listed.now.policy.now.table ≤ 256 }
    ensures { OnOk result (Gains (spec.IsBack listed.now.policy.now listed.now.tables.now
        (standing_in listed.now.heads.now listed.now.proposals.now) database.now)
        (string_bytes page.old) (string_bytes page.new)) }
{
    push_lists(alloc, database, listed, page)?;
    push_end(page)
}

/// Adds the lists.
fn push_lists(
    alloc: Global,
    database: &str,
    listed: &Listed<'_>,
    page: &mut String,
) -> Result<(), AllocError>
    requires { length listed.now.policy.now.table ≤ 256 }
    ensures { OnOk result (Gains (spec.AreLists listed.now.policy.now listed.now.tables.now
        (standing_in listed.now.heads.now listed.now.proposals.now) database.now)
        (string_bytes page.old) (string_bytes page.new)) }
{
    push_warnings_list(alloc, listed.policy, page)?;
    push_names_list(alloc, listed, page)?;
    push_files_list(alloc, database, listed, page)
}

/// Adds the section with the warnings.
fn push_warnings_list(alloc: Global, policy: &Policy, page: &mut String) -> Result<(), AllocError>
    ensures { OnOk result (Gains (InSection Warnings (AddsWarnings policy.now [])) (string_bytes page.old) (string_bytes page.new)) }
{
    push_section_start(Section::Warnings, page)?;
    push_warnings_of(alloc, policy, page)?;
    push_section_end(page)
}

/// Adds the section with the netgroups, and the names of hosts that lines write.
fn push_names_list(alloc: Global, listed: &Listed<'_>, page: &mut String) -> Result<(), AllocError>
    requires { length listed.now.policy.now.table ≤ 256 }
    ensures { OnOk result (Gains (InSection Names (spec.AreNames listed.now.policy.now listed.now.tables.now))
        (string_bytes page.old) (string_bytes page.new)) }
{
    push_section_start(Section::Names, page)?;
    push_names(alloc, listed.policy, listed.tables, page)?;
    push_section_end(page)
}

/// Adds the netgroups, and the names of hosts that lines write.
fn push_names<'a>(
    alloc: Global,
    policy: &'a Policy,
    tables: &'a SiteTables,
    page: &mut String,
) -> Result<(), AllocError>
    requires { length policy.now.table ≤ 256 }
    ensures { OnOk result (Gains (spec.AreNames policy.now tables.now) (string_bytes page.old) (string_bytes page.new)) }
{
    let index = index_of_names(alloc, policy)?;
    push_netgroups_of(alloc, policy, tables, index.as_slice(), page)?;
    push_hosts_of(alloc, policy, tables, index.as_slice(), page)
}

/// Adds the section with the files and their newest revisions, and with how the page is made again.
fn push_files_list(
    alloc: Global,
    database: &str,
    listed: &Listed<'_>,
    page: &mut String,
) -> Result<(), AllocError>
    ensures { OnOk result (Gains (InSection Files
        (spec.AreFiles listed.now.policy.now (standing_in listed.now.heads.now listed.now.proposals.now) database.now))
        (string_bytes page.old) (string_bytes page.new)) }
{
    push_section_start(Section::Files, page)?;
    push_files(alloc, database, listed, page)?;
    push_section_end(page)
}

/// Adds the files and their newest revisions, and how the page is made again.
fn push_files(
    alloc: Global,
    database: &str,
    listed: &Listed<'_>,
    page: &mut String,
) -> Result<(), AllocError>
    ensures { OnOk result (Gains
        (spec.AreFiles listed.now.policy.now (standing_in listed.now.heads.now listed.now.proposals.now) database.now)
        (string_bytes page.old) (string_bytes page.new)) }
{
    let table = listed.policy.filesystems();
    push_files_of(alloc, table, listed.heads, listed.proposals, page)?;
    push_make_again(alloc, database, page)
}

/// Adds how the page is read, and its end.
fn push_end(page: &mut String) -> Result<(), AllocError>
    ensures { OnOk result (Gains (Then (Just how_to_read) (Just footer)) (string_bytes page.old) (string_bytes page.new)) }
{
    push_how_to_read(page)?;
    push_footer(page)
}
