//! The part of the page that tells of one file system, given its maps as HTML.

ghost use Rattle.std.specs.Prelude.{◌≡◌, ◌<◌, ◌++◌, OnOk};
ghost use Rattle.std.specs.List.{AllPairs};
ghost use Rattle.std.specs.Option.{option_copied};
ghost use Rattle.std.specs.String.{string_bytes};
ghost use Rattle.page_filesystem.specs.Parts as spec;

use crate::facts::push_facts;
use crate::findings::push_findings;
use crate::gutter::Note;
use crate::outcomes::{Outcome, push_outcome};
use crate::proposals::{push_proposal_start, push_proposed_text};
use crate::sections::push_heading;
use crate::shares::{Share, push_shares_block};
use crate::texts::push_text_block;
use desk_core::Head;
use desk_tables::FsId;
use desk_text::Text;
use page_data::Counts;
use page_findings::Finding;
use page_html::{Element, Part, Tag, push_element, push_system_start, push_tag};
use page_places::{GroupPart, push_groups, push_groups_start, push_not_listed};
use std::alloc::{AllocError, Global};

/// What waits for a file system, and what comes of it if it is put in force now.
#[derive(Clone, Copy)]
pub struct ProposalPart<'b, 'a> {
    pub author: &'b str,
    /// The number of the revision that it would be.
    pub revision: u64,
    pub text: &'b str,
    pub outcome: Outcome<'b, 'a>,
}

/// What is told of a file system.
#[derive(Clone, Copy)]
pub struct FileSystemPart<'b, 'a> {
    pub fs: FsId,
    pub name: &'b str,
    pub head: Option<&'b Head>,
    pub custodians: &'b [Text],
    pub guarded: bool,
    pub counts: Counts,
    pub findings: &'b [Finding<'b>],
    pub proposal: Option<ProposalPart<'b, 'a>>,
    pub text: &'b str,
    pub notes: &'b [Note],
    /// The maps that show where its clients are: HTML, which comes onto the page as it is.
    pub maps: &'b str,
    pub shares: &'b [Share],
    /// How many networks have no share.
    pub networks_left_out: u64,
    /// The first groups of directories that are granted alike.
    pub groups: &'b [GroupPart<'a>],
    /// How many groups there are, how many directories are in those that are not told, and whether the other directories are.
    pub group_count: u64,
    pub unlisted: u64,
    pub has_unlisted_others: bool,
}

/// Adds what is told of a file system.
pub fn push_file_system(
    alloc: Global,
    part: &FileSystemPart<'_, '_>,
    page: &mut String,
) -> Result<(), AllocError>
    requires { spec.IsTellable part.now }
    ensures { OnOk result (string_bytes page.new ≡ string_bytes page.old ++ spec.file_system part.now) }
{
    push_head_part(alloc, part, page)?;
    push_text_part(alloc, part, page)?;
    push_clients_part(alloc, part, page)?;
    push_groups_part(alloc, part, page)
}

/// Adds its name and facts, what stands out of it, and what waits for it.
fn push_head_part(
    alloc: Global,
    part: &FileSystemPart<'_, '_>,
    page: &mut String,
) -> Result<(), AllocError>
    requires { spec.IsTellable part.now }
    ensures { OnOk result (string_bytes page.new ≡ string_bytes page.old ++ spec.head_part part.now) }
{
    push_system_start(part.fs, page)?;
    push_element(alloc, Element::Heading, &[Part::Code(part.name)], page)?;
    push_facts(alloc, part, page)?;
    push_findings(alloc, part.findings, page)?;
    push_proposal(alloc, part, page)
}

/// Adds what waits for it, if something does.
fn push_proposal(
    alloc: Global,
    part: &FileSystemPart<'_, '_>,
    page: &mut String,
) -> Result<(), AllocError>
    requires { spec.IsTellable part.now }
    ensures { OnOk result (string_bytes page.new ≡ string_bytes page.old ++ spec.proposal_part part.now part.now.proposal) }
{
    match &part.proposal {
        Some(proposal) => push_proposal_part(alloc, part, proposal, page),
        None => Ok(()),
    }
}

/// Adds a proposal.
fn push_proposal_part(
    alloc: Global,
    part: &FileSystemPart<'_, '_>,
    proposal: &ProposalPart<'_, '_>,
    page: &mut String,
) -> Result<(), AllocError>
    requires { spec.IsReadableProposal proposal.now }
    ensures { OnOk result (string_bytes page.new ≡ string_bytes page.old ++ spec.proposal_text part.now proposal.now) }
{
    push_proposal_start(
        alloc,
        proposal.author,
        proposal.revision,
        part.guarded,
        page,
    )?;
    push_proposed_text(alloc, part.name, part.text, proposal.text, page)?;
    push_outcome(alloc, proposal.outcome, page)?;
    push_tag(Tag::SectionEnd, page)
}

/// Adds its text in force.
fn push_text_part(
    alloc: Global,
    part: &FileSystemPart<'_, '_>,
    page: &mut String,
) -> Result<(), AllocError>
    requires { spec.IsTellable part.now }
    ensures { OnOk result (string_bytes page.new ≡ string_bytes page.old ++ spec.text_part part.now) }
{
    push_heading(alloc, "Text in force", page)?;
    push_text_block(alloc, part.fs, part.name, part.text, part.notes, page)
}

/// Adds where its clients are, if it has any.
fn push_clients_part(
    alloc: Global,
    part: &FileSystemPart<'_, '_>,
    page: &mut String,
) -> Result<(), AllocError>
    requires { spec.IsTellable part.now }
    ensures { OnOk result (string_bytes page.new ≡ string_bytes page.old ++ spec.clients_part part.now) }
{
    if part.counts.denied == 1 << 32 {
        return Ok(());
    }
    push_shares_part(alloc, part, page)
}

/// Adds where its clients are.
fn push_shares_part(
    alloc: Global,
    part: &FileSystemPart<'_, '_>,
    page: &mut String,
) -> Result<(), AllocError>
    requires { spec.IsTellable part.now }
    ensures { OnOk result (string_bytes page.new ≡ string_bytes page.old ++ spec.shares_part part.now) }
{
    push_heading(alloc, "Where its clients are", page)?;
    page.push_str(part.maps)?;
    push_shares_block(alloc, part.name, part.shares, part.networks_left_out, page)
}

/// Adds who may mount which of its directories.
fn push_groups_part(
    alloc: Global,
    part: &FileSystemPart<'_, '_>,
    page: &mut String,
) -> Result<(), AllocError>
    requires { spec.IsTellable part.now }
    ensures { OnOk result (string_bytes page.new ≡ string_bytes page.old ++ spec.groups_part part.now) }
{
    push_groups_start(alloc, part.group_count, page)?;
    push_groups(alloc, part.fs, part.groups, page)?;
    push_not_listed(alloc, part.unlisted, part.has_unlisted_others, page)?;
    push_element(
        alloc,
        Element::Up,
        &[Part::Link("systems", "All file systems")],
        page,
    )?;
    push_tag(Tag::SectionEnd, page)
}
