//! The beginning of what stands out: the proposals by which clients may do more.

ghost use Rattle.std.specs.Prelude.{◌≡◌, ◌++◌, OnOk, map};
ghost use Rattle.std.specs.String.{string_bytes};
ghost use Rattle.page_html.specs.Parts.{items_of};
ghost use Rattle.page_summary.specs.Proposals as spec;
ghost use Rattle.page_summary.specs.Proposals.{proposal_value};

use crate::files::name_of;
use desk_tables::{FileSystems, FsId};
use page_data::Level;
use page_findings::level_part;
use page_html::{Element, Part, Tag, push_element, push_tag};
use std::alloc::{AllocError, Global};

/// A proposal for the exports file of a file system: who proposes it, and how many of its changes are such that clients may do more.
#[derive(Clone, Copy)]
pub struct ProposalRow<'a> {
    pub fs: FsId,
    pub author: &'a str,
    pub count: u64,
}

/// Begins what stands out: adds its heading, and the proposals by which clients may do more, in the order given.
pub fn push_standing_proposals(
    alloc: Global,
    table: &FileSystems,
    rows: &[ProposalRow<'_>],
    page: &mut String,
) -> Result<(), AllocError>
    ensures { OnOk result (string_bytes page.new ≡ string_bytes page.old ++ spec.standing_proposals table.now (map proposal_value rows.now)) }
{
    push_element(
        alloc,
        Element::Heading,
        &[Part::Words("What stands out")],
        page,
    )?;
    push_list_if_any(alloc, table, rows, page)
}

/// Adds the list of proposals, if there are any.
fn push_list_if_any(
    alloc: Global,
    table: &FileSystems,
    rows: &[ProposalRow<'_>],
    page: &mut String,
) -> Result<(), AllocError>
    ensures { OnOk result (string_bytes page.new ≡ string_bytes page.old ++ spec.list_if_any table.now (map proposal_value rows.now)) }
{
    if rows.is_empty() {
        Ok(())
    } else {
        push_list(alloc, table, rows, page)
    }
}

/// Adds the list of proposals.
fn push_list(
    alloc: Global,
    table: &FileSystems,
    rows: &[ProposalRow<'_>],
    page: &mut String,
) -> Result<(), AllocError>
    ensures { OnOk result (string_bytes page.new ≡ string_bytes page.old ++ spec.list table.now (map proposal_value rows.now)) }
{
    push_tag(Tag::FindingsStart, page)?;
    push_entries(alloc, table, rows, page)?;
    push_tag(Tag::ListEnd, page)
}

/// Adds an entry for each proposal.
#[tactic(auto, unfolding(crate::specs::Proposals::entries))]
fn push_entries(
    alloc: Global,
    table: &FileSystems,
    rows: &[ProposalRow<'_>],
    page: &mut String,
) -> Result<(), AllocError>
    ensures { OnOk result (string_bytes page.new ≡ string_bytes page.old ++ spec.entries table.now (map proposal_value rows.now)) }
{
    for row in rows {
        push_entry(alloc, table, row, page)?;
    }
    Ok(())
}

/// Adds the entry of a proposal.
fn push_entry(
    alloc: Global,
    table: &FileSystems,
    row: &ProposalRow<'_>,
    page: &mut String,
) -> Result<(), AllocError>
    ensures { OnOk result (string_bytes page.new ≡ string_bytes page.old ++ spec.entry table.now (proposal_value row.now)) }
{
    let said = said_of(table, row);
    push_element(alloc, Element::Entry, &said, page)
}

/// Returns what is said of a proposal.
fn said_of<'a>(table: &'a FileSystems, row: &ProposalRow<'a>) -> [Part<'a>; 7]
    ensures { items_of result ≡ spec.said table.now (proposal_value row.now) }
{
    [
        level_part(Level::LookFirst),
        Part::Words(" "),
        Part::System(row.fs, name_of(table, row.fs)),
        Part::Words(": "),
        Part::Code(row.author),
        Part::Words(" proposes that clients may do more: "),
        Part::Plural(row.count, "change", "changes"),
    ]
}
