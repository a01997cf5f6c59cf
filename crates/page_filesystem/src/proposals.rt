//! A proposal that waits.

ghost use Rattle.std.specs.Prelude.{◌≡◌, ◌++◌, ℕ, IfOk, List, OnOk};
ghost use Rattle.std.specs.Str.Lines.{lines};
ghost use Rattle.std.specs.String.{string_bytes};
ghost use Rattle.desk_text.specs.Lines.{IsReadable};
ghost use Rattle.page_html.specs.Parts.{item_of};
ghost use Rattle.page_filesystem.specs.Proposals as spec;
ghost use Rattle.page_filesystem.specs.Proposals.{HasLines};

use crate::sections::push_heading;
use page_html::{
    Column, Element, Frame, Part, Tag, Title, push_element, push_marked_row, push_table_start,
    push_tag,
};
use std::alloc::{AllocError, Global};
use std::collections::BTreeSet;

/// The table of a proposed text.
const PROPOSED: Frame = Frame {
    class: "text",
    is_titled: false,
    columns: &[
        Column::Name("Line"),
        Column::Plain("In force?"),
        Column::Plain("Text"),
    ],
};

/// Begins a proposal: who proposes it, as which revision, and what it needs if the file is guarded.
pub fn push_proposal_start(
    alloc: Global,
    author: &str,
    revision: u64,
    guarded: bool,
    page: &mut String,
) -> Result<(), AllocError>
    ensures { OnOk result (string_bytes page.new ≡ string_bytes page.old ++ spec.proposal_start author.now revision guarded) }
{
    push_tag(Tag::ProposalStart, page)?;
    push_heading(alloc, "A proposal waits", page)?;
    push_element(
        alloc,
        Element::Paragraph,
        &[
            Part::Code(author),
            Part::Words(" proposes this text as revision "),
            Part::Number(revision),
            Part::Words(". It is not in force"),
            approval_part(guarded),
        ],
        page,
    )
}

/// Returns what a proposal needs.
fn approval_part<'a>(guarded: bool) -> Part<'a>
    ensures { item_of result ≡ spec.approval guarded }
{
    if guarded {
        Part::Words(": another of the custodians has to put the same text.")
    } else {
        Part::Words(".")
    }
}

/// Adds the text that is proposed for the file of a file system with a name. The lines that are not in the text in force stand out.
pub fn push_proposed_text(
    alloc: Global,
    name: &str,
    in_force: &str,
    text: &str,
    page: &mut String,
) -> Result<(), AllocError>
    requires { IsReadable text.now }
    ensures { OnOk result (string_bytes page.new ≡ string_bytes page.old ++ spec.proposed_text name.now in_force.now text.now) }
{
    let known = lines_of(alloc, in_force)?;
    push_table_start(
        alloc,
        &PROPOSED,
        &[Title::Said("Proposed text of "), Title::Named(name)],
        page,
    )?;
    push_proposed_rows(alloc, &known, text, page)?;
    push_tag(Tag::TableEnd, page)
}

/// Gathers the physical lines of a text.
fn lines_of<'a>(alloc: Global, text: &'a str) -> Result<BTreeSet<&'a str>, AllocError>
    ensures { IfOk result (HasLines (lines text.now)) }
{
    let mut known = BTreeSet::new(alloc);
    for line in text.lines() {
        known.insert(line)?;
    }
    Ok(known)
}

/// Adds the rows of the lines of a proposed text, given those of the text in force.
fn push_proposed_rows(
    alloc: Global,
    known: &BTreeSet<&str>,
    text: &str,
    page: &mut String,
) -> Result<(), AllocError>
    requires { IsReadable text.now }
    ensures { OnOk result ((given : List (List ℕ)) → HasLines given known.now
        → string_bytes page.new ≡ string_bytes page.old ++ spec.proposed_rows given 0 (lines text.now)) }
{
    let mut number = 0;
    for line in text.lines() {
        number += 1;
        push_proposed_row(alloc, known, number, line, page)?;
    }
    Ok(())
}

/// Adds the row of a line, which stands out if it is not in force.
fn push_proposed_row(
    alloc: Global,
    known: &BTreeSet<&str>,
    number: u32,
    line: &str,
    page: &mut String,
) -> Result<(), AllocError>
    ensures { OnOk result ((given : List (List ℕ)) → HasLines given known.now
        → string_bytes page.new ≡ string_bytes page.old ++ spec.proposed_row given number line.now) }
{
    let is_in_force = known.contains(line);
    push_marked_row(
        alloc,
        &PROPOSED,
        !is_in_force,
        &[
            &[Part::Digits(number)],
            &[not_yet(is_in_force)],
            &[Part::Line(line)],
        ],
        page,
    )
}

/// Returns what is said of a line.
fn not_yet<'a>(is_in_force: bool) -> Part<'a>
    ensures { item_of result ≡ spec.not_yet is_in_force }
{
    if is_in_force {
        Part::Nothing
    } else {
        Part::Strong("not yet")
    }
}
