//! What stands out of the lines of a file system.

ghost use Rattle.std.specs.Prelude.{◌≡◌, ◌++◌, IfOk, OnOk, map};
ghost use Rattle.std.specs.String.{string_bytes};
ghost use Rattle.page_findings.specs.FindingWords.{finding_value};
ghost use Rattle.page_html.specs.Parts.{item_of};
ghost use Rattle.page_filesystem.specs.Findings as spec;

use page_findings::{Finding, finding_parts, level_part};
use page_html::{Element, Part, Tag, push_element, push_tag};
use std::alloc::{AllocError, Global};

/// Adds the lines that stand out, if there are any.
pub fn push_findings(
    alloc: Global,
    findings: &[Finding<'_>],
    page: &mut String,
) -> Result<(), AllocError>
    ensures { OnOk result (string_bytes page.new ≡ string_bytes page.old ++ spec.findings_list findings.now) }
{
    if findings.is_empty() {
        return Ok(());
    }
    push_tag(Tag::FindingsStart, page)?;
    push_entries(alloc, findings, page)?;
    push_tag(Tag::ListEnd, page)
}

/// Adds an entry for each line.
#[tactic(auto, unfolding(crate::specs::Findings::entries))]
fn push_entries(
    alloc: Global,
    findings: &[Finding<'_>],
    page: &mut String,
) -> Result<(), AllocError>
    ensures { OnOk result (string_bytes page.new ≡ string_bytes page.old ++ spec.entries findings.now) }
{
    for finding in findings {
        push_entry(alloc, finding, page)?;
    }
    Ok(())
}

/// Adds the entry of a line.
fn push_entry(alloc: Global, finding: &Finding<'_>, page: &mut String) -> Result<(), AllocError>
    ensures { OnOk result (string_bytes page.new ≡ string_bytes page.old ++ spec.entry (finding_value finding.now)) }
{
    let parts = entry_parts(alloc, finding)?;
    push_element(alloc, Element::Entry, parts.as_slice(), page)
}

/// Gathers the level of a line, a link to it, and why it stands out.
fn entry_parts<'a>(alloc: Global, finding: &Finding<'a>) -> Result<Vec<Part<'a>>, AllocError>
    ensures { IfOk result (λ parts. map item_of parts.items ≡ spec.entry_items (finding_value finding.now)) }
{
    let words = finding_parts(alloc, finding)?;
    let start = [
        level_part(finding.level()),
        Part::Words(" "),
        Part::LineLink(finding.fs, finding.line),
        Part::Words(": "),
    ];
    let mut parts = Vec::from_slice(alloc, &start)?;
    parts.extend_from_slice(words.as_slice())?;
    Ok(parts)
}
