//! The lines of a site that stand out.

ghost use Rattle.std.specs.Prelude.{◌≡◌, All, IfOk, OnOk, map};
ghost use Rattle.std.specs.String.{string_bytes};
ghost use Rattle.page_findings.specs.Deciding.{AreInLineOrder, deciding_value};
ghost use Rattle.page_findings.specs.Lines.{line_value};
ghost use Rattle.page_summary.specs.Adding.{Adds};
ghost use Rattle.page_summary.specs.Files.{line_values};
ghost use Rattle.page_summary.specs.FindingRows as spec;
ghost use Rattle.page_summary.specs.FindingRows.{AreFindingRows, findings_text};
ghost use Rattle.page_summary.specs.Findings.{row_value};
ghost use Rattle.page_summary.specs.SiteFinding.{site_finding_value};

use crate::files::{line_in, name_of, texts_in_force};
use crate::findings::{FindingRow, push_counted_findings, push_findings};
use crate::shared_rows::rows_of_findings;
use crate::site_finding::{SiteFinding, site_findings};
use desk_core::Head;
use desk_policy::Policy;
use desk_tables::FileSystems;
use desk_text::Sequence;
use page_findings::{Deciding, SiteLine, findings_of_site};
use std::alloc::{AllocError, Global};

/// Adds how many lines stand out, and these lines, given the lines of all file systems, which lines decide in place of those that never do,
/// by file system, and the newest revisions of files.
pub fn push_findings_of<'a>(
    alloc: Global,
    policy: &'a Policy,
    lines: &[SiteLine<'a>],
    deciding: &'a [Deciding],
    heads: &'a [Head],
    page: &mut String,
) -> Result<(), AllocError>
    requires { All AreInLineOrder (map deciding_value deciding.now) }
    ensures { OnOk result (Adds (AreFindingRows policy.now.table heads.now (map deciding_value deciding.now) (map line_value lines.now)) findings_text
        (string_bytes page.old) (string_bytes page.new)) }
{
    let table = policy.filesystems();
    let found = findings_of_site(alloc, lines)?;
    let told = site_findings(alloc, found.as_slice(), deciding)?;
    let texts = texts_in_force(alloc, table.as_slice(), heads)?;
    let standing = finding_rows(alloc, table, texts.as_slice(), told.as_slice())?;
    let rows = rows_of_findings(alloc, standing.as_slice())?;
    push_counted_findings(alloc, standing.as_slice(), page)?;
    push_findings(alloc, rows.as_slice(), page)
}

/// Makes the rows of lines that stand out, given the lines in force of each file system.
fn finding_rows<'a>(
    alloc: Global,
    table: &'a FileSystems,
    texts: &[Sequence<&'a str>],
    found: &[SiteFinding<'a>],
) -> Result<Vec<FindingRow<'a>>, AllocError>
    ensures { IfOk result (λ rows. map row_value rows.items ≡ map (spec.row_of table.now (map line_values texts.now)) (map site_finding_value found.now)) }
{
    let mut rows = Vec::new(alloc);
    for one in found {
        rows.push(finding_row(table, texts, one))?;
    }
    Ok(rows)
}

/// Makes the row of a line that stands out.
fn finding_row<'a>(
    table: &'a FileSystems,
    texts: &[Sequence<&'a str>],
    one: &SiteFinding<'a>,
) -> FindingRow<'a>
    ensures { row_value result ≡ spec.row_of table.now (map line_values texts.now) (site_finding_value one.now) }
{
    FindingRow {
        told: *one,
        system: name_of(table, one.finding.fs),
        text: line_in(texts, one.finding.fs, one.finding.line),
    }
}
