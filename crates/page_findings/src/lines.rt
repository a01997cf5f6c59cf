//! The lines of a site, each with what a report tells of it.

ghost use Rattle.std.specs.Prelude.{◌≡◌, IfOk, OnOk, map};
ghost use Rattle.desk_policy.specs.Policy.{rows_of};
ghost use Rattle.page_data.specs.Grants.{AreGrants};
ghost use Rattle.page_data.specs.Laws.{IsSoundSite};
ghost use Rattle.page_data.specs.Lines.{AreLineReasons};
ghost use Rattle.page_data.specs.Systems.{AreSystems, system_value};
ghost use Rattle.page_findings.specs.Lines as spec;
ghost use Rattle.page_findings.specs.Lines.{AreLinesOfSite, AreReasonsOfSite, line_value};
ghost use Rattle.page_findings.specs.PrivateLines.{AddsLines};

use desk_exports::Flavour;
use desk_policy::{Policy, Row};
use desk_tables::FsId;
use desk_text::Sequence;
use page_data::{FileSystemReport, LineGrants, LineReasons, Reason};
use std::alloc::{AllocError, Global};

/// A line of a file system, to how many addresses it grants something, and why it stands out, if it does.
#[derive(Clone, Copy)]
pub struct SiteLine<'a> {
    pub fs: FsId,
    pub row: &'a Row,
    pub count: u64,
    pub reasons: &'a [Reason<'a>],
}

impl<'a> SiteLine<'a> {
    /// Tests whether the line grants something to some address.
    pub fn grants(&self) -> bool
        ensures { result ≡ spec.grants (line_value self.now) }
    {
        0 < self.count
    }

    /// Tests whether the line lets clients write.
    pub fn is_read_write(&self) -> bool
        ensures { result ≡ spec.is_read_write (line_value self.now) }
    {
        !self.row.entry.terms.ro
    }

    /// Lends the flavours of the line, most preferred first.
    pub fn flavours(&self) -> &'a [Flavour]
        ensures { result.now ≡ spec.flavours_of (line_value self.now) }
    {
        self.row.entry.terms.flavours.as_slice()
    }
}

/// Lists the lines of all file systems, in the order of the table and of the lines, given what is found of each file system, and why
/// its lines stand out.
pub fn lines_of_site<'a>(
    alloc: Global,
    policy: &'a Policy,
    systems: &[FileSystemReport<'_>],
    reasons: &'a [Sequence<LineReasons<'a>>],
) -> Result<Vec<SiteLine<'a>>, AllocError>
    requires sound { IsSoundSite policy.now }
    requires systems { AreSystems policy.now (map system_value systems.now) }
    requires reasons { AreReasonsOfSite policy.now reasons.now }
    ensures { IfOk result (λ lines. AreLinesOfSite policy.now (map line_value lines.items)) }
{
    let mut lines = Vec::new(alloc);
    for place in 0..systems.len() {
        let grants = systems[place].grants.as_slice();
        push_lines(
            &mut lines,
            policy,
            FsId(place as u32),
            grants,
            reasons[place].as_slice(),
        )?;
    }
    Ok(lines)
}

/// Adds the lines of a file system.
fn push_lines<'a>(
    lines: &mut Vec<SiteLine<'a>>,
    policy: &'a Policy,
    fs: FsId,
    grants: &[LineGrants],
    reasons: &'a [LineReasons<'a>],
) -> Result<(), AllocError>
    requires grants { AreGrants policy.now fs.0 grants.now }
    requires reasons { AreLineReasons policy.now fs.0 reasons.now }
    ensures { OnOk result (AddsLines policy.now fs.0 (rows_of policy.now fs.0) (map line_value lines.old.items) (map line_value lines.new.items)) }
{
    let rows = policy.rows(fs);
    for place in 0..rows.len() {
        lines.push(SiteLine {
            fs,
            row: &rows[place],
            count: grants[place].count,
            reasons: reasons[place].reasons.as_slice(),
        })?;
    }
    Ok(())
}
