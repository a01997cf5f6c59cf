//! The lines of a site that stand out, as the words of the page tell them.

ghost use Rattle.std.specs.Prelude.{◌≡◌, ◌++◌, All, IfOk, OnOk, map};
ghost use Rattle.page_findings.specs.Deciding.{AreInLineOrder, deciding_value};
ghost use Rattle.page_findings.specs.Lines.{line_value};
ghost use Rattle.page_summary.specs.SiteFinding as spec;
ghost use Rattle.page_summary.specs.SiteFinding.{site_finding_value};

use desk_exports::Clients;
use desk_tables::FsId;
use page_findings::{Deciding, Finding, SiteLine};
use std::alloc::{AllocError, Global};

/// A line that stands out, what its words tell, and to how many addresses it grants something.
#[derive(Clone, Copy)]
pub struct SiteFinding<'a> {
    pub finding: Finding<'a>,
    /// For whom the line is.
    pub clients: &'a Clients,
    pub count: u64,
}

/// Lists those of the lines that stand out, in the order given. The lines that decide for the clients of others are given by file system,
/// in the order of the table.
pub fn site_findings<'a>(
    alloc: Global,
    lines: &[SiteLine<'a>],
    deciding: &'a [Deciding],
) -> Result<Vec<SiteFinding<'a>>, AllocError>
    requires { All AreInLineOrder (map deciding_value deciding.now) }
    ensures { IfOk result (λ found.
        map site_finding_value found.items ≡ spec.findings_among (map deciding_value deciding.now) (map line_value lines.now)) }
{
    let mut found = Vec::new(alloc);
    for line in lines {
        push_finding(&mut found, line, deciding)?;
    }
    Ok(found)
}

/// Adds a line, if it stands out.
fn push_finding<'a>(
    found: &mut Vec<SiteFinding<'a>>,
    line: &SiteLine<'a>,
    deciding: &'a [Deciding],
) -> Result<(), AllocError>
    requires { All AreInLineOrder (map deciding_value deciding.now) }
    ensures { OnOk result (map site_finding_value found.new.items
        ≡ map site_finding_value found.old.items ++ spec.finding_if (map deciding_value deciding.now) (line_value line.now)) }
{
    if line.stands_out() {
        found.push(finding_of(line, deciding))?;
    }
    Ok(())
}

/// Gathers what is told of a line that stands out.
fn finding_of<'a>(line: &SiteLine<'a>, deciding: &'a [Deciding]) -> SiteFinding<'a>
    requires { All AreInLineOrder (map deciding_value deciding.now) }
    ensures { site_finding_value result ≡ spec.finding_of (map deciding_value deciding.now) (line_value line.now) }
{
    SiteFinding {
        finding: Finding {
            fs: line.fs,
            line: line.row.entry.line,
            reasons: line.reasons,
            terms: &line.row.entry.terms,
            is_for_network: is_for_network(&line.row.entry.clients),
            deciding: deciding_for(deciding, line.fs, line.row.entry.line),
        },
        clients: &line.row.entry.clients,
        count: line.count,
    }
}

/// Tests whether clients are a network of IPv4 that does not have every address.
fn is_for_network(clients: &Clients) -> bool
    ensures { result ≡ spec.is_for_network clients.now }
{
    match clients {
        Clients::Net(net, _) => net.prefix().get() != 0,
        Clients::Hosts(_) | Clients::Net6(_) | Clients::World => false,
    }
}

/// Lends the lines that decide for the clients of a line, given those of each file system.
fn deciding_for(deciding: &[Deciding], fs: FsId, line: u32) -> &[u32]
    requires { All AreInLineOrder (map deciding_value deciding.now) }
    ensures { result.now ≡ spec.deciding_for (map deciding_value deciding.now) fs.0 line }
{
    match deciding.get(fs.0 as usize) {
        Some(own) => own.of_line(line),
        None => &[],
    }
}
