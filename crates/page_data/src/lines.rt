//! Why each line of a file system stands out.

ghost use Rattle.std.specs.Prelude.{◌≡◌, ◌∷◌, ◌++◌, [], IfOk};
ghost use Rattle.page_data.specs.Grants.{AreGrants};
ghost use Rattle.page_data.specs.Laws.{IsSound};
ghost use Rattle.page_data.specs.Lines.{AreLineReasons};
ghost use Rattle.page_data.specs.PrivateLines as spec;
ghost use Rattle.page_data.specs.PrivateServer.{RepeatedAscend, WiderAscend, reasons_in};
ghost use Rattle.page_data.specs.Server.{AreServerFindings};

use crate::grants::LineGrants;
use crate::matching::matches_nobody;
use crate::reasons::{Reason, reasons_on};
use crate::server::{ServerFindings, push_server_reasons};
use desk_policy::{Policy, Row};
use desk_tables::FsId;
use desk_text::Sequence;
use std::alloc::{AllocError, Global};

/// A line, and why it stands out.
#[derive(Drop)]
pub struct LineReasons<'i> {
    pub line: u32,
    pub reasons: Sequence<Reason<'i>>,
}

/// Lists the lines of a file system, each with why it stands out, given to how many addresses each grants something, and what the
/// server does otherwise.
pub fn reasons_of_lines<'i>(
    alloc: Global,
    policy: &Policy,
    fs: FsId,
    grants: &[LineGrants],
    server: &ServerFindings<'i>,
) -> Result<Vec<LineReasons<'i>>, AllocError>
    requires sound { IsSound policy.now fs.0 }
    requires grants { AreGrants policy.now fs.0 grants.now }
    requires server { AreServerFindings policy.now fs.0 server.now }
    ensures { IfOk result (λ found. AreLineReasons policy.now fs.0 found.items) }
{
    let rows = policy.rows(fs);
    let mut found = Vec::new(alloc);
    for place in 0..rows.len() {
        let row = &rows[place];
        let reasons = reasons_by(alloc, row, grants[place].count, matches_nobody(row), server)?;
        found.push(LineReasons {
            line: row.entry.line,
            reasons: Sequence::from_vec(reasons),
        })?;
    }
    Ok(found)
}

/// Lists why a line stands out, given to how many addresses it grants something, whether it matches nobody, and what the server does
/// otherwise.
fn reasons_by<'i>(
    alloc: Global,
    row: &Row,
    count: u64,
    nobody: bool,
    server: &ServerFindings<'i>,
) -> Result<Vec<Reason<'i>>, AllocError>
    requires wider { WiderAscend server.now.wider }
    requires repeated { RepeatedAscend server.now.repeated }
    ensures { IfOk result (λ reasons. reasons.items ≡ spec.reasons_by row.now count nobody ++ reasons_in server.now row.now.entry.line) }
{
    let mut reasons = own_reasons(alloc, row, count, nobody)?;
    push_server_reasons(server, row.entry.line, &mut reasons)?;
    Ok(reasons)
}

/// Lists why a line stands out by itself, given to how many addresses it grants something, and whether it matches nobody. A line that
/// grants something to no address decides nothing.
fn own_reasons<'i>(
    alloc: Global,
    row: &Row,
    count: u64,
    nobody: bool,
) -> Result<Vec<Reason<'i>>, AllocError>
    ensures { IfOk result (λ reasons. reasons.items ≡ spec.reasons_by row.now count nobody) }
{
    if count != 0 {
        reasons_on(alloc, row, count)
    } else if nobody {
        alone(alloc, Reason::NoClient)
    } else {
        alone(alloc, Reason::NeverDecides)
    }
}

/// Makes a list of one.
fn alone<'i>(alloc: Global, reason: Reason<'i>) -> Result<Vec<Reason<'i>>, AllocError>
    ensures { IfOk result (λ reasons. reasons.items ≡ reason.entry ∷ []) }
{
    let mut reasons = Vec::new(alloc);
    reasons.push(reason)?;
    Ok(reasons)
}
