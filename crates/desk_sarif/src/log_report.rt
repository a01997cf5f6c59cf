//! What `check --sarif` prints of what it finds, and whether the texts pass.

ghost use Rattle.std.specs.Prelude.{IfOk};
ghost use Rattle.desk_findings.specs.Finding.{HaveSlices};
ghost use Rattle.desk_sarif.specs.LogReport.{ReportsHeardLog, ReportsLog};

use crate::sarif::findings_sarif;
use desk_check::{Checked, passes, take_ignored};
use desk_findings::Gathered;
use std::alloc::{AllocError, Global};

/// Prints what was found as a log. Strictly, texts with a warning do not pass.
pub fn report_log(alloc: Global, strict: bool, gathered: &Gathered) -> Result<Checked, AllocError>
    requires { HaveSlices gathered.now.findings }
    ensures { IfOk result (ReportsLog strict gathered.now) }
{
    let findings = gathered.findings.as_slice();
    let text = findings_sarif(alloc, None, findings)?;
    Ok(Checked {
        text,
        passes: passes(findings, strict),
        read_exports: gathered.read_exports,
    })
}

/// Prints what was found as a log, in which the warnings of these numbers are suppressed. They do not keep texts from passing.
pub fn report_heard_log(
    alloc: Global,
    strict: bool,
    numbers: &[u32],
    gathered: Gathered<'_>,
) -> Result<Checked, AllocError>
    requires { HaveSlices gathered.findings }
    ensures { IfOk result (ReportsHeardLog strict numbers.now gathered.entry) }
{
    let text = findings_sarif(alloc, Some(numbers), gathered.findings.as_slice())?;
    let read_exports = gathered.read_exports;
    let mut findings = gathered.findings.into_vec();
    take_ignored(numbers, &mut findings);
    Ok(Checked {
        text,
        passes: passes(findings.as_slice(), strict),
        read_exports,
    })
}
