//! What `check` prints of what it finds, and whether the texts pass.

ghost use Rattle.std.specs.Prelude.{◌≡◌, IfOk};
ghost use Rattle.desk_findings.specs.Finding.{HaveSlices};
ghost use Rattle.desk_check.specs.CheckReport.{Reports, ReportsHeard, ReportsRest, passes};

use crate::finding_json::{findings_json, heard_json};
use crate::finding_prints::{findings_text, heard_text};
use crate::ignored_warnings::{count_ignored, take_ignored};
use desk_findings::{Finding, Gathered, has_fault};
use std::alloc::{AllocError, Global};

/// How findings are printed, and when texts pass.
#[derive(Clone, Copy)]
pub struct CheckForm {
    /// Without the lines of the files.
    pub brief: bool,
    /// Texts with a warning do not pass.
    pub strict: bool,
    /// As a JSON list.
    pub json: bool,
}

/// What `check` tells.
#[derive(Drop)]
pub struct Checked {
    /// The findings as they are printed, in whole lines.
    pub text: String,
    pub passes: bool,
    /// Whether the exports text was looked at, since no table has a fault.
    pub read_exports: bool,
}

/// Prints what was found in this form.
pub fn report_found(
    alloc: Global,
    form: CheckForm,
    gathered: &Gathered,
) -> Result<Checked, AllocError>
    requires { HaveSlices gathered.now.findings }
    ensures { IfOk result (Reports form gathered.now) }
{
    let findings = gathered.findings.as_slice();
    let text = if form.json {
        findings_json(alloc, findings)?
    } else {
        findings_text(alloc, findings, form.brief)?
    };
    Ok(Checked {
        text,
        passes: passes(findings, form.strict),
        read_exports: gathered.read_exports,
    })
}

/// Prints what was found in this form, but for the warnings of these numbers, which are counted and do not keep texts from passing.
pub fn report_heard(
    alloc: Global,
    form: CheckForm,
    numbers: &[u32],
    gathered: Gathered<'_>,
) -> Result<Checked, AllocError>
    requires { HaveSlices gathered.findings }
    ensures { IfOk result (ReportsHeard form numbers.now gathered.entry) }
{
    let ignored = count_ignored(numbers, gathered.findings.as_slice());
    let read_exports = gathered.read_exports;
    let mut findings = gathered.findings.into_vec();
    take_ignored(numbers, &mut findings);
    report_rest(alloc, form, ignored, read_exports, findings.as_slice())
}

/// Prints the findings that are left, and how many are ignored.
fn report_rest(
    alloc: Global,
    form: CheckForm,
    ignored: usize,
    read_exports: bool,
    findings: &[Finding],
) -> Result<Checked, AllocError>
    requires { HaveSlices findings.now }
    ensures { IfOk result (ReportsRest form ignored read_exports findings.now) }
{
    let text = if form.json {
        heard_json(alloc, findings, ignored)?
    } else {
        heard_text(alloc, findings, ignored, form.brief)?
    };
    Ok(Checked {
        text,
        passes: passes(findings, form.strict),
        read_exports,
    })
}

/// Tests whether texts with these findings pass.
pub fn passes(findings: &[Finding], strict: bool) -> bool
    ensures { result ≡ passes strict findings.now }
{
    if strict {
        findings.is_empty()
    } else {
        !has_fault(findings)
    }
}
