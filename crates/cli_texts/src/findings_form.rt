//! The form in which `check` prints its findings: as text, as JSON or as a log of SARIF.

ghost use Rattle.std.specs.Prelude.{IfOk};
ghost use Rattle.std.specs.Option.{option_map};
ghost use Rattle.desk_findings.specs.Finding.{HaveSlices};
ghost use Rattle.cli_texts.specs.FindingsForm.{ReportsBy, ReportsHeardIn, ReportsIn};

use desk_check::{CheckForm, Checked, report_found, report_heard};
use desk_findings::Gathered;
use desk_sarif::{report_heard_log, report_log};
use std::alloc::{AllocError, Global};

/// How `check` prints its findings, and when texts pass.
#[derive(Clone, Copy)]
pub struct FindingsForm {
    /// When texts pass, and the form of findings that are no log.
    pub plain: CheckForm,
    /// As a log of SARIF.
    pub sarif: bool,
}

/// Prints what was found in this form, but for the warnings of these numbers, if some are ignored.
pub fn report_by(
    alloc: Global,
    form: FindingsForm,
    ignored: Option<&[u32]>,
    gathered: Gathered<'_>,
) -> Result<Checked, AllocError>
    requires { HaveSlices gathered.findings }
    ensures { IfOk result (ReportsBy (option_map (λ numbers. numbers.now) ignored.entry) form gathered.entry) }
{
    match ignored {
        Some(numbers) => report_heard_in(alloc, form, numbers, gathered),
        None => report_in(alloc, form, &gathered),
    }
}

/// Prints what was found in this form, but for the warnings of these numbers.
fn report_heard_in(
    alloc: Global,
    form: FindingsForm,
    numbers: &[u32],
    gathered: Gathered<'_>,
) -> Result<Checked, AllocError>
    requires { HaveSlices gathered.findings }
    ensures { IfOk result (ReportsHeardIn form numbers.now gathered.entry) }
{
    if form.sarif {
        report_heard_log(alloc, form.plain.strict, numbers, gathered)
    } else {
        report_heard(alloc, form.plain, numbers, gathered)
    }
}

/// Prints what was found in this form.
fn report_in(alloc: Global, form: FindingsForm, gathered: &Gathered) -> Result<Checked, AllocError>
    requires { HaveSlices gathered.now.findings }
    ensures { IfOk result (ReportsIn form gathered.now) }
{
    if form.sarif {
        report_log(alloc, form.plain.strict, gathered)
    } else {
        report_found(alloc, form.plain, gathered)
    }
}
