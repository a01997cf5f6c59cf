//! Whether a policy keeps what a text expects of it.

ghost use Rattle.std.specs.Prelude.{◌≡◌, Err, IfOk};
ghost use Rattle.std.specs.Option.{option_map};
ghost use Rattle.std.specs.String.{string_bytes};
ghost use Rattle.desk_text.specs.Lines.{IsReadable};
ghost use Rattle.desk_expect.specs.OutsideDirectories.{outside_in, outside_text};
ghost use Rattle.desk_expect.specs.Reading.{read_promises};
ghost use Rattle.desk_expect.specs.ReportText.{report_text};
ghost use Rattle.desk_shown.specs.ShownText.{shown_text};
ghost use Rattle.cli_output.specs.ShownLines.{shown_lines};
ghost use Rattle.cli_expectations.specs.BreachesJson.{breaches_json};
ghost use Rattle.cli_expectations.specs.BreachesLog.{broken_log};
ghost use Rattle.cli_expectations.specs.TestedPolicy.{IsReportBy, IsShownReport, PrintsKept, PrintsTested, PrintsUnread, SaysBeside, expected_of};

use crate::breaches_json::breaches_json;
use crate::breaches_log::broken_log;
use crate::expectations_file::{ExpectationsFile, ReportForm};
use crate::refused_text::print_faults;
use cli_output::printed::Printed;
use cli_output::shown_lines::{shown_lines, shown_name};
use desk_expect::{
    Expectation, Rule, TestReport, find_broken, find_faults, find_outside, host_bits_text,
    outside_text, read_expectations, test_report,
};
use desk_index::Index;
use desk_policy::{Policy, PolicyView, SiteTables};
use desk_server_prints::left_out_note;
use desk_text::{LineFault, ReadError};
use std::alloc::{AllocError, Global};

/// Prints which expectations of a text a policy breaks, in the form of the file: the status is 0 if it breaks none, and else 1. Names are
/// looked up in these tables. If the text has faults, the first is printed, or all as a log, with the status 3.
pub fn print_tested(
    alloc: Global,
    tables: &SiteTables,
    index: &Index,
    file: ExpectationsFile<'_>,
) -> Result<Printed, AllocError>
    ensures { IfOk result (PrintsTested tables.now index.now (expected_of file.entry)) }
{
    match read_expectations(alloc, file.text, &tables.netgroups, &tables.hosts) {
        Ok(expectations) => print_kept(alloc, index, file, expectations.as_slice()),
        Err(ReadError::Fault(placed)) => print_unread(alloc, tables, file, placed.fault),
        Err(ReadError::Memory) => Err(AllocError),
    }
}

/// Prints the fault with which a text is refused, and all faults of it on standard error.
fn print_unread(
    alloc: Global,
    tables: &SiteTables,
    file: ExpectationsFile<'_>,
    fault: LineFault<Rule>,
) -> Result<Printed, AllocError>
    requires { read_promises tables.now.netgroups tables.now.hosts file.text.now ≡ Err fault }
    ensures { IfOk result (PrintsUnread tables.now (expected_of file.entry)) }
{
    let found = find_faults(alloc, file.text, &tables.netgroups, &tables.hosts)?;
    print_faults(
        alloc,
        file.form,
        file.path,
        file.text,
        fault,
        found.as_slice(),
    )
}

/// Prints which of these expectations of a file a policy breaks. Standard error names the directories that no file system has anything
/// of, the networks that are written with host bits, and the lines that mountd(8) may leave out.
fn print_kept(
    alloc: Global,
    index: &Index,
    file: ExpectationsFile<'_>,
    expectations: &[Expectation],
) -> Result<Printed, AllocError>
    ensures { IfOk result (PrintsKept index.now (expected_of file.entry) expectations.now) }
{
    let name = shown_name(alloc, file.path)?;
    let shown = name.as_str();
    let note = beside_note(alloc, index, shown, file.text, expectations)?;
    let report = shown_report(alloc, index, file, expectations)?;
    Ok(Printed {
        status: if report.broken == 0 { 0 } else { 1 },
        text: report.text,
        note,
    })
}

/// Names the directories of these expectations of a text that no file system of a policy has anything of, then the networks that the text
/// writes with host bits, and then the lines that mountd(8) may leave out.
fn beside_note(
    alloc: Global,
    index: &Index,
    file: &str,
    text: &str,
    expectations: &[Expectation],
) -> Result<String, AllocError>
    requires { IsReadable text.now }
    ensures { IfOk result (λ note. SaysBeside index.now file.now text.now expectations.now (string_bytes note)) }
{
    let left_out = left_out_note(alloc, index)?;
    let host_bits = host_bits_text(alloc, file, text)?;
    let mut note = outside_note(alloc, index.policy(), file, expectations)?;
    note.push_str(host_bits.as_str())?;
    note.push_str(left_out.as_str())?;
    Ok(note)
}

/// Names the directories of these expectations that no file system of a policy has anything of.
fn outside_note(
    alloc: Global,
    policy: &Policy,
    file: &str,
    expectations: &[Expectation],
) -> Result<String, AllocError>
    ensures { IfOk result (λ note. string_bytes note ≡ outside_text file.now (outside_in policy.now.table expectations.now)) }
{
    let outside = find_outside(alloc, policy.filesystems(), expectations)?;
    outside_text(alloc, file, outside.as_slice())
}

/// Reports which of these expectations of a file a policy breaks, in the form of the file.
fn shown_report(
    alloc: Global,
    index: &Index,
    file: ExpectationsFile<'_>,
    expectations: &[Expectation],
) -> Result<TestReport, AllocError>
    ensures { IfOk result (IsShownReport index.now (expected_of file.entry) expectations.now) }
{
    match file.form {
        ReportForm::Text => text_report(alloc, index, file.path, expectations),
        ReportForm::Json => json_report(alloc, index, file.path, expectations),
        ReportForm::Sarif => log_report(alloc, index, file.exports, file.path, expectations),
    }
}

/// Reports them as text, as it is shown, with the name of the file.
fn text_report(
    alloc: Global,
    index: &Index,
    file: &str,
    expectations: &[Expectation],
) -> Result<TestReport, AllocError>
    ensures { IfOk result (IsReportBy (λ count broken. shown_lines (report_text index.now (shown_text file.now) count broken)) index.now expectations.now) }
{
    let name = shown_name(alloc, file)?;
    let path = name.as_str();
    let report = test_report(alloc, index, path, expectations)?;
    let lines = report.text.as_str();
    let text = shown_lines(alloc, lines)?;
    Ok(TestReport {
        text,
        broken: report.broken,
    })
}

/// Reports the same as JSON.
fn json_report(
    alloc: Global,
    index: &Index,
    file: &str,
    expectations: &[Expectation],
) -> Result<TestReport, AllocError>
    ensures { IfOk result (IsReportBy (λ count broken. breaches_json index.now file.now broken) index.now expectations.now) }
{
    let broken = find_broken(alloc, index, expectations)?;
    let text = breaches_json(alloc, index.policy(), file, broken.as_slice())?;
    let count = broken.len();
    drop(broken);
    Ok(TestReport {
        text,
        broken: count,
    })
}

/// Reports the same as a log.
fn log_report(
    alloc: Global,
    index: &Index,
    exports: Option<&str>,
    file: &str,
    expectations: &[Expectation],
) -> Result<TestReport, AllocError>
    ensures { IfOk result (IsReportBy (λ count broken. broken_log (option_map (λ path. path.now) exports.entry) index.now file.now broken) index.now expectations.now) }
{
    let broken = find_broken(alloc, index, expectations)?;
    let text = broken_log(alloc, index.policy(), exports, file, broken.as_slice())?;
    let count = broken.len();
    drop(broken);
    Ok(TestReport {
        text,
        broken: count,
    })
}
