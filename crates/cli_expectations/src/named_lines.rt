//! The lines of the exports that break an expectation.

ghost use Rattle.std.specs.Prelude.{◌≡◌, IfOk, OnOk, map};
ghost use Rattle.std.specs.List.{filter_map, list_any};
ghost use Rattle.std.specs.Option.{option_map};
ghost use Rattle.desk_policy.specs.Verdict.{verdict_result};
ghost use Rattle.desk_expect.specs.Report.{broken_value};
ghost use Rattle.cli_expectations.specs.BreachesJson.{breach_value};
ghost use Rattle.cli_expectations.specs.NamedLines as spec;
ghost use Rattle.cli_expectations.specs.PrivateNamedLines as private;

use crate::breaches_json::{Breach, push_broken};
use desk_expect::Broken;
use desk_policy::{Denial, Verdict};
use desk_tables::FsId;
use std::alloc::{AllocError, Global};

/// A line of the exports of a file system.
#[derive(Clone, Copy)]
pub struct NamedLine {
    pub fs: FsId,
    pub line: u32,
}

/// Lists the lines that break an expectation, each once, as the report comes to them.
pub(crate) fn breaking_lines(
    alloc: Global,
    broken: &Broken<'_>,
) -> Result<Vec<NamedLine>, AllocError>
    ensures { IfOk result (λ lines. lines.items ≡ spec.breaking_lines (broken_value broken.now)) }
{
    let mut found = Vec::new(alloc);
    push_broken(broken, &mut found)?;
    lines_once(alloc, found.as_slice())
}

/// Lists the lines that the verdicts name, each once.
fn lines_once(alloc: Global, breaches: &[Breach<'_>]) -> Result<Vec<NamedLine>, AllocError>
    ensures { IfOk result (λ lines. lines.items ≡ spec.lines_once (map breach_value breaches.now)) }
{
    let mut lines = Vec::new(alloc);
    for breach in breaches {
        push_once(line_named(&breach.range.value.verdict), &mut lines)?;
    }
    Ok(lines)
}

/// Adds a line, if there is one, unless it is listed already.
fn push_once(line: Option<NamedLine>, lines: &mut Vec<NamedLine>) -> Result<(), AllocError>
    ensures { OnOk result (lines.new.items ≡ private.with_once lines.old.items line) }
{
    match line {
        Some(line) => push_new(line, lines),
        None => Ok(()),
    }
}

/// Adds a line, unless it is listed already.
fn push_new(line: NamedLine, lines: &mut Vec<NamedLine>) -> Result<(), AllocError>
    ensures { OnOk result (lines.new.items ≡ private.with_line lines.old.items line) }
{
    if is_listed(lines.as_slice(), line) {
        return Ok(());
    }
    lines.push(line)?;
    Ok(())
}

/// Tests whether a line is listed.
fn is_listed(lines: &[NamedLine], line: NamedLine) -> bool
    ensures { result ≡ list_any (λ other. spec.same_line other line) lines.now }
{
    lines.iter().any(|other| is_same(*other, line))
}

/// Tests whether two lines are one.
fn is_same(other: NamedLine, line: NamedLine) -> bool
    ensures { result ≡ spec.same_line other line }
{
    other.fs.0 == line.fs.0 && other.line == line.line
}

/// Finds the line that a verdict names.
fn line_named(verdict: &Verdict<'_>) -> Option<NamedLine>
    ensures { result ≡ spec.line_named (verdict_result verdict.now) }
{
    match *verdict {
        Verdict::Granted { fs, line, .. } | Verdict::Denied(Denial::NotListed(fs, line)) => Some(
            NamedLine { fs, line },
        ),
        Verdict::Denied(Denial::NoFileSystem | Denial::NoLine(_)) => None,
    }
}
