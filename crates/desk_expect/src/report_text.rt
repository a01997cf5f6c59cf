//! Which expectations a policy breaks, as it is printed.

ghost use Rattle.std.specs.Prelude.{◌≡◌, ◌++◌, IfOk, OnOk, map};
ghost use Rattle.std.specs.List.{flat_map};
ghost use Rattle.std.specs.String.{string_bytes};
ghost use Rattle.desk_who.specs.Runs.{run_value};
ghost use Rattle.desk_expect.specs.Judging.{judged_section, judged_value};
ghost use Rattle.desk_expect.specs.Report.{broken_value};
ghost use Rattle.desk_expect.specs.ReportText as spec;

use crate::judging::Judged;
use crate::report::Broken;
use desk_impact::{Section, push_heading};
use desk_policy::{Policy, verdict_text};
use desk_who::{Run, span_text};
use std::alloc::{AllocError, Global};

/// Writes the expectations of a file that are broken, and in a last line how many there are of all.
pub fn report_text(
    alloc: Global,
    policy: &Policy,
    file: &str,
    count: usize,
    broken: &[Broken<'_>],
) -> Result<String, AllocError>
    ensures { IfOk result (λ text. string_bytes text ≡ spec.report_text policy.now file.now count (map broken_value broken.now)) }
{
    let mut text = String::new(alloc);
    for one in broken {
        push_broken(alloc, policy, file, one, &mut text)?;
    }
    push_last_line(&mut text, count, broken.len())?;
    Ok(text)
}

/// Writes an expectation that is broken: its file, its line and its words, and the sections below.
fn push_broken(
    alloc: Global,
    policy: &Policy,
    file: &str,
    broken: &Broken<'_>,
    text: &mut String,
) -> Result<(), AllocError>
    ensures { OnOk result (string_bytes text.new ≡ string_bytes text.old ++ spec.broken_text policy.now file.now (broken_value broken.now)) }
{
    push_headline(file, broken, text)?;
    push_sections(alloc, policy, broken, text)
}

/// Writes where and for whom an expectation is broken: the sections below its headline.
pub fn push_sections(
    alloc: Global,
    policy: &Policy,
    broken: &Broken<'_>,
    text: &mut String,
) -> Result<(), AllocError>
    ensures { OnOk result (string_bytes text.new
        ≡ string_bytes text.old ++ flat_map (spec.section_text policy.now) (broken_value broken.now).sections) }
{
    for section in broken.sections.as_slice() {
        push_section(alloc, policy, section, text)?;
    }
    Ok(())
}

/// Writes the line above the sections.
fn push_headline(file: &str, broken: &Broken<'_>, text: &mut String) -> Result<(), AllocError>
    ensures { OnOk result (string_bytes text.new ≡ string_bytes text.old ++ spec.headline file.now broken.now.expectation.now) }
{
    let line = broken.expectation.line;
    let words = broken.expectation.text.as_str();
    write!(text, "{file}:{line}: broken: {words}\n")
}

/// Writes a section: the heading of its place, and a line for each range.
fn push_section(
    alloc: Global,
    policy: &Policy,
    section: &Section<'_, Judged<'_>>,
    text: &mut String,
) -> Result<(), AllocError>
    ensures { OnOk result (string_bytes text.new ≡ string_bytes text.old ++ spec.section_text policy.now (judged_section section.now)) }
{
    push_heading(section.place, text)?;
    push_ranges(alloc, policy, section.ranges.as_slice(), text)
}

/// Writes a line for each range.
fn push_ranges(
    alloc: Global,
    policy: &Policy,
    ranges: &[Run<Judged<'_>>],
    text: &mut String,
) -> Result<(), AllocError>
    ensures { OnOk result (string_bytes text.new
        ≡ string_bytes text.old ++ flat_map (spec.judged_line policy.now) (map (run_value judged_value) ranges.now)) }
{
    for range in ranges {
        push_range(alloc, policy, range, text)?;
    }
    Ok(())
}

/// Writes a range: its addresses, the verdict that breaks the expectation, and whether that is of the server alone.
fn push_range(
    alloc: Global,
    policy: &Policy,
    range: &Run<Judged<'_>>,
    text: &mut String,
) -> Result<(), AllocError>
    ensures { OnOk result (string_bytes text.new ≡ string_bytes text.old ++ spec.judged_line policy.now (run_value judged_value range.now)) }
{
    let span = span_text(alloc, range.first, range.last)?;
    let verdict = verdict_text(alloc, policy, &range.value.verdict, &None)?;
    text.push_str(span.as_str())?;
    text.push_str(" ")?;
    text.push_str(verdict.as_str())?;
    text.push_str(by_text(range.value.by_server))?;
    text.push_str("\n")?;
    Ok(())
}

/// Returns what stands behind a verdict, if it is that of the server alone.
fn by_text(by_server: bool) -> &'static str
    ensures { result.now ≡ spec.by_text by_server }
{
    if by_server { " by mountd(8)" } else { "" }
}

/// Writes how many expectations there are, and how many are broken.
fn push_last_line(text: &mut String, count: usize, broken: usize) -> Result<(), AllocError>
    ensures { OnOk result (string_bytes text.new ≡ string_bytes text.old ++ spec.last_line count broken) }
{
    push_count(text, count)?;
    push_broken_count(text, broken)?;
    text.push_str("\n")
}

/// Writes how many expectations there are.
fn push_count(text: &mut String, count: usize) -> Result<(), AllocError>
    ensures { OnOk result (string_bytes text.new ≡ string_bytes text.old ++ spec.count_text count) }
{
    if count == 1 {
        return write!(text, "{count} expectation");
    }
    write!(text, "{count} expectations")
}

/// Writes how many of them are broken.
fn push_broken_count(text: &mut String, broken: usize) -> Result<(), AllocError>
    ensures { OnOk result (string_bytes text.new ≡ string_bytes text.old ++ spec.broken_count_text broken) }
{
    write!(text, ", {broken} broken")
}
