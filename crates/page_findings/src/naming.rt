//! The lines that verdicts name at some addresses.

ghost use Rattle.std.specs.Prelude.{◌≡◌, ◌++◌, OnOk, filter, map, option_to_list};
ghost use Rattle.desk_text.specs.Address.{number_of};
ghost use Rattle.desk_text.specs.Laws.{IsSetOf};
ghost use Rattle.desk_policy.specs.Verdict.{verdict_result};
ghost use Rattle.desk_who.specs.Who.{range_value};
ghost use Rattle.desk_impact.specs.Sections.{section_value};
ghost use Rattle.page_findings.specs.PrivateDeciding as spec;
ghost use Rattle.page_findings.specs.PrivateDeciding.{AllInOrder, AreInOrder, lines_at, lines_between, meets};

use desk_impact::Section;
use desk_policy::{Denial, Verdict};
use desk_text::Addr;
use desk_who::Range;
use std::alloc::AllocError;

/// Adds the lines that the verdicts name at the addresses from the first to the last, place by place.
pub(crate) fn push_between(
    lines: &mut Vec<u32>,
    sections: &[Section<'_>],
    first: Addr,
    last: Addr,
) -> Result<(), AllocError>
    requires { AllInOrder (map section_value sections.now) }
    ensures { OnOk result (lines.new.items ≡ lines.old.items ++ lines_between (number_of first) (number_of last) (map section_value sections.now)) }
{
    for section in sections {
        push_at(lines, section.ranges.as_slice(), first, last)?;
    }
    Ok(())
}

/// Adds those of a place.
fn push_at(
    lines: &mut Vec<u32>,
    ranges: &[Range<'_>],
    first: Addr,
    last: Addr,
) -> Result<(), AllocError>
    requires { AreInOrder (map range_value ranges.now) }
    ensures { OnOk result (lines.new.items ≡ lines.old.items ++ lines_at (number_of first) (number_of last) (map range_value ranges.now)) }
{
    let found = met(ranges, first, last);
    for range in found {
        push_named(lines, &range.value)?;
    }
    Ok(())
}

/// Lends the ranges that have one of these addresses, by two binary searches.
fn met<'r, 'a>(ranges: &'r [Range<'a>], first: Addr, last: Addr) -> &'r [Range<'a>]
    requires { AreInOrder (map range_value ranges.now) }
    ensures { map range_value result.now ≡ filter (meets (number_of first) (number_of last)) (map range_value ranges.now) }
{
    let first = first.number();
    let last = last.number();
    let end = ranges.partition_point(|range| range.first.number() <= last);
    let below = &ranges[..end];
    let begin = below.partition_point(|range| range.last.number() < first);
    &below[begin..]
}

/// Adds the line that a verdict names, if it names one.
fn push_named(lines: &mut Vec<u32>, verdict: &Verdict<'_>) -> Result<(), AllocError>
    ensures { OnOk result (lines.new.items ≡ lines.old.items ++ option_to_list (spec.named_line (verdict_result verdict.now))) }
{
    if let Some(line) = named_line(verdict) {
        lines.push(line)?;
    }
    Ok(())
}

/// Gives the line that a verdict names, if it names one.
fn named_line(verdict: &Verdict<'_>) -> Option<u32>
    ensures { result ≡ spec.named_line (verdict_result verdict.now) }
{
    match verdict {
        Verdict::Granted { line, .. } => Some(*line),
        Verdict::Denied(Denial::NotListed(_, line)) => Some(*line),
        Verdict::Denied(Denial::NoLine(_)) | Verdict::Denied(Denial::NoFileSystem) => None,
    }
}

/// Puts numbers in ascending order, each once.
pub(crate) fn sorted(numbers: Vec<u32>) -> Vec<u32>
    ensures { IsSetOf numbers.items result.items }
{
    let mut set = numbers;
    set.sort_unstable();
    set.dedup();
    set
}
