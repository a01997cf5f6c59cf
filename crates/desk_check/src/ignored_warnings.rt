//! Warnings that are ignored, since a word lists their numbers.

ghost use Rattle.std.specs.Prelude.{◌≡◌, ◌==◌, IfOk};
ghost use Rattle.std.specs.List.{list_any};
ghost use Rattle.desk_policy.specs.Warning.{kind_number, warning_kinds};
ghost use Rattle.desk_remarks.specs.Remark.{remark_number, remarks};
ghost use Rattle.desk_check.specs.IgnoredWarnings as spec;

use desk_findings::Finding;
use desk_policy::WarningKind;
use desk_remarks::Remark;
use desk_text::read_decimal;
use std::alloc::{AllocError, Global};

/// Reads the numbers that a word writes, with commas between them. A piece that writes none gives 0, which no warning has.
pub fn numbers_in(alloc: Global, word: &str) -> Result<Vec<u32>, AllocError>
    ensures { IfOk result (λ numbers. numbers.items ≡ spec.numbers_in word.now) }
{
    word.split(',').map(|piece| number_in(piece)).collect(alloc)
}

/// Reads the number that a piece of the word writes, or 0.
fn number_in(piece: &str) -> u32
    ensures { result ≡ spec.number_in piece.now }
{
    read_decimal(piece, u32::MAX).unwrap_or(0)
}

/// Tests whether each of these is the number of a kind of warning, and stands once.
pub fn are_warnings(numbers: &[u32]) -> bool
    ensures { result ≡ spec.are_warnings numbers.now }
{
    numbers.iter().all(|number| is_warning(*number) && times(numbers, *number) == 1)
}

/// Tests whether a kind of warning has this number.
fn is_warning(number: u32) -> bool
    ensures { result ≡ spec.is_warning number }
{
    is_kind(number) || is_remark(number)
}

/// Tests whether a kind of warning about a word has this number.
fn is_kind(number: u32) -> bool
    ensures { result ≡ list_any (λ kind. kind_number kind == number) warning_kinds }
{
    WarningKind::all()
        .iter()
        .any(|kind| kind.number() == number)
}

/// Tests whether a remark on a line has this number.
fn is_remark(number: u32) -> bool
    ensures { result ≡ list_any (λ remark. remark_number remark == number) remarks }
{
    Remark::all().iter().any(|remark| remark.number() == number)
}

/// Counts how often a number stands among these.
fn times(numbers: &[u32], number: u32) -> usize
    ensures { result ≡ spec.times numbers.now number }
{
    numbers.iter().filter(|other| **other == number).count()
}

/// Tests whether a finding is ignored: whether it is a warning of one of these numbers.
pub fn is_ignored(numbers: &[u32], finding: &Finding) -> bool
    ensures { result ≡ spec.is_ignored numbers.now finding.now }
{
    !finding.matter.is_fault() && has_number(numbers, finding.matter.number())
}

/// Tests whether a number stands among these.
fn has_number(numbers: &[u32], number: u32) -> bool
    ensures { result ≡ list_any (λ one. one == number) numbers.now }
{
    numbers.iter().any(|one| *one == number)
}

/// Counts the findings that are ignored.
pub fn count_ignored(numbers: &[u32], findings: &[Finding]) -> usize
    ensures { result ≡ spec.ignored_count numbers.now findings.now }
{
    findings
        .iter()
        .filter(|finding| is_ignored(numbers, finding))
        .count()
}

/// Takes the findings away that are ignored.
pub fn take_ignored(numbers: &[u32], findings: &mut Vec<Finding<'_>>)
    ensures { findings.new.items ≡ spec.heard numbers.now findings.old.items }
{
    findings.retain(|finding| !is_ignored(numbers, finding));
}
