//! The most that clients may, by ranges of addresses.

ghost use Rattle.std.specs.Prelude.{◌≡◌, ℕ, List, IfOk, Result, Some, map};
ghost use Rattle.desk_text.specs.Address.{number_of};
ghost use Rattle.desk_tables.specs.FileSystems.{fs_of};
ghost use Rattle.desk_policy.specs.Policy.{AreAscending};
ghost use Rattle.desk_policy.specs.Verdict.{Grant, verdict_result};
ghost use Rattle.desk_policy.specs.declared.verdict.Denial.{Denial};
ghost use Rattle.desk_who.specs.Runs.{AreRuns};
ghost use Rattle.desk_who.specs.Who.{IsWho, range_value};
ghost use Rattle.page_data.specs.Class.{class_of, most_of};
ghost use Rattle.page_data.specs.Classes.{AreClassesFrom, AreClassesIn, AreMostOfBoth, class_run};
ghost use Rattle.page_data.specs.PrivateClasses as spec;
ghost use Rattle.page_data.specs.Laws.{IsSound};
ghost use Rattle.page_data.specs.declared.class.Class.{Class};
ghost use Rattle.page_data.specs.declared.class.Class.TheVariants.{Denied};

use crate::class::Class;
use crate::values::{starts_of, value_at};
use desk_policy::{Denial, Policy, Row, Verdict};
use desk_tables::FsId;
use desk_text::Addr;
use desk_who::{Range, Run, joined, longest_runs, verdicts_are_discrete};
use std::alloc::{AllocError, Global};

/// Lists what verdicts come to: the longest ranges of addresses of one class, given the ranges of one verdict.
pub fn classes_from(alloc: Global, ranges: &[Range<'_>]) -> Result<Vec<Run<Class>>, AllocError>
    ensures { IfOk result (λ runs. AreClassesFrom (map range_value ranges.now) (map class_run runs.items)) }
{
    let starts = starts_of(alloc, ranges)?;
    longest_runs(alloc, &starts, |address| class_held(ranges, address))
}

/// Finds what the verdict for an address comes to.
fn class_held(ranges: &[Range<'_>], address: Addr) -> Class
    ensures { (verdict_at : ℕ → Result Grant Denial) → AreRuns verdict_at (map range_value ranges.now) → result ≡ class_of (verdict_at (number_of address)) }
{
    match value_at(ranges, address) {
        Some(verdict) => Class::of(&verdict),
        None => Class::Denied,
    }
}

/// Lists the most that clients may on a file system, given all verdicts on its mount point. Each of these names one of the lines
/// that are selected, by which it grants or denies, and these have the same terms.
pub fn classes_in(
    alloc: Global,
    policy: &Policy,
    fs: FsId,
    ranges: &[Range<'_>],
) -> Result<Vec<Run<Class>>, AllocError>
    requires { IsSound policy.now fs.0 }
    ensures { IfOk result (λ runs. (mount : List (List ℕ)) → fs_of policy.now.table mount ≡ Some fs.0 → IsWho policy.now mount (map range_value ranges.now)
        → AreClassesIn policy.now fs.0 (map class_run runs.items)) }
{
    verdicts_are_discrete();
    let rows = policy.rows(fs);
    let starts = starts_of(alloc, ranges)?;
    longest_runs(alloc, &starts, |address| most_held(rows, ranges, address))
}

/// Finds the class of the terms of the line that the verdict for an address names.
fn most_held(rows: &[Row], ranges: &[Range<'_>], address: Addr) -> Class
    ensures { AreAscending rows.now → (verdict_at : ℕ → Result Grant Denial) → AreRuns verdict_at (map range_value ranges.now) → result ≡ spec.class_named rows.now (verdict_at (number_of address)) }
{
    match value_at(ranges, address) {
        Some(verdict) => class_named(rows, &verdict),
        None => Class::Denied,
    }
}

/// Finds the class of the terms of the line that a verdict names.
fn class_named(rows: &[Row], verdict: &Verdict<'_>) -> Class
    ensures { AreAscending rows.now → result ≡ spec.class_named rows.now (verdict_result verdict.now) }
{
    match verdict {
        Verdict::Granted { terms, .. } => Class::of_terms(terms),
        Verdict::Denied(Denial::NotListed(_, line)) => class_of_line(rows, *line),
        Verdict::Denied(_) => Class::Denied,
    }
}

/// Finds the class of the terms of the line with a number, by a binary search.
fn class_of_line(rows: &[Row], line: u32) -> Class
    ensures { AreAscending rows.now → result ≡ spec.class_of_line rows.now line }
{
    let place = rows.partition_point(|row| row.entry.line < line);
    match rows.get(place) {
        Some(row) if row.entry.line == line => Class::of_terms(&row.entry.terms),
        _ => Class::Denied,
    }
}

/// Lists the greater of what two lists of runs say of each address.
pub fn most_of_both(
    alloc: Global,
    runs: &[Run<Class>],
    others: &[Run<Class>],
) -> Result<Vec<Run<Class>>, AllocError>
    ensures { IfOk result (λ both. AreMostOfBoth (map class_run runs.now) (map class_run others.now) (map class_run both.items)) }
{
    let own = starts_of(alloc, runs)?;
    let other = starts_of(alloc, others)?;
    let starts = joined(own, &other)?;
    longest_runs(alloc, &starts, |address| { most_at(runs, others, address) })
}

/// Finds the greater of what two lists of runs say of an address.
fn most_at(runs: &[Run<Class>], others: &[Run<Class>], address: Addr) -> Class
    ensures { (class_at other_at : ℕ → Class) → AreRuns class_at (map class_run runs.now) → AreRuns other_at (map class_run others.now)
        → result ≡ most_of (class_at (number_of address)) (other_at (number_of address)) }
{
    class_at(runs, address).most(class_at(others, address))
}

/// Finds the class of an address.
fn class_at(runs: &[Run<Class>], address: Addr) -> Class
    ensures { (class_at : ℕ → Class) → AreRuns class_at (map class_run runs.now) → result ≡ class_at (number_of address) }
{
    match value_at(runs, address) {
        Some(class) => class,
        None => Class::Denied,
    }
}

/// Lists all addresses as denied.
pub(crate) fn denied_to_all(alloc: Global) -> Result<Vec<Run<Class>>, AllocError>
    ensures { IfOk result (λ runs. AreRuns (λ address. Denied) (map class_run runs.items)) }
{
    let mut runs = Vec::new(alloc);
    runs.push(Run {
        first: Addr::from_number(0),
        last: Addr::from_number(u32::MAX),
        value: Class::Denied,
    })?;
    Ok(runs)
}
