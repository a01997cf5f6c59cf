//! Why a mount is granted or denied, as it is printed.

ghost use Rattle.std.specs.Prelude.{◌≡◌, ◌++◌, IfOk, OnOk, codes, count_by, length, map};
ghost use Rattle.std.specs.Fmt.{decimal};
ghost use Rattle.std.specs.String.{string_bytes};
ghost use Rattle.desk_text.specs.Address.{addr_text, number_of};
ghost use Rattle.desk_policy.specs.Verdict.{verdict_result};
ghost use Rattle.desk_why.specs.Matches.{is_for_nobody};
ghost use Rattle.desk_why.specs.WhyPrints as spec;

use crate::line_prints::{Asked, push_line};
use crate::matches::{first_weight, is_for_nobody, matching};
use desk_origins::LineName;
use desk_policy::{Denial, PolicyView, Row, Verdict, mount_text, name_of};
use desk_text::Addr;
use std::alloc::{AllocError, Global};

/// Writes why a mount is granted or denied, in whole lines: each line of the directory's file system that matches the client, heaviest
/// first, with what it matches by, whether it decides, and whether it lists the directory; and then how many of the lines match. If
/// the directory is in no file system, it writes that no mount point is above it.
pub fn why_text<V: PolicyView>(
    alloc: Global,
    view: &V,
    asked: Asked<'_>,
) -> Result<String, AllocError>
    ensures { IfOk result (λ text. string_bytes text
        ≡ spec.why_text asked.entry.netgroups.now asked.entry.hosts.now (V.in_force view.now) (number_of asked.entry.address) asked.entry.path.now) }
{
    let policy = view.policy();
    match policy.filesystems().of(asked.path) {
        None => mounts_line(alloc, asked.path.text(), policy.filesystems().len()),
        Some(fs) => {
            let verdict = view.decide(asked.address, asked.path);
            let mount = mount_text(policy, fs);
            let named = name_of(policy, line_named(&verdict));
            lines_text(alloc, asked, named, mount, policy.rows(fs))
        }
    }
}

/// Returns the number of the line that a verdict names, 0 if it names none.
fn line_named(verdict: &Verdict<'_>) -> u32
    ensures { result ≡ spec.line_named (verdict_result verdict.now) }
{
    match verdict {
        Verdict::Granted { line, .. } => *line,
        Verdict::Denied(Denial::NotListed(_, line)) => *line,
        Verdict::Denied(Denial::NoFileSystem | Denial::NoLine(_)) => 0,
    }
}

/// Writes the lines of a file system, of which the verdict names this one.
fn lines_text(
    alloc: Global,
    asked: Asked<'_>,
    named: LineName<'_>,
    mount: &str,
    rows: &[Row],
) -> Result<String, AllocError>
    ensures { IfOk result (λ text. string_bytes text
        ≡ spec.lines_text asked.entry.netgroups.now asked.entry.hosts.now (number_of asked.entry.address) asked.entry.path.now named.entry.origins.now named.entry.line mount.now rows.now) }
{
    let found = matching(alloc, rows, asked.address)?;
    let count = count_line(alloc, mount, asked.address, found.len(), rows)?;
    let mut text = String::new(alloc);
    push_lines(alloc, asked, named, found.as_slice(), &mut text)?;
    text.push_str(count.as_str())?;
    Ok(text)
}

/// Adds these lines.
fn push_lines(
    alloc: Global,
    asked: Asked<'_>,
    named: LineName<'_>,
    rows: &[&Row],
    text: &mut String,
) -> Result<(), AllocError>
    ensures { OnOk result (string_bytes text.new
        ≡ string_bytes text.old ++ spec.row_lines asked.entry.netgroups.now asked.entry.hosts.now (number_of asked.entry.address) asked.entry.path.now named.entry.origins.now named.entry.line (map (λ row. row.now) rows.now)) }
{
    let greatest = first_weight(rows, asked.address);
    for row in rows {
        push_line(alloc, asked, named, greatest, row, text)?;
    }
    Ok(())
}

/// Writes how many of the lines of a file system match.
fn count_line(
    alloc: Global,
    mount: &str,
    address: Addr,
    count: usize,
    rows: &[Row],
) -> Result<String, AllocError>
    ensures { IfOk result (λ text. string_bytes text
        ≡ spec.count_line mount.now (number_of address) count (length rows.now) (count_by is_for_nobody rows.now)) }
{
    let all = rows.len();
    let nobody = nobody_text(alloc, count_for_nobody(rows))?;
    let address = address_text(alloc, address)?;
    counted_line(alloc, mount, address.as_str(), count, all, nobody.as_str())
}

/// Puts the pieces of the last line together.
fn counted_line(
    alloc: Global,
    mount: &str,
    address: &str,
    count: usize,
    all: usize,
    nobody: &str,
) -> Result<String, AllocError>
    ensures { IfOk result (λ text. string_bytes text
        ≡ codes "lines of " ++ mount.now ++ codes " that match " ++ address.now ++ codes ": " ++ decimal count ++ codes " of " ++ decimal all ++ nobody.now ++ codes "\n") }
{
    format!(in alloc; "lines of {mount} that match {address}: {count} of {all}{nobody}\n")
}

fn address_text(alloc: Global, address: Addr) -> Result<String, AllocError>
    ensures { IfOk result (λ text. string_bytes text ≡ addr_text (number_of address)) }
{
    format!(in alloc; "{address}")
}

/// Counts the lines that match no address.
fn count_for_nobody(rows: &[Row]) -> usize
    ensures { result ≡ count_by is_for_nobody rows.now }
{
    rows.iter().filter(|row| is_for_nobody(row)).count()
}

/// Writes how many lines match no address, if there are some.
fn nobody_text(alloc: Global, count: usize) -> Result<String, AllocError>
    ensures { IfOk result (λ text. string_bytes text ≡ spec.nobody_text count) }
{
    if count == 0 {
        String::from_str(alloc, "")
    } else {
        format!(in alloc; ", {count} for nobody")
    }
}

/// Writes that no mount point is above a path.
fn mounts_line(alloc: Global, path: &str, mounts: usize) -> Result<String, AllocError>
    ensures { IfOk result (λ text. string_bytes text ≡ spec.mounts_line path.now mounts) }
{
    format!(in alloc; "mount points above {path}: 0 of {mounts}\n")
}
