//! By which line mountd(8) grants what is denied here.

ghost use Rattle.std.specs.Prelude.{◌≡◌, IfOk, filter, find};
ghost use Rattle.std.specs.Option.{option_map};
ghost use Rattle.std.specs.String.{string_bytes};
ghost use Rattle.desk_text.specs.Address.{number_of};
ghost use Rattle.desk_policy.specs.PrivateWeights.{IsGreatest, greater, is_same_weight};
ghost use Rattle.desk_policy.specs.Verdict.{verdict_of, verdict_result};
ghost use Rattle.desk_policy.specs.Weights.{selected};
ghost use Rattle.desk_server.specs.Server.{server_verdict_of};
ghost use Rattle.desk_server_prints.specs.PrivateGrantingLine.{is_wider, wider_weight};
ghost use Rattle.desk_server_prints.specs.GrantingLine as spec;

use desk_origins::{LineName, Origin};
use desk_policy::{Denial, Policy, Row, Verdict, weight_of};
use desk_text::{Addr, Path};
use std::alloc::{AllocError, Global};

/// Says by which line mountd(8) grants a client a path, if this verdict denies it here; else nothing. The lines are scanned.
pub fn wider_note(
    alloc: Global,
    policy: &Policy,
    address: Addr,
    path: &Path,
    verdict: &Verdict<'_>,
) -> Result<String, AllocError>
    requires { verdict_result verdict.now ≡ verdict_of policy.now (number_of address) path.now }
    ensures { IfOk result (λ note. string_bytes note
        ≡ spec.wider_note policy.now.origins (spec.wider_line (verdict_of policy.now (number_of address) path.now) (server_verdict_of policy.now (number_of address) path.now))) }
{
    let line = wider_line(policy, address, path, verdict);
    line_note(alloc, policy.origins(), line)
}

/// Says by which line mountd(8) grants, if it does.
fn line_note(alloc: Global, origins: &[Origin], line: Option<u32>) -> Result<String, AllocError>
    ensures { IfOk result (λ note. string_bytes note ≡ spec.wider_note origins.now line) }
{
    match line {
        Some(line) => {
            let name = LineName { origins, line };
            format!(in alloc;
                "exportdesk: mountd(8) grants this by line {name}, which is not selected here: --mountd decides by its rule\n"
            )
        }
        None => Ok(String::new(alloc)),
    }
}

/// Finds the line by which mountd(8) grants a client a path that this verdict denies it.
fn wider_line(policy: &Policy, address: Addr, path: &Path, verdict: &Verdict<'_>) -> Option<u32>
    requires { verdict_result verdict.now ≡ verdict_of policy.now (number_of address) path.now }
    ensures { result ≡ spec.wider_line (verdict_of policy.now (number_of address) path.now) (server_verdict_of policy.now (number_of address) path.now) }
{
    match *verdict {
        Verdict::Denied(Denial::NotListed(fs, _)) => wider_among(policy.rows(fs), address, path),
        Verdict::Denied(Denial::NoLine(_)) => None,
        Verdict::Denied(Denial::NoFileSystem) => None,
        Verdict::Granted { .. } => None,
    }
}

/// Finds, of the lines that name a client and list a path of their file system, the first of the heaviest.
fn wider_among(rows: &[Row], address: Addr, path: &Path) -> Option<u32>
    ensures { result ≡ spec.first_number (selected (filter (is_wider (number_of address) path.now) rows.now) (number_of address)) }
{
    match greatest_wider(rows, address, path) {
        Some(weight) => first_wider(rows, address, path, weight),
        None => None,
    }
}

/// Finds the greatest weight of the lines that name a client and list a path of their file system.
fn greatest_wider(rows: &[Row], address: Addr, path: &Path) -> Option<u8>
    ensures { IsGreatest (filter (is_wider (number_of address) path.now) rows.now) (number_of address) result }
{
    let mut greatest = None;
    for row in rows {
        greatest = greater(greatest, wider_weight(row, address, path));
    }
    greatest
}

/// Gives the number of the first of them with this weight.
fn first_wider(rows: &[Row], address: Addr, path: &Path, weight: u8) -> Option<u32>
    ensures { result ≡ option_map (λ row. row.entry.line) (find (λ row. is_same_weight (wider_weight (number_of address) path.now row) weight) rows.now) }
{
    let found = rows
        .iter()
        .find(|row| weighs(wider_weight(row, address, path), weight));
    found.map(|row| row.entry.line)
}

/// Gives the weight of a line that names a client and lists a path of its file system.
fn wider_weight(row: &Row, address: Addr, path: &Path) -> Option<u8>
    ensures { result ≡ wider_weight (number_of address) path.now row.now }
{
    match weight_of(row, address) {
        Some(weight) if 0 < weight && row.lists_here(path) => Some(weight),
        _ => None,
    }
}

/// Gives the greater weight; none is the least.
fn greater(found: Option<u8>, other: Option<u8>) -> Option<u8>
    ensures { result ≡ greater found other }
{
    match (found, other) {
        (None, other) => other,
        (Some(found), None) => Some(found),
        (Some(found), Some(other)) => Some(if found < other { other } else { found }),
    }
}

/// Tests whether a weight is this one.
fn weighs(found: Option<u8>, weight: u8) -> bool
    ensures { result ≡ is_same_weight found weight }
{
    match found {
        Some(found) => found == weight,
        None => false,
    }
}
