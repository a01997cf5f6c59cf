//! Listings as they are printed.

ghost use Rattle.std.specs.Prelude.{◌≡◌, ◌∷◌, ◌++◌, IfOk, OnOk, map};
ghost use Rattle.std.specs.Fmt.{decimal};
ghost use Rattle.std.specs.List.{flat_map, join_with_byte};
ghost use Rattle.std.specs.String.{string_bytes};
ghost use Rattle.desk_text.specs.Address.{addr_text};
ghost use Rattle.desk_exports.specs.Prints.{terms_text};
ghost use Rattle.desk_origins.specs.Origins.{line_name};
ghost use Rattle.desk_policy.specs.ListingPrints as spec;

use crate::listings::Shown;
use crate::policy::Policy;
use crate::prints::mount_text;
use crate::row::Row;
use desk_exports::{Clients, Entry, Names, Terms};
use desk_origins::{LineName, Origin};
use desk_text::{Net, Path};
use std::alloc::{AllocError, Global};

/// Writes a listing under the policy: of each file system a line with its mount point, terms and lines, and then a line for
/// each directory. Each line ends with a line feed.
pub fn listing_text(alloc: Global, policy: &Policy, listing: &[Shown]) -> Result<String, AllocError>
    ensures { IfOk result (λ text. string_bytes text ≡ spec.listing_text policy.now listing.now) }
{
    let mut text = String::new(alloc);
    for shown in listing {
        push_shown(alloc, policy, shown, &mut text)?;
    }
    Ok(text)
}

/// Writes all exports of the policy, by mount point and line: a line for each directory that a line writes, and whom it is
/// for.
pub fn all_exports(alloc: Global, policy: &Policy) -> Result<String, AllocError>
    ensures { IfOk result (λ text. string_bytes text ≡ spec.all_exports policy.now) }
{
    let mut text = String::new(alloc);
    for rows in policy.rows_by_filesystem() {
        push_rows(alloc, rows.as_slice(), &mut text)?;
    }
    Ok(text)
}

/// Writes all exports of the policy with their terms, in the order of [`all_exports`]: behind each directory whom it is for,
/// whether the line has `-alldirs`, and on what terms.
pub fn all_terms(alloc: Global, policy: &Policy) -> Result<String, AllocError>
    ensures { IfOk result (λ text. string_bytes text ≡ spec.all_terms policy.now) }
{
    let mut text = String::new(alloc);
    for rows in policy.rows_by_filesystem() {
        push_terms(alloc, rows.as_slice(), &mut text)?;
    }
    Ok(text)
}

/// Writes what is shown of a file system.
fn push_shown(
    alloc: Global,
    policy: &Policy,
    shown: &Shown,
    text: &mut String,
) -> Result<(), AllocError>
    ensures { OnOk result (string_bytes text.new ≡ string_bytes text.old ++ spec.shown_text policy.now shown.now) }
{
    push_first_line(alloc, policy, shown, text)?;
    push_dirs(shown.dirs.as_slice(), text)?;
    Ok(())
}

/// Writes the first line of what is shown of a file system.
#[tactic(auto, using(std::proofs::lemmas::List::append_assoc))]
fn push_first_line(
    alloc: Global,
    policy: &Policy,
    shown: &Shown,
    text: &mut String,
) -> Result<(), AllocError>
    ensures { OnOk result (string_bytes text.new ≡ string_bytes text.old ++ spec.shown_line policy.now shown.now) }
{
    let terms = terms_text(alloc, &shown.terms)?;
    let lines = joined_names(alloc, policy.origins(), shown.lines.as_slice())?;
    text.push_str(mount_text(policy, shown.fs))?;
    text.push_str(alldirs_text(shown.alldirs))?;
    text.push_str(" ")?;
    text.push_str(terms.as_str())?;
    text.push_str(" lines ")?;
    text.push_str(lines.as_str())?;
    text.push_str("\n")?;
    Ok(())
}

fn terms_text(alloc: Global, terms: &Terms) -> Result<String, AllocError>
    ensures { IfOk result (λ text. string_bytes text ≡ terms_text terms.now) }
{
    format!(in alloc; "{terms}")
}

fn alldirs_text(alldirs: bool) -> &'static str
    ensures { result.now ≡ spec.alldirs_text alldirs }
{
    if alldirs { " alldirs" } else { "" }
}

/// Joins the names of lines by commas.
fn joined_names(alloc: Global, origins: &[Origin], numbers: &[u32]) -> Result<String, AllocError>
    ensures { IfOk result (λ text. string_bytes text ≡ join_with_byte 44 (map (line_name origins.now) numbers.now)) }
{
    let mut text = String::new(alloc);
    let Some((first, others)) = numbers.split_first() else {
        return Ok(text);
    };
    push_name(alloc, origins, *first, &mut text)?;
    for number in others {
        text.push_str(",")?;
        push_name(alloc, origins, *number, &mut text)?;
    }
    Ok(text)
}

/// Adds the name of a line.
fn push_name(
    alloc: Global,
    origins: &[Origin],
    line: u32,
    text: &mut String,
) -> Result<(), AllocError>
    ensures { OnOk result (string_bytes text.new ≡ string_bytes text.old ++ line_name origins.now line) }
{
    let name = LineName { origins, line };
    let written = format!(in alloc; "{name}")?;
    text.push_str(written.as_str())?;
    Ok(())
}

/// Writes a line for each directory.
fn push_dirs(dirs: &[Path], text: &mut String) -> Result<(), AllocError>
    ensures { OnOk result (string_bytes text.new ≡ string_bytes text.old ++ flat_map spec.dir_line dirs.now) }
{
    for dir in dirs {
        text.push_str("  ")?;
        text.push_str(dir.text())?;
        text.push_str("\n")?;
    }
    Ok(())
}

/// Writes the exports of lines.
fn push_rows(alloc: Global, rows: &[Row], text: &mut String) -> Result<(), AllocError>
    ensures { OnOk result (string_bytes text.new ≡ string_bytes text.old ++ flat_map (λ row. spec.entry_exports row.entry) rows.now) }
{
    for row in rows {
        let clients = clients_text(alloc, &row.entry.clients)?;
        push_exports(row.entry.dirs.as_slice(), clients.as_str(), text)?;
    }
    Ok(())
}

/// Writes the exports of lines with their terms.
fn push_terms(alloc: Global, rows: &[Row], text: &mut String) -> Result<(), AllocError>
    ensures { OnOk result (string_bytes text.new ≡ string_bytes text.old ++ flat_map (λ row. spec.entry_terms row.entry) rows.now) }
{
    for row in rows {
        let granted = granted_text(alloc, &row.entry)?;
        push_exports(row.entry.dirs.as_slice(), granted.as_str(), text)?;
    }
    Ok(())
}

/// Writes whom a line is for, whether it has `-alldirs`, and on what terms.
#[tactic(auto, using(std::proofs::lemmas::List::append_assoc))]
fn granted_text(alloc: Global, entry: &Entry) -> Result<String, AllocError>
    ensures { IfOk result (λ text. string_bytes text ≡ spec.granted_text entry.now) }
{
    let terms = terms_text(alloc, &entry.terms)?;
    let mut text = clients_text(alloc, &entry.clients)?;
    text.push_str(alldirs_text(entry.alldirs))?;
    text.push_str(" ")?;
    text.push_str(terms.as_str())?;
    Ok(text)
}

/// Writes a line for each directory of an entry, and behind it whom it is for.
fn push_exports(dirs: &[Path], clients: &str, text: &mut String) -> Result<(), AllocError>
    ensures { OnOk result (string_bytes text.new ≡ string_bytes text.old ++ flat_map (spec.export_line clients.now) dirs.now) }
{
    for dir in dirs {
        text.push_str(dir.text())?;
        text.push_str(" ")?;
        text.push_str(clients)?;
        text.push_str("\n")?;
    }
    Ok(())
}

/// Writes whom a line is for.
fn clients_text(alloc: Global, clients: &Clients) -> Result<String, AllocError>
    ensures { IfOk result (λ text. string_bytes text ≡ spec.clients_text clients.now) }
{
    match clients {
        Clients::Hosts(names) => joined(alloc, names),
        Clients::Net(net, _) => net_text(alloc, *net),
        Clients::Net6(_) => String::from_str(alloc, "(ipv6)"),
        Clients::World => String::from_str(alloc, "(everyone)"),
    }
}

/// Writes a network as its first address and its prefix.
fn net_text(alloc: Global, net: Net) -> Result<String, AllocError>
    ensures { IfOk result (λ text. string_bytes text ≡ addr_text net.first ++ 47 ∷ decimal net.prefix) }
{
    let first = net.first();
    let prefix = net.prefix().get();
    format!(in alloc; "{first}/{prefix}")
}

/// Joins names by commas.
fn joined(alloc: Global, names: &Names) -> Result<String, AllocError>
    ensures { IfOk result (λ text. string_bytes text ≡ join_with_byte 44 names.now) }
{
    let mut text = String::new(alloc);
    if names.is_empty() {
        return Ok(text);
    }
    text.push_str(names.get(0))?;
    for index in 1..names.len() {
        text.push_str(",")?;
        text.push_str(names.get(index))?;
    }
    Ok(text)
}
