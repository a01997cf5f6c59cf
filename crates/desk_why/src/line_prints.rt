//! What is printed of a line that matches a client.

ghost use Rattle.std.specs.Prelude.{◌≡◌, ◌++◌, ◌∷◌, IfOk, OnOk, codes};
ghost use Rattle.std.specs.Fmt.{decimal};
ghost use Rattle.std.specs.String.{string_bytes};
ghost use Rattle.desk_text.specs.Address.{addr_text, number_of};
ghost use Rattle.desk_origins.specs.Origins.{line_name};
ghost use Rattle.desk_policy.specs.Names.{first_name_for};
ghost use Rattle.desk_why.specs.WhyPrints as spec;

use crate::matches::is_as_heavy;
use desk_exports::{Clients, Names};
use desk_netgroup::Netgroups;
use desk_origins::LineName;
use desk_policy::{Row, first_name_for, weight_of};
use desk_tables::Hosts;
use desk_text::{Addr, Net, Path};
use std::alloc::{AllocError, Global};

/// Which client asks for which directory, and the tables that the policy was read with, by which the names of its lines are
/// found.
#[derive(Clone, Copy)]
pub struct Asked<'a> {
    pub netgroups: &'a Netgroups,
    pub hosts: &'a Hosts,
    pub address: Addr,
    pub path: &'a Path,
}

/// Writes a line that matches, given the line that the verdict names, and the greatest weight.
pub(crate) fn push_line(
    alloc: Global,
    asked: Asked<'_>,
    named: LineName<'_>,
    greatest: Option<u8>,
    row: &Row,
    text: &mut String,
) -> Result<(), AllocError>
    ensures { OnOk result (string_bytes text.new
        ≡ string_bytes text.old ++ spec.row_line asked.entry.netgroups.now asked.entry.hosts.now (number_of asked.entry.address) asked.entry.path.now named.entry.origins.now named.entry.line greatest row.now) }
{
    let matched = match_text(alloc, asked, &row.entry.clients)?;
    let heavy = is_as_heavy(greatest, weight_of(row, asked.address));
    let status = status_text(alloc, named, row.entry.line, heavy)?;
    let own = LineName {
        origins: named.origins,
        line: row.entry.line,
    };
    let line = line_text(
        alloc,
        own,
        matched.as_str(),
        status.as_str(),
        lists_text(row.lists_here(asked.path)),
        asked.path.text(),
    )?;
    text.push_str(line.as_str())?;
    Ok(())
}

/// Puts the pieces of a line together.
fn line_text(
    alloc: Global,
    line: LineName<'_>,
    matched: &str,
    status: &str,
    listing: &str,
    path: &str,
) -> Result<String, AllocError>
    ensures { IfOk result (λ text. string_bytes text ≡ spec.line_text (line_name line.entry.origins.now line.entry.line) matched.now status.now listing.now path.now) }
{
    format!(in alloc; "line {line} {matched}: {status}, {listing} {path}\n")
}

/// Writes what a line matches the client by.
fn match_text(alloc: Global, asked: Asked<'_>, clients: &Clients) -> Result<String, AllocError>
    ensures { IfOk result (λ text. string_bytes text
        ≡ spec.match_text asked.entry.netgroups.now asked.entry.hosts.now (number_of asked.entry.address) clients.now) }
{
    match clients {
        Clients::Hosts(names) => name_text(alloc, asked, names),
        Clients::Net(net, _) => net_text(alloc, *net),
        Clients::Net6(_) => String::from_str(alloc, "nobody"),
        Clients::World => String::from_str(alloc, "everybody"),
    }
}

/// Writes the first of the names that stands for the client, as it is written.
fn name_text(alloc: Global, asked: Asked<'_>, names: &Names) -> Result<String, AllocError>
    ensures { IfOk result (λ text. string_bytes text
        ≡ codes "name " ++ spec.name_text (first_name_for asked.entry.netgroups.now asked.entry.hosts.now names.now (number_of asked.entry.address))) }
{
    let first = first_name_for(alloc, asked.netgroups, asked.hosts, names, asked.address)?;
    let name = match first {
        Some(name) => name,
        None => "",
    };
    format!(in alloc; "name {name}")
}

/// Writes a network as its first address and its prefix.
fn net_text(alloc: Global, net: Net) -> Result<String, AllocError>
    ensures { IfOk result (λ text. string_bytes text ≡ codes "network " ++ addr_text net.first ++ 47 ∷ decimal net.prefix) }
{
    let first = net.first();
    let prefix = net.prefix().get();
    format!(in alloc; "network {first}/{prefix}")
}

/// Writes whether a line decides, by its number and the line that the verdict names.
fn status_text(
    alloc: Global,
    named: LineName<'_>,
    line: u32,
    heavy: bool,
) -> Result<String, AllocError>
    ensures { IfOk result (λ text. string_bytes text ≡ spec.status_text named.entry.origins.now named.entry.line line heavy) }
{
    if line == named.line {
        String::from_str(alloc, "decides")
    } else if heavy {
        format!(in alloc; "as heavy as line {named}")
    } else {
        format!(in alloc; "outweighed by line {named}")
    }
}

/// Returns whether a line lists the directory, in words.
fn lists_text(listed: bool) -> &'static str
    ensures { result.now ≡ spec.lists_text listed }
{
    if listed { "lists" } else { "does not list" }
}
