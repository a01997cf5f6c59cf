//! The names of hosts that lines write.

ghost use Rattle.std.specs.Prelude.{◌≡◌, ◌++◌, IfOk, OnOk, filter, map};
ghost use Rattle.std.specs.String.{string_bytes};
ghost use Rattle.page_html.specs.Parts.{item_of};
ghost use Rattle.page_html.specs.Tables.{row_html, rows_html};
ghost use Rattle.page_lists.specs.Hosts as spec;
ghost use Rattle.page_lists.specs.PrivateHosts.{host_if};
ghost use Rattle.page_lists.specs.NameIndex.{IsIndexOf, name_key};

use crate::name_index::WrittenName;
use crate::tables::{push_long_end, push_long_start};
use crate::uses::{NameFacts, facts_of, stands_for, uses_or};
use desk_netgroup::Netgroups;
use desk_policy::{Policy, SiteTables};
use desk_text::{is_dotted, is_ipv6};
use page_html::{Column, Frame, Part, Tag, Title, push_row, push_table_start, push_tag};
use std::alloc::{AllocError, Global};

/// More rows than these are folded.
const OPEN: u64 = 24;

/// The table.
const HOSTS: Frame = Frame {
    class: "n",
    is_titled: true,
    columns: &[
        Column::Name("Name"),
        Column::Plain("It is"),
        Column::Count("Addresses"),
        Column::Plain("Stands for"),
        Column::Plain("Written by"),
    ],
};

/// What the name of a host is.
#[derive(Clone, Copy)]
pub enum HostKind {
    /// A name of the table `hosts`.
    Known,
    /// An address of IPv6.
    Ipv6,
    /// The table hosts has no IPv4 address for it: it does not have the name, or only with addresses of IPv6.
    Unknown,
}

/// The name of a host that lines write, and what it stands for.
#[derive(Drop)]
pub struct HostRow<'a> {
    pub name: &'a str,
    pub facts: NameFacts<'a>,
}

/// Adds the table of the names of hosts that lines write, if they write any, given the index of the names that lines write.
pub fn push_hosts_of<'a>(
    alloc: Global,
    policy: &'a Policy,
    tables: &SiteTables,
    index: &[WrittenName<'a>],
    page: &mut String,
) -> Result<(), AllocError>
    requires { IsIndexOf policy.now index.now }
    ensures { OnOk result (spec.AddsHosts policy.now tables.now (string_bytes page.old) (string_bytes page.new)) }
{
    let names = names_of_hosts(alloc, &tables.netgroups, index)?;
    let rows = host_rows(alloc, policy, tables, index, names.as_slice())?;
    push_hosts(alloc, rows.as_slice(), page)
}

/// Lists the names of hosts among those of an index, in byte order, each once.
fn names_of_hosts<'a>(
    alloc: Global,
    netgroups: &Netgroups,
    index: &[WrittenName<'a>],
) -> Result<Vec<&'a str>, AllocError>
    ensures { IfOk result (λ names. spec.AreHostNames netgroups.now (map name_key index.now) (map (λ name. name.now) names.items)) }
{
    let mut names = host_names(alloc, netgroups, index)?;
    names.sort_unstable();
    names.dedup();
    Ok(names)
}

/// Lists the names of hosts among those of an index, in their order.
fn host_names<'a>(
    alloc: Global,
    netgroups: &Netgroups,
    index: &[WrittenName<'a>],
) -> Result<Vec<&'a str>, AllocError>
    ensures { IfOk result (λ names. map (λ name. name.now) names.items ≡ filter (spec.is_host_name netgroups.now) (map name_key index.now)) }
{
    let mut names = Vec::new(alloc);
    for one in index {
        push_if_host(netgroups, one.name, &mut names)?;
    }
    Ok(names)
}

/// Adds a name, if it is that of a host.
fn push_if_host<'a>(
    netgroups: &Netgroups,
    name: &'a str,
    names: &mut Vec<&'a str>,
) -> Result<(), AllocError>
    ensures { OnOk result (map (λ one. one.now) names.new.items ≡ map (λ one. one.now) names.old.items ++ host_if netgroups.now name.now) }
{
    if is_host_name(netgroups, name) {
        names.push(name)?;
    }
    Ok(())
}

/// Tests whether a written name is that of a host: not an address, and not a netgroup.
fn is_host_name(netgroups: &Netgroups, name: &str) -> bool
    ensures { result ≡ spec.is_host_name netgroups.now name.now }
{
    !is_dotted(name) && (is_ipv6(name) || netgroups.group(name).is_none())
}

/// Makes the rows of names of hosts.
fn host_rows<'a>(
    alloc: Global,
    policy: &'a Policy,
    tables: &SiteTables,
    index: &[WrittenName<'_>],
    names: &[&'a str],
) -> Result<Vec<HostRow<'a>>, AllocError>
    requires { IsIndexOf policy.now index.now }
    ensures { IfOk result (λ rows. map spec.row_value rows.items ≡ map (spec.row_of policy.now tables.now) (map (λ name. name.now) names.now)) }
{
    let mut rows = Vec::new(alloc);
    for name in names {
        rows.push(host_row(alloc, policy, tables, index, name)?)?;
    }
    Ok(rows)
}

/// Makes the row of the name of a host.
fn host_row<'a>(
    alloc: Global,
    policy: &'a Policy,
    tables: &SiteTables,
    index: &[WrittenName<'_>],
    name: &'a str,
) -> Result<HostRow<'a>, AllocError>
    requires { IsIndexOf policy.now index.now }
    ensures { IfOk result (λ row. spec.row_value row ≡ spec.row_of policy.now tables.now name.now) }
{
    let facts = facts_of(alloc, policy, tables, index, name)?;
    Ok(HostRow { name, facts })
}

/// Returns what the name of a host is that stands for so many addresses.
fn kind_of(name: &str, addresses: u64) -> HostKind
    ensures { result ≡ spec.kind_of name.now addresses }
{
    if addresses != 0 {
        HostKind::Known
    } else if is_ipv6(name) {
        HostKind::Ipv6
    } else {
        HostKind::Unknown
    }
}

/// Adds the names of hosts that lines write, in the order given.
pub fn push_hosts(alloc: Global, rows: &[HostRow<'_>], page: &mut String) -> Result<(), AllocError>
    ensures { OnOk result (string_bytes page.new ≡ string_bytes page.old ++ spec.hosts rows.now) }
{
    if rows.is_empty() {
        Ok(())
    } else {
        push_some_hosts(alloc, rows, page)
    }
}

/// Adds names of hosts, folded if they are many.
fn push_some_hosts(alloc: Global, rows: &[HostRow<'_>], page: &mut String) -> Result<(), AllocError>
    ensures { OnOk result (string_bytes page.new ≡ string_bytes page.old ++ spec.some_hosts rows.now) }
{
    let count = rows.len() as u64;
    push_long_start(alloc, OPEN, count, "name", "names", page)?;
    push_table_start(
        alloc,
        &HOSTS,
        &[Title::Said("Names of hosts that lines write")],
        page,
    )?;
    push_host_rows(alloc, rows, page)?;
    push_tag(Tag::TableEnd, page)?;
    push_long_end(OPEN, count, page)?;
    Ok(())
}

/// Adds the rows of names of hosts.
#[tactic(auto, unfolding(page_html::specs::Tables::rows_html))]
fn push_host_rows(alloc: Global, rows: &[HostRow<'_>], page: &mut String) -> Result<(), AllocError>
    ensures { OnOk result (string_bytes page.new ≡ string_bytes page.old ++ rows_html spec.host_frame (map (λ row. spec.cells (spec.row_value row)) rows.now)) }
{
    for row in rows {
        push_host(alloc, row, page)?;
    }
    Ok(())
}

/// Adds the name of a host.
fn push_host(alloc: Global, row: &HostRow<'_>, page: &mut String) -> Result<(), AllocError>
    ensures { OnOk result (string_bytes page.new ≡ string_bytes page.old ++ row_html spec.host_frame (spec.cells (spec.row_value row.now))) }
{
    let uses = uses_or(alloc, &row.facts)?;
    push_row(
        alloc,
        &HOSTS,
        &page_html::five_cells(
            &[Part::Code(row.name)],
            &[kind_words(kind_of(row.name, row.facts.addresses))],
            &[Part::Number(row.facts.addresses)],
            &[stands_for(row.facts.ranges.as_slice())],
            uses.as_slice(),
        ),
        page,
    )?;
    Ok(())
}

/// Returns what the name of a host is.
fn kind_words<'a>(kind: HostKind) -> Part<'a>
    ensures { item_of result ≡ spec.kind kind }
{
    match kind {
        HostKind::Known => Part::Words("of the table hosts"),
        HostKind::Ipv6 => Part::Words("of IPv6: nobody"),
        HostKind::Unknown => Part::Words("no IPv4 address in the table hosts: nobody"),
    }
}
