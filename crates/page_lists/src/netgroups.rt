//! Netgroups.

ghost use Rattle.std.specs.Prelude.{◌≡◌, ◌++◌, IfOk, OnOk, map};
ghost use Rattle.std.specs.String.{string_bytes};
ghost use Rattle.page_html.specs.Tables.{row_html, rows_html};
ghost use Rattle.page_lists.specs.Netgroups as spec;
ghost use Rattle.page_lists.specs.Uses.{mention_value};
ghost use Rattle.page_lists.specs.NameIndex.{IsIndexOf};

use crate::mentions::{Mention, some_or};
use crate::name_index::WrittenName;
use crate::tables::{number_of, push_long_end, push_long_start};
use crate::uses::{NameFacts, facts_of, stands_for, uses_or};
use desk_netgroup::{GroupLine, Member, Netgroups};
use desk_policy::{Policy, SiteTables};
use page_html::{
    Column, Element, Frame, Part, Tag, Title, push_element, push_row, push_table_start, push_tag,
};
use std::alloc::{AllocError, Global};

/// More rows than these are folded.
const OPEN: u64 = 24;

/// How many members of a netgroup a cell names.
const MOST_MEMBERS: usize = 8;

/// The table.
const NETGROUPS: Frame = Frame {
    class: "n",
    is_titled: true,
    columns: &[
        Column::Name("Name"),
        Column::Count("Line"),
        Column::Plain("Hosts and groups in it"),
        Column::Count("Host names"),
        Column::Count("Addresses"),
        Column::Plain("Stands for"),
        Column::Plain("Written by"),
    ],
};

/// A netgroup: its members as written, how many names of hosts are in it, and what its name stands for.
#[derive(Drop)]
pub struct NetgroupRow<'a> {
    pub group: &'a GroupLine,
    pub members: Vec<Mention<'a>>,
    pub hosts: u64,
    pub facts: NameFacts<'a>,
}

/// Adds the table of netgroups, given the index of the names that lines write.
pub fn push_netgroups_of<'a>(
    alloc: Global,
    policy: &'a Policy,
    tables: &'a SiteTables,
    index: &[WrittenName<'_>],
    page: &mut String,
) -> Result<(), AllocError>
    requires { IsIndexOf policy.now index.now }
    ensures { OnOk result (spec.AddsNetgroups policy.now tables.now (string_bytes page.old) (string_bytes page.new)) }
{
    let rows = group_rows(alloc, policy, tables, index)?;
    push_netgroups(alloc, rows.as_slice(), page)
}

/// Makes the rows of the netgroups, in the order of their lines.
fn group_rows<'a>(
    alloc: Global,
    policy: &'a Policy,
    tables: &'a SiteTables,
    index: &[WrittenName<'_>],
) -> Result<Vec<NetgroupRow<'a>>, AllocError>
    requires { IsIndexOf policy.now index.now }
    ensures { IfOk result (λ rows. map spec.row_value rows.items ≡ map (spec.row_of policy.now tables.now) tables.now.netgroups) }
{
    let mut rows = Vec::new(alloc);
    for group in tables.netgroups.lines() {
        rows.push(group_row(alloc, policy, tables, index, group)?)?;
    }
    Ok(rows)
}

/// Makes the row of a netgroup.
fn group_row<'a>(
    alloc: Global,
    policy: &'a Policy,
    tables: &SiteTables,
    index: &[WrittenName<'_>],
    group: &'a GroupLine,
) -> Result<NetgroupRow<'a>, AllocError>
    requires { IsIndexOf policy.now index.now }
    ensures { IfOk result (λ row. spec.row_value row ≡ spec.row_of policy.now tables.now group.now) }
{
    let hosts = count_hosts(alloc, &tables.netgroups, group.name.as_str())?;
    let members = members_of(alloc, group.members.as_slice())?;
    let facts = facts_of(alloc, policy, tables, index, group.name.as_str())?;
    Ok(NetgroupRow {
        group,
        members,
        hosts,
        facts,
    })
}

/// Counts the names of hosts in a netgroup.
fn count_hosts(alloc: Global, netgroups: &Netgroups, name: &str) -> Result<u64, AllocError>
    ensures { IfOk result (λ count. count ≡ spec.hosts_in netgroups.now name.now) }
{
    match netgroups.hosts_of(alloc, name)? {
        None => Ok(0),
        Some(hosts) => Ok(hosts.len() as u64),
    }
}

/// Names the members of a netgroup.
fn members_of<'a>(alloc: Global, members: &'a [Member]) -> Result<Vec<Mention<'a>>, AllocError>
    ensures { IfOk result (λ mentions. map mention_value mentions.items ≡ map spec.member_value members.now) }
{
    let mut mentions = Vec::new(alloc);
    for member in members {
        mentions.push(member_mention(member))?;
    }
    Ok(mentions)
}

/// Names a member.
fn member_mention(member: &Member) -> Mention<'_>
    ensures { mention_value result ≡ spec.member_value member.now }
{
    match member {
        Member::Host(name) => Mention::Host(name.as_str()),
        Member::Group(name) => Mention::Group(name.as_str()),
    }
}

/// Adds the netgroups, in the order given.
pub fn push_netgroups(
    alloc: Global,
    rows: &[NetgroupRow<'_>],
    page: &mut String,
) -> Result<(), AllocError>
    ensures { OnOk result (string_bytes page.new ≡ string_bytes page.old ++ spec.netgroups rows.now) }
{
    if rows.is_empty() {
        push_no_netgroup(alloc, page)
    } else {
        push_some_netgroups(alloc, rows, page)
    }
}

/// Adds that there is no netgroup.
fn push_no_netgroup(alloc: Global, page: &mut String) -> Result<(), AllocError>
    ensures { OnOk result (string_bytes page.new ≡ string_bytes page.old ++ spec.no_netgroup) }
{
    push_element(
        alloc,
        Element::Paragraph,
        &[
            Part::Words("The table "),
            Part::Word("netgroup"),
            Part::Words(" has none."),
        ],
        page,
    )
}

/// Adds netgroups, folded if they are many.
fn push_some_netgroups(
    alloc: Global,
    rows: &[NetgroupRow<'_>],
    page: &mut String,
) -> Result<(), AllocError>
    ensures { OnOk result (string_bytes page.new ≡ string_bytes page.old ++ spec.some_netgroups rows.now) }
{
    let count = rows.len() as u64;
    push_long_start(alloc, OPEN, count, "netgroup", "netgroups", page)?;
    push_table_start(alloc, &NETGROUPS, &[Title::Said("Netgroups")], page)?;
    push_netgroup_rows(alloc, rows, page)?;
    push_tag(Tag::TableEnd, page)?;
    push_long_end(OPEN, count, page)?;
    Ok(())
}

/// Adds the rows of netgroups.
#[tactic(auto, unfolding(page_html::specs::Tables::rows_html))]
fn push_netgroup_rows(
    alloc: Global,
    rows: &[NetgroupRow<'_>],
    page: &mut String,
) -> Result<(), AllocError>
    ensures { OnOk result (string_bytes page.new ≡ string_bytes page.old ++ rows_html spec.netgroup_frame (map (λ row. spec.cells (spec.row_value row)) rows.now)) }
{
    for row in rows {
        push_netgroup(alloc, row, page)?;
    }
    Ok(())
}

/// Adds a netgroup.
fn push_netgroup(alloc: Global, row: &NetgroupRow<'_>, page: &mut String) -> Result<(), AllocError>
    ensures { OnOk result (string_bytes page.new ≡ string_bytes page.old ++ row_html spec.netgroup_frame (spec.cells (spec.row_value row.now))) }
{
    let members = some_or(
        alloc,
        row.members.as_slice(),
        MOST_MEMBERS,
        Part::Words("-"),
    )?;
    let uses = uses_or(alloc, &row.facts)?;
    push_row(
        alloc,
        &NETGROUPS,
        &page_html::seven_cells(
            &[Part::Code(row.group.name.as_str())],
            &[number_of(row.group.line)],
            members.as_slice(),
            &[Part::Number(row.hosts)],
            &[Part::Number(row.facts.addresses)],
            &[stands_for(row.facts.ranges.as_slice())],
            uses.as_slice(),
        ),
        page,
    )?;
    Ok(())
}
