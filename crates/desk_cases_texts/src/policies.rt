//! Questions on policies and verdicts. A verdict is that by the lines of the policy. If no two of them contradict each other,
//! it is asked of the index too; where that gives another one, both are told (`add_by_keys`).

ghost use Rattle.desk_text.specs.Lines.{IsReadable};
ghost use Rattle.desk_exports.specs.Files.{EntriesAscend};

use crate::answers::{Asked, end_list, numbers, say, say_whether, split};
use crate::exports::{say_fault, tables};
use crate::filesystems::{self, fs_id, mounted};
use crate::indexes::{add_by_keys, index_of};
use crate::site::{InForce, Site};
use desk_exports::{Boxed, Entry, Rule, Tables, read_whole};
use desk_netgroup::Netgroups;
use desk_policy::{Denial, Policy, PolicyView, Row, Verdict, act_as, verdict_text};
use desk_tables::{FileSystems, FsId, Hosts, credential};
use desk_text::{Addr, LineFault, Path, ReadError, Sequence, is_readable};
use std::alloc::{AllocError, Global};

/// Answers a question on the policy, or one that sets it.
pub fn answer(alloc: Global, site: &mut Site, out: &mut String, question: &str, text: &str) -> Asked
    requires { IsReadable text.now }
{
    match (question, &site.policy) {
        ("policy", _) => read(alloc, site, out, text),
        ("policy_with", _) => read_with(alloc, site, out, text),
        ("verdict", Some(in_force)) => verdict(alloc, site, in_force, out, text),
        ("not_listed", Some(in_force)) => not_listed(alloc, in_force.policy(), out, text),
        ("rows", Some(in_force)) => rows(in_force.policy(), out, text),
        ("row_has", Some(in_force)) => row_has(in_force.policy(), out, text),
        ("policy_mount", Some(in_force)) => filesystems::mount(
            in_force.policy().filesystems(),
            out,
            text,
        ),
        ("acts_as", Some(in_force)) => acts_as(site, in_force.policy(), out, text),
        _ => Ok(false),
    }
}

/// `policy TEXT`: `read`, or the fault. Sets the policy of a text for all file systems, which is read with the tables that
/// the file read last.
fn read(alloc: Global, site: &mut Site, out: &mut String, text: &str) -> Asked
    requires { IsReadable text.now }
{
    let Some(filesystems) = &site.filesystems else {
        return Ok(false);
    };
    let filesystems = filesystems.share()?;
    let asked = set(alloc, site, out, &filesystems, text);
    drop(filesystems);
    asked
}

/// `policy_with MOUNTS\nTEXT`: the same, but in the policy the file systems have the mount points of the first line.
fn read_with(alloc: Global, site: &mut Site, out: &mut String, text: &str) -> Asked
    requires { IsReadable text.now }
{
    let (mounts, text) = text.split_once('\n').unwrap_or((text, ""));
    if !is_readable(text) {
        return Ok(false);
    }
    match mounted(alloc, mounts) {
        Ok(Some(filesystems)) => {
            let asked = set(alloc, site, out, &filesystems, text);
            drop(filesystems);
            asked
        }
        Err(ReadError::Memory) => Err(AllocError),
        _ => Ok(false),
    }
}

/// Sets the policy of a text, which has these file systems, and the index of the same.
fn set(
    alloc: Global,
    site: &mut Site,
    out: &mut String,
    filesystems: &FileSystems,
    text: &str,
) -> Asked
    requires { IsReadable text.now }
{
    let Some(known) = &site.filesystems else {
        return Ok(false);
    };
    let written = tables(site, known);
    let policy = policy_of(alloc, &written, filesystems, text);
    let again = policy_of(alloc, &written, filesystems, text);
    set_read(alloc, site, out, policy, again)
}

/// Sets the policy, and the index of the same, which was read again for it; or answers with the fault.
fn set_read(
    alloc: Global,
    site: &mut Site,
    out: &mut String,
    policy: Result<Policy, ReadError<LineFault<Rule>>>,
    again: Result<Policy, ReadError<LineFault<Rule>>>,
) -> Asked {
    match policy {
        Ok(policy) => site.put(InForce::Policy(policy)),
        Err(error) => {
            drop(again);
            return say_fault(alloc, out, error);
        }
    }
    if let Ok(policy) = again {
        site.put_index(index_of(alloc, policy)?);
    }
    say(out, "read")
}

/// Reads the policy of a text. It has these file systems, and is without the groups and the hosts.
fn policy_of(
    alloc: Global,
    written: &Tables,
    filesystems: &FileSystems,
    text: &str,
) -> Result<Policy, ReadError<LineFault<Rule>>>
    requires { IsReadable text.now }
{
    let own = filesystems.share()?;
    match read_whole(alloc, text, written) {
        Ok(entries) => Ok(policy_with(alloc, own, entries)?),
        Err(error) => {
            drop(own);
            Err(error)
        }
    }
}

fn policy_with(
    alloc: Global,
    filesystems: FileSystems,
    entries: Sequence<(FsId, Boxed<Entry>)>,
) -> Result<Policy, AllocError>
    requires { EntriesAscend entries }
{
    let netgroups = Netgroups::new(alloc);
    let hosts = Hosts::new(alloc);
    Policy::of_entries(alloc, &netgroups, &hosts, filesystems, entries)
}

/// `verdict CLIENT PATH`: the verdict as it is printed.
fn verdict(alloc: Global, site: &Site, in_force: &InForce, out: &mut String, text: &str) -> Asked {
    let (client, path) = split(text);
    let Ok(client) = Addr::read(client) else {
        return Ok(false);
    };
    match Path::read(alloc, path) {
        Ok(path) => say_verdicts(alloc, site, in_force, out, client, &path),
        Err(_) => Ok(false),
    }
}

/// Answers with the verdict by the lines of the policy, and with that by its keys if it is another.
fn say_verdicts(
    alloc: Global,
    site: &Site,
    in_force: &InForce,
    out: &mut String,
    client: Addr,
    path: &Path,
) -> Asked {
    say_verdict(
        alloc,
        in_force.policy(),
        out,
        &in_force.decide(client, path),
    )?;
    let Some(index) = &site.index else {
        return Ok(true);
    };
    let mut by_keys = String::new(alloc);
    say_verdict(
        alloc,
        index.policy(),
        &mut by_keys,
        &index.decide(client, path),
    )?;
    add_by_keys(out, by_keys.as_str())
}

/// Answers with a verdict as it is printed.
pub fn say_verdict(alloc: Global, policy: &Policy, out: &mut String, verdict: &Verdict) -> Asked {
    say(out, verdict_text(alloc, policy, verdict, &None)?.as_str())
}

/// `not_listed FS LINE`: the denial that names this line of the file system with this number, as it is printed.
fn not_listed(alloc: Global, policy: &Policy, out: &mut String, text: &str) -> Asked {
    let Some((fs, line)) = fs_and_line(text) else {
        return Ok(false);
    };
    say_verdict(
        alloc,
        policy,
        out,
        &Verdict::Denied(Denial::NotListed(fs, line)),
    )
}

fn fs_and_line(text: &str) -> Option<(FsId, u32)> {
    let (fs, line) = numbers(text)?;
    Some((FsId(fs), line))
}

/// `rows FS`: the lines of the file system with this number, each its number, the addresses of its names, and `;`.
fn rows(policy: &Policy, out: &mut String, text: &str) -> Asked {
    let Some(fs) = fs_id(text) else {
        return Ok(false);
    };
    for row in policy.rows(fs) {
        add_row(out, row)?;
    }
    end_list(out)
}

fn add_row(out: &mut String, row: &Row) -> Result<(), AllocError> {
    let line = row.entry.line;
    write!(out, "{line}")?;
    for address in row.addrs.as_slice() {
        write!(out, " {address}")?;
    }
    out.push_str("; ")
}

/// `row_has FS LINE ADDRESS`: whether the address is one of those of the line's names, `yes` or `no`.
fn row_has(policy: &Policy, out: &mut String, text: &str) -> Asked {
    match row_and_behind(policy, text) {
        Some((row, address)) => match Addr::read(address) {
            Ok(address) => say_whether(out, row.addrs.contains(address)),
            Err(_) => Ok(false),
        },
        None => Ok(false),
    }
}

/// Returns the line with the numbers that a text begins with, of its file system and its own, and what stands behind
/// them.
fn row_and_behind<'a, 'b>(policy: &'a Policy, text: &'b str) -> Option<(&'a Row, &'b str)> {
    let (numbers, behind) = text.rsplit_once(' ')?;
    let (fs, line) = fs_and_line(numbers)?;
    Some((row_of(policy.rows(fs), line)?, behind))
}

fn row_of(rows: &[Row], line: u32) -> Option<&Row> {
    for row in rows {
        if row.entry.line == line {
            return Some(row);
        }
    }
    None
}

/// `acts_as FS LINE CREDENTIAL`: the credential that a client with this one acts as under the terms of the line.
fn acts_as(site: &Site, policy: &Policy, out: &mut String, text: &str) -> Asked {
    let Some((row, own)) = row_and_behind(policy, text) else {
        return Ok(false);
    };
    let Ok(own) = credential(&site.users, &site.groups, own) else {
        return Ok(false);
    };
    let acted = act_as(&row.entry.terms, &own);
    write!(out, "{acted}")?;
    Ok(true)
}
