//! Questions on the index of the policy in force. A key is written `host FS ADDRESS`, `net FS ADDRESS/BITS` or `world FS`.
//! (`policies`, `sites` and `listings` ask the index what they ask the lines.)

use crate::answers::{Asked, split};
use crate::filesystems::fs_id;
use crate::nets::read_net;
use crate::site::Site;
use crate::sites::say_fault;
use desk_exports::Clients;
use desk_index::{Index, IndexRow, Key, Probes, Rows, select};
use desk_policy::{Policy, PolicyView, Row, SiteFault, compile};
use desk_tables::FsId;
use desk_text::{Addr, ReadError};
use std::alloc::{AllocError, Global};
use std::collections::BTreeSet;

/// Answers a question on the index.
pub fn answer(
    alloc: Global,
    site: &mut Site,
    out: &mut String,
    question: &str,
    text: &str,
) -> Asked {
    match (question, &site.index) {
        ("probe", Some(index)) => probe(index, out, text),
        ("select", Some(index)) => selected(index, out, text),
        ("keys", Some(index)) => compare_keys(alloc, &mut site.keys, index, &site.texts, out),
        _ => Ok(false),
    }
}

/// Adds what is answered by keys behind the answer by lines, if it is another.
pub fn add_by_keys(out: &mut String, by_keys: &str) -> Asked {
    if out.as_str() != by_keys {
        write!(out, ", but by keys {by_keys}")?;
    }
    Ok(true)
}

/// Makes the index of a policy, unless lines of it contradict each other.
pub fn index_of(alloc: Global, policy: Policy) -> Result<Option<Index>, AllocError> {
    match Index::build(alloc, policy) {
        Ok(index) => Ok(Some(index)),
        Err(ReadError::Fault(_)) => Ok(None),
        Err(ReadError::Memory) => Err(AllocError),
    }
}

/// `probe KEY;KEY;..`: for each key the numbers of its lines, or `none`, and how many look-ups were made by then, with `; `
/// between them: `lines 1,2 probes 1; none probes 2`.
fn probe(index: &Index, out: &mut String, text: &str) -> Asked {
    let mut probes = Probes::new(index);
    for text in text.split(';') {
        let Some(key) = key_of(text) else {
            return Ok(false);
        };
        if probes.count() == u32::MAX {
            return Ok(false);
        }
        if !out.is_empty() {
            out.push_str("; ")?;
        }
        let found = probes.probe(key);
        add_found(out, found, probes.count())?;
    }
    Ok(true)
}

/// `select FS ADDRESS`: the numbers of the selected lines, or `none`, and how many look-ups were made.
fn selected(index: &Index, out: &mut String, text: &str) -> Asked {
    let Some((fs, address)) = fs_and_address(text) else {
        return Ok(false);
    };
    let mut probes = Probes::new(index);
    let found = select(&mut probes, fs, address);
    add_found(out, found, probes.count())?;
    Ok(true)
}

fn fs_and_address(text: &str) -> Option<(FsId, Addr)> {
    let (fs, address) = split(text);
    Some((fs_id(fs)?, Addr::read(address).ok()?))
}

/// Adds the numbers of the lines that are found, and how many look-ups were made.
fn add_found(out: &mut String, found: Option<&IndexRow>, made: u32) -> Result<(), AllocError> {
    match found {
        Some(row) => add_lines(out, row.lines())?,
        None => out.push_str("none")?,
    }
    write!(out, " probes {made}")
}

fn add_lines(out: &mut String, lines: &[u32]) -> Result<(), AllocError> {
    out.push_str("lines ")?;
    for (place, line) in lines.iter().enumerate() {
        if place > 0 {
            out.push(',')?;
        }
        write!(out, "{line}")?;
    }
    Ok(())
}

/// Returns the key that a text writes.
fn key_of(text: &str) -> Option<Key> {
    let (kind, rest) = split(text);
    let (fs, client) = split(rest);
    let fs = fs_id(fs)?;
    match kind {
        "host" => Some(Key::Host(fs, Addr::read(client).ok()?)),
        "net" => Some(Key::Net(fs, read_net(client)?)),
        "world" if client.is_empty() => Some(Key::World(fs)),
        _ => None,
    }
}

/// Adds the keys of the lines of a policy.
fn add_keys_of_policy(
    alloc: Global,
    keys: &mut BTreeSet<String>,
    policy: &Policy,
) -> Result<(), AllocError> {
    let mut fs = 0u32;
    for rows in policy.rows_by_filesystem() {
        add_keys(alloc, keys, fs, rows.as_slice())?;
        fs = fs.saturating_add(1);
    }
    Ok(())
}

fn add_keys(
    alloc: Global,
    keys: &mut BTreeSet<String>,
    fs: u32,
    rows: &[Row],
) -> Result<(), AllocError> {
    for row in rows {
        add_keys_of(alloc, keys, fs, row)?;
    }
    Ok(())
}

/// Adds the keys of a line.
fn add_keys_of(
    alloc: Global,
    keys: &mut BTreeSet<String>,
    fs: u32,
    row: &Row,
) -> Result<(), AllocError> {
    match &row.entry.clients {
        Clients::Hosts(_) => add_hosts(alloc, keys, fs, row.addrs.as_slice()),
        Clients::Net(net, _) => {
            let (first, bits) = (net.first(), net.prefix().get());
            keys.insert(format!(in alloc; "net {fs} {first}/{bits}")?)?;
            Ok(())
        }
        Clients::Net6(_) => Ok(()),
        Clients::World => {
            keys.insert(format!(in alloc; "world {fs}")?)?;
            Ok(())
        }
    }
}

fn add_hosts(
    alloc: Global,
    keys: &mut BTreeSet<String>,
    fs: u32,
    addresses: &[Addr],
) -> Result<(), AllocError> {
    for address in addresses {
        keys.insert(format!(in alloc; "host {fs} {address}")?)?;
    }
    Ok(())
}

/// `keys`: how many keys the lines in force had whenever this was asked since `site`, and `same` if under each of them the index
/// has the same lines as one that is built afresh of the texts of the site; or the first under which it has not.
pub fn compare_keys(
    alloc: Global,
    keys: &mut BTreeSet<String>,
    index: &Index,
    texts: &desk_policy::Site,
    out: &mut String,
) -> Asked {
    if !texts.is_readable() {
        return Ok(false);
    }
    add_keys_of_policy(alloc, keys, index.policy())?;
    let fresh: Result<Index, ReadError<SiteFault>> = compile(alloc, texts);
    match fresh {
        Ok(fresh) => {
            let asked = say_same(out, keys, index, &fresh);
            drop(fresh);
            asked
        }
        Err(error) => say_fault(out, error),
    }
}

fn say_same(out: &mut String, keys: &BTreeSet<String>, index: &Index, fresh: &Index) -> Asked {
    let number = keys.len();
    let other = first_other(keys, index, fresh).unwrap_or("same");
    write!(out, "{number} keys, {other}")?;
    Ok(true)
}

/// Returns the first key under which the two have other lines.
fn first_other<'a>(keys: &'a BTreeSet<String>, index: &Index, fresh: &Index) -> Option<&'a str> {
    for key in keys.iter() {
        if !has_same(index, fresh, key.as_str()) {
            return Some(key.as_str());
        }
    }
    None
}

/// Tests whether two indexes have the same lines under a key.
fn has_same(index: &Index, fresh: &Index, key: &str) -> bool {
    match (lines_under(index, key), lines_under(fresh, key)) {
        (Some(lines), Some(others)) => lines == others,
        (None, None) => true,
        _ => false,
    }
}

fn lines_under<'a>(index: &'a Index, key: &str) -> Option<&'a [u32]> {
    let key = key_of(key)?;
    let mut probes = Probes::new(index);
    let row = probes.probe(key)?;
    Some(row.lines())
}
