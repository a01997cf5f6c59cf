//! Questions on what mountd(8) grants by its own rule, and on the lines that show it. They are asked of the index.

use crate::answers::{Asked, number, split};
use crate::policies::say_verdict;
use crate::site::Site;
use desk_idle::write_directories;
use desk_index::Index;
use desk_policy::PolicyView;
use desk_server::{RepeatedClient, WiderGrant, repeated_clients, server_decide, wider_grants};
use desk_tables::FsId;
use desk_text::{Addr, Path};
use std::alloc::{AllocError, Global};

/// Answers a question on the rule of the server.
pub fn answer(alloc: Global, site: &Site, out: &mut String, question: &str, text: &str) -> Asked {
    match (question, &site.index) {
        ("mountd", Some(index)) => mountd(alloc, index, out, text),
        ("wider", Some(index)) => wider(alloc, index, out, text),
        ("repeated", Some(index)) => repeated(alloc, index, out, text),
        _ => Ok(false),
    }
}

/// `mountd CLIENT PATH`: the verdict by the rule of the server, as it is printed.
fn mountd(alloc: Global, index: &Index, out: &mut String, text: &str) -> Asked {
    let (client, path) = split(text);
    let Ok(client) = Addr::read(client) else {
        return Ok(false);
    };
    let Ok(path) = Path::read(alloc, path) else {
        return Ok(false);
    };
    say_verdict(
        alloc,
        index.policy(),
        out,
        &server_decide(index, client, &path),
    )
}

/// `wider FS`: the lines where the server grants more, as `line 1 by line 2 at 10.0.0.5 /a/x`, with `-alldirs` in place of a
/// directory that is not there, and `|` between them.
fn wider(alloc: Global, index: &Index, out: &mut String, text: &str) -> Asked {
    let Some(fs) = number(text) else {
        return Ok(false);
    };
    if !write_directories(index, FsId(fs)) {
        return Ok(false);
    }
    let found = wider_grants(alloc, index, FsId(fs))?;
    for one in found.as_slice() {
        add_bar(out)?;
        add_wider(out, *one)?;
    }
    Ok(true)
}

fn add_wider(out: &mut String, one: WiderGrant<'_>) -> Result<(), AllocError> {
    let (line, other, address) = (one.line, one.other, one.address);
    write!(out, "line {line} by line {other} at {address} ")?;
    match one.directory {
        Some(directory) => out.push_str(directory.text()),
        None => out.push_str("-alldirs"),
    }
}

/// `repeated FS`: the lines that have a client of an earlier one, as `line 2 by line 1 at 10.0.0.5`, with `|` between them.
fn repeated(alloc: Global, index: &Index, out: &mut String, text: &str) -> Asked {
    let Some(fs) = number(text) else {
        return Ok(false);
    };
    let found = repeated_clients(alloc, index, FsId(fs))?;
    for one in found.as_slice() {
        add_bar(out)?;
        add_repeated(out, *one)?;
    }
    Ok(true)
}

fn add_repeated(out: &mut String, one: RepeatedClient) -> Result<(), AllocError> {
    let (line, other, address) = (one.line, one.other, one.address);
    write!(out, "line {line} by line {other} at {address}")
}

/// Adds a bar, unless nothing is said yet.
fn add_bar(out: &mut String) -> Result<(), AllocError> {
    if !out.is_empty() {
        out.push('|')?;
    }
    Ok(())
}
