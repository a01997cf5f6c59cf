//! Questions on why a mount is granted or denied, and on the lines that decide nothing. The former is asked of both views; if the
//! index answers something else, both are told (`add_by_keys`).

use crate::answers::{Asked, number, split};
use crate::indexes::add_by_keys;
use crate::listings::say_lines;
use crate::site::{InForce, Site};
use desk_idle::{Idle, Reason, idle_lines, write_directories};
use desk_policy::PolicyView;
use desk_tables::FsId;
use desk_text::{Addr, Path};
use desk_why::{Asked as Mount, why_text};
use std::alloc::{AllocError, Global};

/// Answers a question on reasons.
pub fn answer(alloc: Global, site: &Site, out: &mut String, question: &str, text: &str) -> Asked {
    match question {
        "why" => why(alloc, site, out, text),
        "idle" => idle(alloc, site, out, text),
        _ => Ok(false),
    }
}

/// `why CLIENT DIR`: what is printed below the verdict, with `|` for each line feed. Names are looked up in the groups and hosts that
/// were read last.
fn why(alloc: Global, site: &Site, out: &mut String, text: &str) -> Asked {
    let (client, path) = split(text);
    let Ok(address) = Addr::read(client) else {
        return Ok(false);
    };
    match Path::read(alloc, path) {
        Ok(path) => say_both(alloc, site, out, address, &path),
        Err(_) => Ok(false),
    }
}

fn say_both(alloc: Global, site: &Site, out: &mut String, address: Addr, path: &Path) -> Asked {
    let (Some(InForce::View(plain)), Some(index)) = (&site.policy, &site.index) else {
        return Ok(false);
    };
    let mount = Mount {
        netgroups: &site.netgroups,
        hosts: &site.hosts,
        address,
        path,
    };
    say_why(alloc, plain, out, mount)?;
    let mut by_keys = String::new(alloc);
    say_why(alloc, index, &mut by_keys, mount)?;
    add_by_keys(out, by_keys.as_str())
}

fn say_why<V: PolicyView>(alloc: Global, view: &V, out: &mut String, mount: Mount<'_>) -> Asked {
    let text = why_text(alloc, view, mount)?;
    say_lines(out, text.as_str())
}

/// `idle FS`: the lines of a file system that decide nothing, as `line 2 Repeated by line 1 at 10.0.0.5`, with `|` between them.
fn idle(alloc: Global, site: &Site, out: &mut String, text: &str) -> Asked {
    let (Some(fs), Some(index)) = (number(text), &site.index) else {
        return Ok(false);
    };
    if !write_directories(index, FsId(fs)) {
        return Ok(false);
    }
    let found = idle_lines(alloc, index, FsId(fs))?;
    for (place, one) in found.as_slice().iter().enumerate() {
        if place > 0 {
            out.push('|')?;
        }
        add_idle(out, *one)?;
    }
    Ok(true)
}

fn add_idle(out: &mut String, one: Idle) -> Result<(), AllocError> {
    let line = one.line;
    match one.reason {
        Reason::NoClient => write!(out, "line {line} NoClient"),
        Reason::Shadowed(other, address) => write!(
            out,
            "line {line} Shadowed by line {other} at {address}"
        ),
        Reason::Repeated(other, address) => write!(
            out,
            "line {line} Repeated by line {other} at {address}"
        ),
    }
}
