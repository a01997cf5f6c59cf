//! Questions that put lines in the place of those of a file system, by a part of each view.

ghost use Rattle.desk_policy.specs.Site.{HaveReadableLengths, texts_of};

use crate::answers::{Asked, numbers, say, split};
use crate::filesystems::fs_id;
use crate::indexes::add_by_keys;
use crate::site::{InForce, Site};
use crate::sites::say_fault;
use desk_exports::{BoxedMapping, Flavour, Profile, Terms};
use desk_index::Index;
use desk_policy::{
    Denial, ExportsText, PolicyView, Row, SiteFault, SiteTables, Verdict, are_ascending, read_lines,
};
use desk_tables::FsId;
use desk_text::{Addr, Path, ReadError, Sequence, Text, is_readable};
use std::alloc::{AllocError, Global};

/// Answers a question that sets lines.
pub fn answer(
    alloc: Global,
    site: &mut Site,
    out: &mut String,
    question: &str,
    text: &str,
) -> Asked {
    match question {
        "set_lines" => set_lines(alloc, site, out, text),
        "large_part" => large_part(alloc, site, out, text),
        _ => Ok(false),
    }
}

/// `set_lines FS TEXT`: `set`, or the fault. Puts the lines of a text in the place of those of the file system with this
/// number, and that text among those of the site, whose other texts the lines are read with. Both views make a part of the
/// lines, and set it; if the index says otherwise, both are told.
fn set_lines(alloc: Global, site: &mut Site, out: &mut String, text: &str) -> Asked {
    let (fs, lines) = split(text);
    let Some(fs) = fs_id(fs) else {
        return Ok(false);
    };
    if !site.texts.is_readable() {
        return Ok(false);
    }
    match tables_of(alloc, &site.texts) {
        Ok(tables) => {
            let asked = set_with(alloc, site, out, &tables, fs, lines);
            drop(tables);
            asked
        }
        Err(error) => say_fault(out, error),
    }
}

/// Reads the tables of a site with which its exports files are read.
pub(crate) fn tables_of(
    alloc: Global,
    texts: &desk_policy::Site,
) -> Result<SiteTables, ReadError<SiteFault>>
    requires { HaveReadableLengths (texts_of texts.now) }
{
    SiteTables::read(alloc, texts.files.tables.lend())
}

/// Puts the lines of a text, read with these tables, in the place of those of a file system, and keeps the text.
fn set_with(
    alloc: Global,
    site: &mut Site,
    out: &mut String,
    tables: &SiteTables,
    fs: FsId,
    text: &str,
) -> Asked {
    if !set_both(alloc, site, out, tables, fs, text)? {
        return Ok(false);
    }
    if out.as_str() == "set" {
        keep_text(alloc, site, fs, text)?;
    }
    Ok(true)
}

/// Puts the lines of a text in the place of those of a file system, in both views.
fn set_both(
    alloc: Global,
    site: &mut Site,
    out: &mut String,
    tables: &SiteTables,
    fs: FsId,
    text: &str,
) -> Asked {
    let (Some(InForce::View(view)), Some(index)) = (&mut site.policy, &mut site.index) else {
        return Ok(false);
    };
    let profile = site.profile;
    if !set_part(alloc, view, out, tables, profile, fs, text)? {
        return Ok(false);
    }
    let mut by_keys = String::new(alloc);
    Ok(
        set_part(alloc, index, &mut by_keys, tables, profile, fs, text)?
            && add_by_keys(out, by_keys.as_str())?,
    )
}

/// Keeps the text as that of the exports file of a file system.
fn keep_text(alloc: Global, site: &mut Site, fs: FsId, text: &str) -> Result<(), AllocError> {
    let Some(in_force) = &site.policy else {
        return Ok(());
    };
    if let Some(mount) = in_force.policy().filesystems().mount(fs) {
        let mount = String::from_str(alloc, mount.text())?;
        let text = ExportsText {
            profile: site.profile,
            body: Text::copy(alloc, text)?,
        };
        site.texts.exports.insert(mount, text)?;
    }
    Ok(())
}

/// Puts the lines of a text in the place of those of a file system of a view: `set`, or the fault.
fn set_part<V: PolicyView>(
    alloc: Global,
    view: &mut V,
    out: &mut String,
    tables: &SiteTables,
    profile: Profile,
    fs: FsId,
    text: &str,
) -> Asked {
    let filesystems = view.policy().filesystems();
    if !is_readable(text) || fs.0 as usize >= filesystems.len() {
        return Ok(false);
    }
    match read_lines(alloc, profile, text, filesystems, tables, fs) {
        Ok(rows) => put_part(alloc, view, out, fs, rows),
        Err(error) => say_fault(out, error),
    }
}

/// Makes lines a part of a view, and sets it: `set`, or the contradiction.
fn put_part<V: PolicyView>(
    alloc: Global,
    view: &mut V,
    out: &mut String,
    fs: FsId,
    rows: Sequence<Row>,
) -> Asked {
    if fs.0 as usize >= view.policy().filesystems().len() || !are_ascending(rows.as_slice()) {
        drop(rows);
        return Ok(false);
    }
    match view.part(alloc, fs, rows) {
        Ok(part) => {
            view.set(fs, part);
            say(out, "set")
        }
        Err(error) => say_fault(out, error),
    }
}

/// How many of many questions are answered in which way.
#[derive(Clone, Copy)]
struct Counts {
    /// By the line of the address.
    own: u32,
    /// By no line.
    none: u32,
    other: u32,
}

/// `large_part LINES ADDRESSES`: sets lines of the first file system in the index, from 1 to this many, line k with its mount
/// point `/a` and the network of the address number 2k with prefix 32. Then asks of each address whose number is below
/// ADDRESSES whether it may mount `/a`, and answers how many may by their own line, line k for the address number 2k, and on
/// the terms of a line without options, how many have no line, and how many get another answer: `set: 2 granted, 3 NoLine, 0 other`.
fn large_part(alloc: Global, site: &mut Site, out: &mut String, text: &str) -> Asked {
    let (Some((lines, addresses)), Some(index)) = (numbers(text), &mut site.index) else {
        return Ok(false);
    };
    let Ok(path) = Path::read(alloc, "/a") else {
        return Ok(false);
    };
    if !set_large(alloc, index, out, lines)? {
        return Ok(false);
    }
    let Counts { own, none, other } = ask_each(index, &path, addresses);
    write!(out, ": {own} granted, {none} NoLine, {other} other")?;
    Ok(true)
}

fn set_large(alloc: Global, index: &mut Index, out: &mut String, lines: u32) -> Asked {
    let text = large_text(alloc, lines)?;
    let tables = SiteTables::new(alloc);
    let profile = Profile::Two;
    let asked = set_part(alloc, index, out, &tables, profile, FsId(0), text.as_str());
    drop(tables);
    asked
}

/// Returns the text of so many lines.
fn large_text(alloc: Global, lines: u32) -> Result<String, AllocError> {
    let mut text = String::new(alloc);
    for before in 0..lines {
        let address = Addr::from_number(before.wrapping_add(1).wrapping_mul(2));
        write!(text, "/a -network {address}/32\n")?;
    }
    Ok(text)
}

/// Asks of each address whose number is below this one whether it may mount a path, and counts the answers.
fn ask_each(index: &Index, path: &Path, addresses: u32) -> Counts {
    let mut counts = Counts {
        own: 0,
        none: 0,
        other: 0,
    };
    for number in 0..addresses {
        count(
            &mut counts,
            number,
            &index.decide(Addr::from_number(number), path),
        );
    }
    counts
}

/// Counts the answer to the address with this number.
fn count(counts: &mut Counts, number: u32, verdict: &Verdict) {
    match verdict {
        Verdict::Granted { fs, line, terms }
            if fs.0 == 0 && line.wrapping_mul(2) == number && are_standard(terms) => {
            counts.own = counts.own.saturating_add(1);
        }
        Verdict::Denied(Denial::NoLine(fs)) if fs.0 == 0 => {
            counts.none = counts.none.saturating_add(1);
        }
        _ => counts.other = counts.other.saturating_add(1),
    }
}

/// Tests whether terms are those of a line without options.
fn are_standard(terms: &Terms) -> bool {
    !terms.ro
        && terms.flavours.as_slice() == [Flavour::Sys].as_slice()
        && terms.map.is_same(&BoxedMapping::unwritten())
}
