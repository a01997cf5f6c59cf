//! Questions on what the policy in force, or the lines of one exports file, change of every directory, against the policy that was
//! set aside (`ranges`). They are asked of both views.

use crate::answers::Asked;
use crate::filesystems::fs_id;
use crate::indexes::add_by_keys;
use crate::listings::say_lines;
use crate::parts::tables_of;
use crate::site::{Before, InForce, Site};
use crate::sites::say_fault;
use desk_exports::Profile;
use desk_impact::{Report, impact_report, lines_report};
use desk_policy::{Policy, PolicyView, Row, SiteTables, are_ascending, read_lines};
use desk_tables::FsId;
use desk_text::{Sequence, is_readable};
use std::alloc::Global;

/// Answers a question on what changes of every directory.
pub fn answer(alloc: Global, site: &Site, out: &mut String, question: &str, text: &str) -> Asked {
    match question {
        "report" if text.is_empty() => report(alloc, site, out, false),
        "report_all" if text.is_empty() => report(alloc, site, out, true),
        "report_lines" => report_lines(alloc, site, out, text, false),
        "report_lines_all" => report_lines(alloc, site, out, text, true),
        _ => Ok(false),
    }
}

/// `report`: how many changes matter to a client, and the printed changes that do, place by place, with `|` for each line
/// feed: `0: 0 changes|`. `report_all`: the same, but all changes are printed.
fn report(alloc: Global, site: &Site, out: &mut String, all: bool) -> Asked {
    let (Some(before), Some(InForce::View(plain)), Some(index)) = (
        &site.before,
        &site.policy,
        &site.index,
    ) else {
        return Ok(false);
    };
    say_report(alloc, &before.plain, plain, out, all)?;
    let mut by_keys = String::new(alloc);
    say_report(alloc, &before.index, index, &mut by_keys, all)?;
    add_by_keys(out, by_keys.as_str())
}

/// Answers with what changes between two views.
fn say_report<V: PolicyView>(
    alloc: Global,
    before: &V,
    after: &V,
    out: &mut String,
    all: bool,
) -> Asked {
    let report = impact_report(alloc, before, after, all)?;
    say(out, &report)
}

fn say(out: &mut String, report: &Report) -> Asked {
    let mattering = report.mattering;
    write!(out, "{mattering}: ")?;
    say_lines(out, report.text.as_str())
}

/// `report_lines FS`: what `report` answers, if only the text of the file system with this number were another one than that of
/// the views that were set aside. Its lines are read by themselves, into a view that has no other lines. `report_lines_all`: the
/// same, but all changes are printed.
fn report_lines(alloc: Global, site: &Site, out: &mut String, text: &str, all: bool) -> Asked {
    let (Some(before), Some(fs)) = (&site.before, fs_id(text)) else {
        return Ok(false);
    };
    if !site.texts.is_readable() {
        return Ok(false);
    }
    match tables_of(alloc, &site.texts) {
        Ok(tables) => {
            let asked = report_with(alloc, site, before, out, &tables, fs, all);
            drop(tables);
            asked
        }
        Err(error) => say_fault(out, error),
    }
}

/// Answers by the lines of a file system, read with these tables, with both views.
fn report_with(
    alloc: Global,
    site: &Site,
    before: &Before,
    out: &mut String,
    tables: &SiteTables,
    fs: FsId,
    all: bool,
) -> Asked {
    let Some(mount) = before.plain.policy().filesystems().mount(fs) else {
        return Ok(false);
    };
    let profile = site.texts.exports_profile(mount.text());
    let text = site.texts.exports_text(mount.text());
    let mut by_keys = String::new(alloc);
    Ok(
        read_report(alloc, &before.plain, out, tables, profile, text, fs, all)?
            && read_report(
                alloc,
                &before.index,
                &mut by_keys,
                tables,
                profile,
                text,
                fs,
                all,
            )?
            && add_by_keys(out, by_keys.as_str())?,
    )
}

/// Answers by the lines of a text, or with its fault.
fn read_report<V: PolicyView + Drop>(
    alloc: Global,
    before: &V,
    out: &mut String,
    tables: &SiteTables,
    profile: Profile,
    text: &str,
    fs: FsId,
    all: bool,
) -> Asked {
    let filesystems = before.policy().filesystems();
    if !is_readable(text) || fs.0 as usize >= filesystems.len() {
        return Ok(false);
    }
    match read_lines(alloc, profile, text, filesystems, tables, fs) {
        Ok(rows) => report_rows(alloc, before, out, fs, rows, all),
        Err(error) => say_fault(out, error),
    }
}

/// Answers by a view of these lines alone, or with their contradiction.
fn report_rows<V: PolicyView + Drop>(
    alloc: Global,
    before: &V,
    out: &mut String,
    fs: FsId,
    rows: Sequence<Row>,
    all: bool,
) -> Asked {
    let filesystems = before.policy().filesystems();
    if fs.0 as usize >= filesystems.len() || !are_ascending(rows.as_slice()) {
        drop(rows);
        return Ok(false);
    }
    let policy = Policy::of_lines(alloc, filesystems.share()?, fs, rows)?;
    match V::build(alloc, policy) {
        Ok(lines) => {
            let report = lines_report(alloc, before, &lines, fs, all)?;
            say(out, &report)
        }
        Err(error) => say_fault(out, error),
    }
}
