//! Questions on the lines of a file system.

ghost use Rattle.std.specs.Prelude.{map};
ghost use Rattle.page_findings.specs.Deciding.{AreInLineOrder, AreSectionsOf, deciding_value};
ghost use Rattle.desk_impact.specs.Sections.{section_value};
ghost use Rattle.page_data.specs.Laws.{IsSound};
ghost use Rattle.page_data.specs.Lines.{AreLineReasons};

use crate::classes::add_bar;
use desk_cases_texts::answers::Asked;
use desk_policy::Policy;
use desk_tables::FsId;
use desk_text::Path;
use page_data::{FileSystemReport, Level, LineGrants, LineReasons, Reason};
use page_findings::{Deciding, deciding_lines};
use std::alloc::{AllocError, Global};

/// `grants FS`: each line of the file system, with the number of addresses to which it grants something: `line 2 65536|line 3 0`.
pub fn grants(out: &mut String, grants: &[LineGrants]) -> Asked {
    for (place, grants) in grants.iter().enumerate() {
        add_bar(out, place)?;
        let (line, count) = (grants.line, grants.count);
        write!(out, "line {line} {count}")?;
    }
    Ok(true)
}

/// `deciding FS`: each line of the file system that matches somebody and never decides, with the lines that decide for its clients, and
/// `|` between lines: `line 3: 1 2|line 5: 4`.
pub fn deciding(
    alloc: Global,
    policy: &Policy,
    fs: FsId,
    system: &FileSystemReport<'_>,
    reasons: &[LineReasons<'_>],
    out: &mut String,
) -> Asked
    requires sound { IsSound policy.now fs.0 }
    requires sections { AreSectionsOf policy.now fs.0 (map section_value system.now.sections) }
    requires reasons { AreLineReasons policy.now fs.0 reasons.now }
{
    let sections = system.sections.as_slice();
    let found = deciding_lines(alloc, policy, fs, sections, reasons)?;
    say_deciding(out, &found)
}

/// Answers with the lines that never decide, and those that do.
fn say_deciding(out: &mut String, found: &Deciding) -> Asked
    requires { AreInLineOrder (deciding_value found.now) }
{
    for (place, one) in found.lines.as_slice().iter().enumerate() {
        add_bar(out, place)?;
        let line = one.line;
        write!(out, "line {line}:")?;
        add_lines(out, found.of_line(line))?;
    }
    Ok(true)
}

/// Adds the numbers of lines.
fn add_lines(out: &mut String, lines: &[u32]) -> Result<(), AllocError> {
    for line in lines {
        write!(out, " {line}")?;
    }
    Ok(())
}

/// `stands_out FS`: each line of the file system, with the reasons for which it stands out, each with its level, or `nothing`, and `|`
/// between lines: `line 2 look first for everybody read-write, look first root kept for networks|line 3 nothing`. Where mountd(8) grants
/// more, `to 10.0.0.5 by line 2 /a/b`, without a directory if that line has -alldirs; and where it may leave the line out, `has 10.0.0.5
/// of line 1`.
pub fn stands_out(out: &mut String, found: &[LineReasons<'_>]) -> Asked {
    for (place, one) in found.iter().enumerate() {
        add_bar(out, place)?;
        let line = one.line;
        write!(out, "line {line} ")?;
        add_reasons(out, one.reasons.as_slice())?;
    }
    Ok(true)
}

/// Adds why a line stands out.
fn add_reasons(out: &mut String, reasons: &[Reason<'_>]) -> Result<(), AllocError> {
    if reasons.is_empty() {
        out.push_str("nothing")?;
    }
    for (place, reason) in reasons.iter().enumerate() {
        out.push_str(if place > 0 { ", " } else { "" })?;
        out.push_str(level_name(reason.level()))?;
        out.push_str(reason_name(*reason))?;
        add_server(out, *reason)?;
    }
    Ok(())
}

/// Returns how a level is written before a reason.
fn level_name(level: Level) -> &'static str {
    match level {
        Level::LookFirst => "look first ",
        Level::Check => "check ",
    }
}

/// Adds what a reason tells of mountd(8).
fn add_server(out: &mut String, reason: Reason<'_>) -> Result<(), AllocError> {
    match reason {
        Reason::ServerGrantsMore(found) => {
            let (address, line) = (found.address, found.other);
            write!(out, " to {address} by line {line}")?;
            add_directory(out, found.directory)
        }
        Reason::RepeatedClient(found) => {
            let (address, line) = (found.address, found.other);
            write!(out, " {address} of line {line}")
        }
        _ => Ok(()),
    }
}

/// Adds a directory, if there is one.
fn add_directory(out: &mut String, directory: Option<&Path>) -> Result<(), AllocError> {
    match directory {
        Some(directory) => {
            out.push(' ')?;
            out.push_str(directory.text())
        }
        None => Ok(()),
    }
}

/// Returns how a reason is written.
fn reason_name(reason: Reason<'_>) -> &'static str {
    match reason {
        Reason::NoClient => "no client",
        Reason::NeverDecides => "never decides",
        Reason::ForEverybodyReadOnly => "for everybody read-only",
        Reason::ForEverybodyReadWrite => "for everybody read-write",
        Reason::Wide => "wide",
        Reason::RootKeptForNetworks => "root kept for networks",
        Reason::RootKeptForNames => "root kept for names",
        Reason::ServerGrantsMore(_) => "server grants more",
        Reason::RepeatedClient(_) => "has",
    }
}
