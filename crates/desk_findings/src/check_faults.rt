//! The findings of the faults of texts: each faulty line with the first rule that it breaks, at its place.

ghost use Rattle.std.specs.Prelude.{◌≡◌, ◌-◌, ◌++◌, ◌<◌, ◌^◌, [], IfOk, None, OnOk, map, slice_index_or, take};
ghost use Rattle.std.specs.Option.{option_copied};
ghost use Rattle.std.specs.Str.Lines.{lines};
ghost use Rattle.desk_text.specs.Lines.{IsReadable};
ghost use Rattle.desk_findings.specs.CheckFaults.{Adds, AreReadable, TellGroup, TellHosts, TellNetgroup, TellNetworks, TellPasswd, TellTables, tell_group, tell_line, tell_table};
ghost use Rattle.desk_findings.specs.Finding.{character_count};
ghost use Rattle.desk_findings.specs.Told.{IsFront, beside_in, other_line, shown_line, shows_other, tell_in, told};

use crate::finding::{Finding, Matter};
use desk_exports as exports;
use desk_netgroup as netgroup;
use desk_netgroup::Netgroups;
use desk_origins::Origin;
use desk_policy::{PerTable, SiteRule};
use desk_remarks::{OtherLine, Remark};
use desk_tables as tables;
use desk_tables::{Groups, Hosts, Networks, Users};
use desk_text::{Path, Place, Sequence};
use std::alloc::{AllocError, Global};

/// A text beside the path that it is told by.
#[derive(Clone, Copy)]
pub struct Source<'a> {
    pub path: &'a str,
    pub text: &'a str,
    /// If several texts were read as one: where the lines of each begin.
    pub origins: &'a [Origin],
}

/// The front of a physical line of a text, in bytes, whose characters are counted. It keeps the work linear when a long line
/// has many findings.
#[derive(Clone, Copy)]
pub struct Front {
    pub line: u32,
    pub bytes: usize,
    pub characters: usize,
}

/// Adds the faults of each table, in the order in which they are read.
pub fn push_tables<'a>(
    alloc: Global,
    sources: PerTable<Source<'a>>,
    found: &mut Sequence<Finding<'a>>,
) -> Result<(), AllocError>
    requires { AreReadable sources }
    ensures { OnOk result (Adds (TellTables sources.entry) found.old found.new) }
{
    push_hosts(alloc, sources.hosts, found)?;
    push_networks(alloc, sources.networks, found)?;
    push_passwd(alloc, sources.passwd, found)?;
    push_group(alloc, sources.group, found)?;
    push_netgroup(alloc, sources.netgroup, found)?;
    Ok(())
}

/// Adds the faults of a hosts file.
fn push_hosts<'a>(
    alloc: Global,
    source: Source<'a>,
    found: &mut Sequence<Finding<'a>>,
) -> Result<(), AllocError>
    requires { IsReadable source.text.now }
    ensures { OnOk result (Adds (TellHosts source.entry) found.old found.new) }
{
    let faults = Hosts::faults(alloc, source.text)?;
    push_table_faults(alloc, source, faults.as_slice(), found)
}

/// Adds the faults of a networks file.
fn push_networks<'a>(
    alloc: Global,
    source: Source<'a>,
    found: &mut Sequence<Finding<'a>>,
) -> Result<(), AllocError>
    requires { IsReadable source.text.now }
    ensures { OnOk result (Adds (TellNetworks source.entry) found.old found.new) }
{
    let faults = Networks::faults(alloc, source.text)?;
    push_table_faults(alloc, source, faults.as_slice(), found)
}

/// Adds the faults of a passwd file.
fn push_passwd<'a>(
    alloc: Global,
    source: Source<'a>,
    found: &mut Sequence<Finding<'a>>,
) -> Result<(), AllocError>
    requires { IsReadable source.text.now }
    ensures { OnOk result (Adds (TellPasswd source.entry) found.old found.new) }
{
    let faults = Users::faults(alloc, source.text)?;
    push_table_faults(alloc, source, faults.as_slice(), found)
}

/// Adds the faults of a group file.
fn push_group<'a>(
    alloc: Global,
    source: Source<'a>,
    found: &mut Sequence<Finding<'a>>,
) -> Result<(), AllocError>
    requires { IsReadable source.text.now }
    ensures { OnOk result (Adds (TellGroup source.entry) found.old found.new) }
{
    let faults = Groups::faults(alloc, source.text)?;
    push_table_faults(alloc, source, faults.as_slice(), found)
}

/// Adds the faults of a netgroup file.
fn push_netgroup<'a>(
    alloc: Global,
    source: Source<'a>,
    found: &mut Sequence<Finding<'a>>,
) -> Result<(), AllocError>
    requires { IsReadable source.text.now }
    ensures { OnOk result (Adds (TellNetgroup source.entry) found.old found.new) }
{
    let faults = Netgroups::faults(alloc, source.text)?;
    push_group_faults(alloc, source, faults.as_slice(), found)
}

/// Adds the findings of these faults of a table.
pub fn push_table_faults<'a>(
    alloc: Global,
    source: Source<'a>,
    faults: &[tables::PlacedFault],
    found: &mut Sequence<Finding<'a>>,
) -> Result<(), AllocError>
    ensures { OnOk result (map told found.new ≡ map told found.old ++ map (tell_table source.entry) faults.now) }
{
    let lines = lines_of(alloc, source.text)?;
    for one in faults {
        let matter = Matter::Fault(SiteRule::Table(one.fault.rule), None);
        found.push(finding_in(source, lines.as_slice(), one.place, matter))?;
    }
    Ok(())
}

/// Adds the findings of these faults of a netgroup file.
fn push_group_faults<'a>(
    alloc: Global,
    source: Source<'a>,
    faults: &[netgroup::PlacedFault],
    found: &mut Sequence<Finding<'a>>,
) -> Result<(), AllocError>
    ensures { OnOk result (map told found.new ≡ map told found.old ++ map (tell_group source.entry) faults.now) }
{
    let lines = lines_of(alloc, source.text)?;
    for one in faults {
        let matter = Matter::Fault(SiteRule::Group(one.fault.rule), one.fault.other);
        found.push(finding_in(source, lines.as_slice(), Some(one.place), matter))?;
    }
    Ok(())
}

/// Adds the findings of these faults of an exports text.
pub fn push_line_faults<'a>(
    alloc: Global,
    source: Source<'a>,
    faults: &[exports::PlacedFault],
    found: &mut Sequence<Finding<'a>>,
) -> Result<(), AllocError>
    ensures { OnOk result (map told found.new ≡ map told found.old ++ map (tell_line source.entry) faults.now) }
{
    let lines = lines_of(alloc, source.text)?;
    for one in faults {
        let matter = Matter::Fault(SiteRule::Line(one.fault.rule), None);
        found.push(finding_in(source, lines.as_slice(), Some(one.place), matter))?;
    }
    Ok(())
}

/// Cuts a text into its physical lines.
pub fn lines_of(alloc: Global, text: &str) -> Result<Vec<&str>, AllocError>
    ensures { IfOk result (λ found. map (λ line. line.now) found.items ≡ lines text.now) }
{
    let mut found = Vec::new(alloc);
    for line in text.lines() {
        found.push(line)?;
    }
    Ok(found)
}

/// Makes the finding of a matter at a place of a text of these lines. It is about no directory.
pub fn finding_in<'a>(
    source: Source<'a>,
    lines: &[&'a str],
    place: Option<Place>,
    matter: Matter,
) -> Finding<'a>
    ensures { told result ≡ tell_in source.entry (map (λ line. line.now) lines.now) place matter None }
{
    let mut front = Front {
        line: 0,
        bytes: 0,
        characters: 0,
    };
    finding_behind(source, lines, place, matter, None, &mut front)
}

/// Makes the finding of a matter, about this directory or none, and counts its column from the front that is counted already on, if
/// that is of its line.
pub fn finding_behind<'a>(
    text: Source<'a>,
    lines: &[&'a str],
    place: Option<Place>,
    matter: Matter,
    directory: Option<Path>,
    front: &mut Front,
) -> Finding<'a>
    requires { IsFront (map (λ line. line.now) lines.now) front.now }
    ensures finding { told result ≡ tell_in text.entry (map (λ line. line.now) lines.now) place matter directory }
    ensures front { IsFront (map (λ line. line.now) lines.now) front.new }
{
    let source = line_at(lines, shown_line(place));
    let column = match place {
        Some(place) => {
            let characters = characters_before(source, place, *front);
            *front = Front {
                line: place.line,
                bytes: place.start,
                characters,
            };
            1 + characters
        }
        None => 1,
    };
    Finding {
        path: text.path,
        origins: text.origins,
        source,
        place,
        column,
        matter,
        beside: line_beside(lines, matter),
        directory,
    }
}

/// Lends the line that is shown beside that of a matter, if one is.
fn line_beside<'a>(lines: &[&'a str], matter: Matter) -> Option<&'a str>
    ensures { option_copied result ≡ beside_in (map (λ line. line.now) lines.now) matter }
{
    match other_line(matter) {
        Some(number) => Some(line_at(lines, number)),
        None => None,
    }
}

/// Returns the number of the line that is shown beside that of a matter, if one is.
fn other_line(matter: Matter) -> Option<u32>
    ensures { result ≡ other_line matter }
{
    match matter {
        Matter::Remark(remark, Some(shown)) if shows_other(remark) => Some(shown.line),
        Matter::Fault(_, _)
        | Matter::Contradiction(_, _)
        | Matter::Warning(_)
        | Matter::Remark(_, _) => None,
    }
}

/// Tests whether the other line of a remark is shown beside its own: mountd(8) grants by it, or takes it alone.
fn shows_other(remark: Remark) -> bool
    ensures { result ≡ shows_other remark }
{
    match remark.other() {
        OtherLine::Grants | OtherLine::Taken => true,
        OtherLine::First => false,
    }
}

/// Counts the characters of a line before a slice, from a front of it that is counted already on.
fn characters_before(source: &str, place: Place, front: Front) -> usize
    requires { front.line ≡ place.line → front.characters ≡ character_count (take front.bytes source.now) }
    ensures count { result ≡ character_count (take place.start source.now) }
    ensures fits { result < 2 ^ 63 }
{
    let bytes = source.as_bytes();
    if front.line == place.line
        && let Some(more) = bytes.get(front.bytes..place.start)
    {
        return front.characters + count_characters(more);
    }
    match bytes.get(..place.start) {
        Some(before) => count_characters(before),
        None => count_characters(bytes),
    }
}

/// Counts the characters that bytes of a text begin.
fn count_characters(bytes: &[u8]) -> usize
    ensures { result ≡ character_count bytes.now }
{
    bytes
        .iter()
        .filter(|byte| **byte < 0x80 || **byte >= 0xC0)
        .count()
}

/// Lends the line of this number, from 1; the empty one if there is none.
pub fn line_at<'a>(lines: &[&'a str], number: u32) -> &'a str
    ensures { result.now ≡ slice_index_or (map (λ line. line.now) lines.now) (number - 1) [] }
{
    match lines.get(number.saturating_sub(1) as usize) {
        Some(line) => line,
        None => "",
    }
}

/// Returns the number of the physical line that a finding shows.
fn shown_line(place: Option<Place>) -> u32
    ensures { result ≡ shown_line place }
{
    match place {
        Some(place) => place.line,
        None => 1,
    }
}
