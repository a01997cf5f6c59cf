//! Questions on every fault of a text, and on every contradiction of the policy. The faults are told as they stand in the
//! text, with `; ` between them: `2:4-7 [-foo] 5 UnknownOption` is the line, the columns of the first and of the last
//! character of the slice at fault, the slice, and the number and the name of the rule. For a name that is defined twice the
//! earlier line stands behind it: `line 1`. In place of line, columns and slice a fault of a table as a whole has `whole`.

ghost use Rattle.desk_text.specs.Lines.{IsReadable};

use crate::answers::{Asked, end_list, split};
use crate::exports::tables;
use crate::filesystems::fs_id;
use crate::site::Site;
use desk_exports::{Scope, find_faults};
use desk_netgroup::Netgroups;
use desk_policy::{Contradiction, contradictions};
use desk_tables::{Custodians, FileSystems, FsId, Groups, Hosts, Networks, Users};
use desk_text::{Place, is_readable};
use std::alloc::{AllocError, Global};

/// A fault as it is told.
#[derive(Clone, Copy)]
struct Told {
    place: Option<Place>,
    number: u32,
    name: &'static str,
    other: Option<u32>,
}

/// What can be told as a fault.
trait Fault {
    fn told(&self) -> Told;
}

impl Fault for desk_tables::PlacedFault {
    fn told(&self) -> Told {
        Told {
            place: self.place,
            number: self.fault.rule.number(),
            name: self.fault.rule.name(),
            other: None,
        }
    }
}

impl Fault for desk_netgroup::PlacedFault {
    fn told(&self) -> Told {
        Told {
            place: Some(self.place),
            number: self.fault.rule.number(),
            name: self.fault.rule.name(),
            other: self.fault.other,
        }
    }
}

impl Fault for desk_exports::PlacedFault {
    fn told(&self) -> Told {
        Told {
            place: Some(self.place),
            number: self.fault.rule.number(),
            name: self.fault.rule.name(),
            other: None,
        }
    }
}

/// Answers a question on faults or contradictions. `hosts_faults TEXT`, `networks_faults TEXT`, `users_faults TEXT`,
/// `groups_faults TEXT`, `filesystems_faults TEXT`, `custodians_faults TEXT` and `netgroups_faults TEXT`: those of a table.
pub fn answer(alloc: Global, site: &Site, out: &mut String, question: &str, text: &str) -> Asked
    requires { IsReadable text.now }
{
    match question {
        "hosts_faults" => tell(out, text, Hosts::faults(alloc, text)?.as_slice()),
        "networks_faults" => tell(out, text, Networks::faults(alloc, text)?.as_slice()),
        "users_faults" => tell(out, text, Users::faults(alloc, text)?.as_slice()),
        "groups_faults" => tell(out, text, Groups::faults(alloc, text)?.as_slice()),
        "filesystems_faults" => tell(out, text, FileSystems::faults(alloc, text)?.as_slice()),
        "custodians_faults" => tell(out, text, Custodians::faults(alloc, text)?.as_slice()),
        "netgroups_faults" => tell(out, text, Netgroups::faults(alloc, text)?.as_slice()),
        "exports_faults" => of_exports(alloc, site, out, Scope::Whole, text),
        "exports_faults_in" => of_file(alloc, site, out, text),
        "contradictions" => of_policy(alloc, site, out, text),
        _ => Ok(false),
    }
}

fn tell<T: Fault>(out: &mut String, text: &str, faults: &[T]) -> Asked {
    for fault in faults {
        add_fault(out, text, fault.told())?;
    }
    let _ = out.pop();
    end_list(out)
}

fn add_fault(out: &mut String, text: &str, fault: Told) -> Result<(), AllocError> {
    match fault.place {
        Some(place) => add_place(out, line_of(text, place.line), place)?,
        None => out.push_str("whole")?,
    }
    let (number, name) = (fault.number, fault.name);
    write!(out, " {number} {name}")?;
    if let Some(other) = fault.other {
        write!(out, " line {other}")?;
    }
    out.push_str("; ")
}

/// Returns the physical line with this number.
fn line_of(text: &str, number: u32) -> &str {
    let lines_before = (number as usize).saturating_sub(1);
    text.split('\n').nth(lines_before).unwrap_or("")
}

fn add_place(out: &mut String, line: &str, place: Place) -> Result<(), AllocError> {
    if place.start <= place.end
        && line.is_char_boundary(place.start)
        && line.is_char_boundary(place.end)
    {
        let slice = &line[place.start..place.end];
        let (number, first) = (place.line, place.column(line));
        let behind = first.saturating_add(slice.chars().count());
        let last = behind.saturating_sub(1);
        write!(out, "{number}:{first}-{last} [{slice}]")
    } else {
        out.push_str("elsewhere")
    }
}

/// `exports_faults TEXT`: those of a text for all file systems. It is read with the tables that the file read last.
fn of_exports(alloc: Global, site: &Site, out: &mut String, scope: Scope, text: &str) -> Asked
    requires { IsReadable text.now }
{
    match &site.filesystems {
        Some(known) => tell(
            out,
            text,
            find_faults(alloc, text, &tables(site, known), scope)?.as_slice(),
        ),
        None => Ok(false),
    }
}

/// `exports_faults_in NUMBER TEXT`: those of the exports file of the file system with this number.
fn of_file(alloc: Global, site: &Site, out: &mut String, text: &str) -> Asked {
    let (number, text) = split(text);
    match fs_id(number) {
        Some(fs) if is_readable(text) => of_exports(alloc, site, out, Scope::File(fs), text),
        _ => Ok(false),
    }
}

/// `contradictions NUMBER`: those of the lines of the file system with this number, each its line, the earlier line and the
/// address, with `; ` between them.
fn of_policy(alloc: Global, site: &Site, out: &mut String, text: &str) -> Asked {
    let (Some(in_force), Some(FsId(fs))) = (&site.policy, fs_id(text)) else {
        return Ok(false);
    };
    match in_force.policy().rows_by_filesystem().get(fs as usize) {
        Some(rows) => say_contradictions(out, contradictions(alloc, rows.as_slice())?.as_slice()),
        None => Ok(false),
    }
}

fn say_contradictions(out: &mut String, found: &[Contradiction]) -> Asked {
    for one in found {
        let (line, other, address) = (one.line, one.other, one.address);
        write!(out, "{line} {other} {address}; ")?;
    }
    let _ = out.pop();
    end_list(out)
}
