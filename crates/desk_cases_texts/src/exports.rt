//! Questions on the lines of exports files. They are read with the tables that the file read last, and need a table of
//! file systems.

ghost use Rattle.desk_text.specs.Lines.{IsReadable};

use crate::answers::{Asked, end_list, say, split};
use crate::entries::add_entry;
use crate::filesystems::fs_id;
use crate::site::Site;
use desk_exports::{Boxed, Entry, Rule, Tables, fault_text, read_file, read_whole};
use desk_tables::{FileSystems, FsId};
use desk_text::{LineFault, ReadError, is_readable};
use std::alloc::{AllocError, Global};

/// Answers a question on the lines of a text.
pub fn answer(alloc: Global, site: &Site, out: &mut String, question: &str, text: &str) -> Asked
    requires { IsReadable text.now }
{
    let Some(filesystems) = &site.filesystems else {
        return Ok(false);
    };
    let tables = tables(site, filesystems);
    match question {
        "entries" => entries(alloc, &tables, out, text),
        "rule" => rule(alloc, &tables, out, text),
        "entries_in" => entries_in(alloc, &tables, out, text),
        _ => Ok(false),
    }
}

/// Returns the profile and the tables of a site, with these file systems.
pub fn tables<'a>(site: &'a Site, filesystems: &'a FileSystems) -> Tables<'a> {
    Tables {
        profile: site.profile,
        networks: &site.networks,
        users: &site.users,
        groups: &site.groups,
        filesystems,
    }
}

/// `entries TEXT`: each entry of a text for all file systems, on a line: the number of its file system, the number of its
/// line, its directories, `alldirs`, its terms, and whom it is for. Or `none`, or the fault.
fn entries(alloc: Global, tables: &Tables, out: &mut String, text: &str) -> Asked
    requires { IsReadable text.now }
{
    match read_whole(alloc, text, tables) {
        Ok(entries) => say_whole(out, entries.as_slice()),
        Err(error) => say_fault(alloc, out, error),
    }
}

fn say_whole(out: &mut String, entries: &[(FsId, Boxed<Entry>)]) -> Asked {
    for (fs, entry) in entries {
        let fs = fs.0;
        write!(out, "{fs} ")?;
        add_entry(out, entry)?;
    }
    end_list(out)
}

fn say_entries(out: &mut String, entries: &[Boxed<Entry>]) -> Asked {
    for entry in entries {
        add_entry(out, entry)?;
    }
    end_list(out)
}

/// Answers with a text's fault: `fault line 2 rule 4 DirectoryElsewhere`.
pub fn say_fault(alloc: Global, out: &mut String, error: ReadError<LineFault<Rule>>) -> Asked {
    match error {
        ReadError::Memory => Err(AllocError),
        ReadError::Fault(fault) => say(out, fault_text(alloc, fault)?.as_str()),
    }
}

/// `rule TEXT`: the number and the name of the rule that the first line breaks, or `none`.
fn rule(alloc: Global, tables: &Tables, out: &mut String, text: &str) -> Asked
    requires { IsReadable text.now }
{
    match read_whole(alloc, text, tables) {
        Ok(entries) => {
            drop(entries);
            Ok(true)
        }
        Err(error) => say_rule(alloc, out, error),
    }
}

fn say_rule(alloc: Global, out: &mut String, error: ReadError<LineFault<Rule>>) -> Asked {
    match error {
        ReadError::Fault(fault) if fault.line == 1 => {
            let (number, name) = (fault.rule.number(), fault.rule.name());
            write!(out, "{number} {name}")?;
            Ok(true)
        }
        _ => say_fault(alloc, out, error),
    }
}

/// `entries_in NUMBER TEXT`: the same as `entries` of the exports file of the file system with this number, of which the
/// entries are without that number.
fn entries_in(alloc: Global, tables: &Tables, out: &mut String, text: &str) -> Asked
    requires { IsReadable text.now }
{
    let (number, lines) = split(text);
    let Some(own_fs) = fs_id(number) else {
        return Ok(false);
    };
    if !is_readable(lines) {
        return Ok(false);
    }
    entries_of_file(alloc, tables, out, own_fs, lines)
}

fn entries_of_file(
    alloc: Global,
    tables: &Tables,
    out: &mut String,
    own_fs: FsId,
    text: &str,
) -> Asked
    requires { IsReadable text.now }
{
    match read_file(alloc, text, tables, own_fs) {
        Ok(entries) => say_entries(out, entries.as_slice()),
        Err(error) => say_fault(alloc, out, error),
    }
}
