//! Which lines write which names.

ghost use Rattle.std.specs.Prelude.{◌≡◌, ◌≤◌, ◌++◌, IfOk, OnOk, filter, length, map};
ghost use Rattle.std.specs.Cmp.Lexicographic.{slice_cmp};
ghost use Rattle.std.specs.List.{dedup, flat_map};
ghost use Rattle.std.specs.List.Sorted.{IsPermutation};
ghost use Rattle.std.specs.Ordering.{is_lt, nat_cmp};
ghost use Rattle.std.specs.Str.{bytes_eq};
ghost use Rattle.desk_policy.specs.Row.{names_of};
ghost use Rattle.page_lists.specs.NameIndex as spec;
ghost use Rattle.page_lists.specs.NameIndex.{AreByName, KeepsNames, is_of_name, written_value};

use desk_exports::{Clients, Names};
use desk_policy::{Policy, Row};
use desk_tables::FsId;
use std::alloc::{AllocError, Global};
use std::cmp::Ordering;

/// A name, and a line that writes it.
#[derive(Clone, Copy)]
pub struct WrittenName<'a> {
    pub name: &'a str,
    pub fs: FsId,
    pub line: u32,
}

/// Lists the names that lines of a policy write, each with the line, in byte order; those of one name in the order of the lines.
pub fn index_of_names<'a>(
    alloc: Global,
    policy: &'a Policy,
) -> Result<Vec<WrittenName<'a>>, AllocError>
    requires few { length policy.now.table ≤ 256 }
    ensures { IfOk result (λ index. spec.IsIndexOf policy.now index.items) }
{
    let mut index = written_names(alloc, policy)?;
    sort_by_name(&mut index)?;
    Ok(index)
}

/// Lists the names that lines write, in the order of file systems and lines.
fn written_names<'a>(alloc: Global, policy: &'a Policy) -> Result<Vec<WrittenName<'a>>, AllocError>
    requires few { length policy.now.table ≤ 256 }
    ensures { IfOk result (λ written. map written_value written.items ≡ spec.written_names policy.now) }
{
    let mut written = Vec::new(alloc);
    for place in 0..policy.filesystems().len() {
        let fs = FsId(place as u32);
        push_rows(fs, policy.rows(fs), &mut written)?;
    }
    Ok(written)
}

/// Adds the names that lines of a file system write.
fn push_rows<'a>(
    fs: FsId,
    rows: &'a [Row],
    written: &mut Vec<WrittenName<'a>>,
) -> Result<(), AllocError>
    ensures { OnOk result (map written_value written.new.items ≡ map written_value written.old.items ++ flat_map (spec.row_names fs.0) rows.now) }
{
    for row in rows {
        push_clients(fs, row.entry.line, &row.entry.clients, written)?;
    }
    Ok(())
}

/// Adds the names that the clients of a line write.
fn push_clients<'a>(
    fs: FsId,
    line: u32,
    clients: &'a Clients,
    written: &mut Vec<WrittenName<'a>>,
) -> Result<(), AllocError>
    ensures { OnOk result (map written_value written.new.items
        ≡ map written_value written.old.items ++ map (spec.on_line fs.0 line) (names_of clients.now)) }
{
    match clients {
        Clients::Hosts(names) => push_names(fs, line, names, written),
        Clients::Net(_, _) | Clients::Net6(_) | Clients::World => Ok(()),
    }
}

/// Adds names that a line writes.
fn push_names<'a>(
    fs: FsId,
    line: u32,
    names: &'a Names,
    written: &mut Vec<WrittenName<'a>>,
) -> Result<(), AllocError>
    ensures { OnOk result (map written_value written.new.items ≡ map written_value written.old.items ++ map (spec.on_line fs.0 line) names.now) }
{
    for index in 0..names.len() {
        let name = names.get(index);
        written.push(WrittenName { name, fs, line })?;
    }
    Ok(())
}

/// Compares two by their names.
fn by_name(one: &WrittenName<'_>, other: &WrittenName<'_>) -> Ordering
    ensures { result ≡ slice_cmp nat_cmp one.now.name.now other.now.name.now }
{
    one.name.cmp(other.name)
}

/// Sorts by name. Those of one name stay in their order.
fn sort_by_name(written: &mut Vec<WrittenName<'_>>) -> Result<(), AllocError>
    ensures order { OnOk result (AreByName written.new.items) }
    ensures kept { KeepsNames written.old.items written.new.items }
    ensures just { IsPermutation written.old.items written.new.items }
{
    written.sort_by(|one, other| by_name(one, other))
}

/// Tests whether this is the name.
fn has_name(one: &WrittenName<'_>, name: &str) -> bool
    ensures { result ≡ bytes_eq name.now one.now.name.now }
{
    name == one.name
}

/// Tests whether the name of one comes before a name.
fn is_before(one: &WrittenName<'_>, name: &str) -> bool
    ensures { result ≡ is_lt (slice_cmp nat_cmp one.now.name.now name.now) }
{
    one.name.cmp(name).is_lt()
}

/// Lists the lines that write a name, in order, each once.
pub(crate) fn lines_with<'a>(
    alloc: Global,
    index: &[WrittenName<'a>],
    name: &str,
) -> Result<Vec<WrittenName<'a>>, AllocError>
    requires { AreByName index.now }
    ensures { IfOk result (λ lines. map written_value lines.items
        ≡ dedup spec.same_line (filter (is_of_name name.now) (map written_value index.now))) }
{
    let mut lines = all_with(alloc, index, name)?;
    lines.dedup_by(|one, last| one.fs.0 == last.fs.0 && one.line == last.line);
    Ok(lines)
}

/// Lists those of the index that have a name, from the first of them on.
fn all_with<'a>(
    alloc: Global,
    index: &[WrittenName<'a>],
    name: &str,
) -> Result<Vec<WrittenName<'a>>, AllocError>
    requires { AreByName index.now }
    ensures { IfOk result (λ lines. lines.items ≡ spec.lent_with name.now index.now) }
{
    let mut lines = Vec::new(alloc);
    let first = index.partition_point(|one| is_before(one, name));
    for place in first..index.len() {
        let one = index[place];
        if !has_name(&one, name) {
            return Ok(lines);
        }
        lines.push(one)?;
    }
    Ok(lines)
}
