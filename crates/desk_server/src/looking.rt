//! What there is to see at an address: by which line the server grants more there, and what.

ghost use Rattle.std.specs.Prelude.{◌≡◌, false, All, Contains, IfOk, List, find, slice_get};
ghost use Rattle.std.specs.List.{list_any};
ghost use Rattle.std.specs.Option.{option_copied};
ghost use Rattle.desk_text.specs.Address.{number_of};
ghost use Rattle.desk_policy.specs.Policy.{AreAscending, rows_of};
ghost use Rattle.desk_policy.specs.Weights.{selected};
ghost use Rattle.desk_policy.specs.declared.row.Row.{Row};
ghost use Rattle.desk_index.specs.Keys.{numbers};
ghost use Rattle.desk_index.specs.Lighter.{IsHeaviestBelow};
ghost use Rattle.desk_idle.specs.Laws.{brings};
ghost use Rattle.desk_idle.specs.Listed.{IsListedBy};
ghost use Rattle.desk_server.specs.PrivateWiderGrants.{AreNext, IsLook, IsWidest};

use crate::wider_grant::WiderGrant;
use desk_idle::Listed;
use desk_index::{Index, Probes, Weighed, row_numbered};
use desk_policy::{PolicyView, Row};
use desk_tables::FsId;
use desk_text::Addr;
use std::alloc::{AllocError, Global};

/// Finds the first line of a file system that is selected for an address.
pub(crate) fn first_row(index: &Index, fs: FsId, address: Addr) -> Option<&Row>
    requires { AreAscending (rows_of index.now fs.0) }
    ensures { option_copied result ≡ slice_get (selected (rows_of index.now fs.0) (number_of address)) 0 }
{
    match index.selected(fs, address) {
        Some(found) => first_numbered(index.policy().rows(fs), found.lines()),
        None => None,
    }
}

/// Finds the line of the first of these numbers.
fn first_numbered<'a>(rows: &'a [Row], lines: &[u32]) -> Option<&'a Row>
    requires { AreAscending rows.now }
    ensures { (chosen : List Row) → lines.now ≡ numbers chosen → All (Contains rows.now) chosen → option_copied result ≡ slice_get chosen 0 }
{
    match lines.first() {
        Some(line) => row_numbered(rows, *line),
        None => None,
    }
}

/// Looks at an address, at which the lines of this group are selected, this one first.
pub(crate) fn look_at<'a>(
    alloc: Global,
    index: &'a Index,
    fs: FsId,
    address: Addr,
    group: Weighed<'a>,
    line: u32,
) -> Result<Option<WiderGrant<'a>>, AllocError>
    requires ascending { AreAscending (rows_of index.now fs.0) }
    requires group { IsHeaviestBelow (rows_of index.now fs.0) (number_of address) 35 group }
    ensures { IfOk result (IsLook (rows_of index.now fs.0) line (number_of address)) }
{
    let _probes = Probes::new(index);
    // What widens the selected lines is lighter, and names the client.
    let Some(lighter) = index.heaviest_below(fs, address, group.weight) else {
        return Ok(None);
    };
    if lighter.weight == 0 {
        return Ok(None);
    }
    let rows = index.policy().rows(fs);
    if have_alldirs(rows, group.lines) {
        return Ok(None);
    }
    let listed = listed_by(alloc, rows, group.lines)?;
    match widest(index, fs, address, lighter, &listed) {
        Some(row) => Ok(Some(WiderGrant {
            line,
            address,
            other: row.entry.line,
            directory: listed.first_new(row),
        })),
        None => Ok(None),
    }
}

/// Tests whether one of the lines of these numbers has -alldirs.
fn have_alldirs(rows: &[Row], lines: &[u32]) -> bool
    requires { AreAscending rows.now }
    ensures { (chosen : List Row) → lines.now ≡ numbers chosen → All (Contains rows.now) chosen → result ≡ list_any (λ row. row.entry.alldirs) chosen }
{
    for line in lines {
        if let Some(row) = row_numbered(rows, *line) {
            if row.entry.alldirs {
                return true;
            }
        }
    }
    false
}

/// Gathers what the lines of these numbers list.
fn listed_by<'a>(alloc: Global, rows: &'a [Row], lines: &[u32]) -> Result<Listed<'a>, AllocError>
    requires { AreAscending rows.now }
    ensures { IfOk result (λ listed.
        (chosen : List Row) → lines.now ≡ numbers chosen → All (Contains rows.now) chosen → IsListedBy listed chosen) }
{
    let mut listed = Listed::new(alloc);
    for line in lines {
        if let Some(row) = row_numbered(rows, *line) {
            listed.add(row)?;
        }
    }
    Ok(listed)
}

/// Finds the first of the heaviest lines that name the client and list what the selected ones do not: of this group of lines, or of
/// lighter ones.
fn widest<'a>(
    index: &'a Index,
    fs: FsId,
    address: Addr,
    mut group: Weighed<'a>,
    listed: &Listed<'a>,
) -> Option<&'a Row>
    requires ascending { AreAscending (rows_of index.now fs.0) }
    requires next { AreNext (rows_of index.now fs.0) (number_of address) group }
    requires listed { IsListedBy listed.now (selected (rows_of index.now fs.0) (number_of address)) }
    ensures { IsWidest (rows_of index.now fs.0) (number_of address) (option_copied result) }
{
    let rows = index.policy().rows(fs);
    while group.weight > 0 {
        if let Some(row) = first_new(rows, group.lines, listed) {
            return Some(row);
        }
        match index.heaviest_below(fs, address, group.weight) {
            Some(lighter) => group = lighter,
            None => return None,
        }
    }
    None
}

/// Finds the first of the lines of these numbers that lists what is not listed yet.
fn first_new<'a>(rows: &'a [Row], lines: &[u32], listed: &Listed<'a>) -> Option<&'a Row>
    requires { AreAscending rows.now }
    ensures { (chosen earlier : List Row) → lines.now ≡ numbers chosen → All (Contains rows.now) chosen → IsListedBy listed.now earlier
        → option_copied result ≡ find (brings earlier) chosen }
{
    for line in lines {
        if let Some(row) = row_numbered(rows, *line) {
            if listed.is_new(row) {
                return Some(row);
            }
        }
    }
    None
}
