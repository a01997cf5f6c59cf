//! Which lines decide, and where the others are selected.
//!
//! The lines that are selected change only where a line begins or ceases to match. So one look at each of these addresses, in
//! ascending order, finds each key that is the heaviest somewhere, and the least address at which it is. Lines that are selected
//! together are looked at once: those of a network or of everybody are known by the first of them, and others by their numbers.

ghost use Rattle.std.specs.Prelude.{◌≡◌, ◌<◌, ◌^◌, ◌++◌, ◌∷◌, [], All, Contains, IfOk, List, ℕ, OnOk, map};
ghost use Rattle.desk_text.specs.Address.{number_of};
ghost use Rattle.desk_policy.specs.Keys.{HasBlock};
ghost use Rattle.desk_policy.specs.Policy.{AreAscending, rows_of};
ghost use Rattle.desk_policy.specs.Weights.{selected};
ghost use Rattle.desk_policy.specs.declared.row.Row.{Row};
ghost use Rattle.desk_index.specs.Keys.{numbers};
ghost use Rattle.desk_idle.specs.Laws.{brings};
ghost use Rattle.desk_idle.specs.PrivateMarks as spec;
ghost use Rattle.desk_idle.specs.PrivateMarks.{AreAllMarks, AreMarks, HaveLooked, Look, looks_among, looks_by};
ghost use Rattle.desk_idle.specs.Selections.{AreSelections, IsSelection};

use crate::listed::Listed;
use crate::selecting::add_lines;
use crate::selections::Selection;
use desk_exports::Clients;
use desk_index::{Index, Probes, row_numbered, rows_numbered};
use desk_policy::laws::lines_are_selected_by_keys;
use desk_policy::{PolicyView, Row};
use desk_tables::FsId;
use desk_text::Addr;
use std::alloc::{AllocError, Global};
use std::collections::{BTreeMap, BTreeSet};

/// What is known of a line that is selected somewhere.
#[derive(Clone, Copy)]
pub(crate) struct Mark {
    /// Some verdict names it.
    pub decides: bool,
    /// The first line that is selected at the least address at which this one is.
    pub first: u32,
    /// The number of that address.
    pub address: u32,
}

/// Marks the lines of a file system, by their numbers.
pub(crate) fn marks_of<'a>(
    alloc: Global,
    index: &'a Index,
    fs: FsId,
    selections: &[Selection<'a>],
) -> Result<BTreeMap<u32, Mark>, AllocError>
    requires ascending { AreAscending (rows_of index.now fs.0) }
    requires selections { AreSelections (rows_of index.now fs.0) selections.now }
    ensures { IfOk result (AreAllMarks (rows_of index.now fs.0)) }
{
    let mut marks = BTreeMap::new(alloc);
    let mut lists = BTreeSet::new(alloc);
    for selection in selections {
        mark_at(alloc, index, fs, *selection, &mut marks, &mut lists)?;
    }
    Ok(marks)
}

/// Marks the lines that are selected at an address, unless those under their key are marked already.
fn mark_at<'a>(
    alloc: Global,
    index: &'a Index,
    fs: FsId,
    selection: Selection<'a>,
    marks: &mut BTreeMap<u32, Mark>,
    lists: &mut BTreeSet<&'a [u32]>,
) -> Result<(), AllocError>
    requires ascending { AreAscending (rows_of index.now fs.0) }
    requires selection { IsSelection (rows_of index.now fs.0) selection }
    ensures { OnOk result ((before : List ℕ) → HaveLooked (rows_of index.now fs.0) before marks.old lists.old
        → HaveLooked (rows_of index.now fs.0) (before ++ number_of selection.entry.address ∷ []) marks.new lists.new) }
{
    lines_are_selected_by_keys();
    let address = selection.address;
    let _number = address.number();
    let _probes = Probes::new(index);
    let Some(group) = selection.group else {
        return Ok(());
    };
    let rows = index.policy().rows(fs);
    if are_known(marks, rows, group.lines) {
        return Ok(());
    }
    mark_lines(alloc, rows, group.lines, address, marks, lists)
}

/// Marks the lines that are selected at an address, unless they were looked at together elsewhere.
fn mark_lines<'a>(
    alloc: Global,
    rows: &[Row],
    lines: &'a [u32],
    address: Addr,
    marks: &mut BTreeMap<u32, Mark>,
    lists: &mut BTreeSet<&'a [u32]>,
) -> Result<(), AllocError>
    requires ascending { AreAscending rows.now }
    requires lines { lines.now ≡ numbers (selected rows.now (number_of address)) }
    ensures { OnOk result ((before : List ℕ) → HaveLooked rows.now before marks.old lists.old
        → HaveLooked rows.now (before ++ number_of address ∷ []) marks.new lists.new) }
{
    let _number = address.number();
    if !add_lines(lists, lines)? {
        return Ok(());
    }
    let chosen = rows_numbered(alloc, rows, lines)?;
    mark_rows(alloc, chosen.as_slice(), address, marks)
}

/// Tests whether the lines under the one key of the first of these were looked at.
fn are_known(marks: &BTreeMap<u32, Mark>, rows: &[Row], lines: &[u32]) -> bool
    requires { AreAscending rows.now }
    ensures { (chosen : List Row) → lines.now ≡ numbers chosen → All (Contains rows.now) chosen → result ≡ spec.are_known marks.now chosen }
{
    let Some(line) = lines.first() else {
        return false;
    };
    match row_numbered(rows, *line) {
        Some(row) => has_one_key(&row.entry.clients) && marks.contains_key(line),
        None => false,
    }
}

/// Tests whether these clients are a network, or everybody.
fn has_one_key(clients: &Clients) -> bool
    ensures { result ≡ spec.has_one_key clients.now }
{
    match clients {
        Clients::Net(_, _) | Clients::World => true,
        Clients::Hosts(_) | Clients::Net6(_) => false,
    }
}

/// Marks these lines, which are selected at an address.
fn mark_rows(
    alloc: Global,
    rows: &[&Row],
    address: Addr,
    marks: &mut BTreeMap<u32, Mark>,
) -> Result<(), AllocError>
    ensures { OnOk result ((looks : List Look) → AreMarks looks marks.old
        → AreMarks (looks ++ looks_by (number_of address) (map (λ row. row.now) rows.now)) marks.new) }
{
    match rows {
        [] => Ok(()),
        // The directories of a line by itself need not be kept.
        [row] => {
            let brought = has_something(row);
            add_look(marks, row.entry.line, row.entry.line, address, brought)
        }
        [first, ..] => mark_each(alloc, rows, first.entry.line, address, marks),
    }
}

/// Tests whether a line has -alldirs, or a directory.
fn has_something(row: &Row) -> bool
    ensures { result ≡ brings [] row.now }
{
    row.entry.alldirs || !row.entry.dirs.as_slice().is_empty()
}

/// Marks each of these lines: those bring something that list a directory that none before them does.
fn mark_each(
    alloc: Global,
    rows: &[&Row],
    first: u32,
    address: Addr,
    marks: &mut BTreeMap<u32, Mark>,
) -> Result<(), AllocError>
    ensures { OnOk result ((looks : List Look) → AreMarks looks marks.old
        → AreMarks (looks ++ looks_among first (number_of address) [] (map (λ row. row.now) rows.now)) marks.new) }
{
    let mut listed = Listed::new(alloc);
    for row in rows {
        let brought = listed.add(row)?;
        add_look(marks, row.entry.line, first, address, brought)?;
    }
    Ok(())
}

/// Adds a look at a line: what it brings, and where it is selected, if that is not known yet.
fn add_look(
    marks: &mut BTreeMap<u32, Mark>,
    line: u32,
    first: u32,
    address: Addr,
    brought: bool,
) -> Result<(), AllocError>
    ensures { OnOk result ((looks : List Look) → AreMarks looks marks.old
        → AreMarks (looks ++ record { line = line; first = first; address = number_of address; brought = brought } ∷ []) marks.new) }
{
    let known = marks.get(&line).copied();
    marks.insert(line, with_look(known, first, address, brought))?;
    Ok(())
}

/// Gives what is known of a line with a look at it more.
fn with_look(known: Option<Mark>, first: u32, address: Addr, brought: bool) -> Mark
    ensures { (line : ℕ) → result ≡ spec.with_look known (record { line = line; first = first; address = number_of address; brought = brought }) }
{
    match known {
        Some(mark) => Mark {
            decides: mark.decides || brought,
            first: mark.first,
            address: mark.address,
        },
        None => Mark {
            decides: brought,
            first,
            address: address.number(),
        },
    }
}
