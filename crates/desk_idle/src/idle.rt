//! The lines of a file system that decide nothing.

ghost use Rattle.std.specs.Prelude.{◌≡◌, Contains, IfOk, List, not};
ghost use Rattle.desk_policy.specs.Policy.{AreAscending, rows_of};
ghost use Rattle.desk_policy.specs.declared.row.Row.{Row};
ghost use Rattle.desk_idle.specs.Idle.{AreIdle, IsReason};
ghost use Rattle.desk_idle.specs.Laws.{WriteDirectories};
ghost use Rattle.desk_idle.specs.PrivateMarks.{AreAllMarks, IsKnown, IsLeastAmong, IsLeastMatch, decides};
ghost use Rattle.desk_idle.specs.Selections.{AreSelections};

use crate::marks::{Mark, marks_of};
use crate::selecting::first_selected;
use crate::selections::{Selection, selections_of};
use desk_exports::Clients;
use desk_index::Index;
use desk_policy::{PolicyView, Row, RowAddrs};
use desk_tables::FsId;
use desk_text::Addr;
use desk_text::laws::covers_between_first_and_last;
use std::alloc::{AllocError, Global};
use std::collections::BTreeMap;

/// Why a line decides nothing. If a line and an address are given, that line is the first that is selected at that address.
#[derive(Clone, Copy)]
pub enum Reason {
    /// Its names stand for no address, or its network is of IPv6.
    NoClient,
    /// It is selected at no address, as heavier lines match each that it matches. This is the least that it matches.
    Shadowed(u32, Addr),
    /// Wherever it is selected, earlier lines that are selected, too, list all that it lists. This is the least address at which it
    /// is selected.
    Repeated(u32, Addr),
}

/// A line that decides nothing.
#[derive(Clone, Copy)]
pub struct Idle {
    pub line: u32,
    pub reason: Reason,
}

/// Lists the lines of a file system that decide nothing, in the order of the lines. In a policy that is read from texts lines write
/// directories (law `read_lines_write_directories`); in another [`write_directories`] tests it.
pub fn idle_lines(alloc: Global, index: &Index, fs: FsId) -> Result<Vec<Idle>, AllocError>
    requires { WriteDirectories index.now fs.0 }
    ensures { IfOk result (λ found. AreIdle index.now fs.0 found.items) }
{
    let selections = selections_of(alloc, index, fs)?;
    idle_lines_by(alloc, index, fs, selections.as_slice())
}

/// Lists them, given what is selected wherever that may change.
pub fn idle_lines_by<'a>(
    alloc: Global,
    index: &'a Index,
    fs: FsId,
    selections: &[Selection<'a>],
) -> Result<Vec<Idle>, AllocError>
    requires lines { WriteDirectories index.now fs.0 }
    requires selections { AreSelections (rows_of index.now fs.0) selections.now }
    ensures { IfOk result (λ found. AreIdle index.now fs.0 found.items) }
{
    let _lists = index.policy().rows_by_filesystem();
    let marks = marks_of(alloc, index, fs, selections)?;
    idle_by(alloc, index, fs, &marks)
}

/// Lists them, given what is known of the lines that are selected somewhere.
fn idle_by(
    alloc: Global,
    index: &Index,
    fs: FsId,
    marks: &BTreeMap<u32, Mark>,
) -> Result<Vec<Idle>, AllocError>
    requires ascending { AreAscending (rows_of index.now fs.0) }
    requires lines { WriteDirectories index.now fs.0 }
    requires marks { AreAllMarks (rows_of index.now fs.0) marks.now }
    ensures { IfOk result (λ found. AreIdle index.now fs.0 found.items) }
{
    let mut found = Vec::new(alloc);
    for row in index.policy().rows(fs) {
        let mark = mark_of(marks, row);
        if is_idle(mark) {
            let reason = reason_of(index, fs, row, mark);
            found.push(Idle {
                line: row.entry.line,
                reason,
            })?;
        }
    }
    Ok(found)
}

/// Finds what is known of a line, if it is selected somewhere.
fn mark_of(marks: &BTreeMap<u32, Mark>, row: &Row) -> Option<Mark>
    ensures { (rows : List Row) → AreAllMarks rows marks.now → AreAscending rows → Contains rows row.now → IsKnown rows row.now result }
{
    marks.get(&row.entry.line).copied()
}

/// Tests whether a line decides nothing.
fn is_idle(mark: Option<Mark>) -> bool
    ensures { result ≡ not (decides mark) }
{
    match mark {
        Some(mark) => !mark.decides,
        None => true,
    }
}

/// Tells why a line decides nothing, if it does not.
fn reason_of(index: &Index, fs: FsId, row: &Row, mark: Option<Mark>) -> Reason
    requires row { Contains (rows_of index.now fs.0) row.now }
    requires mark { IsKnown (rows_of index.now fs.0) row.now mark }
    ensures { IsReason (rows_of index.now fs.0) row.now result }
{
    if let Some(mark) = mark {
        return Reason::Repeated(mark.first, Addr::from_number(mark.address));
    }
    let Some(address) = least_match(row) else {
        return Reason::NoClient;
    };
    match first_selected(index, fs, address) {
        Some(first) => Reason::Shadowed(first, address),
        // A line matches the address, so one is selected.
        None => unreachable!(),
    }
}

/// Gives the least address that a line matches.
fn least_match(row: &Row) -> Option<Addr>
    ensures { IsLeastMatch row.now result }
{
    covers_between_first_and_last();
    match &row.entry.clients {
        Clients::Hosts(_) => least_among(&row.addrs),
        Clients::Net(net, _) => Some(net.first()),
        Clients::Net6(_) => None,
        Clients::World => Some(Addr::from_number(0)),
    }
}

/// Gives the least of these addresses.
fn least_among(addresses: &RowAddrs) -> Option<Addr>
    ensures { IsLeastAmong addresses.now result }
{
    match addresses.as_slice() {
        [] => None,
        [first, ..] => Some(Addr::from_number(first.number())),
    }
}
