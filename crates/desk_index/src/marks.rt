//! The first line that lists a path, found without a look at each line and each of its directories.
//!
//! The lines for one network are a group, and so are those for everybody; any other line is a group by itself. So a line has
//! one group, and there is one mark for each directory that is written, however many addresses the line is for. The lines
//! under a network, or under everybody, are one group, and those under an address are groups of one line. The first line of a
//! group that lists a path has a directory with the mark of the group and the path, or `-alldirs` with that of the group
//! alone. So two look-ups find it, and a comparison of the group and the path passes over others that share the mark.

ghost use Rattle.std.specs.Prelude.{◌≡◌, ◌<◌, ◌+◌, ◌++◌, ◌∷◌, ℕ, List, [], IfOk, OnOk, find, length};
ghost use Rattle.std.specs.Option.{option_copied};
ghost use Rattle.desk_policy.specs.Policy.{AreAscending};
ghost use Rattle.desk_policy.specs.Verdict.{lists_here};
ghost use Rattle.desk_index.specs.Keys.{AreUnderOneKey, numbers};
ghost use Rattle.desk_index.specs.PrivateMarks.{AreMarked, KeepsMarks, first_of, group_of, is_one_line, lists_at, mark_of, names_at, passes_at, same_group, seed_of, step};
ghost use Rattle.desk_index.specs.PrivateNumbered.{rows_numbered};
ghost use Rattle.desk_index.specs.PrivateSlot.{Keeps, lines_of};

use crate::numbered::{numbered, row_at};
use crate::slot::Slot;
use desk_exports::Clients;
use desk_policy::Row;
use desk_text::Path;
use std::alloc::{AllocError, Global};

/// An odd number without a pattern, by which marks are spread: 2^64 divided by the golden ratio.
const SPREADING: u64 = 11_400_714_819_323_198_485;

/// A line by itself, by its number; the lines for one network, by its first address and prefix; or those for everybody.
#[derive(Clone, Copy)]
pub enum Group {
    Line(u32),
    Network(u32, u8),
    Everybody,
}

/// A directory of a line: the places of both. A place behind the last directory stands for `-alldirs`.
#[derive(Clone, Copy)]
pub struct Spot {
    row: usize,
    dir: usize,
}

/// The directories of the lines of a file system, in their order, and where those with a mark are.
#[derive(Drop)]
pub struct Marks {
    by_mark: Slot,
    spots: Vec<Spot>,
}

impl Marks {
    /// Marks the directories of lines.
    pub fn of_rows(alloc: Global, rows: &[Row]) -> Result<Marks, AllocError>
        ensures { IfOk result (λ marks. KeepsMarks marks rows.now) }
    {
        let mut pairs = Vec::new(alloc);
        let mut spots = Vec::new(alloc);
        for place in 0..rows.len() {
            add_row(&mut pairs, &mut spots, rows, place)?;
        }
        let by_mark = Slot::of_pairs(alloc, pairs)?;
        Ok(Marks { by_mark, spots })
    }

    /// Finds the first of these lines that lists a path of the file system, if they are the lines under a key.
    pub fn first_listing<'a>(
        &self,
        rows: &'a [Row],
        known: &[u32],
        lines: &[u32],
        path: &Path,
    ) -> Option<&'a Row>
        requires kept { KeepsMarks self.now rows.now }
        requires ascending { AreAscending rows.now }
        requires known { known.now ≡ numbers rows.now }
        requires lines { AreUnderOneKey rows.now lines.now }
        ensures { option_copied result ≡ find (lists_here path.now) (rows_numbered rows.now lines.now) }
    {
        for number in lines {
            if let Some(row) = numbered(rows, known, *number) {
                let group = group_of(row);
                if let Some(found) = self.first_of_group(rows, &group, path) {
                    return Some(found);
                }
                if !is_one_line(&group) {
                    return None;
                }
            }
        }
        None
    }

    /// Finds the first line of a group that lists a path.
    fn first_of_group<'a>(&self, rows: &'a [Row], group: &Group, path: &Path) -> Option<&'a Row>
        requires { KeepsMarks self.now rows.now }
        ensures { option_copied result ≡ find (lists_at group.now path.now) rows.now }
    {
        let here = self.first_marked(rows, mark_of(group, path.text().as_bytes()), group, path);
        let all = self.first_marked(rows, mark_of(group, &[]), group, path);
        match first_of(here, all) {
            Some(number) => match self.spots.get(number as usize) {
                Some(spot) => row_at(rows, spot.row),
                None => None,
            },
            None => None,
        }
    }

    /// Finds the first directory with a mark that is of a line of this group and by which that lists the path.
    fn first_marked(&self, rows: &[Row], mark: u32, group: &Group, path: &Path) -> Option<u32>
        ensures { (pairs : List (ℕ × ℕ)) → Keeps self.now.by_mark pairs
            → result ≡ find (passes_at rows.now self.now.spots.items group.now path.now) (lines_of pairs mark) }
    {
        let Some(found) = self.by_mark.get(mark) else {
            return None;
        };
        let numbers = found.lines();
        for number in numbers {
            if self.passes(rows, *number, group, path) {
                return Some(*number);
            }
        }
        None
    }

    /// Tests whether a directory is of a line of this group, which lists the path by it.
    fn passes(&self, rows: &[Row], number: u32, group: &Group, path: &Path) -> bool
        ensures { result ≡ passes_at rows.now self.now.spots.items group.now path.now number }
    {
        let Some(spot) = self.spots.get(number as usize) else {
            return false;
        };
        match rows.get(spot.row) {
            Some(row) => is_same(&group_of(row), group) && names_at(row, spot.dir, path),
            None => false,
        }
    }
}

/// Returns the lesser number, if there is one.
fn first_of(one: Option<u32>, other: Option<u32>) -> Option<u32>
    ensures { result ≡ first_of one other }
{
    match (one, other) {
        (Some(number), Some(another)) => Some(if number <= another { number } else { another }),
        (Some(number), None) | (None, Some(number)) => Some(number),
        (None, None) => None,
    }
}

/// Tests whether the directory at a place is this one; behind the last one, whether the line has `-alldirs`.
fn names_at(row: &Row, place: usize, path: &Path) -> bool
    ensures { result ≡ names_at row.now place path.now }
{
    match row.entry.dirs.as_slice().get(place) {
        Some(dir) => *dir == *path,
        None => row.entry.alldirs,
    }
}

/// Gives the group of a line.
fn group_of(row: &Row) -> Group
    ensures { result ≡ group_of row.now }
{
    match &row.entry.clients {
        Clients::Hosts(_) | Clients::Net6(_) => Group::Line(row.entry.line),
        Clients::Net(net, _) => Group::Network(net.first().number(), net.prefix().get()),
        Clients::World => Group::Everybody,
    }
}

/// Tests whether a group is a line by itself.
fn is_one_line(group: &Group) -> bool
    ensures { result ≡ is_one_line group.now }
{
    match group {
        Group::Line(_) => true,
        Group::Network(_, _) | Group::Everybody => false,
    }
}

/// Tests whether two groups are the same.
fn is_same(group: &Group, other: &Group) -> bool
    ensures { result ≡ same_group group.now other.now }
{
    match group {
        Group::Line(line) => match other {
            Group::Line(another) => *line == *another,
            Group::Network(_, _) | Group::Everybody => false,
        },
        Group::Network(first, prefix) => match other {
            Group::Network(another, length) => *first == *another && *prefix == *length,
            Group::Line(_) | Group::Everybody => false,
        },
        Group::Everybody => match other {
            Group::Everybody => true,
            Group::Line(_) | Group::Network(_, _) => false,
        },
    }
}

/// Marks each directory of the line at a place, and `-alldirs`.
fn add_row(
    pairs: &mut Vec<(u32, u32)>,
    spots: &mut Vec<Spot>,
    rows: &[Row],
    place: usize,
) -> Result<(), AllocError>
    requires place { place < length rows.now }
    requires before { AreMarked pairs.old.items spots.old.items rows.now place 0 }
    ensures { OnOk result (AreMarked pairs.new.items spots.new.items rows.now (place + 1) 0) }
{
    let row = &rows[place];
    let group = group_of(row);
    let dirs = row.entry.dirs.as_slice();
    for dir in 0..dirs.len() {
        let mark = mark_of(&group, dirs[dir].text().as_bytes());
        add_spot(pairs, spots, mark, Spot { row: place, dir })?;
    }
    if row.entry.alldirs {
        let spot = Spot {
            row: place,
            dir: dirs.len(),
        };
        add_spot(pairs, spots, mark_of(&group, &[]), spot)?;
    }
    Ok(())
}

/// Adds a directory with its mark.
fn add_spot(
    pairs: &mut Vec<(u32, u32)>,
    spots: &mut Vec<Spot>,
    mark: u32,
    spot: Spot,
) -> Result<(), AllocError>
    ensures pairs { OnOk result (pairs.new.items ≡ pairs.old.items ++ (mark, length spots.old.items) ∷ []) }
    ensures spots { OnOk result (spots.new.items ≡ spots.old.items ++ spot ∷ []) }
{
    // A text of less than 2^32 bytes does not write so many.
    let Ok(number) = u32::try_from(spots.len()) else {
        return Err(AllocError);
    };
    pairs.push((mark, number))?;
    spots.push(spot)?;
    Ok(())
}

/// Gives the mark of a group and a text: that of a directory, or none for `-alldirs`.
#[tactic(auto, unfolding(crate::specs::PrivateMarks::mark_of))]
fn mark_of(group: &Group, text: &[u8]) -> u32
    ensures { result ≡ mark_of group.now text.now }
{
    let mut mark = seed_of(group);
    for byte in text {
        mark = step(mark, u64::from(*byte));
    }
    (step(mark, 0) >> 32) as u32
}

/// Gives what the marks of a group begin with.
fn seed_of(group: &Group) -> u64
    ensures { result ≡ seed_of group.now }
{
    match group {
        Group::Line(line) => step(0, u64::from(*line)),
        Group::Network(first, prefix) => step(u64::from(*prefix) + 2, u64::from(*first)),
        Group::Everybody => step(1, 0),
    }
}

/// Takes a number into a mark.
#[tactic(auto, unfolding(crate::specs::PrivateMarks::step))]
fn step(mark: u64, next: u64) -> u64
    ensures { result ≡ step mark next }
{
    mark.wrapping_mul(SPREADING).wrapping_add(next)
}
