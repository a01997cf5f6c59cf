//! The lines where the server grants more than this desk.
//!
//! What is selected, and what the other lines list, change only where a line begins or ceases to match. So one look at each of these
//! addresses, in ascending order, finds each line that is the first selected where the server grants more, and the least address at
//! which it is. A line for a network or for everybody is looked at once: wherever it is the first selected, the same lines match.

ghost use Rattle.std.specs.Prelude.{◌≡◌, ◌++◌, ◌∷◌, ◌&&◌, ◌==◌, [], IfOk, List, OnOk, Some, ℕ, if◌then◌else◌};
ghost use Rattle.std.specs.BTreeMap as tree;
ghost use Rattle.std.specs.Ordering.{nat_cmp};
ghost use Rattle.desk_text.specs.Address.{number_of};
ghost use Rattle.desk_policy.specs.Policy.{AreAscending, Content, rows_of};
ghost use Rattle.desk_idle.specs.Laws.{WriteDirectories};
ghost use Rattle.desk_idle.specs.Selections.{AreSelections, IsSelection};
ghost use Rattle.desk_server.specs.PrivateWiderGrants.{AreAllTold, AreTold, AreUpTo, IsFinding, is_kept};
ghost use Rattle.desk_server.specs.WiderGrants.{AreWiderGrants};

use crate::looking::look_at;
use crate::same_listing::list_alike;
use desk_idle::{Selection, selections_of};
use desk_index::{Index, Probes};
use desk_policy::laws::lines_are_selected_by_keys;
use desk_policy::{PolicyView, Row};
use desk_tables::FsId;
use desk_text::{Addr, Path};
use std::alloc::{AllocError, Global};
use std::collections::BTreeMap;

/// The weight of a line by a name; that of a network, or of everybody, is less.
const NAME_WEIGHT: u8 = 34;

/// A line that is the first selected where the server grants more than this desk.
#[derive(Clone, Copy)]
pub struct WiderGrant<'a> {
    pub line: u32,
    /// The least address at which this line is the first that is selected, and the server grants more.
    pub address: Addr,
    /// The line by which the server grants more there: of lines that name the client and list what no selected line does the first
    /// of the heaviest.
    pub other: u32,
    /// Its first directory that no selected line writes; none if it lists more by -alldirs alone.
    pub directory: Option<&'a Path>,
}

/// Lists the lines of a file system that are the first selected where the server grants more, in the order of the lines. In a
/// policy that is read from texts lines write directories (law `read_lines_write_directories` of desk_idle).
pub fn wider_grants<'a>(
    alloc: Global,
    index: &'a Index,
    fs: FsId,
) -> Result<Vec<WiderGrant<'a>>, AllocError>
    requires { WriteDirectories index.now fs.0 }
    ensures { IfOk result (λ found. AreWiderGrants index.now fs.0 found.items) }
{
    // Where all lines list the same, none lists more than the selected ones.
    if list_alike(index.policy().rows(fs)) {
        return Ok(Vec::new(alloc));
    }
    let selections = selections_of(alloc, index, fs)?;
    wider_among(alloc, index, fs, selections.as_slice())
}

/// Lists them, given what is selected wherever that may change.
pub fn wider_grants_by<'a>(
    alloc: Global,
    index: &'a Index,
    fs: FsId,
    selections: &[Selection<'a>],
) -> Result<Vec<WiderGrant<'a>>, AllocError>
    requires lines { WriteDirectories index.now fs.0 }
    requires selections { AreSelections (rows_of index.now fs.0) selections.now }
    ensures { IfOk result (λ found. AreWiderGrants index.now fs.0 found.items) }
{
    if list_alike(index.policy().rows(fs)) {
        return Ok(Vec::new(alloc));
    }
    wider_among(alloc, index, fs, selections)
}

/// Lists them, whether or not all lines list the same.
fn wider_among<'a>(
    alloc: Global,
    index: &'a Index,
    fs: FsId,
    selections: &[Selection<'a>],
) -> Result<Vec<WiderGrant<'a>>, AllocError>
    requires lines { WriteDirectories index.now fs.0 }
    requires selections { AreSelections (rows_of index.now fs.0) selections.now }
    ensures { IfOk result (λ found. AreWiderGrants index.now fs.0 found.items) }
{
    let _lists = index.policy().rows_by_filesystem();
    let known = known_of(alloc, index, fs, selections)?;
    findings(alloc, index, fs, &known)
}

/// Lists them, given what is known of the lines that are the first selected somewhere.
fn findings<'a>(
    alloc: Global,
    index: &'a Index,
    fs: FsId,
    known: &BTreeMap<u32, Option<WiderGrant<'a>>>,
) -> Result<Vec<WiderGrant<'a>>, AllocError>
    requires ascending { AreAscending (rows_of index.now fs.0) }
    requires lines { WriteDirectories index.now fs.0 }
    requires known { AreAllTold (rows_of index.now fs.0) known.now }
    ensures { IfOk result (λ found. AreWiderGrants index.now fs.0 found.items) }
{
    let mut found = Vec::new(alloc);
    for row in index.policy().rows(fs) {
        if let Some(one) = finding(known, row) {
            found.push(one)?;
        }
    }
    Ok(found)
}

/// Finds what is known of a line, if the server grants more where it is the first selected.
fn finding<'a>(known: &BTreeMap<u32, Option<WiderGrant<'a>>>, row: &Row) -> Option<WiderGrant<'a>>
    ensures { (content : Content) (fs : ℕ) → WriteDirectories content fs → AreAllTold (rows_of content fs) known.now → IsFinding content fs row.now.entry.line result }
{
    match known.get(&row.entry.line).copied() {
        Some(look) => look,
        None => None,
    }
}

/// Looks at each address at which a line begins or ceases to match, and at the first address of all.
fn known_of<'a>(
    alloc: Global,
    index: &'a Index,
    fs: FsId,
    selections: &[Selection<'a>],
) -> Result<BTreeMap<u32, Option<WiderGrant<'a>>>, AllocError>
    requires ascending { AreAscending (rows_of index.now fs.0) }
    requires selections { AreSelections (rows_of index.now fs.0) selections.now }
    ensures { IfOk result (AreAllTold (rows_of index.now fs.0)) }
{
    let mut known = BTreeMap::new(alloc);
    for selection in selections {
        look(alloc, index, fs, *selection, &mut known)?;
    }
    Ok(known)
}

/// Looks at an address, unless it is known what there is to see of its first selected line.
fn look<'a>(
    alloc: Global,
    index: &'a Index,
    fs: FsId,
    selection: Selection<'a>,
    known: &mut BTreeMap<u32, Option<WiderGrant<'a>>>,
) -> Result<(), AllocError>
    requires ascending { AreAscending (rows_of index.now fs.0) }
    requires selection { IsSelection (rows_of index.now fs.0) selection }
    ensures { OnOk result ((before : List ℕ) → AreUpTo before (number_of selection.entry.address) → AreTold (rows_of index.now fs.0) before known.old
        → AreTold (rows_of index.now fs.0) (before ++ number_of selection.entry.address ∷ []) known.new) }
{
    lines_are_selected_by_keys();
    let address = selection.address;
    let _number = address.number();
    let _probes = Probes::new(index);
    let Some(group) = selection.group else {
        return Ok(());
    };
    let Some(line) = group.lines.first() else {
        return Ok(());
    };
    if known.contains_key(line) {
        return Ok(());
    }
    let seen = look_at(alloc, index, fs, address, group, *line)?;
    keep(known, *line, group.weight, seen)
}

/// Keeps what was seen of a line that is selected with this weight: also that nothing was, if it is the same wherever the line is
/// selected.
fn keep<'a>(
    known: &mut BTreeMap<u32, Option<WiderGrant<'a>>>,
    line: u32,
    weight: u8,
    seen: Option<WiderGrant<'a>>,
) -> Result<(), AllocError>
    ensures { OnOk result ((other : ℕ) → tree.get nat_cmp known.new other
        ≡ (if is_kept seen.entry weight && line == other then Some seen.entry else tree.get nat_cmp known.old other)) }
{
    if seen.is_some() || weight < NAME_WEIGHT {
        known.insert(line, seen)?;
    }
    Ok(())
}
