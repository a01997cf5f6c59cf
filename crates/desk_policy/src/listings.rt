//! What a client may mount.

ghost use Rattle.std.specs.Prelude.{◌≡◌, ◌++◌, IfOk, OnOk, [], filter, map};
ghost use Rattle.std.specs.List.{cons_option, list_any};
ghost use Rattle.desk_text.specs.Address.{number_of};
ghost use Rattle.desk_text.specs.Path.{are_printed_alike, same_path};
ghost use Rattle.desk_policy.specs.Listings as spec;
ghost use Rattle.desk_policy.specs.PrivateListings.{IsOrderOf, IsShownBy, PrintedAsLastIsLast, gathered, last_passes, own_dirs, with_next};
ghost use Rattle.desk_policy.specs.Policy.{rows_of};
ghost use Rattle.desk_policy.specs.PrivateWeights.{has_weight};
ghost use Rattle.desk_policy.specs.Verdict.{is_in};
ghost use Rattle.desk_tables.specs.FileSystems.{fs_of};

use crate::policy::Policy;
use crate::row::Row;
use crate::view::PolicyView;
use crate::weights::{all_with, greatest_weight};
use desk_exports::Terms;
use desk_tables::{FileSystems, FsId};
use desk_text::{Addr, Path, Sequence};
use std::alloc::{AllocError, Global};

/// What a client may mount of a file system.
#[derive(Drop)]
pub struct Shown {
    pub fs: FsId,
    /// The directories that a line of the file system writes and a selected line lists, without duplicates, in byte order of their
    /// printed forms.
    pub dirs: Sequence<Path>,
    /// Whether a selected line has `-alldirs`, so that the client may mount any directory of the file system.
    pub alldirs: bool,
    /// The terms of the selected lines.
    pub terms: Terms,
    /// The numbers of the selected lines, ascending.
    pub lines: Sequence<u32>,
}

/// Lists what a client may mount, by mount point. A file system of which no line matches the client is left out.
pub fn listing<V: PolicyView>(
    alloc: Global,
    view: &V,
    address: Addr,
) -> Result<Vec<Shown>, AllocError>
    ensures { IfOk result (λ listing. listing.items ≡ spec.listing_of (V.in_force view.now) (number_of address)) }
{
    listing_under(alloc, view.policy(), address)
}

/// Lists what a client may mount under this policy.
fn listing_under(alloc: Global, policy: &Policy, address: Addr) -> Result<Vec<Shown>, AllocError>
    ensures { IfOk result (λ listing. listing.items ≡ spec.listing_of policy.now (number_of address)) }
{
    let mut listing = Vec::new(alloc);
    for mount in policy.filesystems().as_slice() {
        let shown = shown_of_mount(alloc, policy, &mount.path, address)?;
        push_if_shown(&mut listing, shown)?;
    }
    Ok(listing)
}

/// Adds what is shown of a file system, if anything is.
fn push_if_shown(listing: &mut Vec<Shown>, shown: Option<Shown>) -> Result<(), AllocError>
    ensures { OnOk result (listing.new.items ≡ listing.old.items ++ cons_option shown []) }
{
    if let Some(shown) = shown {
        listing.push(shown)?;
    }
    Ok(())
}

/// Finds what a client may mount of the file system of a mount point.
fn shown_of_mount(
    alloc: Global,
    policy: &Policy,
    mount: &Path,
    address: Addr,
) -> Result<Option<Shown>, AllocError>
    ensures { IfOk result (λ shown. shown ≡ spec.shown_of_mount policy.now (number_of address) mount.now) }
{
    match policy.filesystems().of(mount) {
        Some(fs) => {
            let shown = shown_of_system(alloc, policy, fs, address)?;
            Ok(shown)
        }
        None => Ok(None),
    }
}

/// Finds what a client may mount of a file system, if one of its lines matches.
fn shown_of_system(
    alloc: Global,
    policy: &Policy,
    fs: FsId,
    address: Addr,
) -> Result<Option<Shown>, AllocError>
    ensures { IfOk result (λ shown. shown ≡ spec.shown_of_system policy.now (number_of address) fs.0) }
{
    let Some(weight) = greatest_weight(policy.rows(fs), address) else {
        return Ok(None);
    };
    let shown = shown_of_weight(alloc, policy, fs, address, weight)?;
    Ok(shown)
}

/// Gathers what the lines that match with this weight show of their file system.
fn shown_of_weight(
    alloc: Global,
    policy: &Policy,
    fs: FsId,
    address: Addr,
    weight: u8,
) -> Result<Option<Shown>, AllocError>
    ensures { IfOk result
        (λ shown. shown ≡ spec.shown_of_selected policy.now fs.0 (filter (has_weight (number_of address) weight) (rows_of policy.now fs.0))) }
{
    let chosen = all_with(alloc, policy.rows(fs), address, weight)?;
    let shown = shown_of_selected(alloc, policy, fs, chosen.as_slice())?;
    Ok(shown)
}

/// Gathers what these lines of a file system, which are selected, show of it, if there are any.
fn shown_of_selected(
    alloc: Global,
    policy: &Policy,
    fs: FsId,
    chosen: &[&Row],
) -> Result<Option<Shown>, AllocError>
    ensures { IfOk result (IsShownBy policy.now fs (map (λ row. row.now) chosen.now)) }
{
    let Some(first) = chosen.first() else {
        return Ok(None);
    };
    let dirs = listed(alloc, policy, fs, chosen)?;
    Ok(Some(Shown {
        fs,
        dirs: in_order(alloc, dirs)?,
        alldirs: has_alldirs(chosen),
        terms: first.entry.terms.copy(alloc)?,
        lines: line_numbers(alloc, chosen)?,
    }))
}

/// Tests whether one of these lines has `-alldirs`.
fn has_alldirs(rows: &[&Row]) -> bool
    ensures { result ≡ list_any (λ row. row.entry.alldirs) (map (λ row. row.now) rows.now) }
{
    for row in rows {
        if row.entry.alldirs {
            return true;
        }
    }
    false
}

/// Lists the numbers of these lines.
fn line_numbers(alloc: Global, rows: &[&Row]) -> Result<Sequence<u32>, AllocError>
    ensures { IfOk result (λ numbers. numbers ≡ map (λ row. row.entry.line) (map (λ row. row.now) rows.now)) }
{
    let mut numbers = Sequence::new(alloc);
    for row in rows {
        numbers.push(row.entry.line)?;
    }
    Ok(numbers)
}

/// Gathers the directories that the selected lines of a file system list, some of them more than once: those that they write
/// themselves, and if one has `-alldirs`, those of the file system that any of its lines writes.
fn listed<'a>(
    alloc: Global,
    policy: &'a Policy,
    fs: FsId,
    chosen: &[&'a Row],
) -> Result<Vec<&'a Path>, AllocError>
    ensures { IfOk result
        (λ dirs. map (λ dir. dir.now) dirs.items ≡ gathered policy.now fs.0 (map (λ row. row.now) chosen.now)) }
{
    let mut dirs = Vec::new(alloc);
    push_chosen(&mut dirs, chosen)?;
    if has_alldirs(chosen) {
        push_own(&mut dirs, policy.filesystems(), fs, policy.rows(fs))?;
    }
    Ok(dirs)
}

/// Adds the directories that these lines write.
fn push_chosen<'a>(dirs: &mut Vec<&'a Path>, chosen: &[&'a Row]) -> Result<(), AllocError>
    ensures { OnOk result (map (λ dir. dir.now) dirs.new.items
        ≡ map (λ dir. dir.now) dirs.old.items ++ spec.written (map (λ row. row.now) chosen.now)) }
{
    for row in chosen {
        push_written(dirs, row)?;
    }
    Ok(())
}

/// Adds the directories that a line writes.
fn push_written<'a>(dirs: &mut Vec<&'a Path>, row: &'a Row) -> Result<(), AllocError>
    ensures { OnOk result (map (λ dir. dir.now) dirs.new.items ≡ map (λ dir. dir.now) dirs.old.items ++ row.now.entry.dirs) }
{
    for dir in row.entry.dirs.as_slice() {
        dirs.push(dir)?;
    }
    Ok(())
}

/// Adds the directories that lines write and that are in this file system.
fn push_own<'a>(
    dirs: &mut Vec<&'a Path>,
    filesystems: &FileSystems,
    fs: FsId,
    rows: &'a [Row],
) -> Result<(), AllocError>
    ensures { OnOk result (map (λ dir. dir.now) dirs.new.items
        ≡ map (λ dir. dir.now) dirs.old.items ++ own_dirs filesystems.now fs.0 (spec.written rows.now)) }
{
    for row in rows {
        push_own_of(dirs, filesystems, fs, row)?;
    }
    Ok(())
}

/// Adds the directories that a line writes and that are in this file system.
fn push_own_of<'a>(
    dirs: &mut Vec<&'a Path>,
    filesystems: &FileSystems,
    fs: FsId,
    row: &'a Row,
) -> Result<(), AllocError>
    ensures { OnOk result (map (λ dir. dir.now) dirs.new.items
        ≡ map (λ dir. dir.now) dirs.old.items ++ own_dirs filesystems.now fs.0 row.now.entry.dirs) }
{
    for dir in row.entry.dirs.as_slice() {
        if is_own(filesystems, fs, dir) {
            dirs.push(dir)?;
        }
    }
    Ok(())
}

/// Tests whether a directory is in this file system.
fn is_own(filesystems: &FileSystems, fs: FsId, dir: &Path) -> bool
    ensures { result ≡ is_in (fs_of filesystems.now dir.now) fs.0 }
{
    match filesystems.of(dir) {
        Some(own_fs) => own_fs.0 == fs.0,
        None => false,
    }
}

/// Copies paths in byte order of their printed forms, without duplicates.
fn in_order(alloc: Global, mut paths: Vec<&Path>) -> Result<Sequence<Path>, AllocError>
    ensures { IfOk result (IsOrderOf (map (λ path. path.now) paths.entry.items)) }
{
    paths.sort_unstable();
    let mut ordered = Vec::new(alloc);
    for path in &paths {
        push_next(&mut ordered, path)?;
    }
    Ok(Sequence::from_vec(ordered))
}

/// Adds a copy of a path, unless it is the last one.
fn push_next(ordered: &mut Vec<Path>, path: &Path) -> Result<(), AllocError>
    ensures added { OnOk result (ordered.new.items ≡ with_next ordered.old.items path.now) }
    ensures last { OnOk result (PrintedAsLastIsLast ordered.old.items path.now) }
{
    if !is_last(ordered.as_slice(), path) {
        ordered.push(path.clone()?)?;
    }
    Ok(())
}

/// Tests whether a path is the last one of these.
fn is_last(paths: &[Path], path: &Path) -> bool
    ensures printed { result ≡ last_passes (λ last. are_printed_alike last path.now) paths.now }
    ensures same { result ≡ last_passes (λ last. same_path last path.now) paths.now }
{
    match paths.last() {
        Some(last) => *last == *path,
        None => false,
    }
}
