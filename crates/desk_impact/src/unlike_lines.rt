//! The lines that only one of two policies has in a file system, and the addresses at which they may say something else.

ghost use Rattle.std.specs.Prelude.{◌≡◌, ◌++◌, ◌∷◌, IfOk, IfSome, OnOk, false, map};
ghost use Rattle.desk_text.specs.AddrSet.{is_among};
ghost use Rattle.desk_impact.specs.Impact.{AreStartsOfChanges};
ghost use Rattle.desk_impact.specs.PrivateUnlikeLines.{AreHomes, AreStartsOfUnlike, AreUnlike, IsPast};

use crate::changes::starts_of_both;
use crate::same_rows::is_same_row;
use crate::sayings::same_mount;
use desk_policy::{Policy, Row};
use desk_tables::FsId;
use desk_text::{AddrSet, Path};
use desk_who::starts_within;
use std::alloc::{AllocError, Global};

/// Gathers the addresses at which what two policies say of a path may change, and of each path of its file systems: those at which
/// a line begins or ceases to match that only one of them has, and those at which another line does where such a line matches.
pub(crate) fn starts_of_changes(
    alloc: Global,
    before: &Policy,
    after: &Policy,
    path: &Path,
) -> Result<AddrSet, AllocError>
    ensures { IfOk result (AreStartsOfChanges before.now after.now path.now) }
{
    let starts = starts_of_both(alloc, before, after, path)?;
    match homes_of(before, after, path) {
        Some((old, new)) => starts_of_unlike(alloc, before.rows(old), after.rows(new), &starts),
        None => Ok(starts),
    }
}

/// Finds the file systems of a path in two policies, if they have one mount point.
fn homes_of(before: &Policy, after: &Policy, path: &Path) -> Option<(FsId, FsId)>
    ensures { IfSome result (λ homes. AreHomes before.now after.now path.now homes.0.0 homes.1.0) }
{
    let old = before.filesystems().of(path)?;
    let new = after.filesystems().of(path)?;
    if same_mount(before, after, old, new) {
        Some((old, new))
    } else {
        None
    }
}

/// Gathers the addresses at which a line begins or ceases to match that only one of two lists has, and those of the starts at which
/// such a line matches.
fn starts_of_unlike(
    alloc: Global,
    old: &[Row],
    new: &[Row],
    starts: &AddrSet,
) -> Result<AddrSet, AllocError>
    requires { is_among 0 starts.now ≡ false }
    ensures { IfOk result (AreStartsOfUnlike old.now new.now starts.now) }
{
    let unlike = unlike_rows(alloc, old, new)?;
    starts_within(alloc, starts, unlike.as_slice())
}

/// Lists the lines that only one of two lists has. Both are in the order of the numbers of their lines; where they are not, more may
/// be listed.
fn unlike_rows<'a>(
    alloc: Global,
    old: &'a [Row],
    new: &'a [Row],
) -> Result<Vec<&'a Row>, AllocError>
    ensures { IfOk result (λ rows. AreUnlike old.now new.now (map (λ row. row.now) rows.items)) }
{
    let mut unlike = Vec::new(alloc);
    let mut rest = new;
    for row in old {
        rest = past_row(&mut unlike, row, rest)?;
    }
    push_rows(&mut unlike, rest)?;
    Ok(unlike)
}

/// Looks for a line at the front of the others that are left, behind those with smaller numbers, and returns those behind it. What
/// only one of the lists has is added.
fn past_row<'a>(
    unlike: &mut Vec<&'a Row>,
    row: &'a Row,
    rest: &'a [Row],
) -> Result<&'a [Row], AllocError>
    ensures { IfOk result (λ left. IsPast row.now rest.now left.now
        (map (λ row. row.now) unlike.old.items) (map (λ row. row.now) unlike.new.items)) }
{
    let number = row.entry.line;
    let count = rest.partition_point(|other| other.entry.line < number);
    push_rows(unlike, &rest[..count])?;
    past_first(unlike, row, &rest[count..])
}

/// Returns the others behind the first, if that is the line; or else adds the line.
fn past_first<'a>(
    unlike: &mut Vec<&'a Row>,
    row: &'a Row,
    rest: &'a [Row],
) -> Result<&'a [Row], AllocError>
    ensures { IfOk result (λ left. IsPast row.now rest.now left.now
        (map (λ row. row.now) unlike.old.items) (map (λ row. row.now) unlike.new.items)) }
{
    match behind_row(row, rest) {
        Some(left) => Ok(left),
        None => {
            unlike.push(row)?;
            Ok(rest)
        }
    }
}

/// Returns the lines behind the first, if that is this line.
fn behind_row<'a>(row: &Row, rest: &'a [Row]) -> Option<&'a [Row]>
    ensures { IfSome result (λ left. rest.now ≡ row.now ∷ left.now) }
{
    let (first, left) = rest.split_first()?;
    if is_same_row(row, first) {
        Some(left)
    } else {
        None
    }
}

/// Adds lines.
fn push_rows<'a>(unlike: &mut Vec<&'a Row>, rows: &'a [Row]) -> Result<(), AllocError>
    ensures { OnOk result (map (λ row. row.now) unlike.new.items ≡ map (λ row. row.now) unlike.old.items ++ rows.now) }
{
    for row in rows {
        unlike.push(row)?;
    }
    Ok(())
}
