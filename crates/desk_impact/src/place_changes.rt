//! What another policy would change at a place.

ghost use Rattle.std.specs.Prelude.{◌≡◌, All, IfOk, OnOk, map};
ghost use Rattle.desk_tables.specs.FileSystems.{fs_of};
ghost use Rattle.desk_impact.specs.Impact.{IsImpact, change_value, verdicts_at};
ghost use Rattle.desk_impact.specs.KnownSystems.{IsKnownChange, fs_number};
ghost use Rattle.desk_impact.specs.Places.{AreInOrder, paths_in, place_of, place_verdicts, taken_by};
ghost use Rattle.desk_impact.specs.PrivateKnownSystems.{HasLearnedChange};
ghost use Rattle.desk_impact.specs.Writings.{AreWritings};

use crate::changes::{Change, TwoVerdicts, impact};
use crate::known_systems::{Known, copied, known_place};
use crate::mostly_same::impact_beside;
use crate::places::{Place, path_of};
use crate::unlike_lines::starts_of_changes;
use crate::unwritten_path::free_path;
use crate::writings::{Writing, writers};
use desk_policy::PolicyView;
use desk_text::{Path, Sequence};
use desk_who::starts_within;
use std::alloc::{AllocError, Global};

/// Lists the changes of a place. What is found of the directories that no line writes is known from then on.
pub fn changes_at<'a, V: PolicyView>(
    alloc: Global,
    before: &'a V,
    after: &'a V,
    taken: &[&Path],
    writings: &[Writing<'_>],
    place: Place<'_>,
    known: &mut Vec<Known<TwoVerdicts<'a>>>,
) -> Result<Vec<Change<'a>>, AllocError>
    requires taken { AreInOrder (taken_by (V.in_force before.now) (V.in_force after.now)) (paths_in taken.now) }
    requires writings { AreWritings (V.in_force before.now) (V.in_force after.now) writings.now }
    requires known { All (IsKnownChange (V.in_force before.now) (V.in_force after.now)) known.old.items }
    ensures changes { IfOk result (λ changes. let old = V.in_force before.now in let new = V.in_force after.now in
        IsImpact old new (place_verdicts old new (place_of place.entry)) (map change_value changes.items)) }
    ensures known { OnOk result (All (IsKnownChange (V.in_force before.now) (V.in_force after.now)) known.new.items) }
{
    let own = learn_changes(alloc, before, after, taken, path_of(place), known)?;
    let one = &known[own];
    match place {
        Place::Directory(path) => changes_beside(alloc, before, after, writings, one, path),
        Place::Others(_) => copied(alloc, one.found.as_slice()),
    }
}

/// Finds what is known of the file systems of a path; finds it out, if it is not known yet.
fn learn_changes<'a, V: PolicyView>(
    alloc: Global,
    before: &'a V,
    after: &'a V,
    taken: &[&Path],
    path: &Path,
    known: &mut Vec<Known<TwoVerdicts<'a>>>,
) -> Result<usize, AllocError>
    requires taken { AreInOrder (taken_by (V.in_force before.now) (V.in_force after.now)) (paths_in taken.now) }
    requires known { All (IsKnownChange (V.in_force before.now) (V.in_force after.now)) known.old.items }
    ensures { IfOk result (HasLearnedChange (V.in_force before.now) (V.in_force after.now) path.now known.new.items) }
{
    let old = before.policy().filesystems().of(path);
    let new = after.policy().filesystems().of(path);
    if let Some(own) = known_place(known.as_slice(), old, new) {
        return Ok(own);
    }
    let other = free_path(alloc, path, taken)?;
    let starts = starts_of_changes(alloc, before.policy(), after.policy(), path)?;
    let changes = impact(alloc, before, after, &other)?;
    known.push(Known {
        old,
        new,
        starts,
        found: Sequence::from_vec(changes),
    })?;
    Ok(known.len() - 1)
}

/// Lists the changes of a directory, given what is known of its file systems: it is asked only where a line that writes it
/// begins or ceases to match, and at those of the known starts at which one matches.
fn changes_beside<'a, V: PolicyView>(
    alloc: Global,
    before: &'a V,
    after: &'a V,
    writings: &[Writing<'_>],
    known: &Known<TwoVerdicts<'a>>,
    path: &Path,
) -> Result<Vec<Change<'a>>, AllocError>
    requires writings { AreWritings (V.in_force before.now) (V.in_force after.now) writings.now }
    requires known { IsKnownChange (V.in_force before.now) (V.in_force after.now) known.now }
    requires old { fs_number known.now.old ≡ fs_of (V.in_force before.now).table path.now }
    requires new { fs_number known.now.new ≡ fs_of (V.in_force after.now).table path.now }
    ensures { IfOk result (λ changes. let old = V.in_force before.now in let new = V.in_force after.now in
        IsImpact old new (verdicts_at old new path.now) (map change_value changes.items)) }
{
    let rows = writers(alloc, writings, path)?;
    let decided = starts_within(alloc, &known.starts, rows.as_slice())?;
    impact_beside(alloc, before, after, path, known.found.as_slice(), &decided)
}
