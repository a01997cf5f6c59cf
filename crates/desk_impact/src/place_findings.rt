//! What is found at a place, and for whom.

ghost use Rattle.std.specs.Prelude.{◌≡◌, All, IfOk, OnOk, map};
ghost use Rattle.desk_tables.specs.FileSystems.{fs_of};
ghost use Rattle.desk_who.specs.Runs.{AreRunsWithValue, run_value};
ghost use Rattle.desk_who.specs.Searching.{ByRule, found_at};
ghost use Rattle.desk_impact.specs.KnownSystems.{fs_number};
ghost use Rattle.desk_impact.specs.Places.{AreInOrder, paths_in, place_of, taken_by};
ghost use Rattle.desk_impact.specs.PrivateKnownSystems.{AreKnownFindings, HasLearnedFindings};
ghost use Rattle.desk_impact.specs.Sections.{found_of};
ghost use Rattle.desk_impact.specs.Writings.{AreWritings};

use crate::known_systems::{Known, copied, known_place};
use crate::places::{Place, path_of};
use crate::unwritten_path::free_path;
use crate::writings::{Writing, writers};
use desk_text::{Path, Sequence};
use desk_who::{Alike, Run, Search, found_beside, found_runs, found_starts, starts_within};
use std::alloc::{AllocError, Global};

/// Lists what is found at a place. What is found of the directories that no line writes is known from then on.
pub(crate) fn findings_at<T: Alike, S: Search<T>>(
    alloc: Global,
    search: &S,
    taken: &[&Path],
    writings: &[Writing<'_>],
    place: Place<'_>,
    known: &mut Vec<Known<T>>,
) -> Result<Vec<Run<T>>, AllocError>
    requires taken { AreInOrder (taken_by (S.in_force search.now) (S.in_force search.now)) (paths_in taken.now) }
    requires writings { AreWritings (S.in_force search.now) (S.in_force search.now) writings.now }
    requires known { All (AreKnownFindings T.meaning (S.found search.now) (S.in_force search.now) (S.turns search.now)) known.old.items }
    ensures runs { IfOk result (λ runs. ByRule T.meaning (S.found search.now) (S.in_force search.now) (S.turns search.now) (λ rule.
        AreRunsWithValue (found_of rule (S.in_force search.now) (place_of place.entry)) (map (run_value T.meaning) runs.items))) }
    ensures known { OnOk result (All (AreKnownFindings T.meaning (S.found search.now) (S.in_force search.now) (S.turns search.now)) known.new.items) }
{
    let own = learn_findings(alloc, search, taken, path_of(place), known)?;
    let one = &known[own];
    match place {
        Place::Directory(path) => findings_beside(alloc, search, writings, one, path),
        Place::Others(_) => copied(alloc, one.found.as_slice()),
    }
}

/// Finds what is known of the file system of a path; finds it out, if it is not known yet.
fn learn_findings<T: Alike, S: Search<T>>(
    alloc: Global,
    search: &S,
    taken: &[&Path],
    path: &Path,
    known: &mut Vec<Known<T>>,
) -> Result<usize, AllocError>
    requires taken { AreInOrder (taken_by (S.in_force search.now) (S.in_force search.now)) (paths_in taken.now) }
    requires known { All (AreKnownFindings T.meaning (S.found search.now) (S.in_force search.now) (S.turns search.now)) known.old.items }
    ensures { IfOk result (HasLearnedFindings T.meaning (S.found search.now) (S.in_force search.now) (S.turns search.now) path.now known.new.items) }
{
    let fs = search.policy().filesystems().of(path);
    if let Some(own) = known_place(known.as_slice(), fs, fs) {
        return Ok(own);
    }
    let other = free_path(alloc, path, taken)?;
    let starts = found_starts(alloc, search, path)?;
    let runs = found_runs(alloc, search, &other)?;
    known.push(Known {
        old: fs,
        new: fs,
        starts,
        found: Sequence::from_vec(runs),
    })?;
    Ok(known.len() - 1)
}

/// Lists what is found for a directory, given what is known of its file system: it is asked only where a line that writes it
/// matches.
fn findings_beside<T: Alike, S: Search<T>>(
    alloc: Global,
    search: &S,
    writings: &[Writing<'_>],
    known: &Known<T>,
    path: &Path,
) -> Result<Vec<Run<T>>, AllocError>
    requires writings { AreWritings (S.in_force search.now) (S.in_force search.now) writings.now }
    requires known { AreKnownFindings T.meaning (S.found search.now) (S.in_force search.now) (S.turns search.now) known.now }
    requires fs { fs_number known.now.old ≡ fs_of (S.in_force search.now).table path.now }
    ensures { IfOk result (λ runs. ByRule T.meaning (S.found search.now) (S.in_force search.now) (S.turns search.now) (λ rule.
        AreRunsWithValue (found_at rule (S.in_force search.now) path.now) (map (run_value T.meaning) runs.items))) }
{
    let rows = writers(alloc, writings, path)?;
    let decided = starts_within(alloc, &known.starts, rows.as_slice())?;
    found_beside(alloc, search, path, known.found.as_slice(), &decided)
}
