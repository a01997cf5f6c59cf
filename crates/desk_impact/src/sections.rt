//! Where something is found, at a directory and at all below it, and for whom.

ghost use Rattle.std.specs.Prelude.{◌≡◌, ◌++◌, ◌∷◌, [], IfOk, OnOk, false, filter, map, true};
ghost use Rattle.desk_text.specs.Path.{is_under};
ghost use Rattle.desk_tables.specs.FileSystems.{mount_points};
ghost use Rattle.desk_who.specs.Runs.{run_value};
ghost use Rattle.desk_who.specs.Searching.{ByRule};
ghost use Rattle.desk_impact.specs.Places.{all_written, paths_in, place_of};
ghost use Rattle.desk_impact.specs.Sections.{AreFoundIn, ArePlacesBelow, has_some, place_found, roots_below};

use crate::place_findings::findings_at;
use crate::places::{Place, in_order, places_of_mounts, push_all_written, taken_paths};
use crate::writings::writings_of_both;
use desk_policy::{Policy, Verdict};
use desk_tables::Mount;
use desk_text::{Path, Sequence};
use desk_who::{Alike, Run, Search, found_runs};
use std::alloc::{AllocError, Global};

/// A place at which something is found, such as a verdict, and for whom: the longest runs of addresses, ascending.
#[derive(Drop)]
pub struct Section<'a, T = Verdict<'a>> {
    pub place: Place<'a>,
    pub ranges: Sequence<Run<T>>,
}

/// Lists where something is found, at a directory, and if asked at all below it, and for whom: by place, in the order of
/// `places_below`. A place at which nothing is found is left out. The policy is that of the search.
pub fn found_in<'a, T: Alike, S: Search<T>>(
    alloc: Global,
    policy: &'a Policy,
    search: &S,
    dir: &'a Path,
    below: bool,
) -> Result<Vec<Section<'a, T>>, AllocError>
    requires { policy.now ≡ S.in_force search.now }
    ensures { IfOk result (λ sections. ByRule T.meaning (S.found search.now) (S.in_force search.now) (S.turns search.now) (λ rule.
        AreFoundIn rule (S.in_force search.now) dir.now below (map (place_found T.meaning) sections.items))) }
{
    if below {
        found_below(alloc, policy, search, dir)
    } else {
        found_alone(alloc, search, dir)
    }
}

/// Lists for whom something is found at a directory, as the one section, if there is one.
fn found_alone<'a, T: Alike, S: Search<T>>(
    alloc: Global,
    search: &S,
    dir: &'a Path,
) -> Result<Vec<Section<'a, T>>, AllocError>
    ensures { IfOk result (λ sections. ByRule T.meaning (S.found search.now) (S.in_force search.now) (S.turns search.now) (λ rule.
        AreFoundIn rule (S.in_force search.now) dir.now false (map (place_found T.meaning) sections.items))) }
{
    let runs = found_runs(alloc, search, dir)?;
    let mut sections = Vec::new(alloc);
    push_if_some(Place::Directory(dir), runs, &mut sections)?;
    Ok(sections)
}

/// Lists where something is found, at a directory and at all below it, and for whom.
fn found_below<'a, T: Alike, S: Search<T>>(
    alloc: Global,
    policy: &'a Policy,
    search: &S,
    dir: &'a Path,
) -> Result<Vec<Section<'a, T>>, AllocError>
    requires { policy.now ≡ S.in_force search.now }
    ensures { IfOk result (λ sections. ByRule T.meaning (S.found search.now) (S.in_force search.now) (S.turns search.now) (λ rule.
        AreFoundIn rule (S.in_force search.now) dir.now true (map (place_found T.meaning) sections.items))) }
{
    let places = places_below(alloc, policy, dir)?;
    let taken = taken_paths(alloc, policy, policy)?;
    let writings = writings_of_both(alloc, policy, policy)?;
    let mut known = Vec::new(alloc);
    let mut sections = Vec::new(alloc);
    for place in places.as_slice() {
        let runs = findings_at(
            alloc,
            search,
            taken.as_slice(),
            writings.as_slice(),
            *place,
            &mut known,
        )?;
        push_if_some(*place, runs, &mut sections)?;
    }
    Ok(sections)
}

/// Lists the places of a directory and of all below it, by root in byte order: the roots are the directory, and the mount
/// points below it. Of each come the root, the directories that lines write below it, and its other directories.
pub fn places_below<'a>(
    alloc: Global,
    policy: &'a Policy,
    dir: &'a Path,
) -> Result<Vec<Place<'a>>, AllocError>
    ensures { IfOk result (λ places. ArePlacesBelow policy.now dir.now (map place_of places.items)) }
{
    let roots = in_order(roots_below(alloc, policy, dir)?);
    let dirs = in_order(all_written(alloc, policy)?);
    places_of_mounts(alloc, roots.as_slice(), dirs.as_slice())
}

/// Lists a directory and the mount points under it, among them the directory itself if it is one.
fn roots_below<'a>(
    alloc: Global,
    policy: &'a Policy,
    dir: &'a Path,
) -> Result<Vec<&'a Path>, AllocError>
    ensures { IfOk result (λ roots. paths_in roots.items ≡ roots_below policy.now dir.now) }
{
    let mut roots = Vec::new(alloc);
    roots.push(dir)?;
    for mount in policy.filesystems().as_slice() {
        push_if_under(&mut roots, dir, mount)?;
    }
    Ok(roots)
}

/// Adds a mount point, if it is under a directory.
fn push_if_under<'a>(
    roots: &mut Vec<&'a Path>,
    dir: &Path,
    mount: &'a Mount,
) -> Result<(), AllocError>
    ensures { OnOk result (paths_in roots.new.items
        ≡ paths_in roots.old.items ++ filter (λ one. is_under one dir.now) (mount_points (mount.now ∷ []))) }
{
    if mount.path.is_under(dir) {
        roots.push(&mount.path)?;
    }
    Ok(())
}

/// Lists the directories that lines of a policy write, some of them more than once.
fn all_written<'a>(alloc: Global, policy: &'a Policy) -> Result<Vec<&'a Path>, AllocError>
    ensures { IfOk result (λ dirs. paths_in dirs.items ≡ all_written policy.now) }
{
    let mut dirs = Vec::new(alloc);
    push_all_written(&mut dirs, policy)?;
    Ok(dirs)
}

/// Adds a place with what is found there, if there is something.
fn push_if_some<'a, T: Alike>(
    place: Place<'a>,
    runs: Vec<Run<T>>,
    sections: &mut Vec<Section<'a, T>>,
) -> Result<(), AllocError>
    ensures { OnOk result (map (place_found T.meaning) sections.new.items
        ≡ map (place_found T.meaning) sections.old.items
        ++ filter has_some (record { place = place_of place.entry; ranges = map (run_value T.meaning) runs.items } ∷ [])) }
{
    if runs.is_empty() {
        drop(runs);
        return Ok(());
    }
    sections.push(Section {
        place,
        ranges: Sequence::from_vec(runs),
    })?;
    Ok(())
}
