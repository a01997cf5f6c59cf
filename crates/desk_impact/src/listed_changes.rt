//! What another policy would change, listed place by place, for programs.

ghost use Rattle.std.specs.Prelude.{◌≡◌, ◌<◌, All, IfOk, OnOk, length, map};
ghost use Rattle.std.specs.Bool.{Decides};
ghost use Rattle.desk_policy.specs.Policy.{with_lines_of};
ghost use Rattle.desk_impact.specs.Impact.{Matters, change_value};
ghost use Rattle.desk_impact.specs.KnownSystems.{IsKnownChange};
ghost use Rattle.desk_impact.specs.ListedChanges.{AreListed, AreListedAt, listed_change, listed_place};
ghost use Rattle.desk_impact.specs.Places.{AreInOrder, paths_in, place_of, taken_by};
ghost use Rattle.desk_impact.specs.PrivateListedChanges.{AreListedAmong, AreMarked, IsListedAmong, is_asked};
ghost use Rattle.desk_impact.specs.Writings.{AreWritings};

use crate::changes::{Change, TwoVerdicts, has_same_effect};
use crate::known_systems::Known;
use crate::laws::same_sayings_are_no_change;
use crate::place_changes::changes_at;
use crate::places::{Place, is_place_in, places_of_both, places_of_proposed, taken_paths};
use crate::writings::{Writing, writings_of_both};
use desk_policy::PolicyView;
use desk_tables::{FileSystems, FsId};
use desk_text::{Path, Sequence};
use std::alloc::{AllocError, Global};

/// A change, and whether it matters to a client: the mount is granted by one of the policies alone, or on other terms.
#[derive(Clone, Copy)]
pub struct ListedChange<'a> {
    pub change: Change<'a>,
    pub matters: bool,
}

/// What changes at a place, for whom, ascending; nothing, if both policies say the same there.
#[derive(Drop)]
pub struct ListedPlace<'a> {
    pub place: Place<'a>,
    pub changes: Sequence<ListedChange<'a>>,
}

/// Lists what would change if another policy were in force: each place with all its changes, those too that matter to no client.
/// The places are those of which `impact_report` tells.
pub fn list_changes<'a, V: PolicyView>(
    alloc: Global,
    before: &'a V,
    after: &'a V,
) -> Result<Vec<ListedPlace<'a>>, AllocError>
    ensures { IfOk result (λ found. AreListed (V.in_force before.now) (V.in_force after.now) (map listed_place found.items)) }
{
    let places = places_of_both(alloc, before.policy(), after.policy())?;
    list_among(alloc, before, after, None, places.as_slice())
}

/// Lists what would change if a file system had the lines that it has in another policy, which has the same file systems; what
/// other lines that one has does not count. It is the list that `list_changes` gives of the two whole policies, but only the
/// places of that file system are asked, since nothing changes elsewhere.
pub fn list_line_changes<'a, V: PolicyView>(
    alloc: Global,
    before: &'a V,
    lines: &'a V,
    fs: FsId,
) -> Result<Vec<ListedPlace<'a>>, AllocError>
    requires fs { fs.0 < length (V.in_force before.now).table }
    requires table { (V.in_force lines.now).table ≡ (V.in_force before.now).table }
    ensures { IfOk result (λ found. AreListed (V.in_force before.now) (with_lines_of (V.in_force before.now) fs.0 (V.in_force lines.now)) (map listed_place found.items)) }
{
    // Verdicts that say the same are no change, and a policy has one list of lines for each file system.
    same_sayings_are_no_change();
    let policy = before.policy();
    let _rows = policy.rows_by_filesystem();
    let places = places_of_proposed(alloc, policy, lines.policy().rows(fs))?;
    list_among(alloc, before, lines, Some(fs), places.as_slice())
}

/// Lists what would change at these places if another policy were in force: at those of this file system, or else at all. No others
/// are asked, and nothing is listed of them.
fn list_among<'a, V: PolicyView>(
    alloc: Global,
    before: &'a V,
    after: &'a V,
    only: Option<FsId>,
    places: &[Place<'a>],
) -> Result<Vec<ListedPlace<'a>>, AllocError>
    ensures { IfOk result (λ found. AreListedAmong (V.in_force before.now) (V.in_force after.now) only (map place_of places.now) (map listed_place found.items)) }
{
    let taken = taken_paths(alloc, before.policy(), after.policy())?;
    let writings = writings_of_both(alloc, before.policy(), after.policy())?;
    let mut known = Vec::new(alloc);
    let mut listed = Vec::new(alloc);
    for place in places {
        let one = list_place(
            alloc,
            before,
            after,
            taken.as_slice(),
            writings.as_slice(),
            only,
            *place,
            &mut known,
        )?;
        listed.push(one)?;
    }
    Ok(listed)
}

/// Lists what would change at a place, if it is asked about.
fn list_place<'a, V: PolicyView>(
    alloc: Global,
    before: &'a V,
    after: &'a V,
    taken: &[&Path],
    writings: &[Writing<'_>],
    only: Option<FsId>,
    place: Place<'a>,
    known: &mut Vec<Known<TwoVerdicts<'a>>>,
) -> Result<ListedPlace<'a>, AllocError>
    requires taken { AreInOrder (taken_by (V.in_force before.now) (V.in_force after.now)) (paths_in taken.now) }
    requires writings { AreWritings (V.in_force before.now) (V.in_force after.now) writings.now }
    requires known { All (IsKnownChange (V.in_force before.now) (V.in_force after.now)) known.old.items }
    ensures place { IfOk result (λ found. place_of found.place ≡ place_of place.entry) }
    ensures changes { IfOk result (λ found. IsListedAmong (V.in_force before.now) (V.in_force after.now) only (listed_place found)) }
    ensures known { OnOk result (All (IsKnownChange (V.in_force before.now) (V.in_force after.now)) known.new.items) }
{
    if is_asked(before.policy().filesystems(), only, place) {
        list_asked(alloc, before, after, taken, writings, place, known)
    } else {
        let changes = Sequence::new(alloc);
        Ok(ListedPlace { place, changes })
    }
}

/// Lists what would change at a place.
fn list_asked<'a, V: PolicyView>(
    alloc: Global,
    before: &'a V,
    after: &'a V,
    taken: &[&Path],
    writings: &[Writing<'_>],
    place: Place<'a>,
    known: &mut Vec<Known<TwoVerdicts<'a>>>,
) -> Result<ListedPlace<'a>, AllocError>
    requires taken { AreInOrder (taken_by (V.in_force before.now) (V.in_force after.now)) (paths_in taken.now) }
    requires writings { AreWritings (V.in_force before.now) (V.in_force after.now) writings.now }
    requires known { All (IsKnownChange (V.in_force before.now) (V.in_force after.now)) known.old.items }
    ensures place { IfOk result (λ found. place_of found.place ≡ place_of place.entry) }
    ensures changes { IfOk result (λ found. AreListedAt (V.in_force before.now) (V.in_force after.now) (listed_place found)) }
    ensures known { OnOk result (All (IsKnownChange (V.in_force before.now) (V.in_force after.now)) known.new.items) }
{
    let changes = changes_at(alloc, before, after, taken, writings, place, known)?;
    let listed = marked(alloc, changes.as_slice())?;
    let changes = Sequence::from_vec(listed);
    Ok(ListedPlace { place, changes })
}

/// Tests whether a place is asked about: it is in this file system, or there is none to ask about alone.
fn is_asked(table: &FileSystems, only: Option<FsId>, place: Place<'_>) -> bool
    ensures { result ≡ is_asked table.now only (place_of place.entry) }
{
    match only {
        Some(fs) => is_place_in(table, fs, place),
        None => true,
    }
}

/// Marks which changes matter to a client.
fn marked<'a>(alloc: Global, changes: &[Change<'a>]) -> Result<Vec<ListedChange<'a>>, AllocError>
    ensures { IfOk result (λ listed. AreMarked (map change_value changes.now) (map listed_change listed.items)) }
{
    let mut listed = Vec::new(alloc);
    for change in changes {
        listed.push(ListedChange {
            change: *change,
            matters: matters(change),
        })?;
    }
    Ok(listed)
}

/// Tests whether a change matters to a client.
fn matters(change: &Change<'_>) -> bool
    ensures { Decides result (Matters (change_value change.now).value) }
{
    !has_same_effect(&change.value.before, &change.value.after)
}
