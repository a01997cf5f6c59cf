//! What changes at each place of a file system.

ghost use Rattle.std.specs.Prelude.{◌≡◌, ◌++◌, IfOk, OnOk, map};
ghost use Rattle.desk_impact.specs.Impact.{change_value};
ghost use Rattle.desk_impact.specs.Places.{place_of};
ghost use Rattle.page_places.specs.Changes.{each_with, row_value};
ghost use Rattle.page_places.specs.PrivateImpacts.{AreAllAt};

use crate::change_rows::ChangeRow;
use desk_impact::{Change, Place, changes_at, taken_paths, writings_of_both};
use desk_policy::PolicyView;
use std::alloc::{AllocError, Global};

/// Lists what changes at these places.
pub(crate) fn changes_at_places<'a, V: PolicyView>(
    alloc: Global,
    before: &'a V,
    after: &'a V,
    places: &[Place<'a>],
) -> Result<Vec<ChangeRow<'a>>, AllocError>
    ensures { IfOk result (λ rows. AreAllAt (V.in_force before.now) (V.in_force after.now) (map place_of places.now) (map row_value rows.items)) }
{
    let taken = taken_paths(alloc, before.policy(), after.policy())?;
    let writings = writings_of_both(alloc, before.policy(), after.policy())?;
    let mut known = Vec::new(alloc);
    let mut rows = Vec::new(alloc);
    for place in places {
        let changes = changes_at(
            alloc,
            before,
            after,
            taken.as_slice(),
            writings.as_slice(),
            *place,
            &mut known,
        )?;
        push_changes(&mut rows, *place, changes.as_slice())?;
    }
    Ok(rows)
}

/// Adds changes at a place.
fn push_changes<'a>(
    rows: &mut Vec<ChangeRow<'a>>,
    place: Place<'a>,
    changes: &[Change<'a>],
) -> Result<(), AllocError>
    ensures { OnOk result (map row_value rows.new.items
        ≡ map row_value rows.old.items ++ each_with (place_of place.entry) (map change_value changes.now)) }
{
    for change in changes {
        rows.push(row_of(place, change))?;
    }
    Ok(())
}

/// Puts a change with its place.
fn row_of<'a>(place: Place<'a>, change: &Change<'a>) -> ChangeRow<'a>
    ensures { row_value result ≡ record { place = place_of place.entry; change = change_value change.now } }
{
    ChangeRow {
        place,
        first: change.first,
        last: change.last,
        before: change.value.before,
        after: change.value.after,
    }
}
