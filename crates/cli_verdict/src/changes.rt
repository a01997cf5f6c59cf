//! The exit status of changes that are listed.

ghost use Rattle.std.specs.Prelude.{◌≡◌, map};
ghost use Rattle.std.specs.List.{list_any};
ghost use Rattle.desk_impact.specs.ListedChanges.{listed_place};
ghost use Rattle.cli_verdict.specs.Changes as spec;

use desk_impact::{ListedChange, ListedPlace};

/// Returns the exit status of changes: 1 if one of them matters to a client, else 0.
pub fn changes_status(found: &[ListedPlace<'_>]) -> u8
    ensures { result ≡ spec.changes_status (map listed_place found.now) }
{
    if any_matters(found) { 1 } else { 0 }
}

/// Tests whether a change at one of these places matters to a client.
fn any_matters(found: &[ListedPlace<'_>]) -> bool
    ensures { result ≡ list_any spec.matters_at (map listed_place found.now) }
{
    any_place_matters(found)
}

fn any_place_matters(found: &[ListedPlace<'_>]) -> bool
    ensures { result ≡ list_any (λ place. spec.matters_at (listed_place place)) found.now }
{
    found.iter().any(|place| matters_at(place))
}

/// Tests whether a change at this place matters to a client.
fn matters_at(place: &ListedPlace<'_>) -> bool
    ensures { result ≡ spec.matters_at (listed_place place.now) }
{
    any_change_matters(place.changes.as_slice())
}

fn any_change_matters(changes: &[ListedChange<'_>]) -> bool
    ensures { result ≡ list_any (λ one. one.matters) changes.now }
{
    changes.iter().any(|one| one.matters)
}
