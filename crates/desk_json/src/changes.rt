//! What another policy would change, as `compare` and `impact` print it as JSON.

ghost use Rattle.std.specs.Prelude.{◌≡◌, ◌++◌, [], None, IfOk, OnOk, map};
ghost use Rattle.std.specs.List.{flat_map};
ghost use Rattle.std.specs.String.{string_bytes};
ghost use Rattle.serde_json.specs.Data.{object, put as put_member, string};
ghost use Rattle.serde_json.specs.View.{members_view, view as data_of};
ghost use Rattle.serde_json.specs.Written.{compact_text};
ghost use Rattle.desk_text.specs.Address.{addr_text, number_of};
ghost use Rattle.desk_policy.specs.Verdict.{verdict_result};
ghost use Rattle.desk_impact.specs.Impact.{change_value};
ghost use Rattle.desk_impact.specs.ListedChanges.{listed_change, listed_place};
ghost use Rattle.desk_impact.specs.Places.{place_of};
ghost use Rattle.desk_http_bodies.specs.Verdicts.{verdict_data};
ghost use Rattle.desk_json.specs.Changes as spec;
ghost use Rattle.desk_json.specs.Changes.{ChangesNameMounts, change_data, changes_at, changes_data, place_data};

use desk_http_bodies::members::{put_flag, put_text};
use desk_http_bodies::ranges::address_text;
use desk_http_bodies::verdicts::verdict_value;
use desk_impact::{Change, ListedChange, ListedPlace, Place};
use desk_policy::{Policy, Verdict};
use desk_text::{Addr, Path};
use serde_json::{Map, Value, json, put};
use std::alloc::{AllocError, Global};

/// Writes the object of what another policy would change: all changes of these places, or those alone that matter to a client.
pub fn changes_object(
    alloc: Global,
    before: &Policy,
    after: &Policy,
    all: bool,
    found: &[ListedPlace<'_>],
) -> Result<String, AllocError>
    ensures { IfOk result (λ text. string_bytes text ≡ compact_text (changes_data before.now after.now all (map listed_place found.now))) }
{
    let value = changes_value(alloc, before, after, all, found)?;
    value.to_string(alloc)
}

/// Of the policies only the mount points count.
pub fn changes_name_mounts()
    ensures { ChangesNameMounts }
{}

/// Makes the value of what another policy would change.
fn changes_value(
    alloc: Global,
    before: &Policy,
    after: &Policy,
    all: bool,
    found: &[ListedPlace<'_>],
) -> Result<Value, AllocError>
    ensures { IfOk result (λ value. data_of value ≡ changes_data before.now after.now all (map listed_place found.now)) }
{
    let values = change_values(alloc, before, after, all, found)?;
    json!(in alloc; {"changes": values})
}

/// Makes the values of the changes that are listed, of each place.
fn change_values(
    alloc: Global,
    before: &Policy,
    after: &Policy,
    all: bool,
    found: &[ListedPlace<'_>],
) -> Result<Vec<Value>, AllocError>
    ensures { IfOk result (λ values. map data_of values.items ≡ flat_map (place_data before.now after.now all) (map listed_place found.now)) }
{
    let mut values = Vec::new(alloc);
    for place in found {
        push_changes(
            alloc,
            before,
            after,
            all,
            place.place,
            place.changes.as_slice(),
            &mut values,
        )?;
    }
    Ok(values)
}

/// Adds the values of the changes of a place that are listed.
fn push_changes(
    alloc: Global,
    before: &Policy,
    after: &Policy,
    all: bool,
    place: Place<'_>,
    changes: &[ListedChange<'_>],
    values: &mut Vec<Value>,
) -> Result<(), AllocError>
    ensures { OnOk result (map data_of values.new.items
        ≡ map data_of values.old.items ++ changes_at before.now after.now all (place_of place.entry) (map listed_change changes.now)) }
{
    for one in changes {
        if all || one.matters {
            let value = change_value(alloc, before, after, place, &one.change, one.matters)?;
            values.push(value)?;
        }
    }
    Ok(())
}

/// Makes the value of a change at a place.
fn change_value(
    alloc: Global,
    before: &Policy,
    after: &Policy,
    place: Place<'_>,
    change: &Change<'_>,
    matters: bool,
) -> Result<Value, AllocError>
    ensures { IfOk result (λ value. data_of value
        ≡ change_data before.now after.now (place_of place.entry) (change_value change.now) matters) }
{
    let mut members = Map::new(alloc);
    put_change(alloc, before, after, place, change, matters, &mut members)?;
    Ok(Value::Object(members))
}

/// Adds the members of a change at a place. (The map is lent, so that its proof is cheap.)
fn put_change(
    alloc: Global,
    before: &Policy,
    after: &Policy,
    place: Place<'_>,
    change: &Change<'_>,
    matters: bool,
    members: &mut Map<String, Value>,
) -> Result<(), AllocError>
    requires { members.old.entries ≡ [] }
    ensures { OnOk result (object (members_view members.new.entries)
        ≡ change_data before.now after.now (place_of place.entry) (change_value change.now) matters) }
{
    put_verdict(alloc, "after", after, &change.value.after, members)?;
    put_verdict(alloc, "before", before, &change.value.before, members)?;
    put_text(alloc, "dir", dir_of(place).text(), members)?;
    put_address(alloc, "first", change.first, members)?;
    put_address(alloc, "last", change.last, members)?;
    put_flag(alloc, "matters", matters, members)?;
    put_flag(alloc, "others", is_others(place), members)
}

/// Adds a verdict under a policy.
fn put_verdict(
    alloc: Global,
    key: &str,
    policy: &Policy,
    verdict: &Verdict<'_>,
    members: &mut Map<String, Value>,
) -> Result<(), AllocError>
    ensures { OnOk result (members_view members.new.entries
        ≡ put_member key.now (verdict_data policy.now None (verdict_result verdict.now)) (members_view members.old.entries)) }
{
    let value = verdict_value(alloc, policy, verdict, &None)?;
    put(members, alloc, key, value)
}

/// Adds an address.
fn put_address(
    alloc: Global,
    key: &str,
    address: Addr,
    members: &mut Map<String, Value>,
) -> Result<(), AllocError>
    ensures { OnOk result (members_view members.new.entries
        ≡ put_member key.now (string (addr_text (number_of address))) (members_view members.old.entries)) }
{
    let text = address_text(alloc, address)?;
    put_text(alloc, key, text.as_str(), members)
}

/// Lends the directory of a place, or the mount point whose other directories it is.
fn dir_of<'a>(place: Place<'a>) -> &'a Path
    ensures { result.now ≡ spec.dir_of (place_of place.entry) }
{
    match place {
        Place::Directory(path) => path,
        Place::Others(mount) => mount,
    }
}

/// Tests whether a place is the other directories of a mount point.
fn is_others(place: Place<'_>) -> bool
    ensures { result ≡ spec.is_others (place_of place.entry) }
{
    match place {
        Place::Directory(_) => false,
        Place::Others(_) => true,
    }
}
