//! The places of the groups that are not listed.

ghost use Rattle.std.specs.Prelude.{◌≡◌, ◌++◌, ◌||◌, IfOk, OnOk, drop, if◌then◌else◌, map};
ghost use Rattle.desk_impact.specs.Places.{place_of};
ghost use Rattle.desk_impact.specs.Sections.{section_value};
ghost use Rattle.page_data.specs.Groups.{group_value};
ghost use Rattle.page_places.specs.ListedGroups as spec;
ghost use Rattle.page_places.specs.ListedGroups.{most_listed, places_in, places_of};

use crate::listing::MOST_LISTED;
use desk_impact::{Place, Section};
use page_data::Group;
use std::alloc::{AllocError, Global};

/// Lists the places of the groups behind those that are listed.
pub(crate) fn places_left<'a>(
    alloc: Global,
    groups: &[Group<'a>],
) -> Result<Vec<Place<'a>>, AllocError>
    ensures { IfOk result (λ places. map place_of places.items ≡ places_in (drop most_listed (map group_value groups.now))) }
{
    places_in(alloc, behind_listed(groups))
}

/// Lends the groups behind those that are listed.
fn behind_listed<'a, 'b>(groups: &'b [Group<'a>]) -> &'b [Group<'a>]
    ensures { result.now ≡ drop most_listed groups.now }
{
    if groups.len() <= MOST_LISTED {
        &groups[groups.len()..]
    } else {
        &groups[MOST_LISTED..]
    }
}

/// Lists the places of groups.
fn places_in<'a>(alloc: Global, groups: &[Group<'a>]) -> Result<Vec<Place<'a>>, AllocError>
    ensures { IfOk result (λ places. map place_of places.items ≡ places_in (map group_value groups.now)) }
{
    let mut places = Vec::new(alloc);
    for group in groups {
        push_places(&mut places, group.sections.as_slice())?;
    }
    Ok(places)
}

/// Adds the places of a group.
fn push_places<'a>(places: &mut Vec<Place<'a>>, sections: &[Section<'a>]) -> Result<(), AllocError>
    ensures { OnOk result (map place_of places.new.items ≡ map place_of places.old.items ++ places_of (map section_value sections.now)) }
{
    for section in sections {
        places.push(section.place)?;
    }
    Ok(())
}

/// Counts the directories among places.
pub(crate) fn count_directories(places: &[Place<'_>]) -> usize
    ensures { result ≡ spec.directories_among (map place_of places.now) }
{
    let mut count = 0;
    for place in places {
        count += count_place(*place);
    }
    count
}

/// Counts a place, if it is a directory.
fn count_place(place: Place<'_>) -> usize
    ensures { result ≡ (if spec.is_directory (place_of place.entry) then 1 else 0) }
{
    match place {
        Place::Directory(_) => 1,
        Place::Others(_) => 0,
    }
}

/// Tests whether the other directories are among places.
pub(crate) fn has_others(places: &[Place<'_>]) -> bool
    ensures { result ≡ spec.has_others (map place_of places.now) }
{
    let mut has = false;
    for place in places {
        has = with_place(has, *place);
    }
    has
}

/// Tests whether a place stands for the other directories, or one before it did.
fn with_place(has: bool, place: Place<'_>) -> bool
    ensures { result ≡ (has || spec.is_others (place_of place.entry)) }
{
    match place {
        Place::Directory(_) => has,
        Place::Others(_) => true,
    }
}
