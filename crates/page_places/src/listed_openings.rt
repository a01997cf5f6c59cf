//! What the server grants of that which is denied at some places.

ghost use Rattle.std.specs.Prelude.{◌≡◌, ◌||◌, ◌++◌, IfOk, OnOk, map};
ghost use Rattle.desk_text.specs.Path.{same_path};
ghost use Rattle.desk_who.specs.Runs.{run_value};
ghost use Rattle.desk_impact.specs.Places.{place_of};
ghost use Rattle.desk_impact.specs.Sections.{section_value};
ghost use Rattle.page_data.specs.Opening as openings_spec;
ghost use Rattle.page_data.specs.Opening.{opening_section};
ghost use Rattle.page_places.specs.Openings.{opening_value};
ghost use Rattle.page_places.specs.ListedOpenings as spec;
ghost use Rattle.page_places.specs.ListedOpenings.{AreOpeningsOf};

use crate::openings::PlaceOpening;
use desk_impact::{Place, Section};
use desk_text::Path;
use desk_who::Run;
use page_data::Opening;
use std::alloc::{AllocError, Global};

/// Lists for each line that a denial at these places names the least client to whom the server grants what is denied, if there is one,
/// given where it does.
pub(crate) fn openings_of<'a>(
    alloc: Global,
    openings: &[Section<'a, Opening>],
    places: &[Section<'_>],
) -> Result<Vec<PlaceOpening<'a>>, AllocError>
    ensures { IfOk result (λ found. AreOpeningsOf (map opening_section openings.now) (map section_value places.now) found.items) }
{
    let mut found = all_among(alloc, openings, places)?;
    found.sort_by_key(order_of)?;
    found.dedup_by(|one, last| one.denied == last.denied);
    Ok(found)
}

/// Returns what tells the place of one of them among the others.
fn order_of(one: &PlaceOpening<'_>) -> [u32; 2]
    ensures { result ≡ spec.order_of one.now }
{
    [one.denied, one.address.number()]
}

/// Gathers what the server grants at these places, with the first address of each range.
fn all_among<'a>(
    alloc: Global,
    openings: &[Section<'a, Opening>],
    places: &[Section<'_>],
) -> Result<Vec<PlaceOpening<'a>>, AllocError>
    ensures { IfOk result (λ all. map opening_value all.items ≡ spec.all_among (map section_value places.now) (map opening_section openings.now)) }
{
    let mut all = Vec::new(alloc);
    for section in openings {
        push_if_among(&mut all, section, places)?;
    }
    Ok(all)
}

/// Adds what it grants at a place, if that is one of these.
fn push_if_among<'a>(
    all: &mut Vec<PlaceOpening<'a>>,
    section: &Section<'a, Opening>,
    places: &[Section<'_>],
) -> Result<(), AllocError>
    ensures { OnOk result (map opening_value all.new.items
        ≡ map opening_value all.old.items ++ spec.opened_if (map section_value places.now) (opening_section section.now)) }
{
    if is_among(places, section.place) {
        push_opened(all, section.place, section.ranges.as_slice())?;
    }
    Ok(())
}

/// Adds what it grants at a place.
fn push_opened<'a>(
    all: &mut Vec<PlaceOpening<'a>>,
    place: Place<'a>,
    ranges: &[Run<Opening>],
) -> Result<(), AllocError>
    ensures { OnOk result (map opening_value all.new.items
        ≡ map opening_value all.old.items ++ map (spec.opened_by (place_of place.entry)) (map (run_value openings_spec.opening_value) ranges.now)) }
{
    for run in ranges {
        all.push(opened_at(place, run))?;
    }
    Ok(())
}

/// Makes what it grants at a place to the first address of a range.
fn opened_at<'a>(place: Place<'a>, run: &Run<Opening>) -> PlaceOpening<'a>
    ensures { opening_value result ≡ spec.opened_by (place_of place.entry) (run_value openings_spec.opening_value run.now) }
{
    PlaceOpening {
        place,
        address: run.first,
        denied: run.value.denied,
        line: run.value.line,
    }
}

/// Tests whether a place is one of these.
fn is_among(places: &[Section<'_>], place: Place<'_>) -> bool
    ensures { result ≡ spec.is_among (map section_value places.now) (place_of place.entry) }
{
    let mut has = false;
    for section in places {
        has = has_or_is(has, section.place, place);
    }
    has
}

/// Tests whether a place is another one, or one before it was.
fn has_or_is(has: bool, place: Place<'_>, other: Place<'_>) -> bool
    ensures { result ≡ (has || spec.same_place (place_of place.entry) (place_of other.entry)) }
{
    has || is_same(place, other)
}

/// Tests whether two places are the same.
fn is_same(place: Place<'_>, other: Place<'_>) -> bool
    ensures { result ≡ spec.same_place (place_of place.entry) (place_of other.entry) }
{
    match (place, other) {
        (Place::Directory(path), Place::Directory(same)) => are_equal(path, same),
        (Place::Others(mount), Place::Others(same)) => are_equal(mount, same),
        (Place::Directory(_), Place::Others(_)) | (Place::Others(_), Place::Directory(_)) => false,
    }
}

/// Tests whether two paths are equal.
fn are_equal(path: &Path, other: &Path) -> bool
    ensures { result ≡ same_path path.now other.now }
{
    *path == *other
}
