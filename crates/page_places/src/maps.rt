//! The maps of a group of directories.

ghost use Rattle.std.specs.Prelude.{◌≡◌, ◌&&◌, IfOk, map};
ghost use Rattle.std.specs.Result.{is_ok};
ghost use Rattle.std.specs.String.{string_bytes};
ghost use Rattle.desk_policy.specs.Verdict.{verdict_result};
ghost use Rattle.desk_who.specs.Who.{range_value};
ghost use Rattle.desk_impact.specs.Sections.{section_value};
ghost use Rattle.page_data.specs.Tables.{CanBeTabled, ranges_at_first};
ghost use Rattle.page_data.specs.Values.{AreRunsOfSome};
ghost use Rattle.page_places.specs.Maps as spec;
ghost use Rattle.page_places.specs.Maps.{AreMapsIf, AreMapsOf, AreMapsOfGroup};

use desk_impact::Section;
use desk_policy::Verdict;
use desk_who::Range;
use page_data::classes_from;
use page_maps::push_group_maps;
use std::alloc::{AllocError, Global};

/// How many groups may have maps of their own.
const MOST_DRAWN: usize = 12;

/// Tests whether each of so many groups may have maps of its own: if there is one, its maps are those of the file system.
pub(crate) fn are_drawn(count: usize) -> bool
    ensures { result ≡ spec.are_drawn count }
{
    1 < count && count <= MOST_DRAWN
}

/// Draws the maps of a group, if groups have maps, and the group grants something.
pub(crate) fn maps_of_group(
    alloc: Global,
    drawn: bool,
    sections: &[Section<'_>],
) -> Result<String, AllocError>
    requires { CanBeTabled (map section_value sections.now) }
    ensures { IfOk result (λ maps. AreMapsOfGroup drawn (map section_value sections.now) (string_bytes maps)) }
{
    match sections.first() {
        Some(first) => maps_if_drawn(alloc, drawn, first.ranges.as_slice()),
        None => Ok(String::new(alloc)),
    }
}

/// Draws the maps of a place, if groups have maps, and somebody may mount it.
fn maps_if_drawn(alloc: Global, drawn: bool, ranges: &[Range<'_>]) -> Result<String, AllocError>
    requires { AreRunsOfSome (map range_value ranges.now) }
    ensures { IfOk result (λ maps.
        AreMapsIf (drawn && spec.grants_some (map range_value ranges.now)) (map range_value ranges.now) (string_bytes maps)) }
{
    if drawn && grants_some(ranges) {
        drawn_maps(alloc, ranges)
    } else {
        Ok(String::new(alloc))
    }
}

/// Draws the maps of a place.
fn drawn_maps(alloc: Global, ranges: &[Range<'_>]) -> Result<String, AllocError>
    requires { AreRunsOfSome (map range_value ranges.now) }
    ensures { IfOk result (λ maps. AreMapsOf (map range_value ranges.now) (string_bytes maps)) }
{
    let runs = classes_from(alloc, ranges)?;
    let mut maps = String::new(alloc);
    push_group_maps(alloc, runs.as_slice(), &mut maps)?;
    Ok(maps)
}

/// Tests whether somebody may mount a place.
fn grants_some(ranges: &[Range<'_>]) -> bool
    ensures { result ≡ spec.grants_some (map range_value ranges.now) }
{
    for range in ranges {
        if is_granted(&range.value) {
            return true;
        }
    }
    false
}

/// Tests whether a verdict grants.
fn is_granted(verdict: &Verdict<'_>) -> bool
    ensures { result ≡ is_ok (verdict_result verdict.now) }
{
    match verdict {
        Verdict::Granted { .. } => true,
        Verdict::Denied(_) => false,
    }
}
