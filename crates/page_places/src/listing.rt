//! The groups of directories of a file system, as parts for the page.

ghost use Rattle.std.specs.Prelude.{◌≡◌, All, IfOk, map};
ghost use Rattle.desk_impact.specs.Sections.{section_value};
ghost use Rattle.page_data.specs.Opening.{opening_section};
ghost use Rattle.page_places.specs.Groups.{HasToldSizes};
ghost use Rattle.page_data.specs.Groups.{group_value};
ghost use Rattle.page_data.specs.Laws.{TellVerdicts};
ghost use Rattle.page_data.specs.Tables.{CanBeTabled};
ghost use Rattle.page_places.specs.ListedGroups.{AreListed, AreListedGroups, IsPart, listed_value, part_value};

use crate::groups::GroupPart;
use crate::laws::tables_have_sizes;
use crate::listed_openings::openings_of;
use crate::maps::{are_drawn, maps_of_group};
use crate::unlisted_places::{count_directories, has_others, places_left};
use desk_impact::Section;
use desk_text::Sequence;
use page_data::{Group, Opening, groups_can_be_tabled, groups_of, table_of};
use std::alloc::{AllocError, Global};

/// How many groups are listed.
pub(crate) const MOST_LISTED: usize = 100;

/// The places of a file system in groups of those that are granted alike, as they are listed.
#[derive(Drop)]
pub struct ListedGroups<'a> {
    /// The first groups, each with its table and its maps.
    pub groups: Sequence<GroupPart<'a>>,
    /// How many groups there are.
    pub count: u64,
    /// How many directories are in the groups that are not listed, and whether the other directories are in one of them.
    pub unlisted: u64,
    pub has_unlisted_others: bool,
}

/// Lists the places of a file system, with all verdicts at each, in groups of those that are granted alike: the first hundred, in the
/// order of the first place of each. Of the other groups the directories are counted. It is given, too, where the server grants what is
/// denied.
pub fn listed_groups<'a>(
    alloc: Global,
    openings: &[Section<'a, Opening>],
    sections: Vec<Section<'a>>,
) -> Result<ListedGroups<'a>, AllocError>
    requires { TellVerdicts (map section_value sections.items) }
    ensures groups { IfOk result (λ listed. AreListedGroups (map opening_section openings.now) (map section_value sections.entry.items) (listed_value listed)) }
    ensures sizes { IfOk result (λ listed. All HasToldSizes listed.groups) }
{
    groups_can_be_tabled();
    let groups = groups_of(alloc, sections)?;
    list_groups(alloc, openings, groups)
}

/// Lists the first of these groups, and counts what is left out.
fn list_groups<'a>(
    alloc: Global,
    openings: &[Section<'a, Opening>],
    mut groups: Vec<Group<'a>>,
) -> Result<ListedGroups<'a>, AllocError>
    requires { All CanBeTabled (map group_value groups.items) }
    ensures groups { IfOk result (λ listed. AreListed (map opening_section openings.now) (map group_value groups.entry.items) (listed_value listed)) }
    ensures sizes { IfOk result (λ listed. All HasToldSizes listed.groups) }
{
    let count = groups.len();
    let left = places_left(alloc, groups.as_slice())?;
    groups.truncate(MOST_LISTED);
    let parts = parts_of(alloc, are_drawn(count), openings, groups)?;
    Ok(ListedGroups {
        groups: Sequence::from_vec(parts),
        count: count as u64,
        unlisted: count_directories(left.as_slice()) as u64,
        has_unlisted_others: has_others(left.as_slice()),
    })
}

/// Makes the part of each group, given whether groups have maps.
fn parts_of<'a>(
    alloc: Global,
    drawn: bool,
    openings: &[Section<'a, Opening>],
    groups: Vec<Group<'a>>,
) -> Result<Vec<GroupPart<'a>>, AllocError>
    requires { All CanBeTabled (map group_value groups.items) }
    ensures groups { IfOk result (λ parts. map (λ part. group_value part.group) parts.items ≡ map group_value groups.entry.items) }
    ensures parts { IfOk result (λ parts. All (λ part. IsPart drawn (map opening_section openings.now) (part_value part)) parts.items) }
    ensures sizes { IfOk result (λ parts. All HasToldSizes parts.items) }
{
    let mut parts = Vec::new(alloc);
    for group in groups {
        parts.push(part_of(alloc, drawn, openings, group)?)?;
    }
    Ok(parts)
}

/// Makes the part of a group: its table, its maps, and what the server grants of that which is denied.
fn part_of<'a>(
    alloc: Global,
    drawn: bool,
    openings: &[Section<'a, Opening>],
    group: Group<'a>,
) -> Result<GroupPart<'a>, AllocError>
    requires { CanBeTabled (group_value group) }
    ensures group { IfOk result (λ part. group_value part.group ≡ group_value group.entry) }
    ensures part { IfOk result (λ part. IsPart drawn (map opening_section openings.now) (part_value part)) }
    ensures sizes { IfOk result HasToldSizes }
{
    tables_have_sizes();
    let table = table_of(alloc, &group)?;
    let maps = maps_of_group(alloc, drawn, group.sections.as_slice())?;
    let opened = openings_of(alloc, openings, group.sections.as_slice())?;
    Ok(GroupPart {
        group,
        table,
        maps,
        openings: Sequence::from_vec(opened),
    })
}
