//! Directories that are granted alike, in groups.

ghost use Rattle.std.specs.Prelude.{◌≡◌, ◌++◌, [], ◌∷◌, IfOk, None, OnOk, Some, map};
ghost use Rattle.std.specs.List.{flat_map, position_from};
ghost use Rattle.desk_who.specs.Who.{range_value};
ghost use Rattle.desk_impact.specs.Sections.{section_value};
ghost use Rattle.page_data.specs.Groups.{AreSectionGroups, group_value};
ghost use Rattle.page_data.specs.PrivateGroups as spec;
ghost use Rattle.page_data.specs.PrivateGroups.{AreNumbered, has_key, numbers_of, with_section};
ghost use Rattle.page_data.specs.PrivateSections.{with_section_at};
ghost use Rattle.page_data.specs.Rows.{ByOrder};

use desk_impact::Section;
use desk_policy::Verdict;
use desk_text::Sequence;
use desk_who::{Range, verdicts_are_discrete};
use std::alloc::{AllocError, Global};
use std::collections::BTreeMap;

/// Places that are granted alike: at each address by one line on the same terms, or not.
#[derive(Drop)]
pub struct Group<'a> {
    pub sections: Sequence<Section<'a>>,
}

/// Puts the places of a file system, with all verdicts at each, into groups of those that are granted alike: in the order of the first
/// place of each, and of their places.
pub fn groups_of<'a>(
    alloc: Global,
    sections: Vec<Section<'a>>,
) -> Result<Vec<Group<'a>>, AllocError>
    requires { ByOrder (flat_map (λ section. section.ranges) (map section_value sections.items)) }
    ensures { IfOk result (λ groups. AreSectionGroups (map section_value sections.entry.items) (map group_value groups.items)) }
{
    verdicts_are_discrete();
    let mut numbers = BTreeMap::new(alloc);
    let mut groups = Vec::new(alloc);
    for section in sections {
        let key = key_of(alloc, section.ranges.as_slice())?;
        add_section(alloc, &mut numbers, &mut groups, key, section)?;
    }
    Ok(groups)
}

/// Adds a place to the group with its key, or to a new one.
fn add_section<'a>(
    alloc: Global,
    numbers: &mut BTreeMap<Vec<u32>, usize>,
    groups: &mut Vec<Group<'a>>,
    key: Vec<u32>,
    section: Section<'a>,
) -> Result<(), AllocError>
    requires numbered { AreNumbered numbers.old (map group_value groups.old.items) }
    requires key { key.items ≡ spec.key_of (section_value section).ranges }
    ensures added { OnOk result (map group_value groups.new.items ≡ with_section (section_value section.entry) (map group_value groups.old.items)) }
    ensures numbered { OnOk result (AreNumbered numbers.new (map group_value groups.new.items)) }
{
    match numbers.get(&key).copied() {
        Some(number) => push_at(groups, number, section),
        None => push_new(alloc, numbers, groups, key, section),
    }
}

/// Adds a place to the group with a number, if there is one.
fn push_at<'a>(
    groups: &mut Vec<Group<'a>>,
    number: usize,
    section: Section<'a>,
) -> Result<(), AllocError>
    ensures { OnOk result (map group_value groups.new.items ≡ with_section_at (Some number) (map group_value groups.old.items) (section_value section.entry)) }
{
    if let Some(group) = groups.get_mut(number) {
        group.sections.push(section)?;
    }
    Ok(())
}

/// Adds a place in a group of its own, under a key that no other has.
fn push_new<'a>(
    alloc: Global,
    numbers: &mut BTreeMap<Vec<u32>, usize>,
    groups: &mut Vec<Group<'a>>,
    key: Vec<u32>,
    section: Section<'a>,
) -> Result<(), AllocError>
    requires numbered { AreNumbered numbers.old (map group_value groups.old.items) }
    requires key { key.items ≡ spec.key_of (section_value section).ranges }
    requires none { position_from (has_key key.items) 0 (map group_value groups.old.items) ≡ None }
    ensures added { OnOk result (map group_value groups.new.items ≡ map group_value groups.old.items ++ (section_value section.entry ∷ []) ∷ []) }
    ensures numbered { OnOk result (AreNumbered numbers.new (map group_value groups.new.items)) }
{
    let mut sections = Sequence::new(alloc);
    sections.push(section)?;
    numbers.insert(key, groups.len())?;
    groups.push(Group { sections })?;
    Ok(())
}

/// Gathers the granted ranges of a place as numbers, by which they are told apart: of each its first and its last address, and the line.
fn key_of(alloc: Global, ranges: &[Range<'_>]) -> Result<Vec<u32>, AllocError>
    ensures { IfOk result (λ key. key.items ≡ spec.key_of (map range_value ranges.now)) }
{
    let mut key = Vec::new(alloc);
    for range in ranges {
        push_numbers(&mut key, range)?;
    }
    Ok(key)
}

/// Adds those of a range, if it is granted.
fn push_numbers(key: &mut Vec<u32>, range: &Range<'_>) -> Result<(), AllocError>
    ensures { OnOk result (key.new.items ≡ key.old.items ++ numbers_of (range_value range.now)) }
{
    match range.value {
        Verdict::Granted { line, .. } => {
            let numbers = [range.first.number(), range.last.number(), line];
            key.extend_from_slice(&numbers)
        }
        Verdict::Denied(_) => Ok(()),
    }
}
