//! Who may mount directories that are granted alike.

ghost use Rattle.std.specs.Prelude.{◌≡◌, ◌++◌, All, OnOk};
ghost use Rattle.std.specs.String.{string_bytes};
ghost use Rattle.page_data.specs.Groups.{group_value};
ghost use Rattle.page_places.specs.Names.{members_value};
ghost use Rattle.page_places.specs.Groups as spec;
ghost use Rattle.page_places.specs.Tables.{HasSizes, told_value};

use crate::names::{Members, members_of, push_heading};
use crate::openings::{PlaceOpening, push_openings};
use crate::tables::{granting, push_table_block};
use desk_tables::FsId;
use desk_text::Sequence;
use page_data::{Group, Table};
use page_html::{Element, Part, Tag, push_element, push_tag};
use std::alloc::{AllocError, Global};

/// A group of directories that are granted alike, and who may mount them.
#[derive(Drop)]
pub struct GroupPart<'a> {
    pub group: Group<'a>,
    pub table: Table<'a>,
    /// Its maps, if they are drawn: HTML, which comes onto the page as it is.
    pub maps: String,
    /// What the server grants of that which is denied: for each line that a denial names, to the least client.
    pub openings: Sequence<PlaceOpening<'a>>,
}

/// Adds who may mount the directories of each of these groups.
#[tactic(auto, unfolding(crate::specs::Groups::groups_text))]
pub fn push_groups(
    alloc: Global,
    fs: FsId,
    groups: &[GroupPart<'_>],
    page: &mut String,
) -> Result<(), AllocError>
    requires { All spec.HasToldSizes groups.now }
    ensures { OnOk result (string_bytes page.new ≡ string_bytes page.old ++ spec.groups_text fs.0 groups.now) }
{
    for part in groups {
        push_group(
            alloc,
            fs,
            &part.group,
            part.maps.as_str(),
            &part.table,
            part.openings.as_slice(),
            page,
        )?;
    }
    Ok(())
}

/// Adds who may mount the directories of a group of a file system, given its maps, as HTML, the table of the group, and what the server
/// grants of that which is denied.
pub fn push_group(
    alloc: Global,
    fs: FsId,
    group: &Group<'_>,
    maps: &str,
    table: &Table<'_>,
    openings: &[PlaceOpening<'_>],
    page: &mut String,
) -> Result<(), AllocError>
    requires { HasSizes (told_value table.now) }
    ensures { OnOk result (string_bytes page.new
        ≡ string_bytes page.old ++ spec.group_block fs.0 (group_value group.now) maps.now (told_value table.now) openings.now) }
{
    let members = members_of(alloc, group.sections.as_slice())?;
    push_group_of(alloc, fs, &members, maps, table, openings, page)
}

/// Adds who may mount the directories of a group, given what is in it.
fn push_group_of(
    alloc: Global,
    fs: FsId,
    members: &Members<'_>,
    maps: &str,
    table: &Table<'_>,
    openings: &[PlaceOpening<'_>],
    page: &mut String,
) -> Result<(), AllocError>
    requires { HasSizes (told_value table.now) }
    ensures { OnOk result (string_bytes page.new
        ≡ string_bytes page.old ++ spec.group_by fs.0 (members_value members.now) maps.now (told_value table.now) openings.now) }
{
    push_tag(Tag::PlaceStart, page)?;
    push_heading(alloc, members, page)?;
    push_who(alloc, fs, members, maps, table, page)?;
    push_openings(alloc, fs, openings, page)?;
    push_tag(Tag::SectionEnd, page)
}

/// Adds the maps, and who may mount the directories, or that nobody may.
fn push_who(
    alloc: Global,
    fs: FsId,
    members: &Members<'_>,
    maps: &str,
    table: &Table<'_>,
    page: &mut String,
) -> Result<(), AllocError>
    requires { HasSizes (told_value table.now) }
    ensures { OnOk result (string_bytes page.new ≡ string_bytes page.old ++ spec.who_block fs.0 (members_value members.now) maps.now (told_value table.now)) }
{
    if granting(table.rows.as_slice()) == 0 {
        let words = [Part::Words("Nobody may mount them.")];
        return push_element(alloc, Element::Paragraph, &words, page);
    }
    page.push_str(maps)?;
    push_table_block(alloc, fs, members, table, page)
}
