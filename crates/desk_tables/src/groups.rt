//! The groups of a site. (group(5))

ghost use Rattle.std.specs.Prelude.{◌≡◌, [], IfOk, OnOk, map};
ghost use Rattle.std.specs.List.{All};
ghost use Rattle.std.specs.Option.{option_copied};
ghost use Rattle.desk_text.specs.Lines.{IsReadable};
ghost use Rattle.desk_text.specs.Reading.{Reads};
ghost use Rattle.desk_tables.specs.Faults.{IsPlaced};
ghost use Rattle.desk_tables.specs.Credentials.{at_most_16};
ghost use Rattle.desk_tables.specs.Groups as spec;
ghost use Rattle.desk_tables.specs.PrivateIndex.{AddsUnderEach, HasGroupNames, HasMembers, listed};

use crate::colon_lines::{field, field_count, field_slice, is_skipped, read_number};
use crate::credentials::GroupIds;
use crate::faults::{PlacedFault, Slice, find_faults};
use crate::index::{add_first, add_under, row_at};
use crate::rows::read_rows;
use crate::rules::{TableFault, TableRule};
use crate::users::User;
use desk_text::{ReadError, Sequence, Text};
use std::alloc::{AllocError, Global};
use std::collections::BTreeMap;
use std::marker::Model;

/// A row of the groups: a name, its number, and the names of its members in the order written.
#[derive(Drop)]
pub struct Group {
    pub name: Text,
    pub gid: u32,
    pub members: Sequence<Text>,
}

/// The groups of a text, in its order, with the place of the first group of each name, and the gids of the groups that
/// list each member.
pub struct Groups {
    rows: Sequence<Group>,
    by_name: BTreeMap<String, usize>,
    by_member: BTreeMap<String, Vec<u32>>,
}

// It is written out, so that the crates above do not prove again how each part is dropped.
impl Drop for Groups {
    fn drop(self) {
        let Groups {
            rows: _,
            by_name: _,
            by_member: _,
        } = self;
    }
}

impl Model for Groups {
    ghost use Rattle.std.specs.Prelude.{List};
    ghost use Rattle.desk_tables.specs.PrivateIndex.{HasGroupNames, HasMembers};
    ghost use Rattle.desk_tables.specs.declared.groups.Group.{Group};

    ghost Value = { List Group };

    ghost view = { λ groups. groups.rows };

    ghost invariant = { λ groups. HasGroupNames groups.rows groups.by_name × HasMembers groups.rows groups.by_member };
}

impl Groups {
    /// Makes the table without groups.
    pub fn new(alloc: Global) -> Groups
        ensures { result ≡ [] }
    {
        Groups {
            rows: Sequence::new(alloc),
            by_name: BTreeMap::new(alloc),
            by_member: BTreeMap::new(alloc),
        }
    }

    /// Reads lines `group:password:gid:member,member`; empty members are dropped. Lines of blanks, and those whose first
    /// character that is not a blank is `#`, are skipped. A line may break Fields (not four), Number (the gid is not a
    /// decimal up to 4294967295) and Name (it is empty).
    pub fn read(alloc: Global, text: &str) -> Result<Groups, ReadError<TableFault>>
        requires { IsReadable text.now }
        ensures { Reads result (spec.read_groups text.now) }
    {
        let rows = read_rows(alloc, text, read_group)?;
        let by_name = places_by_name(alloc, rows.as_slice())?;
        let by_member = gids_by_member(alloc, rows.as_slice())?;
        Ok(Groups {
            rows,
            by_name,
            by_member,
        })
    }

    /// Finds the faults of a text: all its faulty lines, in order, each with the first rule that it breaks and the place
    /// of the slice at fault. `read` reports the first of them.
    pub fn faults(alloc: Global, text: &str) -> Result<Sequence<PlacedFault>, AllocError>
        requires { IsReadable text.now }
        ensures faults { IfOk result (λ found. map (λ one. one.fault) found ≡ spec.group_faults text.now) }
        ensures placed { IfOk result (All (IsPlaced text.now)) }
    {
        find_faults(alloc, text, read_group, slice_at_fault)
    }

    /// Finds the group of a name, byte for byte: the first row that has it.
    pub fn by_name(&self, name: &str) -> Option<&Group>
        ensures { option_copied result ≡ spec.group_of_name self.now name.now }
    {
        row_at(self.rows.as_slice(), self.by_name.get(name))
    }

    /// Lists the gids of a user: its own, then those of the groups that list its name, in the order of the table, each
    /// once. There are none if they are more than sixteen.
    pub fn gids_of(&self, user: &User) -> Option<GroupIds>
        ensures { result ≡ at_most_16 (spec.gids_of self.now user.now) }
    {
        let mut gids = GroupIds::of(user.gid);
        for gid in listed_gids(&self.by_member, user.name.as_str()) {
            if !gids.insert_distinct(*gid) {
                return None;
            }
        }
        Some(gids)
    }
}

impl Group {
    /// Tests whether a name, byte for byte, is listed as a member.
    pub fn has_member(&self, name: &str) -> bool
        ensures { result ≡ spec.has_member name.now self.now }
    {
        self.members
            .as_slice()
            .iter()
            .any(|member| name == member.as_str())
    }
}

/// Lends the gids that are listed under the name.
fn listed_gids<'a>(index: &'a BTreeMap<String, Vec<u32>>, name: &str) -> &'a [u32]
    ensures { result.now ≡ listed index.now name.now }
{
    match index.get(name) {
        Some(gids) => gids.as_slice(),
        None => &[],
    }
}

/// Indexes the place of the first group of each name.
fn places_by_name(alloc: Global, rows: &[Group]) -> Result<BTreeMap<String, usize>, AllocError>
    ensures { IfOk result (λ index. HasGroupNames rows.now index) }
{
    let mut index = BTreeMap::new(alloc);
    for (place, group) in rows.iter().enumerate() {
        add_first(alloc, &mut index, group.name.as_str(), place)?;
    }
    Ok(index)
}

/// Indexes the gids of the groups that list each member, in the order of the groups.
fn gids_by_member(alloc: Global, rows: &[Group]) -> Result<BTreeMap<String, Vec<u32>>, AllocError>
    ensures { IfOk result (λ index. HasMembers rows.now index) }
{
    let mut index = BTreeMap::new(alloc);
    for group in rows {
        add_members(alloc, &mut index, group.members.as_slice(), group.gid)?;
    }
    Ok(index)
}

/// Adds the gid under each of the members.
fn add_members(
    alloc: Global,
    index: &mut BTreeMap<String, Vec<u32>>,
    members: &[Text],
    gid: u32,
) -> Result<(), AllocError>
    ensures { OnOk result (AddsUnderEach (λ name. name) index.old index.new members.now gid) }
{
    for member in members {
        add_under(index, String::from_str(alloc, member.as_str())?, gid)?;
    }
    Ok(())
}

/// Reads the group of a line, or the first rule that it breaks.
fn read_group(alloc: Global, line: &str) -> Result<Option<Group>, ReadError<TableRule>>
    ensures { Reads result (spec.line_answer line.now) }
{
    if is_skipped(line) {
        return Ok(None);
    }
    if field_count(line) != 4 {
        return Err(ReadError::Fault(TableRule::Fields));
    }
    let Some(gid) = read_number(field(line, 2)) else {
        return Err(ReadError::Fault(TableRule::Number));
    };
    let name = field(line, 0);
    if name.is_empty() {
        return Err(ReadError::Fault(TableRule::Name));
    }
    let name = Text::copy(alloc, name)?;
    let members = read_members(alloc, field(line, 3))?;
    Ok(Some(Group { name, gid, members }))
}

/// Reads the members that a text names, between its commas, without the empty ones.
fn read_members(alloc: Global, text: &str) -> Result<Sequence<Text>, AllocError>
    ensures { IfOk result (λ members. members ≡ spec.members_in text.now) }
{
    let mut members = Sequence::new(alloc);
    for member in text.split(',') {
        if !member.is_empty() {
            members.push(Text::copy(alloc, member)?)?;
        }
    }
    Ok(members)
}

/// Finds the slice of a line at fault, if this is the first rule that it breaks: the field that breaks it, or of another
/// number of fields the fifth, or the last.
fn slice_at_fault(line: &str, rule: TableRule) -> Slice {
    match rule {
        TableRule::Number => field_slice(line, 2),
        TableRule::Name => field_slice(line, 0),
        _ => field_slice(line, 4),
    }
}
