//! The users of a site. (passwd(5))

ghost use Rattle.std.specs.Prelude.{◌≡◌, [], IfOk, map};
ghost use Rattle.std.specs.List.{All};
ghost use Rattle.std.specs.Option.{option_copied};
ghost use Rattle.desk_text.specs.Lines.{IsReadable};
ghost use Rattle.desk_text.specs.Reading.{Reads};
ghost use Rattle.desk_tables.specs.Faults.{IsPlaced};
ghost use Rattle.desk_tables.specs.PrivateIndex.{HasUserNames, HasUserNumbers};
ghost use Rattle.desk_tables.specs.Users as spec;

use crate::colon_lines::{field, field_count, field_slice, is_skipped, read_number};
use crate::faults::{PlacedFault, Slice, find_faults};
use crate::index::{add_first, add_first_number, row_at};
use crate::rows::read_rows;
use crate::rules::{TableFault, TableRule};
use desk_text::{ReadError, Sequence, Text};
use std::alloc::{AllocError, Global};
use std::collections::BTreeMap;
use std::marker::Model;

/// A row of the users: a name, its number, and the number of its own group.
#[derive(Drop)]
pub struct User {
    pub name: Text,
    pub uid: u32,
    pub gid: u32,
}

/// The users of a text, in its order, with the places of the first user of each name and of each number.
pub struct Users {
    rows: Sequence<User>,
    by_name: BTreeMap<String, usize>,
    by_uid: BTreeMap<u32, usize>,
}

// It is written out, so that the crates above do not prove again how each part is dropped.
impl Drop for Users {
    fn drop(self) {
        let Users {
            rows: _,
            by_name: _,
            by_uid: _,
        } = self;
    }
}

impl Model for Users {
    ghost use Rattle.std.specs.Prelude.{List};
    ghost use Rattle.desk_tables.specs.PrivateIndex.{HasUserNames, HasUserNumbers};
    ghost use Rattle.desk_tables.specs.declared.users.User.{User};

    ghost Value = { List User };

    ghost view = { λ users. users.rows };

    ghost invariant = { λ users. HasUserNames users.rows users.by_name × HasUserNumbers users.rows users.by_uid };
}

impl Users {
    /// Makes the table without users.
    pub fn new(alloc: Global) -> Users
        ensures { result ≡ [] }
    {
        Users {
            rows: Sequence::new(alloc),
            by_name: BTreeMap::new(alloc),
            by_uid: BTreeMap::new(alloc),
        }
    }

    /// Reads lines `name:password:uid:gid:gecos:home:shell`. Lines of blanks, and those whose first character that is not a
    /// blank is `#`, are skipped. A line may break Fields (not seven), Number (the uid or the gid is not a decimal up to
    /// 4294967295) and Name (it is empty).
    pub fn read(alloc: Global, text: &str) -> Result<Users, ReadError<TableFault>>
        requires { IsReadable text.now }
        ensures { Reads result (spec.read_users text.now) }
    {
        let rows = read_rows(alloc, text, read_user)?;
        let by_name = places_by_name(alloc, rows.as_slice())?;
        let by_uid = places_by_uid(alloc, rows.as_slice())?;
        Ok(Users {
            rows,
            by_name,
            by_uid,
        })
    }

    /// Finds the faults of a text: all its faulty lines, in order, each with the first rule that it breaks and the place
    /// of the slice at fault. `read` reports the first of them.
    pub fn faults(alloc: Global, text: &str) -> Result<Sequence<PlacedFault>, AllocError>
        requires { IsReadable text.now }
        ensures faults { IfOk result (λ found. map (λ one. one.fault) found ≡ spec.user_faults text.now) }
        ensures placed { IfOk result (All (IsPlaced text.now)) }
    {
        find_faults(alloc, text, read_user, slice_at_fault)
    }

    /// Finds the user of a name, byte for byte: the first row that has it.
    pub fn by_name(&self, name: &str) -> Option<&User>
        ensures { option_copied result ≡ spec.user_of_name self.now name.now }
    {
        row_at(self.rows.as_slice(), self.by_name.get(name))
    }

    /// Finds the user of a number: the first row that has it, whatever its name.
    pub fn by_uid(&self, uid: u32) -> Option<&User>
        ensures { option_copied result ≡ spec.user_of_uid self.now uid }
    {
        row_at(self.rows.as_slice(), self.by_uid.get(&uid))
    }
}

/// Indexes the place of the first user of each name.
fn places_by_name(alloc: Global, rows: &[User]) -> Result<BTreeMap<String, usize>, AllocError>
    ensures { IfOk result (λ index. HasUserNames rows.now index) }
{
    let mut index = BTreeMap::new(alloc);
    for (place, user) in rows.iter().enumerate() {
        add_first(alloc, &mut index, user.name.as_str(), place)?;
    }
    Ok(index)
}

/// Indexes the place of the first user of each number.
fn places_by_uid(alloc: Global, rows: &[User]) -> Result<BTreeMap<u32, usize>, AllocError>
    ensures { IfOk result (λ index. HasUserNumbers rows.now index) }
{
    let mut index = BTreeMap::new(alloc);
    for (place, user) in rows.iter().enumerate() {
        add_first_number(&mut index, user.uid, place)?;
    }
    Ok(index)
}

/// Reads the user of a line, or the first rule that it breaks.
fn read_user(alloc: Global, line: &str) -> Result<Option<User>, ReadError<TableRule>>
    ensures { Reads result (spec.line_answer line.now) }
{
    if is_skipped(line) {
        return Ok(None);
    }
    if field_count(line) != 7 {
        return Err(ReadError::Fault(TableRule::Fields));
    }
    let (Some(uid), Some(gid)) = (read_number(field(line, 2)), read_number(field(line, 3))) else {
        return Err(ReadError::Fault(TableRule::Number));
    };
    let name = field(line, 0);
    if name.is_empty() {
        return Err(ReadError::Fault(TableRule::Name));
    }
    let name = Text::copy(alloc, name)?;
    Ok(Some(User { name, uid, gid }))
}

/// Finds the slice of a line at fault, if this is the first rule that it breaks: the field that breaks it, or of another
/// number of fields the eighth, or the last.
fn slice_at_fault(line: &str, rule: TableRule) -> Slice {
    match rule {
        TableRule::Number if read_number(field(line, 2)).is_some() => field_slice(line, 3),
        TableRule::Number => field_slice(line, 2),
        TableRule::Name => field_slice(line, 0),
        _ => field_slice(line, 7),
    }
}
