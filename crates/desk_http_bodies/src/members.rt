//! The members of an object of JSON, one after another in the byte order of their keys. One that may be left out is added if it is
//! there.

ghost use Rattle.std.specs.Prelude.{◌≡◌, OnOk};
ghost use Rattle.serde_json.specs.Data.{boolean, put as put_member, string};
ghost use Rattle.serde_json.specs.View.{members_view};
ghost use Rattle.desk_http_bodies.specs.Json.{count, put_if};

use desk_text::Text;
use serde_json::{Map, Value, put};
use std::alloc::{AllocError, Global};

/// Adds a member that is a text.
pub fn put_text(
    alloc: Global,
    key: &str,
    text: &str,
    members: &mut Map<String, Value>,
) -> Result<(), AllocError>
    ensures { OnOk result (members_view members.new.entries ≡ put_member key.now (string text.now) (members_view members.old.entries)) }
{
    let value = Value::try_from_str(alloc, text)?;
    put(members, alloc, key, value)
}

/// Adds a member that is a text, if there is one.
pub fn put_text_if(
    alloc: Global,
    key: &str,
    text: &Option<Text>,
    members: &mut Map<String, Value>,
) -> Result<(), AllocError>
    ensures { OnOk result (members_view members.new.entries ≡ put_if key.now string text.now (members_view members.old.entries)) }
{
    match text {
        Some(text) => put_text(alloc, key, text.as_str(), members),
        None => Ok(()),
    }
}

/// Adds a member that is a number.
pub fn put_number(
    alloc: Global,
    key: &str,
    number: u32,
    members: &mut Map<String, Value>,
) -> Result<(), AllocError>
    ensures { OnOk result (members_view members.new.entries ≡ put_member key.now (count number) (members_view members.old.entries)) }
{
    put(members, alloc, key, Value::from(number))
}

/// Adds a member that is a number, if there is one.
pub fn put_number_if(
    alloc: Global,
    key: &str,
    number: Option<u32>,
    members: &mut Map<String, Value>,
) -> Result<(), AllocError>
    ensures { OnOk result (members_view members.new.entries ≡ put_if key.now count number (members_view members.old.entries)) }
{
    match number {
        Some(number) => put_number(alloc, key, number, members),
        None => Ok(()),
    }
}

/// Adds a member that is true or false.
pub fn put_flag(
    alloc: Global,
    key: &str,
    flag: bool,
    members: &mut Map<String, Value>,
) -> Result<(), AllocError>
    ensures { OnOk result (members_view members.new.entries ≡ put_member key.now (boolean flag) (members_view members.old.entries)) }
{
    put(members, alloc, key, Value::from(flag))
}
