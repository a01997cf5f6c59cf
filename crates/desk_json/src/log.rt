//! The revisions of a file, as `log` prints them as JSON.

ghost use Rattle.std.specs.Prelude.{◌≡◌, [], IfOk, OnOk, map};
ghost use Rattle.std.specs.String.{string_bytes};
ghost use Rattle.serde_json.specs.Data.{object};
ghost use Rattle.serde_json.specs.View.{members_view, view};
ghost use Rattle.serde_json.specs.Written.{compact_text};
ghost use Rattle.desk_json.specs.Log as spec;
ghost use Rattle.desk_json.specs.Log.{log_data, revision_data};

use desk_exports::Profile;
use desk_http_bodies::members::{put_number, put_number_if, put_text, put_text_if};
use desk_policy::SiteFile;
use desk_store::Signature;
use serde_json::{Map, Value, json};
use std::alloc::{AllocError, Global};

/// Writes the object of a file's revisions.
pub fn log_object(alloc: Global, name: &str, revisions: &[Signature]) -> Result<String, AllocError>
    ensures { IfOk result (λ text. string_bytes text ≡ compact_text (log_data name.now revisions.now)) }
{
    let value = log_value(alloc, name, revisions)?;
    value.to_string(alloc)
}

/// Makes the value of a file's revisions.
fn log_value(alloc: Global, name: &str, revisions: &[Signature]) -> Result<Value, AllocError>
    ensures { IfOk result (λ value. view value ≡ log_data name.now revisions.now) }
{
    let values = revision_values(alloc, name, revisions)?;
    json!(in alloc; {"name": name, "revisions": values})
}

/// Makes the values of revisions.
fn revision_values(
    alloc: Global,
    name: &str,
    revisions: &[Signature],
) -> Result<Vec<Value>, AllocError>
    ensures { IfOk result (λ values. map view values.items ≡ map (revision_data name.now) revisions.now) }
{
    let mut values = Vec::new(alloc);
    for revision in revisions {
        values.push(revision_value(alloc, name, revision)?)?;
    }
    Ok(values)
}

/// Makes the value of a revision of a file.
fn revision_value(alloc: Global, name: &str, revision: &Signature) -> Result<Value, AllocError>
    ensures { IfOk result (λ value. view value ≡ revision_data name.now revision.now) }
{
    let mut members = Map::new(alloc);
    put_revision(alloc, name, revision, &mut members)?;
    Ok(Value::Object(members))
}

/// Adds the members of a revision of a file. (The map is lent, so that its proof is cheap.)
fn put_revision(
    alloc: Global,
    name: &str,
    revision: &Signature,
    members: &mut Map<String, Value>,
) -> Result<(), AllocError>
    requires { members.old.entries ≡ [] }
    ensures { OnOk result (object (members_view members.new.entries) ≡ revision_data name.now revision.now) }
{
    let profile = told_profile(name, revision.profile);
    put_text_if(alloc, "approver", &revision.approver, members)?;
    put_text(alloc, "author", revision.author.as_str(), members)?;
    put_number_if(alloc, "profile", profile, members)?;
    put_number(alloc, "rev", revision.rev, members)
}

/// Returns what is told of the profile of a revision of a file.
fn told_profile(name: &str, profile: Profile) -> Option<u32>
    ensures { result ≡ spec.told_profile name.now profile }
{
    match profile {
        Profile::One => {
            if SiteFile::is_name(name) {
                None
            } else {
                Some(1)
            }
        }
        Profile::Two => None,
    }
}
