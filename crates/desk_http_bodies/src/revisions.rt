//! The bodies of replies on the revisions of a file, and on its proposal.

ghost use Rattle.std.specs.Prelude.{◌≡◌, [], IfOk, OnOk, map};
ghost use Rattle.std.specs.String.{string_bytes};
ghost use Rattle.serde_json.specs.Data.{object};
ghost use Rattle.serde_json.specs.View.{members_view, view};
ghost use Rattle.serde_json.specs.Written.{compact_text};
ghost use Rattle.desk_http_bodies.specs.Revisions.{file_data, proposal_data, revision_data, revisions_data};

use crate::members::{put_number, put_text, put_text_if};
use desk_core::Proposal;
use desk_service::FileText;
use desk_store::Signature;
use serde_json::{Map, Value, json};
use std::alloc::{AllocError, Global};

/// Writes the body of a revision with its text, and with who approved it, if anybody did.
pub fn file_body(alloc: Global, name: &str, text: &FileText) -> Result<String, AllocError>
    ensures { IfOk result (λ body. string_bytes body ≡ compact_text (file_data name.now text.now)) }
{
    let value = file_value(alloc, name, text)?;
    value.to_string(alloc)
}

/// Makes the value of a revision with its text.
fn file_value(alloc: Global, name: &str, text: &FileText) -> Result<Value, AllocError>
    ensures { IfOk result (λ value. view value ≡ file_data name.now text.now) }
{
    let mut members = Map::new(alloc);
    put_file(alloc, name, text, &mut members)?;
    Ok(Value::Object(members))
}

/// Adds the members of a revision with its text. (The map is lent, so that its proof is cheap.)
fn put_file(
    alloc: Global,
    name: &str,
    text: &FileText,
    members: &mut Map<String, Value>,
) -> Result<(), AllocError>
    requires { members.old.entries ≡ [] }
    ensures { OnOk result (object (members_view members.new.entries) ≡ file_data name.now text.now) }
{
    put_text_if(alloc, "approver", &text.approver, members)?;
    put_text(alloc, "author", text.author.as_str(), members)?;
    put_text(alloc, "body", text.body.as_str(), members)?;
    put_text(alloc, "name", name, members)?;
    put_number(alloc, "rev", text.rev, members)
}

/// Writes the body of the proposal of a file.
pub fn proposal_body(alloc: Global, name: &str, proposal: &Proposal) -> Result<String, AllocError>
    ensures { IfOk result (λ body. string_bytes body ≡ compact_text (proposal_data name.now proposal.now)) }
{
    let value = proposal_value(alloc, name, proposal)?;
    value.to_string(alloc)
}

/// Makes the value of the proposal of a file.
fn proposal_value(alloc: Global, name: &str, proposal: &Proposal) -> Result<Value, AllocError>
    ensures { IfOk result (λ value. view value ≡ proposal_data name.now proposal.now) }
{
    let mut members = Map::new(alloc);
    put_proposal(alloc, name, proposal, &mut members)?;
    Ok(Value::Object(members))
}

/// Adds the members of the proposal of a file.
fn put_proposal(
    alloc: Global,
    name: &str,
    proposal: &Proposal,
    members: &mut Map<String, Value>,
) -> Result<(), AllocError>
    requires { members.old.entries ≡ [] }
    ensures { OnOk result (object (members_view members.new.entries) ≡ proposal_data name.now proposal.now) }
{
    put_text(alloc, "author", proposal.author.as_str(), members)?;
    put_number(alloc, "base", proposal.base, members)?;
    put_text(alloc, "body", proposal.body.as_str(), members)?;
    put_text(alloc, "name", name, members)
}

/// Writes the body of the list of a file's revisions.
pub fn revisions_body(
    alloc: Global,
    name: &str,
    revisions: &[Signature],
) -> Result<String, AllocError>
    ensures { IfOk result (λ body. string_bytes body ≡ compact_text (revisions_data name.now revisions.now)) }
{
    let value = revisions_value(alloc, name, revisions)?;
    value.to_string(alloc)
}

/// Makes the value of a list of revisions.
fn revisions_value(alloc: Global, name: &str, revisions: &[Signature]) -> Result<Value, AllocError>
    ensures { IfOk result (λ value. view value ≡ revisions_data name.now revisions.now) }
{
    let values = revision_values(alloc, revisions)?;
    json!(in alloc; {"name": name, "revisions": values})
}

/// Makes the values of revisions.
fn revision_values(alloc: Global, revisions: &[Signature]) -> Result<Vec<Value>, AllocError>
    ensures { IfOk result (λ values. map view values.items ≡ map revision_data revisions.now) }
{
    let mut values = Vec::new(alloc);
    for revision in revisions {
        values.push(revision_value(alloc, revision)?)?;
    }
    Ok(values)
}

/// Makes the value of a revision by its number and author.
fn revision_value(alloc: Global, revision: &Signature) -> Result<Value, AllocError>
    ensures { IfOk result (λ value. view value ≡ revision_data revision.now) }
{
    let author = revision.author.as_str();
    json!(in alloc; {"author": author, "rev": revision.rev})
}
