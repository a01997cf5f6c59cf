//! The files that have a revision or a proposal, as `files` prints them as JSON.

ghost use Rattle.std.specs.Prelude.{◌≡◌, [], IfOk, OnOk, codes, map};
ghost use Rattle.std.specs.Option.{option_copied, option_map};
ghost use Rattle.std.specs.String.{string_bytes};
ghost use Rattle.serde_json.specs.Data.{object, string};
ghost use Rattle.serde_json.specs.View.{members_view, view};
ghost use Rattle.serde_json.specs.Written.{compact_text};
ghost use Rattle.desk_core.specs.Listing.{name_by};
ghost use Rattle.desk_service.specs.Files.{file_of, files_of};
ghost use Rattle.desk_http_bodies.specs.Json.{count, put_if};
ghost use Rattle.desk_json.specs.Files as spec;
ghost use Rattle.desk_json.specs.Files.{file_data, files_data, proposed_data};

use desk_core::{Head, HeldFile, Proposal};
use desk_http_bodies::members::{put_number, put_text};
use desk_service::{ListedFile, ListedFiles, Mark};
use serde_json::{Map, Value, json, put};
use std::alloc::{AllocError, Global};

/// Writes the object of the files that have a revision or a proposal.
pub fn files_object(alloc: Global, listed: &ListedFiles<'_>) -> Result<String, AllocError>
    ensures { IfOk result (λ text. string_bytes text ≡ compact_text (files_data (files_of listed.now))) }
{
    let value = files_value(alloc, listed)?;
    value.to_string(alloc)
}

/// Makes the value of the files.
fn files_value(alloc: Global, listed: &ListedFiles<'_>) -> Result<Value, AllocError>
    ensures { IfOk result (λ value. view value ≡ files_data (files_of listed.now)) }
{
    let values = file_values(alloc, listed.files.as_slice())?;
    json!(in alloc; {"files": values})
}

/// Makes the values of files.
fn file_values(alloc: Global, files: &[ListedFile<'_>]) -> Result<Vec<Value>, AllocError>
    ensures { IfOk result (λ values. map view values.items ≡ map file_data (map file_of files.now)) }
{
    let mut values = Vec::new(alloc);
    for file in files {
        values.push(file_value(alloc, file)?)?;
    }
    Ok(values)
}

/// Makes the value of a file.
fn file_value(alloc: Global, file: &ListedFile<'_>) -> Result<Value, AllocError>
    ensures { IfOk result (λ value. view value ≡ file_data (file_of file.now)) }
{
    let mut members = Map::new(alloc);
    put_file(alloc, file, &mut members)?;
    Ok(Value::Object(members))
}

/// Adds the members of a file. (The map is lent, so that its proof is cheap.)
fn put_file(
    alloc: Global,
    file: &ListedFile<'_>,
    members: &mut Map<String, Value>,
) -> Result<(), AllocError>
    requires { members.old.entries ≡ [] }
    ensures { OnOk result (object (members_view members.new.entries) ≡ file_data (file_of file.now)) }
{
    put_author(alloc, file.newest, members)?;
    put_mark(alloc, file.mark, members)?;
    put_text(alloc, "name", name_of(file), members)?;
    put_proposal(alloc, file.proposal, members)?;
    put_rev(alloc, file.newest, members)
}

/// Lends the name of a file.
fn name_of<'a>(file: &ListedFile<'a>) -> &'a str
    ensures { result.now ≡ name_by (option_copied file.now.newest) (option_copied file.now.proposal) }
{
    let held = HeldFile {
        newest: file.newest,
        proposal: file.proposal,
    };
    held.name()
}

/// Adds the author of the newest revision, if there is one.
fn put_author(
    alloc: Global,
    newest: Option<&Head>,
    members: &mut Map<String, Value>,
) -> Result<(), AllocError>
    ensures { OnOk result (members_view members.new.entries
        ≡ put_if (codes "author") string (option_map (λ revision. revision.author) (option_copied newest.entry)) (members_view members.old.entries)) }
{
    match newest {
        Some(head) => put_text(alloc, "author", head.author.as_str(), members),
        None => Ok(()),
    }
}

/// Adds the number of the newest revision, if there is one.
fn put_rev(
    alloc: Global,
    newest: Option<&Head>,
    members: &mut Map<String, Value>,
) -> Result<(), AllocError>
    ensures { OnOk result (members_view members.new.entries
        ≡ put_if (codes "rev") count (option_map (λ revision. revision.rev) (option_copied newest.entry)) (members_view members.old.entries)) }
{
    match newest {
        Some(head) => put_number(alloc, "rev", head.rev, members),
        None => Ok(()),
    }
}

/// Adds the mark of a file, if it has one.
fn put_mark(alloc: Global, mark: Mark, members: &mut Map<String, Value>) -> Result<(), AllocError>
    ensures { OnOk result (members_view members.new.entries
        ≡ put_if (codes "mark") string (spec.mark_word mark) (members_view members.old.entries)) }
{
    match mark {
        Mark::Plain => Ok(()),
        Mark::Guarded => put_text(alloc, "mark", "guarded", members),
        Mark::Unlisted => put_text(alloc, "mark", "unlisted", members),
    }
}

/// Adds the proposal of a file, if there is one.
fn put_proposal(
    alloc: Global,
    proposal: Option<&Proposal>,
    members: &mut Map<String, Value>,
) -> Result<(), AllocError>
    ensures { OnOk result (members_view members.new.entries
        ≡ put_if (codes "proposal") (λ value. value) (option_map proposed_data (option_copied proposal.entry)) (members_view members.old.entries)) }
{
    match proposal {
        Some(proposal) => {
            let value = proposed_value(alloc, proposal)?;
            put(members, alloc, "proposal", value)
        }
        None => Ok(()),
    }
}

/// Makes the value of a proposal: who proposes it, and the number that its revision would have.
fn proposed_value(alloc: Global, proposal: &Proposal) -> Result<Value, AllocError>
    ensures { IfOk result (λ value. view value ≡ proposed_data proposal.now) }
{
    let author = proposal.author.as_str();
    let rev = u64::from(proposal.base) + 1;
    json!(in alloc; {"author": author, "rev": rev})
}
