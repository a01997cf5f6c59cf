//! The revisions, approvals and proposals that the rows of a database say, if it is one of this project.

ghost use Rattle.std.specs.Prelude.{◌≡◌, ◌<◌, ◌^◌, ℕ, pos, All, Err, IfErr, IfOk, IsPermutation, List, MatchOption, Some, length, map};
ghost use Rattle.sqlite.specs.Order.{column};
ghost use Rattle.sqlite.specs.declared.types.Value.TheVariants.{Blob as Bytes, Int, Text as Words};
ghost use Rattle.std.specs.List.{filter_map};
ghost use Rattle.std.specs.Str.{IsUtf8};
ghost use Rattle.desk_exports.specs.Profile.{profile_number};
ghost use Rattle.desk_exports.specs.declared.profile.Profile.{Profile as Read};
ghost use Rattle.desk_core.specs.Head.{Revision};
ghost use Rattle.desk_core.specs.Standing.{CanBePending};
ghost use Rattle.desk_core.specs.declared.proposal.Proposal.{Proposal as Proposed};
ghost use Rattle.desk_store.specs.Desk.{IsStorable, MayPend};
ghost use Rattle.desk_store.specs.History.{approval_of, proposed_row, row_of};
ghost use Rattle.desk_store.specs.StoredRows.{HasUtf8Approver, IsUnapproved, row_of_approval, unapproved};
ghost use Rattle.desk_store.specs.Open.{IsOfRows};
ghost use Rattle.desk_store.specs.Tables.{revision_row};
ghost use Rattle.desk_store.specs.declared.error.DeskError.TheVariants as error;

use crate::error::DeskError;
use desk_core::{Head, LAST_REVISION, LONGEST_REVISION, Proposal, is_exports_name, is_file_name};
use desk_exports::Profile;
use desk_text::Text;
use sqlite::Row;
use sqlite_value::value::ValueRef;
use std::alloc::{AllocError, Global};

/// Reads the revision in a row; `Schema` if it is not one that a database of this project may hold.
pub(crate) fn revision_in(alloc: Global, row: &Row) -> Result<Head, DeskError>
    ensures read { IfOk result (λ head. row_of head ≡ row.now) }
    ensures bare { IfOk result IsUnapproved }
    ensures storable { IfOk result IsStorable }
    ensures foreign { result ≡ Err error.Schema → (revision : Revision) → IsStorable revision → row_of revision ≡ row.now → ⊥ }
    ensures errors { IfErr result IsOfRows }
{
    match parts_in(row) {
        Some((file, rev, author, profile, body)) => revision_of(
            alloc, file, rev, author, profile, body,
        ),
        None => Err(DeskError::Schema),
    }
}

/// Finds the file, the number, the author, the profile and the text in a row of `file_rev`; none if it is not the row of a
/// revision.
fn parts_in(row: &Row) -> Option<(&[u8], u32, &[u8], Profile, &[u8])>
    ensures { MatchOption result ((revision : Revision) → revision.rev < 2 ^ 32 → row_of revision ≡ row.now → ⊥)
        (λ parts. revision_row parts.0.now parts.1 parts.2.now (profile_number parts.3) parts.4.now ≡ row.now) }
{
    if row.column_count() != 5 {
        return None;
    }
    let file = words_in(row, 0)?;
    let rev = number_in(row, 1)?;
    let author = words_in(row, 2)?;
    let profile = profile_in(row, 3)?;
    let body = bytes_in(row, 4)?;
    Some((file, rev, author, profile, body))
}

/// Reads the profile in a column.
fn profile_in(row: &Row, at: usize) -> Option<Profile>
    ensures { MatchOption result ((profile : Read) → at < length row.now → column row.now at ≡ Int (pos (profile_number profile)) → ⊥)
        (λ profile. column row.now at ≡ Int (pos (profile_number profile))) }
{
    match number_in(row, at)? {
        1 => Some(Profile::One),
        2 => Some(Profile::Two),
        _ => None,
    }
}

/// Lends the text in a column.
fn words_in(row: &Row, at: usize) -> Option<&[u8]>
    ensures { MatchOption result ((text : List ℕ) → at < length row.now → column row.now at ≡ Words text → ⊥) (λ text. column row.now at ≡ Words text.now) }
{
    match row.get_ref(at) {
        Ok(ValueRef::Text(text)) => Some(text),
        _ => None,
    }
}

/// Lends the bytes in a column.
fn bytes_in(row: &Row, at: usize) -> Option<&[u8]>
    ensures { MatchOption result ((bytes : List ℕ) → at < length row.now → column row.now at ≡ Bytes bytes → ⊥) (λ bytes. column row.now at ≡ Bytes bytes.now) }
{
    match row.get_ref(at) {
        Ok(ValueRef::Blob(bytes)) => Some(bytes),
        _ => None,
    }
}

/// Reads the number below 2^32 in a column.
pub(crate) fn number_in(row: &Row, at: usize) -> Option<u32>
    ensures { MatchOption result ((number : ℕ) → number < 2 ^ 32 → at < length row.now → column row.now at ≡ Int (pos number) → ⊥) (λ number. column row.now at ≡ Int (pos number)) }
{
    match row.get_ref(at) {
        Ok(ValueRef::Int(number)) => match u32::try_from(number) {
            Ok(number) => Some(number),
            Err(_) => None,
        },
        _ => None,
    }
}

/// Makes the revision with these parts; `Schema` if it is not one that a database of this project may hold.
fn revision_of(
    alloc: Global,
    file: &[u8],
    rev: u32,
    author: &[u8],
    profile: Profile,
    body: &[u8],
) -> Result<Head, DeskError>
    ensures made { IfOk result (λ head. head ≡ unapproved file.now rev author.now profile body.now) }
    ensures storable { IfOk result IsStorable }
    ensures foreign { result ≡ Err error.Schema → IsStorable (unapproved file.now rev author.now profile body.now) → ⊥ }
    ensures errors { IfErr result IsOfRows }
{
    let Ok(body) = std::str::from_utf8(body) else {
        return Err(DeskError::Schema);
    };
    let Ok(file) = std::str::from_utf8(file) else {
        return Err(DeskError::Schema);
    };
    let Ok(author) = std::str::from_utf8(author) else {
        return Err(DeskError::Schema);
    };
    let Ok(named) = is_file_name(alloc, file) else {
        return Err(DeskError::Memory);
    };
    if !named || rev == 0 || rev > LAST_REVISION || body.len() > LONGEST_REVISION {
        return Err(DeskError::Schema);
    }
    match copied(alloc, file, rev, author, profile, body) {
        Ok(head) => Ok(head),
        Err(_) => Err(DeskError::Memory),
    }
}

/// Copies a revision that nobody approved.
fn copied(
    alloc: Global,
    file: &str,
    rev: u32,
    author: &str,
    profile: Profile,
    body: &str,
) -> Result<Head, AllocError>
    ensures { IfOk result (λ head. head ≡ unapproved file.now rev author.now profile body.now) }
{
    Ok(Head {
        file: Text::copy(alloc, file)?,
        rev,
        author: Text::copy(alloc, author)?,
        approver: None,
        profile,
        body: Text::copy(alloc, body)?,
    })
}

/// Who approved a revision.
#[derive(Drop)]
pub(crate) struct Approval {
    pub file: Text,
    pub rev: u32,
    pub approver: Text,
}

/// Reads the approvals in rows; `Schema` if a row is not that of an approval.
pub(crate) fn approvals_in(alloc: Global, rows: &[Row]) -> Result<Vec<Approval>, DeskError>
    ensures read { IfOk result (λ approvals. map row_of_approval approvals.items ≡ rows.now) }
    ensures utf8 { IfOk result (λ approvals. All HasUtf8Approver approvals.items) }
    ensures foreign { result ≡ Err error.Schema → (history : List Revision) → All IsStorable history → IsPermutation (filter_map approval_of history) rows.now → ⊥ }
    ensures errors { IfErr result IsOfRows }
{
    let mut approvals: Vec<Approval> = Vec::new(alloc);
    for row in rows {
        let approval = match approval_in(alloc, row) {
            Ok(approval) => approval,
            Err(e) => return Err(e),
        };
        if approvals.push(approval).is_err() {
            return Err(DeskError::Memory);
        }
    }
    Ok(approvals)
}

/// Reads the approval in a row; `Schema` if it is not one that a database of this project may hold.
fn approval_in(alloc: Global, row: &Row) -> Result<Approval, DeskError>
    ensures read { IfOk result (λ approval. row_of_approval approval ≡ row.now) }
    ensures utf8 { IfOk result HasUtf8Approver }
    ensures foreign { result ≡ Err error.Schema → (revision : Revision) → IsStorable revision → approval_of revision ≡ Some row.now → ⊥ }
    ensures errors { IfErr result IsOfRows }
{
    if row.column_count() != 3 {
        return Err(DeskError::Schema);
    }
    let (Some(file), Some(rev), Some(approver)) = (
        words_in(row, 0),
        number_in(row, 1),
        words_in(row, 2),
    ) else {
        return Err(DeskError::Schema);
    };
    Ok(Approval {
        file: text_of(alloc, file)?,
        rev,
        approver: text_of(alloc, approver)?,
    })
}

/// Copies bytes as a text; `Schema` if they are not UTF-8.
fn text_of(alloc: Global, bytes: &[u8]) -> Result<Text, DeskError>
    ensures text { IfOk result (λ text. text ≡ bytes.now) }
    ensures utf8 { IfOk result (λ text. IsUtf8 bytes.now) }
    ensures foreign { result ≡ Err error.Schema → IsUtf8 bytes.now → ⊥ }
    ensures errors { IfErr result IsOfRows }
{
    let Ok(text) = std::str::from_utf8(bytes) else {
        return Err(DeskError::Schema);
    };
    match Text::copy(alloc, text) {
        Ok(text) => Ok(text),
        Err(_) => Err(DeskError::Memory),
    }
}

/// Reads the proposals in rows; `Schema` if a row is not that of a proposal that a database of this project may hold.
pub(crate) fn proposals_in(alloc: Global, rows: &[Row]) -> Result<Vec<Proposal>, DeskError>
    ensures read { IfOk result (λ proposals. map proposed_row proposals.items ≡ rows.now) }
    ensures pending { IfOk result (λ proposals. All MayPend proposals.items) }
    ensures foreign { result ≡ Err error.Schema → (pending : List Proposed) → All MayPend pending → All CanBePending pending → IsPermutation (map proposed_row pending) rows.now → ⊥ }
    ensures errors { IfErr result IsOfRows }
{
    let mut proposals: Vec<Proposal> = Vec::new(alloc);
    for row in rows {
        let proposal = match proposal_in(alloc, row) {
            Ok(proposal) => proposal,
            Err(e) => return Err(e),
        };
        if proposals.push(proposal).is_err() {
            return Err(DeskError::Memory);
        }
    }
    Ok(proposals)
}

/// Reads the proposal in a row; `Schema` if it is not one that a database of this project may hold.
fn proposal_in(alloc: Global, row: &Row) -> Result<Proposal, DeskError>
    ensures read { IfOk result (λ proposal. proposed_row proposal ≡ row.now) }
    ensures pending { IfOk result MayPend }
    ensures foreign { result ≡ Err error.Schema → (proposal : Proposed) → MayPend proposal → CanBePending proposal → proposed_row proposal ≡ row.now → ⊥ }
    ensures errors { IfErr result IsOfRows }
{
    if row.column_count() != 4 {
        return Err(DeskError::Schema);
    }
    let (Some(file), Some(base), Some(author), Some(body)) = (
        words_in(row, 0),
        number_in(row, 1),
        words_in(row, 2),
        bytes_in(row, 3),
    ) else {
        return Err(DeskError::Schema);
    };
    let proposal = Proposal {
        file: text_of(alloc, file)?,
        base,
        author: text_of(alloc, author)?,
        body: text_of(alloc, body)?,
    };
    let Ok(named) = is_exports_name(alloc, proposal.file.as_str()) else {
        return Err(DeskError::Memory);
    };
    if named && proposal.body.as_str().len() <= LONGEST_REVISION {
        Ok(proposal)
    } else {
        Err(DeskError::Schema)
    }
}
