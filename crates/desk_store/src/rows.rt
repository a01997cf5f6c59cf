//! What the rows say that are read of revisions.

ghost use Rattle.std.specs.Prelude.{◌≡◌, ◌⊎◌, ◌↔◌, ◌++◌, ◌∷◌, [], IfErr, IfOk, OnOk, map, pos};
ghost use Rattle.sqlite.specs.Order.{column};
ghost use Rattle.sqlite.specs.declared.types.Value.TheVariants.{Int, Text as Words};
ghost use Rattle.desk_exports.specs.Profile.{profile_number};
ghost use Rattle.desk_store.specs.Rows.{Finds, IsOfRow, IsOfTask, Lists, Says, SaysWho, listed};
ghost use Rattle.desk_store.specs.declared.error.DeskError.TheVariants as error;

use crate::desk::Revision;
use crate::error::{DeskError, StoreFault, Task};
use desk_exports::Profile;
use desk_text::{Sequence, Text};
use sqlite::{Error, ErrorCode, Row};
use sqlite_value::value::ValueRef;
use std::alloc::Global;

/// Tells that a statement was refused; out of memory as such.
pub(crate) fn not_stored(task: Task, said: Error) -> DeskError
    ensures memory { (result ≡ error.Memory) ↔ (said ≡ Error.SqliteFailure ErrorCode.OutOfMemory) }
    ensures either { IsOfTask task result }
    ensures named { (result ≡ error.Memory) ⊎ (result ≡ error.Store (record { task = task; error = said })) }
{
    match said {
        Error::SqliteFailure(ErrorCode::OutOfMemory) => DeskError::Memory,
        _ => DeskError::Store(StoreFault { task, error: said }),
    }
}

/// Finds what the rows of a revision and of its approval say; none if there is no row of a revision.
pub(crate) fn find_revision(
    alloc: Global,
    rows: &[Row],
    approvals: &[Row],
) -> Result<Option<Revision>, DeskError>
    ensures found { IfOk result (Finds rows.now approvals.now) }
    ensures errors { IfErr result IsOfRow }
{
    match rows.first() {
        Some(row) => {
            let approver = find_approver(alloc, approvals)?;
            Ok(Some(revision_in(alloc, row, approver)?))
        }
        None => Ok(None),
    }
}

/// Finds who the rows of an approval say approved a revision; nobody if there is no row.
fn find_approver(alloc: Global, approvals: &[Row]) -> Result<Option<Text>, DeskError>
    ensures who { IfOk result (SaysWho approvals.now) }
    ensures errors { IfErr result IsOfRow }
{
    match approvals.first() {
        Some(row) => Ok(Some(approver_in(alloc, row)?)),
        None => Ok(None),
    }
}

/// Reads the approver in a row.
fn approver_in(alloc: Global, row: &Row) -> Result<Text, DeskError>
    ensures approver { IfOk result (λ approver. column row.now 0 ≡ Words approver) }
    ensures errors { IfErr result IsOfRow }
{
    match row.get_ref(0) {
        Ok(ValueRef::Text(approver)) => text_in(alloc, approver, 0),
        _ => Err(unreadable(0)),
    }
}

/// Lists the numbers and authors with which rows begin, in ascending order of the numbers.
pub(crate) fn list_revisions(
    alloc: Global,
    rows: &[Row],
) -> Result<Sequence<(u32, Text)>, DeskError>
    ensures listed { IfOk result (Lists rows.now) }
    ensures errors { IfErr result IsOfRow }
{
    let mut found = listed_rows(alloc, rows)?;
    found.sort_unstable_by_key(|one| one.0);
    Ok(Sequence::from_vec(found))
}

/// Reads the numbers and authors with which rows begin, or the numbers and approvers, in the order of the rows.
pub(crate) fn listed_rows(alloc: Global, rows: &[Row]) -> Result<Vec<(u32, Text)>, DeskError>
    ensures listed { IfOk result (λ found. found.items ≡ map listed rows.now) }
    ensures errors { IfErr result IsOfRow }
{
    let mut found = Vec::new(alloc);
    for row in rows {
        add_listed(alloc, &mut found, row)?;
    }
    Ok(found)
}

/// Adds the number and the author in a row.
fn add_listed(alloc: Global, found: &mut Vec<(u32, Text)>, row: &Row) -> Result<(), DeskError>
    ensures added { OnOk result (found.new.items ≡ found.old.items ++ listed row.now ∷ []) }
    ensures errors { IfErr result IsOfRow }
{
    let one = listed_in(alloc, row)?;
    match found.push(one) {
        Ok(()) => Ok(()),
        Err(_) => Err(DeskError::Memory),
    }
}

/// Reads the number and the author in a row.
fn listed_in(alloc: Global, row: &Row) -> Result<(u32, Text), DeskError>
    ensures listed { IfOk result (λ one. one ≡ listed row.now) }
    ensures errors { IfErr result IsOfRow }
{
    let rev = number_in(row)?;
    let author = author_in(alloc, row)?;
    Ok((rev, author))
}

/// Reads the number in a row.
pub(crate) fn number_in(row: &Row) -> Result<u32, DeskError>
    ensures number { IfOk result (λ rev. column row.now 0 ≡ Int (pos rev)) }
    ensures errors { IfErr result IsOfRow }
{
    match row.get_ref(0) {
        Ok(ValueRef::Int(number)) => u32::try_from(number).map_err(|_| unreadable(0)),
        _ => Err(unreadable(0)),
    }
}

/// Reads the author in a row that begins with a number.
pub(crate) fn author_in(alloc: Global, row: &Row) -> Result<Text, DeskError>
    ensures author { IfOk result (λ author. column row.now 1 ≡ Words author) }
    ensures errors { IfErr result IsOfRow }
{
    match row.get_ref(1) {
        Ok(ValueRef::Text(author)) => text_in(alloc, author, 1),
        _ => Err(unreadable(1)),
    }
}

/// Reads the author, the profile and the text in a row, of a revision with this approver.
fn revision_in(alloc: Global, row: &Row, approver: Option<Text>) -> Result<Revision, DeskError>
    ensures says { IfOk result (Says row.now) }
    ensures approver { IfOk result (λ found. found.approver ≡ approver) }
    ensures errors { IfErr result IsOfRow }
{
    let profile = profile_in(row, 1)?;
    match (row.get_ref(0), row.get_ref(2)) {
        (Ok(ValueRef::Text(author)), Ok(ValueRef::Blob(body))) => Ok(Revision {
            author: text_in(alloc, author, 0)?,
            approver,
            profile,
            body: text_in(alloc, body, 2)?,
        }),
        _ => Err(unreadable(2)),
    }
}

/// Reads the profile in a column.
pub(crate) fn profile_in(row: &Row, at: usize) -> Result<Profile, DeskError>
    ensures profile { IfOk result (λ profile. column row.now at ≡ Int (pos (profile_number profile))) }
    ensures errors { IfErr result IsOfRow }
{
    match row.get_ref(at) {
        Ok(ValueRef::Int(1)) => Ok(Profile::One),
        Ok(ValueRef::Int(2)) => Ok(Profile::Two),
        _ => Err(unreadable(at)),
    }
}

/// Copies the bytes in a column as a text. (In a database of this project they are UTF-8.)
fn text_in(alloc: Global, bytes: &[u8], column: usize) -> Result<Text, DeskError>
    ensures text { IfOk result (λ text. text ≡ bytes.now) }
    ensures errors { IfErr result IsOfRow }
{
    let Ok(text) = std::str::from_utf8(bytes) else {
        return Err(unreadable(column));
    };
    match Text::copy(alloc, text) {
        Ok(text) => Ok(text),
        Err(_) => Err(DeskError::Memory),
    }
}

/// Tells that a column of a row cannot be read.
fn unreadable(column: usize) -> DeskError
    ensures { IsOfRow result }
{
    DeskError::Store(StoreFault {
        task: Task::ReadRevisions,
        error: Error::Utf8Error(column),
    })
}
