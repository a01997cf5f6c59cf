//! Who signed the revisions of a file, as rows say.

ghost use Rattle.std.specs.Prelude.{◌≡◌, ◌++◌, ◌∷◌, [], IfErr, IfOk, OnOk, map};
ghost use Rattle.desk_store.specs.Rows.{IsOfRow, Signs, approver_at, signed};

use crate::desk::Signature;
use crate::error::DeskError;
use crate::rows::{author_in, listed_rows, number_in, profile_in};
use desk_text::{Sequence, Text};
use sqlite::Row;
use std::alloc::Global;

/// Lists who signed the revisions in rows, by the rows of their approvals, in ascending order of the numbers.
pub(crate) fn list_signatures(
    alloc: Global,
    rows: &[Row],
    approvals: &[Row],
) -> Result<Sequence<Signature>, DeskError>
    ensures signs { IfOk result (Signs rows.now approvals.now) }
    ensures errors { IfErr result IsOfRow }
{
    let approved = listed_rows(alloc, approvals)?;
    let mut found = signed_rows(alloc, rows, approved.as_slice())?;
    found.sort_unstable_by_key(|one| one.rev);
    Ok(Sequence::from_vec(found))
}

/// Reads who signed the revisions in rows, of which these were approved, in the order of the rows.
fn signed_rows(
    alloc: Global,
    rows: &[Row],
    approved: &[(u32, Text)],
) -> Result<Vec<Signature>, DeskError>
    ensures signed { IfOk result (λ found. found.items ≡ map (signed approved.now) rows.now) }
    ensures errors { IfErr result IsOfRow }
{
    let mut found = Vec::new(alloc);
    for row in rows {
        add_signed(alloc, &mut found, row, approved)?;
    }
    Ok(found)
}

/// Adds who signed the revision in a row.
fn add_signed(
    alloc: Global,
    found: &mut Vec<Signature>,
    row: &Row,
    approved: &[(u32, Text)],
) -> Result<(), DeskError>
    ensures added { OnOk result (found.new.items ≡ found.old.items ++ signed approved.now row.now ∷ []) }
    ensures errors { IfErr result IsOfRow }
{
    let one = signature_in(alloc, row, approved)?;
    match found.push(one) {
        Ok(()) => Ok(()),
        Err(_) => Err(DeskError::Memory),
    }
}

/// Reads who signed the revision in a row.
fn signature_in(alloc: Global, row: &Row, approved: &[(u32, Text)]) -> Result<Signature, DeskError>
    ensures signed { IfOk result (λ one. one ≡ signed approved.now row.now) }
    ensures errors { IfErr result IsOfRow }
{
    let rev = number_in(row)?;
    let profile = profile_in(row, 2)?;
    let author = author_in(alloc, row)?;
    let approver = approver_of(alloc, approved, rev)?;
    Ok(Signature {
        rev,
        author,
        approver,
        profile,
    })
}

/// Copies who approved the revision with a number, if it was approved.
fn approver_of(alloc: Global, approved: &[(u32, Text)], rev: u32) -> Result<Option<Text>, DeskError>
    ensures approver { IfOk result (λ approver. approver ≡ approver_at approved.now rev) }
    ensures errors { IfErr result IsOfRow }
{
    match approved.iter().find(|one| one.0 == rev) {
        Some(one) => match Text::copy(alloc, one.1.as_str()) {
            Ok(approver) => Ok(Some(approver)),
            Err(_) => Err(DeskError::Memory),
        },
        None => Ok(None),
    }
}
