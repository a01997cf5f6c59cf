//! Who approved the revisions that are read of a database, and the proposals that are pending behind them.

ghost use Rattle.std.specs.Prelude.{◌≡◌, ◌↔◌, ◌==◌, ◌++◌, All, Err, IfErr, IsPermutation, IsTrue, List, OnOk, map, not, reverse};
ghost use Rattle.std.specs.List.{filter_map, list_all};
ghost use Rattle.std.specs.List.Sorted.{IsSortedBy};
ghost use Rattle.std.specs.Option.{option_to_list};
ghost use Rattle.std.specs.Str.{bytes_eq};
ghost use Rattle.desk_core.specs.Head.{Revision, newest_in, newest_number};
ghost use Rattle.desk_core.specs.Standing.{PendOnce};
ghost use Rattle.desk_store.specs.Desk.{IsStorable};
ghost use Rattle.desk_store.specs.History.{approval_of, row_of};
ghost use Rattle.desk_store.specs.Open.{IsOfRows};
ghost use Rattle.desk_store.specs.StoredRows.{HasUtf8Approver, IsUnapproved, MayFollow, approval_key, approved_all, is_approval_of, is_below, left_after, own_approval, revision_key, row_of_approval, with_approval};
ghost use Rattle.desk_store.specs.declared.error.DeskError.TheVariants as error;

use crate::error::DeskError;
use crate::stored_rows::Approval;
use desk_core::{Head, Proposal, newest_among};
use std::alloc::AllocError;

/// Writes into revisions who approved them; `Schema` if an approval is of none of them, or two are of one.
pub(crate) fn approve(
    revisions: &mut Vec<Head>,
    mut approvals: Vec<Approval>,
) -> Result<(), DeskError>
    requires bare { All IsUnapproved revisions.old.items }
    ensures same { OnOk result (IsPermutation (map row_of revisions.old.items) (map row_of revisions.new.items)) }
    ensures approved { OnOk result (IsPermutation (map row_of_approval approvals.items) (filter_map approval_of revisions.new.items)) }
    ensures storable { OnOk result (All IsStorable revisions.old.items → All HasUtf8Approver approvals.items → All IsStorable revisions.new.items) }
    ensures foreign { result ≡ Err error.Schema → (history : List Revision) → IsPermutation (map row_of history) (map row_of revisions.old.items)
        → IsPermutation (filter_map approval_of history) (map row_of_approval approvals.items) → ⊥ }
    ensures errors { IfErr result IsOfRows }
{
    // Both in one order, the approvals from the last to the first, so that the next one is at the end.
    if sort_revisions(revisions).is_err() || sort_approvals(&mut approvals).is_err() {
        return Err(DeskError::Memory);
    }
    take_approvals(revisions, &mut approvals);
    if approvals.is_empty() {
        Ok(())
    } else {
        Err(DeskError::Schema)
    }
}

/// Sorts revisions by their files and numbers.
fn sort_revisions(revisions: &mut Vec<Head>) -> Result<(), AllocError>
    ensures same { IsPermutation revisions.old.items revisions.new.items }
    ensures order { OnOk result (IsSortedBy (λ one other. is_below (revision_key one) (revision_key other)) revisions.new.items) }
{
    revisions.sort_by(|one, other| {
        one.file
            .as_str()
            .cmp(other.file.as_str())
            .then(one.rev.cmp(&other.rev))
    })
}

/// Sorts approvals by their files and numbers, from the last to the first.
fn sort_approvals(approvals: &mut Vec<Approval>) -> Result<(), AllocError>
    ensures same { IsPermutation approvals.old.items approvals.new.items }
    ensures order { OnOk result (IsSortedBy (λ one other. is_below (approval_key other) (approval_key one)) approvals.new.items) }
{
    approvals.sort_by(|one, other| {
        other
            .file
            .as_str()
            .cmp(one.file.as_str())
            .then(other.rev.cmp(&one.rev))
    })
}

/// Writes into revisions who approved them, one after another, as long as the last of the approvals is of one.
fn take_approvals(revisions: &mut Vec<Head>, approvals: &mut Vec<Approval>)
    ensures approved { revisions.new.items ≡ approved_all revisions.old.items (reverse approvals.old.items) }
    ensures left { reverse approvals.new.items ≡ left_after revisions.old.items (reverse approvals.old.items) }
{
    for head in revisions.iter_mut() {
        take_approval(head, approvals);
    }
}

/// Writes into a revision who approved it, if the last of the approvals is of it, and takes that approval away.
fn take_approval(head: &mut Head, approvals: &mut Vec<Approval>)
    ensures approved { head.new ≡ with_approval (own_approval head.old approvals.old.items) head.old }
    ensures taken { approvals.old.items ≡ approvals.new.items ++ option_to_list (own_approval head.old approvals.old.items) }
{
    let own = match approvals.last() {
        Some(approval) => is_of(approval, head),
        None => false,
    };
    if own && let Some(approval) = approvals.pop() {
        head.approver = Some(approval.approver);
    }
}

/// Tests whether an approval is of a revision.
fn is_of(approval: &Approval, head: &Head) -> bool
    ensures { result ≡ is_approval_of head.now approval.now }
{
    approval.rev == head.rev && approval.file.as_str() == head.file.as_str()
}

/// Tests whether proposals may be pending behind these newest revisions.
pub(crate) fn may_follow(heads: &[Head], proposals: &[Proposal]) -> bool
    ensures { IsTrue result ↔ MayFollow (newest_in heads.now) proposals.now }
{
    stand_once(proposals) && proposals.iter().all(|proposal| follows(heads, proposal))
}

/// Tests whether no two proposals are of one file. (A database has at most one for each, by its key.)
fn stand_once(proposals: &[Proposal]) -> bool
    ensures { IsTrue result ↔ PendOnce proposals.now }
{
    for (place, proposal) in proposals.iter().enumerate() {
        if !is_first(&proposals[..place], proposal) {
            return false;
        }
    }
    true
}

/// Tests whether no earlier proposal is of this one's file.
fn is_first(earlier: &[Proposal], proposal: &Proposal) -> bool
    ensures { result ≡ list_all (λ other. not (bytes_eq other.file proposal.now.file)) earlier.now }
{
    earlier
        .iter()
        .all(|other| other.file.as_str() != proposal.file.as_str())
}

/// Tests whether a proposal follows the newest revision of its file, or 0 if there is none.
fn follows(heads: &[Head], proposal: &Proposal) -> bool
    ensures { result ≡ (newest_number (newest_in heads.now proposal.now.file) == proposal.now.base) }
{
    match newest_among(heads, proposal.file.as_str()) {
        Some(head) => head.rev == proposal.base,
        None => proposal.base == 0,
    }
}
