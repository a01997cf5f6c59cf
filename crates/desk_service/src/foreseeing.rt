//! What would be in force if a file had another text, as that of its proposal.

ghost use Rattle.std.specs.Prelude.{◌≡◌, IfOk};
ghost use Rattle.std.specs.Option.{option_copied};
ghost use Rattle.desk_core.specs.Head.{Newest, newest_in};
ghost use Rattle.desk_core.specs.Judging.{table_in};
ghost use Rattle.desk_store.specs.Desk.{History, StandsAt};
ghost use Rattle.desk_service.specs.Foreseeing.{IsRefusedUnread};
ghost use Rattle.desk_service.specs.Questions as spec;
ghost use Rattle.desk_service.specs.Questions.{AnswersByHistory, ForeseesText, answer_of};

use crate::questions::Answer;
use desk_core::{Foresight, LONGEST_REVISION, Proposal, Refusal, is_guarded, is_known};
use desk_policy::PolicyView;
use desk_store::Desk;
use desk_tables::FileSystems;
use desk_text::ReadError;
use sqlite::Alter;
use std::alloc::{AllocError, Global};

/// What would be in force if a file had another text.
#[derive(Drop)]
pub struct Foreseen<'a, V> {
    /// The view of the policy in force.
    pub before: &'a V,
    /// What would be in force in its place.
    pub foresight: Foresight<V>,
    /// The proposal that has the text, if that was asked.
    pub proposal: Option<&'a Proposal>,
    /// Whether the file is guarded now.
    pub guarded: bool,
}

/// Foresees a text of a file that was handed over.
pub(crate) fn foresee_text<'a, S: Alter + Drop, V: PolicyView + Drop>(
    alloc: Global,
    desk: &'a Desk<S, V>,
    name: &str,
    text: &str,
) -> Result<Answer<'a, V>, AllocError>
    ensures { (history pending : History) → StandsAt S.Store desk.now history pending
        → IfOk result (λ answer. AnswersByHistory history (spec.Foresee name.now text.now) (answer_of V.in_force answer)) }
{
    foresee(alloc, desk, name, text, None)
}

/// Foresees the text of the proposal of a file, if it has one.
pub(crate) fn foresee_proposal<'a, S: Alter + Drop, V: PolicyView + Drop>(
    alloc: Global,
    desk: &'a Desk<S, V>,
    name: &str,
) -> Result<Answer<'a, V>, AllocError>
    ensures { (history pending : History) → StandsAt S.Store desk.now history pending
        → IfOk result (λ answer. AnswersByHistory history (spec.ForeseeProposal name.now) (answer_of V.in_force answer)) }
{
    match desk.proposal(name) {
        Some(proposal) => foresee(alloc, desk, name, proposal.body.as_str(), Some(proposal)),
        None => Ok(Answer::NoRevision),
    }
}

/// Finds why a file cannot have a text, whatever the text says: an unknown file comes before a text that is too long.
pub(crate) fn refused_unread(filesystems: &FileSystems, name: &str, text: &str) -> Option<Refusal>
    ensures { (newest : Newest) → filesystems.now ≡ table_in newest → IsRefusedUnread newest name.now text.now result }
{
    if !is_known(filesystems, name) {
        Some(Refusal::UnknownFile)
    } else if text.len() > LONGEST_REVISION {
        Some(Refusal::TooLarge)
    } else {
        None
    }
}

/// Foresees a text of a file, by the newest revisions of a desk; or finds why the file cannot have the text. The fault of the site with
/// it comes last. This takes no statement.
fn foresee<'a, S: Alter + Drop, V: PolicyView + Drop>(
    alloc: Global,
    desk: &'a Desk<S, V>,
    name: &str,
    text: &str,
    proposal: Option<&'a Proposal>,
) -> Result<Answer<'a, V>, AllocError>
    ensures { IfOk result (λ answer. ForeseesText (newest_in desk.now.state.heads) name.now text.now (option_copied proposal.entry) (answer_of V.in_force answer)) }
{
    let filesystems = listed_now(desk);
    if let Some(refusal) = refused_unread(filesystems, name, text) {
        return Ok(Answer::Refused(refusal));
    }
    match desk.foresee(alloc, name, text) {
        Ok(foresight) => Ok(Answer::Foreseen(Foreseen {
            before: desk.view(),
            foresight,
            proposal,
            guarded: is_guarded(filesystems, name),
        })),
        Err(ReadError::Fault(fault)) => Ok(Answer::Refused(Refusal::Fault(fault))),
        Err(ReadError::Memory) => Err(AllocError),
    }
}

/// Lends the file systems that are listed now.
pub(crate) fn listed_now<S: Alter + Drop, V: PolicyView + Drop>(desk: &Desk<S, V>) -> &FileSystems
    ensures { result.now ≡ table_in (newest_in desk.now.state.heads) }
{
    desk.view().policy().filesystems()
}
