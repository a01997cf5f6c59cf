//! The texts of revisions and proposals, and the lists of revisions.

ghost use Rattle.std.specs.Prelude.{◌≡◌, IfErr, IfOk, None, Some};
ghost use Rattle.desk_store.specs.Desk.{HasGoodDisk, History, StandsAt};
ghost use Rattle.desk_store.specs.Rows.{IsOfTask};
ghost use Rattle.desk_store.specs.declared.error.Task.TheVariants as tasks;
ghost use Rattle.desk_service.specs.Questions as spec;
ghost use Rattle.desk_service.specs.declared.questions.FileQuestion.TheVariants as of_file;
ghost use Rattle.desk_service.specs.Questions.{AnswersByHistory, IsLookedUp, IsReady, OnlyLooks, answer_of};

use crate::questions::{Answer, FileText, Looked};
use desk_core::Head;
use desk_policy::PolicyView;
use desk_store::{Desk, DeskError};
use desk_text::Text;
use sqlite::Alter;
use std::alloc::{AllocError, Global};

/// Finds the text of a file as of a revision.
pub(crate) fn text_looked<S: Alter + Drop, V: PolicyView + Drop>(
    alloc: Global,
    desk: &mut Desk<S, V>,
    name: &str,
    rev: u32,
) -> Result<Looked, DeskError>
    ensures found { HasGoodDisk S.Store desk.new → (history pending : History) → StandsAt S.Store desk.old history pending
        → IfOk result (λ looked. IsLookedUp history (spec.Text name.now (Some rev)) looked) }
    ensures ready { IfOk result (λ looked. IsReady (spec.Text name.now (Some rev)) looked) }
    ensures looks { OnlyLooks S.Store desk.old desk.new }
    ensures errors { IfErr result (IsOfTask tasks.ReadRevisions) }
{
    match desk.revision(alloc, name, rev) {
        Ok(Some(found)) => Ok(Looked::Text(FileText {
            rev,
            author: found.author,
            approver: found.approver,
            profile: found.profile,
            body: found.body,
        })),
        Ok(None) => Ok(Looked::NoRevision),
        Err(error) => Err(error),
    }
}

/// Lists the revisions of a file.
pub(crate) fn revisions_looked<S: Alter + Drop, V: PolicyView + Drop>(
    alloc: Global,
    desk: &mut Desk<S, V>,
    name: &str,
) -> Result<Looked, DeskError>
    ensures found { HasGoodDisk S.Store desk.new → (history pending : History) → StandsAt S.Store desk.old history pending
        → IfOk result (λ looked. IsLookedUp history (spec.OfFile name.now of_file.Revisions) looked) }
    ensures ready { IfOk result (λ looked. IsReady (spec.OfFile name.now of_file.Revisions) looked) }
    ensures looks { OnlyLooks S.Store desk.old desk.new }
    ensures errors { IfErr result (IsOfTask tasks.ReadRevisions) }
{
    match desk.signatures(alloc, name) {
        Ok(found) if found.is_empty() => Ok(Looked::NoRevision),
        Ok(found) => Ok(Looked::Revisions(found)),
        Err(error) => Err(error),
    }
}

/// Finds the newest text of a file. This takes no statement.
pub(crate) fn newest_text<'a, S: Alter + Drop, V: PolicyView + Drop>(
    alloc: Global,
    desk: &'a Desk<S, V>,
    name: &str,
) -> Result<Answer<'a, V>, AllocError>
    ensures { (history pending : History) → StandsAt S.Store desk.now history pending
        → IfOk result (λ answer. AnswersByHistory history (spec.Text name.now None) (answer_of V.in_force answer)) }
{
    match desk.newest(name) {
        Some(head) => Ok(Answer::Text(text_of(alloc, head)?)),
        None => Ok(Answer::NoRevision),
    }
}

/// Copies the text of a revision.
fn text_of(alloc: Global, head: &Head) -> Result<FileText, AllocError>
    ensures { IfOk result (λ text. text ≡ spec.text_of head.now) }
{
    let author = Text::copy(alloc, head.author.as_str())?;
    let approver = name_in(alloc, &head.approver)?;
    let body = Text::copy(alloc, head.body.as_str())?;
    Ok(FileText {
        rev: head.rev,
        author,
        approver,
        profile: head.profile,
        body,
    })
}

/// Copies a name, if there is one.
pub(crate) fn name_in(alloc: Global, name: &Option<Text>) -> Result<Option<Text>, AllocError>
    ensures { IfOk result (λ copied. copied ≡ name.now) }
{
    match name {
        Some(name) => Ok(Some(Text::copy(alloc, name.as_str())?)),
        None => Ok(None),
    }
}

/// Lends the proposal of a file. This takes no statement.
pub(crate) fn proposal_answer<'a, S: Alter + Drop, V: PolicyView + Drop>(
    desk: &'a Desk<S, V>,
    name: &str,
) -> Answer<'a, V>
    ensures { (history pending : History) → StandsAt S.Store desk.now history pending
        → AnswersByHistory history (spec.OfFile name.now of_file.Proposal) (answer_of V.in_force result) }
{
    match desk.proposal(name) {
        Some(proposal) => Answer::Proposal(proposal),
        None => Answer::NoRevision,
    }
}
