//! How questions are answered: by the statements that they take, and by what the desk keeps.

ghost use Rattle.std.specs.Prelude.{◌≡◌, IfErr, IfOk, false, true};
ghost use Rattle.desk_text.specs.Address.{number_of};
ghost use Rattle.desk_store.specs.Desk.{HasGoodDisk, History, StandsAt};
ghost use Rattle.desk_store.specs.Rows.{IsOfTask};
ghost use Rattle.desk_store.specs.declared.error.Task.TheVariants as tasks;
ghost use Rattle.desk_service.specs.Questions as spec;
ghost use Rattle.desk_service.specs.Questions.{AnswersByHistory, IsLookedUp, IsReady, OnlyLooks, answer_of, question_of, takes_statements};

use crate::files::files_answer;
use crate::foreseeing::{foresee_proposal, foresee_text};
use crate::questions::{Answer, FileQuestion, Looked, Question};
use crate::reasons::why_answer;
use crate::sites::{foresee_proposed_site, foresee_site_text, site_answer};
use crate::texts::{newest_text, proposal_answer, revisions_looked, text_looked};
use desk_policy::{PolicyView, listing};
use desk_store::{Desk, DeskError};
use desk_text::{Addr, Path};
use desk_who::who;
use sqlite::Alter;
use std::alloc::{AllocError, Global};

/// Makes the statements that a question takes: two for the text of a numbered revision and for the list of revisions,
/// of which the second is not made if the first is refused; and none for any other.
pub fn look_up<S: Alter + Drop, V: PolicyView + Drop>(
    alloc: Global,
    desk: &mut Desk<S, V>,
    question: Question<'_>,
) -> Result<Looked, DeskError>
    ensures found { HasGoodDisk S.Store desk.new → (history pending : History) → StandsAt S.Store desk.old history pending
        → IfOk result (λ looked. IsLookedUp history (question_of question.entry) looked) }
    ensures ready { IfOk result (λ looked. IsReady (question_of question.entry) looked) }
    ensures looks { OnlyLooks S.Store desk.old desk.new }
    ensures errors { IfErr result (IsOfTask tasks.ReadRevisions) }
    ensures statements { IfErr result (λ error. takes_statements (question_of question.entry) ≡ true) }
{
    leave(desk);
    match question {
        Question::Text(name, rev) => match rev {
            Some(rev) => text_looked(alloc, desk, name, rev),
            None => Ok(Looked::Nothing),
        },
        Question::OfFile(name, what) => match what {
            FileQuestion::Revisions => revisions_looked(alloc, desk, name),
            _ => Ok(Looked::Nothing),
        },
        _ => Ok(Looked::Nothing),
    }
}

/// Answers a question by what its statements found and by what a desk keeps. This takes no statement.
pub fn answer<'a, S: Alter + Drop, V: PolicyView + Drop>(
    alloc: Global,
    desk: &'a Desk<S, V>,
    question: Question<'_>,
    looked: Looked,
) -> Result<Answer<'a, V>, AllocError>
    requires { IsReady (question_of question) looked }
    ensures answered { (history pending : History) → StandsAt S.Store desk.now history pending → IsLookedUp history (question_of question.entry) looked
        → IfOk result (λ answer. AnswersByHistory history (question_of question.entry) (answer_of V.in_force answer)) }
    ensures looks { OnlyLooks S.Store desk.now desk.now }
{
    leave(desk);
    match looked {
        Looked::Nothing => answer_kept(alloc, desk, question),
        Looked::Text(text) => Ok(Answer::Text(text)),
        Looked::Revisions(revisions) => Ok(Answer::Revisions(revisions)),
        Looked::NoRevision => Ok(Answer::NoRevision),
    }
}

/// A desk that is left alone was only looked at. (For the proof.)
fn leave<S: Alter + Drop, V: PolicyView + Drop>(desk: &Desk<S, V>)
    ensures { OnlyLooks S.Store desk.now desk.now }
{}

/// Answers a question that takes no statement.
fn answer_kept<'a, S: Alter + Drop, V: PolicyView + Drop>(
    alloc: Global,
    desk: &'a Desk<S, V>,
    question: Question<'_>,
) -> Result<Answer<'a, V>, AllocError>
    requires { takes_statements (question_of question) ≡ false }
    ensures { (history pending : History) → StandsAt S.Store desk.now history pending
        → IfOk result (λ answer. AnswersByHistory history (question_of question.entry) (answer_of V.in_force answer)) }
{
    match question {
        Question::Mount(address, path) => Ok(verdict_answer(desk, address, path)),
        Question::Why(address, path) => why_answer(alloc, desk, address, path),
        Question::Listing(address) => listing_answer(alloc, desk, address),
        Question::Exports => Ok(exports_answer(desk)),
        Question::Who(path) => who_answer(alloc, desk, path),
        Question::Text(name, rev) => match rev {
            None => newest_text(alloc, desk, name),
            // This takes statements.
            Some(_) => unreachable!(),
        },
        Question::OfFile(name, what) => match what {
            FileQuestion::Proposal => Ok(proposal_answer(desk, name)),
            // This takes statements.
            FileQuestion::Revisions => unreachable!(),
        },
        Question::Files => files_answer(alloc, desk),
        Question::Foresee(name, text) => foresee_text(alloc, desk, name, text),
        Question::ForeseeProposal(name) => foresee_proposal(alloc, desk, name),
        Question::Site => Ok(site_answer(desk)),
        Question::ForeseeSite(name, text) => foresee_site_text(alloc, desk, name, text),
        Question::ForeseeProposedSite(name) => foresee_proposed_site(alloc, desk, name),
    }
}

/// Decides whether a client may mount a directory.
fn verdict_answer<'a, S: Alter + Drop, V: PolicyView + Drop>(
    desk: &'a Desk<S, V>,
    address: Addr,
    path: &Path,
) -> Answer<'a, V>
    ensures { (history pending : History) → StandsAt S.Store desk.now history pending
        → AnswersByHistory history (spec.Mount (number_of address) path.now) (answer_of V.in_force result) }
{
    let view = desk.view();
    Answer::Verdict(view.policy(), view.decide(address, path))
}

/// Lists what a client may mount.
fn listing_answer<'a, S: Alter + Drop, V: PolicyView + Drop>(
    alloc: Global,
    desk: &'a Desk<S, V>,
    address: Addr,
) -> Result<Answer<'a, V>, AllocError>
    ensures { (history pending : History) → StandsAt S.Store desk.now history pending
        → IfOk result (λ answer. AnswersByHistory history (spec.Listing (number_of address)) (answer_of V.in_force answer)) }
{
    let view = desk.view();
    let shown = listing(alloc, view, address)?;
    Ok(Answer::Listing(view.policy(), shown))
}

/// Lends the policy in force, for all its exports.
fn exports_answer<S: Alter + Drop, V: PolicyView + Drop>(desk: &Desk<S, V>) -> Answer<'_, V>
    ensures { (history pending : History) → StandsAt S.Store desk.now history pending
        → AnswersByHistory history spec.Exports (answer_of V.in_force result) }
{
    Answer::Exports(desk.view().policy())
}

/// Lists who may mount a directory.
fn who_answer<'a, S: Alter + Drop, V: PolicyView + Drop>(
    alloc: Global,
    desk: &'a Desk<S, V>,
    path: &Path,
) -> Result<Answer<'a, V>, AllocError>
    ensures { (history pending : History) → StandsAt S.Store desk.now history pending
        → IfOk result (λ answer. AnswersByHistory history (spec.Who path.now) (answer_of V.in_force answer)) }
{
    let view = desk.view();
    let ranges = who(alloc, view, path)?;
    Ok(Answer::Who(view.policy(), ranges))
}
