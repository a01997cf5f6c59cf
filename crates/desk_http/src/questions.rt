//! The replies to questions.

ghost use Rattle.std.specs.Prelude.{◌≡◌, IfOk, OnErr};
ghost use Rattle.std.specs.String.{string_bytes};
ghost use Rattle.desk_store.specs.Desk.{HasGoodDisk, History, StandsAt};
ghost use Rattle.desk_service.specs.Questions.{IsReady, answer_of, question_of};
ghost use Rattle.desk_http_messages.specs.Replies.{memory_reply, print_reply};
ghost use Rattle.desk_http.specs.Questions.{reply_of};
ghost use Rattle.desk_http.specs.PrivateAnswering.{Gives, GivesText, QuestionAnswered, TellsLooked};

use crate::replies::{failed_text, refused_text};
use desk_http_bodies::{
    exports_body, file_body, proposal_body, revisions_body, verdict_body, who_body,
};
use desk_http_messages::reply_text;
use desk_policy::PolicyView;
use desk_service::{Answer, Looked, Question, Refused, answer, look_up};
use desk_store::Desk;
use desk_tables::Cred;
use http::StatusCode;
use sqlite::Alter;
use std::alloc::{AllocError, Global};

/// Writes the reply to a question, for a client with this credential of its own, if it told one. The error is that there is no memory.
pub(crate) fn answer_question<S: Alter + Drop, V: PolicyView + Drop>(
    alloc: Global,
    desk: &mut Desk<S, V>,
    question: Question<'_>,
    own: &Option<Cred>,
    ends: bool,
) -> Result<String, AllocError>
    ensures ok { IfOk result (λ text. GivesText (HasGoodDisk S.Store) (StandsAt S.Store) (QuestionAnswered (question_of question.entry) own.now) ends desk.old (string_bytes text) desk.new) }
    ensures err { OnErr result (Gives (HasGoodDisk S.Store) (StandsAt S.Store) (QuestionAnswered (question_of question.entry) own.now) desk.old memory_reply desk.new) }
{
    match look_up(alloc, desk, question) {
        Ok(looked) => looked_text(alloc, desk, question, looked, own, ends),
        Err(error) => failed_text(alloc, error, ends),
    }
}

/// Writes the reply to a question by what its statements found.
fn looked_text<S: Alter + Drop, V: PolicyView + Drop>(
    alloc: Global,
    desk: &Desk<S, V>,
    question: Question<'_>,
    looked: Looked,
    own: &Option<Cred>,
    ends: bool,
) -> Result<String, AllocError>
    requires { IsReady (question_of question) looked }
    ensures { IfOk result (λ text. TellsLooked (StandsAt S.Store) desk.now (question_of question.entry) own.now looked ends (string_bytes text)) }
{
    let found = answer(alloc, desk, question, looked)?;
    answer_text(alloc, question, own, &found, ends)
}

/// Writes the reply to a question by its answer.
fn answer_text<V: PolicyView + Drop>(
    alloc: Global,
    question: Question<'_>,
    own: &Option<Cred>,
    answer: &Answer<'_, V>,
    ends: bool,
) -> Result<String, AllocError>
    ensures { IfOk result (λ text. string_bytes text ≡ print_reply ends (reply_of (question_of question.entry) own.now (answer_of V.in_force answer.now))) }
{
    let body = match answer {
        Answer::Verdict(policy, verdict) => match question {
            Question::Mount(_, _) => verdict_body(alloc, policy, verdict, own)?,
            _ => return refused_text(alloc, &Refused::NoRevision, ends),
        },
        Answer::Listing(policy, systems) => match question {
            Question::Listing(address) => {
                exports_body(alloc, policy, address, systems.as_slice())?
            }
            _ => return refused_text(alloc, &Refused::NoRevision, ends),
        },
        Answer::Who(policy, ranges) => match question {
            Question::Who(path) => who_body(alloc, policy, path, ranges.as_slice())?,
            _ => return refused_text(alloc, &Refused::NoRevision, ends),
        },
        Answer::Text(text) => match question {
            Question::Text(name, _) => file_body(alloc, name, text)?,
            _ => return refused_text(alloc, &Refused::NoRevision, ends),
        },
        Answer::Revisions(revisions) => match question {
            Question::OfFile(name, _) => revisions_body(alloc, name, revisions.as_slice())?,
            _ => return refused_text(alloc, &Refused::NoRevision, ends),
        },
        Answer::Proposal(proposal) => match question {
            Question::OfFile(name, _) => proposal_body(alloc, name, proposal)?,
            _ => return refused_text(alloc, &Refused::NoRevision, ends),
        },
        // No question that a route asks has another answer.
        Answer::NoRevision
        | Answer::Why(_, _)
        | Answer::Exports(_)
        | Answer::Files(_)
        | Answer::Foreseen(_)
        | Answer::Site(_)
        | Answer::Refused(_) => return refused_text(alloc, &Refused::NoRevision, ends),
    };
    reply_text(alloc, StatusCode::OK, body.as_str(), ends)
}
