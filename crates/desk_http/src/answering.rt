//! The reply to one request.

ghost use Rattle.std.specs.Prelude.{◌≡◌, All, IfOk, OnErr, Some, length};
ghost use Rattle.std.specs.String.{string_bytes};
ghost use Rattle.httparse.specs.Spans.{IsHeaderWithin};
ghost use Rattle.desk_store.specs.Desk.{HasGoodDisk, StandsAt};
ghost use Rattle.desk_http_messages.specs.Asked.{asked_of};
ghost use Rattle.desk_http_messages.specs.Replies.{memory_reply};
ghost use Rattle.desk_http_requests.specs.Calls as calls;
ghost use Rattle.desk_http_requests.specs.Routes.{action_in};
ghost use Rattle.desk_http.specs.Answering.{Answered};
ghost use Rattle.desk_http.specs.PrivateAnswering.{AnswersAsked, Gives};

use crate::edits::answer_edit;
use crate::questions::answer_question;
use crate::replies::request_fault_text;
use desk_http_messages::Request;
use desk_http_requests::{Action, Call, Routes, action_of, parameters_of, path_in, read_call};
use desk_policy::PolicyView;
use desk_store::Desk;
use sqlite::Alter;
use std::alloc::{AllocError, Global};

/// Writes the reply to a request, before anything changes for which it could not be written. Ends says that the stream ends after
/// it. The error is that there is no memory.
pub(crate) fn answer<S: Alter + Drop, V: PolicyView + Drop>(
    alloc: Global,
    routes: &Routes,
    desk: &mut Desk<S, V>,
    request: &Request<'_>,
    ends: bool,
) -> Result<String, AllocError>
    requires { All (IsHeaderWithin (length request.now.head.now)) request.now.headers.now }
    ensures ok { IfOk result (λ text. AnswersAsked (HasGoodDisk S.Store) (StandsAt S.Store) desk.old (asked_of request.now) ends (string_bytes text) desk.new) }
    ensures err { OnErr result (Gives (HasGoodDisk S.Store) (StandsAt S.Store) (Answered (asked_of request.now)) desk.old memory_reply desk.new) }
{
    match action_of(routes, request) {
        Ok(action) => answer_action(alloc, desk, action, request, ends),
        Err(fault) => request_fault_text(alloc, fault, ends),
    }
}

/// Writes the reply to a request that does this.
fn answer_action<S: Alter + Drop, V: PolicyView + Drop>(
    alloc: Global,
    desk: &mut Desk<S, V>,
    action: Action,
    request: &Request<'_>,
    ends: bool,
) -> Result<String, AllocError>
    requires headers { All (IsHeaderWithin (length request.now.head.now)) request.now.headers.now }
    requires action { calls.action_of (asked_of request.now) ≡ Some (action_in action) }
    ensures ok { IfOk result (λ text. AnswersAsked (HasGoodDisk S.Store) (StandsAt S.Store) desk.old (asked_of request.now) ends (string_bytes text) desk.new) }
    ensures err { OnErr result (Gives (HasGoodDisk S.Store) (StandsAt S.Store) (Answered (asked_of request.now)) desk.old memory_reply desk.new) }
{
    let parameters = parameters_of(alloc, request.target)?;
    let path = path_in(alloc, &parameters)?;
    // The same request, lent for as long as the parameters.
    let here = Request {
        method: request.method,
        target: request.target,
        head: request.head,
        headers: request.headers,
        body: request.body,
    };
    let call = read_call(alloc, action, &here, &parameters, &path)?;
    match call {
        Call::Refused(fault) => request_fault_text(alloc, fault, ends),
        Call::Asks(question, own) => answer_question(alloc, desk, question, &own, ends),
        Call::Edits(edit) => answer_edit(alloc, desk, &edit, ends),
    }
}
