//! One step: the message at the front of the bytes that came.

ghost use Rattle.std.specs.Prelude.{◌≡◌, ◌<◌, true, All, length};
ghost use Rattle.httparse.specs.Spans.{IsHeaderWithin};
ghost use Rattle.desk_store.specs.Desk.{HasGoodDisk, StandsAt};
ghost use Rattle.desk_http_messages.specs.Asked.{asked_of};
ghost use Rattle.desk_http_messages.specs.Replies.{fault_reply, print_reply};
ghost use Rattle.desk_http.specs.Stepping.{Steps, is_reply, text_bytes};
ghost use Rattle.desk_http.specs.PrivateAnswering.{AnswersAsked};

use crate::answering::answer;
use desk_http_messages::{
    Buffer, Front, Pending, Request, StreamFault, fault_text, look_at, memory_text, request_at,
};
use desk_http_requests::Routes;
use desk_policy::PolicyView;
use desk_store::Desk;
use httparse::spans::{EMPTY_HEADER_SPAN, HeaderSpan};
use sqlite::Alter;
use std::alloc::Global;

/// The most lines of a head.
const HEADER_LINES: usize = 32;

/// The bytes of a reply.
#[derive(Drop)]
pub enum ReplyText {
    Made(String),
    /// A constant, which takes no memory.
    Constant(&'static [u8]),
}

impl ReplyText {
    /// Returns the reply to a fault, with which a stream ends.
    pub fn to_fault(fault: StreamFault) -> ReplyText
        ensures { text_bytes result ≡ print_reply true (fault_reply fault) }
    {
        let bytes = fault_text(fault);
        ReplyText::Constant(bytes)
    }

    /// Lends the bytes.
    pub fn as_bytes(&self) -> &[u8]
        ensures { result.now ≡ text_bytes self.now }
    {
        match self {
            ReplyText::Made(text) => text.as_bytes(),
            ReplyText::Constant(bytes) => bytes,
        }
    }
}

/// What a step came to.
#[derive(Drop)]
pub enum Step {
    /// The reply to the message that was at the front, and whether the stream ends after it.
    Reply(ReplyText, bool),
    /// A fault at the front, whatever bytes follow. The stream ends with the reply to it.
    Fault(StreamFault),
    /// No whole message is at the front yet.
    Waits(Pending),
}

/// Answers the message at the front of the bytes that came, and lets it go; or tells the fault there, or what the bytes wait for.
pub fn take_step<S: Alter + Drop, V: PolicyView + Drop>(
    alloc: Global,
    routes: &Routes,
    buffer: &mut Buffer,
    desk: &mut Desk<S, V>,
) -> Step
    ensures steps { Steps (HasGoodDisk S.Store) (StandsAt S.Store) buffer.old desk.old result buffer.new desk.new }
    ensures shorter { is_reply result ≡ true → length buffer.new < length buffer.old }
{
    let mut headers = [EMPTY_HEADER_SPAN; HEADER_LINES];
    let bytes = buffer.waiting();
    match look_at(bytes, &mut headers) {
        Front::Message(extent) => {
            let request = request_at(bytes, &headers, &extent);
            let text = reply_to(alloc, routes, desk, &request, extent.ends);
            buffer.consume(extent.head.len + extent.body);
            Step::Reply(text, extent.ends)
        }
        Front::Fault(fault) => Step::Fault(fault),
        Front::Open(pending) => Step::Waits(pending),
    }
}

/// Answers a request.
fn reply_to<S: Alter + Drop, V: PolicyView + Drop>(
    alloc: Global,
    routes: &Routes,
    desk: &mut Desk<S, V>,
    request: &Request<'_>,
    ends: bool,
) -> ReplyText
    requires { All (IsHeaderWithin (length request.now.head.now)) request.now.headers.now }
    ensures { AnswersAsked (HasGoodDisk S.Store) (StandsAt S.Store) desk.old (asked_of request.now) ends (text_bytes result) desk.new }
{
    match answer(alloc, routes, desk, request, ends) {
        Ok(text) => ReplyText::Made(text),
        Err(_) => {
            let bytes = memory_text(ends);
            ReplyText::Constant(bytes)
        }
    }
}
