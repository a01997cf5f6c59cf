//! Where a message ends.
ghost use Rattle.std.specs.Prelude.{◌≡◌, ℕ, ◌+◌, ◌<◌, ◌≤◌, List, All, ◌++◌, length, map, take};
ghost use Rattle.httparse.specs.Spans.{IsHeaderWithin, IsRequestAt, IsRequestWithin, header_bytes};
ghost use Rattle.httparse.specs.declared.spans.HeaderSpan.{HeaderSpan};
ghost use Rattle.httparse.specs.Grammar.{RequestHead};
ghost use Rattle.desk_http_messages.specs.Head as spec;
ghost use Rattle.desk_http_messages.specs.Stream.{HasNoHead, IsUnfinished};
ghost use Rattle.desk_http_messages.specs.Front.{IsFront, IsMessageAt, Pends, end_of};
ghost use Rattle.desk_http_messages.specs.Asked.{asked_by, asked_of};

use crate::fields::{asks_to_close, body_length};
use crate::requests::{End, Request, StreamFault};
use httparse::spans::{HeaderSpan, RequestSpans, parse_request};
use httparse::{Error, Status};

/// The longest head.
pub const HEAD_LIMIT: usize = 8192;

/// Where the parts of a message are.
#[derive(Clone, Copy)]
pub struct Extent {
    pub head: RequestSpans,
    /// The length of the body.
    pub body: usize,
    /// The stream ends after the reply.
    pub ends: bool,
}

/// What bytes without a whole message at their front wait for.
#[derive(Clone, Copy)]
pub enum Pending {
    /// The first byte of a message.
    Message,
    /// The rest of a head, or of the empty lines before it.
    Head,
    /// The end of the input, or so many bytes that there is no head: it has too many lines.
    NoHead,
    /// The rest of a body. The message is so long.
    Body(usize),
}

impl Pending {
    /// Returns how the stream ends if no more bytes come.
    pub fn end(self) -> End
        ensures { result ≡ end_of self }
    {
        match self {
            Pending::Message => End::Input,
            Pending::Head | Pending::NoHead => End::Bad(StreamFault::BadHead),
            Pending::Body(_) => End::Bad(StreamFault::BodyCut),
        }
    }
}

/// What is at the front of the bytes that wait.
#[derive(Clone, Copy)]
pub enum Front {
    Message(Extent),
    /// Whatever bytes follow.
    Fault(StreamFault),
    /// No whole message yet.
    Open(Pending),
}

/// Returns the bytes in which a head is sought.
pub fn window_of(bytes: &[u8]) -> &[u8]
    ensures { result.now ≡ take 8192 bytes.now }
{
    if bytes.len() < HEAD_LIMIT {
        bytes
    } else {
        &bytes[..HEAD_LIMIT]
    }
}

/// Tells what is at the front of bytes that begin with a head.
fn after_head(bytes: &[u8], window: &[u8], headers: &[HeaderSpan], head: RequestSpans) -> Front
    requires window { window.now ≡ take 8192 bytes.now }
    requires within { IsRequestWithin window.now headers.now head }
    requires lines { length headers.now ≡ 32 }
    requires parsed { (h : RequestHead) × IsRequestAt window.now headers.now head h }
    ensures { IsFront bytes.now headers.now result }
{
    let fields = &headers[..head.headers];
    match body_length(window, fields) {
        Err(fault) => Front::Fault(fault),
        Ok(body) if bytes.len() - head.len < body => Front::Open(Pending::Body(head.len + body)),
        Ok(body) => Front::Message(Extent {
            head,
            body,
            ends: head.version == 0 || asks_to_close(window, fields),
        }),
    }
}

/// Tells what is at the front of bytes that have no head yet.
fn without_head(bytes: &[u8], pending: Pending) -> Front
    requires some { 0 < length bytes.now }
    requires none { length bytes.now < 8192 → HasNoHead bytes.now × IsUnfinished bytes.now × Pends bytes.now pending × (end_of pending ≡ End.Bad StreamFault.BadHead) }
    requires never { 8192 ≤ length bytes.now → (more : List ℕ) → HasNoHead (bytes.now ++ more) }
    ensures { (headers : List HeaderSpan) → IsFront bytes.now headers result }
{
    if bytes.len() < HEAD_LIMIT {
        Front::Open(pending)
    } else {
        Front::Fault(StreamFault::BadHead)
    }
}

/// Tells what is at the front of the bytes.
pub fn look_at(bytes: &[u8], headers: &mut [HeaderSpan]) -> Front
    requires lines { length headers.old ≡ 32 }
    ensures { IsFront bytes.now headers.new result }
{
    if bytes.is_empty() {
        return Front::Open(Pending::Message);
    }
    let window = window_of(bytes);
    match parse_request(window, headers) {
        Ok(Status::Complete(head)) => after_head(bytes, window, headers, head),
        Ok(Status::Partial) => without_head(bytes, Pending::Head),
        Err(error) => match error {
            Error::TooManyHeaders => without_head(bytes, Pending::NoHead),
            _ => Front::Fault(StreamFault::BadHead),
        },
    }
}

/// Lends the request of the message at the front.
pub fn request_at<'a>(bytes: &'a [u8], headers: &'a [HeaderSpan], extent: &Extent) -> Request<'a>
    requires { IsMessageAt bytes.now headers.now extent.now }
    ensures asks { (at : IsMessageAt bytes.now headers.now extent.now) → asked_of result ≡ asked_by at.message }
    ensures within { All (IsHeaderWithin (length result.head.now)) result.headers.now }
{
    let head = window_of(bytes);
    Request {
        method: extent.head.method.of(head),
        target: extent.head.path.of(head),
        head,
        headers: &headers[..extent.head.headers],
        body: &bytes[extent.head.len..extent.head.len + extent.body],
    }
}
