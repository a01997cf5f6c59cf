//! Connections whose reader or writer fails at each of its calls in turn, those whose input ends after each of its bytes, and those
//! whose reader has no end.

ghost use Rattle.std.specs.Prelude.{◌≡◌, ℕ, ◌<◌, List, length, None, false};

use crate::desks::tell;
use crate::sample::{FILESYSTEMS, site};
use crate::stories::PLAIN;
use desk_cases_store::Fresh;
use desk_http::serve;
use desk_http_messages::{Bytes, End, Failed, Served, Source, StreamFault};
use desk_index::Index;
use desk_policy::{PolicyView, Site};
use desk_store::Desk;
use sqlite::{Alter, MemStore};
use std::alloc::{AllocError, Global};

/// An edit, its repeat, and one with a base that is stale by then: 114, 114 and 110 bytes.
const EDITS: &[u8] =
    b"PUT /v1/file?name=hosts&base=1 HTTP/1.1\r\nX-Custodian: site\r\nX-Key: abc\r\nContent-Length: 20\r\n\r\n\
    127.0.0.1 localhost\n\
    PUT /v1/file?name=hosts&base=1 HTTP/1.1\r\nX-Custodian: site\r\nX-Key: abc\r\nContent-Length: 20\r\n\r\n\
    127.0.0.1 localhost\n\
    PUT /v1/file?name=hosts&base=1 HTTP/1.1\r\nX-Custodian: site\r\nX-Key: abc\r\nContent-Length: 16\r\n\r\n\
    127.0.0.1 other\n";

/// Their replies: 96, 95 and 117 bytes.
const EDIT_REPLIES: &[u8] =
    b"HTTP/1.1 200 OK\r\ncontent-type: application/json\r\ncontent-length: 25\r\n\r\n\
    {\"already\":false,\"rev\":2}\
    HTTP/1.1 200 OK\r\ncontent-type: application/json\r\ncontent-length: 24\r\n\r\n\
    {\"already\":true,\"rev\":2}\
    HTTP/1.1 409 Conflict\r\ncontent-type: application/json\r\ncontent-length: 40\r\n\r\n\
    {\"current\":2,\"error\":\"Stale\",\"number\":7}";

/// A question, an edit, and a question on what it made: 56, 114 and 41 bytes.
const QUESTIONS: &[u8] = b"GET /v1/mount?host=192.0.2.1&dir=/usr/local HTTP/1.1\r\n\r\n\
    PUT /v1/file?name=hosts&base=1 HTTP/1.1\r\nX-Custodian: site\r\nX-Key: abc\r\nContent-Length: 20\r\n\r\n\
    127.0.0.1 localhost\n\
    GET /v1/revisions?name=hosts HTTP/1.1\r\n\r\n";

/// Their replies: 123, 96 and 153 bytes.
const QUESTION_REPLIES: &[u8] =
    b"HTTP/1.1 200 OK\r\ncontent-type: application/json\r\ncontent-length: 52\r\n\r\n\
    {\"fs\":\"/usr\",\"line\":3,\"reason\":3,\"verdict\":\"denied\"}\
    HTTP/1.1 200 OK\r\ncontent-type: application/json\r\ncontent-length: 25\r\n\r\n\
    {\"already\":false,\"rev\":2}\
    HTTP/1.1 200 OK\r\ncontent-type: application/json\r\ncontent-length: 82\r\n\r\n\
    {\"name\":\"hosts\",\"revisions\":[{\"author\":\"site\",\"rev\":1},{\"author\":\"site\",\"rev\":2}]}";

/// A request that is given again and again: 20 bytes.
const REQUEST: &[u8] = b"GET /v2 HTTP/1.1\r\n\r\n";

/// Its reply: 110 bytes.
const NO_ROUTE: &[u8] =
    b"HTTP/1.1 404 Not Found\r\ncontent-type: application/json\r\ncontent-length: 32\r\n\r\n\
    {\"error\":\"NoRoute\",\"number\":106}";

/// A front of a head that has no end.
const HEAD: &[u8] = &[b'A'; 4096];

/// The reply to it, and to a head that is cut: 131 bytes.
const BAD_HEAD: &[u8] =
    b"HTTP/1.1 400 Bad Request\r\ncontent-type: application/json\r\ncontent-length: 32\r\n\
    connection: close\r\n\r\n\
    {\"error\":\"BadHead\",\"number\":101}";

/// The reply to a body that is cut: 131 bytes.
const BODY_CUT: &[u8] =
    b"HTTP/1.1 400 Bad Request\r\ncontent-type: application/json\r\ncontent-length: 32\r\n\
    connection: close\r\n\r\n\
    {\"error\":\"BodyCut\",\"number\":105}";

/// Where a request of a stream begins, where its head and its body end, and where its reply ends among the replies.
#[derive(Clone, Copy)]
struct Message {
    start: usize,
    head_end: usize,
    end: usize,
    reply_end: usize,
}

/// Three requests of one connection with their replies. One of them, from 0, is an edit that is stored.
#[derive(Clone, Copy)]
struct Stream {
    requests: &'static [u8],
    replies: &'static [u8],
    messages: [Message; 3],
    edit: u64,
}

/// The requests of a connection.
#[derive(Clone, Copy)]
enum Requests {
    Edits,
    Questions,
}

impl Requests {
    /// Returns the stream of these requests.
    fn stream(self) -> Stream {
        match self {
            Requests::Edits => Stream {
                requests: EDITS,
                replies: EDIT_REPLIES,
                messages: [
                    message_at(0, 94, 114, 96),
                    message_at(114, 208, 228, 191),
                    message_at(228, 322, 338, 308),
                ],
                edit: 0,
            },
            Requests::Questions => Stream {
                requests: QUESTIONS,
                replies: QUESTION_REPLIES,
                messages: [
                    message_at(0, 56, 56, 123),
                    message_at(56, 150, 170, 219),
                    message_at(170, 211, 211, 372),
                ],
                edit: 1,
            },
        }
    }
}

/// Returns a message of these places.
fn message_at(start: usize, head_end: usize, end: usize, reply_end: usize) -> Message {
    Message {
        start,
        head_end,
        end,
        reply_end,
    }
}

/// How many bytes a reader gives or a writer takes at a call, at most.
#[derive(Clone, Copy)]
enum Pace {
    One,
    Seven,
    Page,
}

impl Pace {
    /// Returns the number of bytes.
    fn bytes(self) -> usize
        ensures { 0 < result }
    {
        match self {
            Pace::One => 1,
            Pace::Seven => 7,
            Pace::Page => 4096,
        }
    }
}

/// What fails, ends early, or has no end.
#[derive(Clone, Copy)]
enum Kind {
    /// The reader fails, at each of so many reads and one more, which finds the end.
    Reader(Requests, Pace, u64),
    /// The input ends, after each byte.
    Input(Requests, Pace),
    /// The writer fails. Each reply is whole after so many writes.
    Writer(Requests, Pace, [u64; 3]),
    /// The reader gives requests without end.
    Requests,
    /// The reader gives a head without end. So many reads reach the bound of a head.
    Head(Pace, u64),
}

/// A trial of connections.
#[derive(Clone, Copy)]
pub struct Trial {
    pub name: &'static str,
    kind: Kind,
}

pub const TRIALS: [Trial; 13] = [
    Trial {
        name: "edits of which a read fails, a byte a read",
        kind: Kind::Reader(Requests::Edits, Pace::One, 338),
    },
    Trial {
        name: "edits of which a read fails, seven bytes a read",
        kind: Kind::Reader(Requests::Edits, Pace::Seven, 49),
    },
    Trial {
        name: "edits that are cut after each byte, a byte a read",
        kind: Kind::Input(Requests::Edits, Pace::One),
    },
    Trial {
        name: "edits that are cut after each byte, in one read",
        kind: Kind::Input(Requests::Edits, Pace::Page),
    },
    Trial {
        name: "edits of which a write fails, a byte a write",
        kind: Kind::Writer(Requests::Edits, Pace::One, [96, 191, 308]),
    },
    Trial {
        name: "edits of which a write fails, seven bytes a write",
        kind: Kind::Writer(Requests::Edits, Pace::Seven, [14, 28, 45]),
    },
    Trial {
        name: "questions of which a read fails, seven bytes a read",
        kind: Kind::Reader(Requests::Questions, Pace::Seven, 31),
    },
    Trial {
        name: "questions that are cut after each byte, in one read",
        kind: Kind::Input(Requests::Questions, Pace::Page),
    },
    Trial {
        name: "questions of which a write fails, a byte a write",
        kind: Kind::Writer(Requests::Questions, Pace::One, [123, 219, 372]),
    },
    Trial {
        name: "questions of which a write fails, seven bytes a write",
        kind: Kind::Writer(Requests::Questions, Pace::Seven, [18, 32, 54]),
    },
    Trial {
        name: "a reader of requests without end",
        kind: Kind::Requests,
    },
    Trial {
        name: "a reader of a head without end, a byte a read",
        kind: Kind::Head(Pace::One, 8192),
    },
    Trial {
        name: "a reader of a head without end, 4,096 bytes a read",
        kind: Kind::Head(Pace::Page, 2),
    },
];

/// A reader that gives the same bytes again and again, at most `step` a call.
#[derive(Drop)]
struct Endless {
    bytes: &'static [u8],
    at: usize,
    step: usize,
    reads: u64,
    ghost in_range: { at < length bytes.now },
    ghost steps: { 0 < step },
}

impl Source for Endless {
    ghost has_failed = { λ s. false };

    ghost reads = { λ s. s.reads };

    // They are no list, since they have no end.
    ghost left = { λ s. None };

    fn read(&mut self, buf: &mut [u8]) -> Result<usize, Failed> {
        self.reads += 1;
        let rest = &self.bytes[self.at..];
        let count = self.step.min(rest.len()).min(buf.len());
        buf[..count].copy_from_slice(&rest[..count]);
        self.at = if count < rest.len() {
            self.at + count
        } else {
            0
        };
        Ok(count)
    }
}

/// What a connection is to come to, which text it ends with behind the replies to whole messages, and how many steps of the
/// sample's history its desk is to hold then.
#[derive(Clone, Copy)]
struct Wanted {
    served: Served,
    last: &'static [u8],
    steps: usize,
}

/// What connections are tried at: a site, its desk if one stands as it was made, and what was wrong so far.
#[derive(Drop)]
struct Subject<S: Fresh, V: PolicyView + Drop> {
    site: Site,
    unused: Option<Desk<S, V>>,
    wrong: String,
}

/// Tries all connections of a trial. Returns what is wrong.
pub fn try_all(alloc: Global, trial: &Trial) -> Result<String, AllocError> {
    let mut subject: Subject<MemStore, Index> = Subject {
        site: site(alloc, FILESYSTEMS)?,
        unused: None,
        wrong: String::new(alloc),
    };
    let tried = try_kind(alloc, &mut subject, trial.kind);
    let Subject { wrong, .. } = subject;
    match tried {
        Ok(()) => Ok(wrong),
        Err(error) => Err(error),
    }
}

/// Tries all connections of one kind. Adds what is wrong.
fn try_kind<S: Fresh, V: PolicyView + Drop>(
    alloc: Global,
    subject: &mut Subject<S, V>,
    kind: Kind,
) -> Result<(), AllocError> {
    match kind {
        Kind::Reader(requests, pace, reads) => {
            try_reader(alloc, subject, &requests.stream(), pace, reads)
        }
        Kind::Input(requests, pace) => try_input(alloc, subject, &requests.stream(), pace),
        Kind::Writer(requests, pace, ends) => {
            try_writer(alloc, subject, &requests.stream(), pace, ends)
        }
        Kind::Requests => try_requests(alloc, subject),
        Kind::Head(pace, reads) => try_head(alloc, subject, pace, reads),
    }
}

/// Serves the requests to a reader of which each read fails in turn, and to one that does not fail. Adds what is wrong.
fn try_reader<S: Fresh, V: PolicyView + Drop>(
    alloc: Global,
    subject: &mut Subject<S, V>,
    stream: &Stream,
    pace: Pace,
    reads: u64,
) -> Result<(), AllocError> {
    let calls = reads.saturating_add(1);
    let requests = stream.requests;
    for call in 0..calls {
        let wanted = wanted_of_reader(stream, pace, call);
        let fails_at = (Some(call), None);
        serve_once(alloc, subject, stream, requests, pace, fails_at, &wanted)?;
        if !subject.wrong.is_empty() {
            return write!(subject.wrong, "as read {call} fails");
        }
    }
    let wanted = wanted_of_input(stream, requests.len());
    let fails_at = (Some(calls), None);
    serve_once(alloc, subject, stream, requests, pace, fails_at, &wanted)
}

/// Serves the requests cut after each of their bytes. Adds what is wrong.
fn try_input<S: Fresh, V: PolicyView + Drop>(
    alloc: Global,
    subject: &mut Subject<S, V>,
    stream: &Stream,
    pace: Pace,
) -> Result<(), AllocError> {
    let length = stream.requests.len();
    for count in 0..length {
        let wanted = wanted_of_input(stream, count);
        let requests = &stream.requests[..count];
        serve_once(
            alloc,
            subject,
            stream,
            requests,
            pace,
            (None, None),
            &wanted,
        )?;
        if !subject.wrong.is_empty() {
            return write!(subject.wrong, "as the input ends after {count} bytes");
        }
    }
    let wanted = wanted_of_input(stream, length);
    serve_once(
        alloc,
        subject,
        stream,
        stream.requests,
        pace,
        (None, None),
        &wanted,
    )
}

/// Serves the requests to a writer of which each write fails in turn, and to one that does not fail. Adds what is wrong.
fn try_writer<S: Fresh, V: PolicyView + Drop>(
    alloc: Global,
    subject: &mut Subject<S, V>,
    stream: &Stream,
    pace: Pace,
    ends: [u64; 3],
) -> Result<(), AllocError> {
    let [_, _, calls] = ends;
    let requests = stream.requests;
    for call in 0..calls {
        let wanted = wanted_of_writer(stream, pace, ends, call);
        let fails_at = (None, Some(call));
        serve_once(alloc, subject, stream, requests, pace, fails_at, &wanted)?;
        if !subject.wrong.is_empty() {
            return write!(subject.wrong, "as write {call} fails");
        }
    }
    let wanted = wanted_of_input(stream, requests.len());
    let fails_at = (None, Some(calls));
    serve_once(alloc, subject, stream, requests, pace, fails_at, &wanted)
}

/// Returns what a connection comes to of which so many bytes came, by how the input ends there: whole messages are answered, then a
/// head or a body that is cut, and nothing between messages.
fn wanted_of_input(stream: &Stream, bytes: usize) -> Wanted {
    let mut replies = 0u64;
    let mut written = 0u128;
    let mut end = End::Input;
    let mut last: &'static [u8] = b"";
    for message in &stream.messages {
        if message.end <= bytes {
            replies = replies.saturating_add(1);
            written = message.reply_end as u128;
        } else if message.start < bytes && bytes < message.head_end {
            end = End::Bad(StreamFault::BadHead);
            last = BAD_HEAD;
        } else if message.start < bytes {
            end = End::Bad(StreamFault::BodyCut);
            last = BODY_CUT;
        }
    }
    Wanted {
        served: Served {
            replies,
            written,
            end,
        },
        last,
        steps: steps_after(stream, replies),
    }
}

/// Returns how many steps of the sample's history a desk holds once so many messages were taken.
fn steps_after(stream: &Stream, messages: u64) -> usize {
    if messages > stream.edit { 2 } else { 1 }
}

/// Returns what a connection comes to as this read fails: the requests that were whole before are answered.
fn wanted_of_reader(stream: &Stream, pace: Pace, call: u64) -> Wanted {
    let bytes = call.saturating_mul(pace.bytes() as u64);
    let whole = wanted_of_input(stream, usize::try_from(bytes).unwrap_or(usize::MAX));
    Wanted {
        served: Served {
            replies: whole.served.replies,
            written: whole.served.written,
            end: End::ReadFault,
        },
        last: b"",
        steps: whole.steps,
    }
}

/// Returns what a connection comes to as this write fails: so much is written as the writes before took, and the edit is
/// stored as its reply is begun.
fn wanted_of_writer(stream: &Stream, pace: Pace, ends: [u64; 3], call: u64) -> Wanted {
    let (replies, writes, written) = last_before(stream, ends, call);
    let part = call
        .saturating_sub(writes)
        .saturating_mul(pace.bytes() as u64);
    Wanted {
        served: Served {
            replies,
            written: (written as u128).saturating_add(part as u128),
            end: End::WriteFault,
        },
        last: b"",
        steps: steps_after(stream, replies.saturating_add(1)),
    }
}

/// Returns how many replies were whole before a write, after how many writes the last of them was, and where it ends.
fn last_before(stream: &Stream, ends: [u64; 3], call: u64) -> (u64, u64, usize) {
    let mut last = (0u64, 0, 0);
    for (end, message) in ends.iter().zip(stream.messages.iter()) {
        if *end <= call {
            last = (last.0.saturating_add(1), *end, message.reply_end);
        }
    }
    last
}

/// Makes a desk of the site, in memory, unless one stands as it was made. If it is refused, that is wrong.
fn take_desk<S: Fresh, V: PolicyView + Drop>(
    alloc: Global,
    subject: &mut Subject<S, V>,
) -> Result<Option<Desk<S, V>>, AllocError> {
    if let Some(desk) = subject.unused.take() {
        return Ok(Some(desk));
    }
    match Desk::create(alloc, S::open(alloc)?, &subject.site) {
        Ok(desk) => Ok(Some(desk)),
        Err(_) => {
            subject.wrong.push_str("no desk is made\n")?;
            Ok(None)
        }
    }
}

/// Serves bytes of a stream to a desk as it was made, and keeps the desk if it still stands so. Adds what is not as it is wanted.
fn serve_once<S: Fresh, V: PolicyView + Drop>(
    alloc: Global,
    subject: &mut Subject<S, V>,
    stream: &Stream,
    bytes: &[u8],
    pace: Pace,
    fails_at: (Option<u64>, Option<u64>),
    wanted: &Wanted,
) -> Result<(), AllocError> {
    let Some(mut desk) = take_desk(alloc, subject)? else {
        return Ok(());
    };
    let wrong = &mut subject.wrong;
    let tried = serve_bytes(
        alloc, &mut desk, wrong, stream, bytes, pace, fails_at, wanted,
    );
    keep_desk(subject, desk, tried)
}

/// Serves bytes of a stream to a desk, while this read or this write fails. Adds what is not as it is wanted. Tells whether the desk
/// stands as it was made.
fn serve_bytes<S: Alter + Drop, V: PolicyView + Drop>(
    alloc: Global,
    desk: &mut Desk<S, V>,
    wrong: &mut String,
    stream: &Stream,
    bytes: &[u8],
    pace: Pace,
    fails_at: (Option<u64>, Option<u64>),
    wanted: &Wanted,
) -> Result<bool, AllocError> {
    let mut reader = Bytes::new(bytes.to_vec(alloc)?, pace.bytes(), fails_at.0);
    let mut writer = Bytes::new(Vec::new(alloc), pace.bytes(), fails_at.1);
    let served = serve(alloc, desk, &mut reader, &mut writer);
    check_written(wrong, stream, served, writer.as_slice(), wanted)?;
    check_desk(alloc, desk, wrong, wanted.steps)
}

/// Keeps a desk, if it stands as it was made.
fn keep_desk<S: Fresh, V: PolicyView + Drop>(
    subject: &mut Subject<S, V>,
    desk: Desk<S, V>,
    tried: Result<bool, AllocError>,
) -> Result<(), AllocError> {
    match tried {
        Ok(is_as_made) => {
            if is_as_made {
                subject.unused = Some(desk);
            }
            Ok(())
        }
        Err(error) => Err(error),
    }
}

/// Compares what a connection came to and wrote with what is wanted: replies up to some byte, and then the last text. Adds what
/// differs.
fn check_written(
    wrong: &mut String,
    stream: &Stream,
    served: Served,
    written: &[u8],
    wanted: &Wanted,
) -> Result<(), AllocError> {
    let length = usize::try_from(wanted.served.written).unwrap_or(usize::MAX);
    let mut all = wanted.served;
    if !wanted.last.is_empty() {
        all.replies = all.replies.saturating_add(1);
        all.written = all.written.saturating_add(wanted.last.len() as u128);
    }
    check_served(served, all, wrong)?;
    let front = written.get(..length);
    if front.is_none() || front != stream.replies.get(..length) {
        wrong.push_str("other replies are written\n")?;
    }
    if written.get(length..) != Some(wanted.last) {
        wrong.push_str("another text is written at last\n")?;
    }
    Ok(())
}

/// Compares what a connection came to with what is wanted. Adds what differs.
pub fn check_served(found: Served, wanted: Served, wrong: &mut String) -> Result<(), AllocError> {
    if found == wanted {
        return Ok(());
    }
    for served in [found, wanted] {
        let (replies, written, end) = (served.replies, served.written, end_name(served.end));
        write!(wrong, "{replies} replies, {written} bytes, {end}\n")?;
    }
    Ok(())
}

/// Returns the name of an end.
fn end_name(end: End) -> &'static str {
    match end {
        End::Input => "Input",
        End::Closed => "Closed",
        End::Bad(StreamFault::BadHead) => "Bad(101)",
        End::Bad(StreamFault::BodyCut) => "Bad(105)",
        End::Bad(_) => "Bad",
        End::ReadFault => "ReadFault",
        End::WriteFault => "WriteFault",
        End::Memory => "Memory",
    }
}

/// Looks whether a desk holds the history of so many steps. Adds what is wrong. Tells whether it stands as it was made.
fn check_desk<S: Alter + Drop, V: PolicyView + Drop>(
    alloc: Global,
    desk: &mut Desk<S, V>,
    wrong: &mut String,
    steps: usize,
) -> Result<bool, AllocError> {
    let mut found = String::new(alloc);
    tell(alloc, desk, &PLAIN, &mut found)?;
    let found = found.as_str();
    let wanted = PLAIN.history_after(alloc, steps.saturating_sub(1))?;
    if found == wanted.as_str() {
        return Ok(steps == 1);
    }
    write!(wrong, "the desk holds {found:?}\n")?;
    Ok(false)
}

/// Serves requests without end, a byte a read: the bound of 1,000,000 reads ends it. Adds what is wrong.
fn try_requests<S: Fresh, V: PolicyView + Drop>(
    alloc: Global,
    subject: &mut Subject<S, V>,
) -> Result<(), AllocError> {
    let reader = Endless {
        bytes: REQUEST,
        at: 0,
        step: 1,
        reads: 0,
    };
    let wanted = Served {
        replies: 50_000,
        written: 5_500_000,
        end: End::ReadFault,
    };
    serve_endless(alloc, subject, reader, 1_000_000, wanted, NO_ROUTE)
}

/// Serves a head without end: so many reads reach the bound of a head. Adds what is wrong.
fn try_head<S: Fresh, V: PolicyView + Drop>(
    alloc: Global,
    subject: &mut Subject<S, V>,
    pace: Pace,
    reads: u64,
) -> Result<(), AllocError> {
    let reader = Endless {
        bytes: HEAD,
        at: 0,
        step: pace.bytes(),
        reads: 0,
    };
    let wanted = Served {
        replies: 1,
        written: 131,
        end: End::Bad(StreamFault::BadHead),
    };
    serve_endless(alloc, subject, reader, reads, wanted, BAD_HEAD)
}

/// Serves what has no end to a desk as it was made, and keeps the desk if it still stands so. Adds what is wrong.
fn serve_endless<S: Fresh, V: PolicyView + Drop>(
    alloc: Global,
    subject: &mut Subject<S, V>,
    mut reader: Endless,
    reads: u64,
    wanted: Served,
    reply: &[u8],
) -> Result<(), AllocError>
    requires { reader.reads ≡ 0 }
{
    let Some(mut desk) = take_desk(alloc, subject)? else {
        return Ok(());
    };
    let wrong = &mut subject.wrong;
    let tried = serve_reader(alloc, &mut desk, wrong, &mut reader, reads, wanted, reply);
    keep_desk(subject, desk, tried)
}

/// Serves what has no end to a desk. Adds what is wrong: there are to be so many reads, what the connection comes to, and this
/// reply again and again. Tells whether the desk stands as it was made.
fn serve_reader<S: Alter + Drop, V: PolicyView + Drop>(
    alloc: Global,
    desk: &mut Desk<S, V>,
    wrong: &mut String,
    reader: &mut Endless,
    reads: u64,
    wanted: Served,
    reply: &[u8],
) -> Result<bool, AllocError>
    requires { reader.old.reads ≡ 0 }
{
    let mut writer = Bytes::new(Vec::new(alloc), 65_536, None);
    let served = serve(alloc, desk, reader, &mut writer);
    check_served(served, wanted, wrong)?;
    if reader.reads != reads {
        let found = reader.reads;
        write!(wrong, "{found} reads\n")?;
    }
    if writer.as_slice().len() as u128 != wanted.written || !repeats(writer.as_slice(), reply) {
        wrong.push_str("other bytes are written\n")?;
    }
    check_desk(alloc, desk, wrong, 1)
}

/// Tests whether bytes are these again and again, and no others.
fn repeats(bytes: &[u8], again: &[u8]) -> bool {
    if again.is_empty() {
        return bytes.is_empty();
    }
    bytes.chunks(again.len()).all(|chunk| chunk == again)
}
