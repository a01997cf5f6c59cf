//! The ways in which the bytes of a stream come.

ghost use Rattle.std.specs.Prelude.{◌<◌};

use crate::pieces::Pieces;
use desk_http::serve;
use desk_http_messages::{Bytes, End, Of, Served, StreamFault};
use desk_policy::PolicyView;
use desk_store::Desk;
use sqlite::Alter;
use std::alloc::{AllocError, Global};
use std::fmt;
use std::io::Read;

/// How the bytes of a stream come.
#[derive(Clone, Copy)]
pub enum Way {
    InOnePiece,
    ByteByByte,
    /// In two pieces, of which the first has so many bytes.
    CutAfter(usize),
}

impl fmt::Display for Way {
    fn fmt<W: fmt::Write>(&self, f: &mut fmt::Formatter<W>) -> fmt::Result {
        match self {
            Way::InOnePiece => f.write_str("in one piece"),
            Way::ByteByByte => f.write_str("byte by byte"),
            Way::CutAfter(count) => write!(f, "cut after byte {count}"),
        }
    }
}

/// What a connection came to, and the bytes that it wrote.
#[derive(Drop)]
pub struct Session {
    pub served: Served,
    pub written: Vec<u8>,
}

/// Serves a stream that comes so. Where it comes byte by byte the writer takes a byte a call, and where it is cut, 7. If the peer
/// waits, the read after the last byte fails.
pub fn serve_so<S: Alter + Drop, V: PolicyView + Drop>(
    alloc: Global,
    desk: &mut Desk<S, V>,
    stream: &[u8],
    waits: bool,
    way: Way,
) -> Result<Session, AllocError> {
    if waits {
        return serve_waiting(alloc, desk, stream, way);
    }
    match way {
        Way::InOnePiece => serve_in_pieces(alloc, desk, stream, b"", 65_536),
        Way::ByteByByte => serve_by_bytes(alloc, desk, stream),
        Way::CutAfter(count) => {
            let (first, second) = stream.split_at(count.min(stream.len()));
            serve_in_pieces(alloc, desk, first, second, 7)
        }
    }
}

/// Serves a stream of two pieces.
fn serve_in_pieces<S: Alter + Drop, V: PolicyView + Drop>(
    alloc: Global,
    desk: &mut Desk<S, V>,
    first: &[u8],
    second: &[u8],
    step: usize,
) -> Result<Session, AllocError>
    requires { 0 < step }
{
    let mut reader = Of::new(first.chain(second));
    let mut writer = Bytes::new(Vec::new(alloc), step, None);
    let served = serve(alloc, desk, &mut reader, &mut writer);
    session_of(alloc, served, &writer)
}

/// Serves a stream that comes byte by byte.
fn serve_by_bytes<S: Alter + Drop, V: PolicyView + Drop>(
    alloc: Global,
    desk: &mut Desk<S, V>,
    stream: &[u8],
) -> Result<Session, AllocError> {
    let mut reader = Bytes::new(stream.to_vec(alloc)?, 1, None);
    let mut writer = Bytes::new(Vec::new(alloc), 1, None);
    let served = serve(alloc, desk, &mut reader, &mut writer);
    session_of(alloc, served, &writer)
}

/// Serves a stream that comes so and does not end.
fn serve_waiting<S: Alter + Drop, V: PolicyView + Drop>(
    alloc: Global,
    desk: &mut Desk<S, V>,
    stream: &[u8],
    way: Way,
) -> Result<Session, AllocError> {
    let (first, second, most, step) = match way {
        Way::InOnePiece => (stream, &b""[..], usize::MAX, 65_536),
        Way::ByteByByte => (stream, &b""[..], 1, 1),
        Way::CutAfter(count) => {
            let (first, second) = stream.split_at(count.min(stream.len()));
            (first, second, usize::MAX, 7usize)
        }
    };
    let mut reader = Pieces::new(first, second, most);
    let mut writer = Bytes::new(Vec::new(alloc), step.max(1), None);
    let served = serve(alloc, desk, &mut reader, &mut writer);
    session_of(alloc, served, &writer)
}

fn session_of(alloc: Global, served: Served, writer: &Bytes) -> Result<Session, AllocError> {
    Ok(Session {
        served,
        written: writer.as_slice().to_vec(alloc)?,
    })
}

/// Tells how a connection ended: `Input, 2 replies, 197 bytes`.
pub fn end_text(alloc: Global, served: Served) -> Result<String, AllocError> {
    let end = end_name(served.end);
    let (replies, written) = (served.replies, served.written);
    format!(in alloc; "{end}, {replies} replies, {written} bytes")
}

/// Returns the name of an end.
fn end_name(end: End) -> &'static str {
    match end {
        End::Input => "Input",
        End::Closed => "Closed",
        End::Bad(StreamFault::BadHead) => "Bad(101)",
        End::Bad(StreamFault::TransferEncoding) => "Bad(102)",
        End::Bad(StreamFault::BadLength) => "Bad(103)",
        End::Bad(StreamFault::BodyTooLarge) => "Bad(104)",
        End::Bad(StreamFault::BodyCut) => "Bad(105)",
        End::ReadFault => "ReadFault",
        End::WriteFault => "WriteFault",
        End::Memory => "Memory",
    }
}
