//! The trials: what peers write, how many connections are served, and what comes of it.

use crate::desks::{AS_MADE, EDITED, site, tell};
use crate::peers::{Peer, Receives, Then, check_peer, connect};
use cli_serve::serve_on;
use desk_cases_store::Fresh;
use desk_index::Index;
use desk_policy::{PolicyView, Site};
use desk_store::Desk;
use mio::net::TcpListener;
use sqlite::{Alter, MemStore};
use std::alloc::AllocError;
use std::net::{Ipv4Addr, SocketAddr, TcpStream};
use std::{io, str};

/// An edit.
pub const EDIT: &[u8] =
    b"PUT /v1/file?name=hosts&base=1 HTTP/1.1\r\nX-Custodian: site\r\nX-Key: abc\r\nContent-Length: 20\r\n\r\n\
    127.0.0.1 localhost\n";

/// Its reply.
pub const STORED: &[u8] =
    b"HTTP/1.1 200 OK\r\ncontent-type: application/json\r\ncontent-length: 25\r\n\r\n\
    {\"already\":false,\"rev\":2}";

/// The edit, its repeat, and one with a base that is stale by then, which closes.
const EDITS: &[u8] =
    b"PUT /v1/file?name=hosts&base=1 HTTP/1.1\r\nX-Custodian: site\r\nX-Key: abc\r\nContent-Length: 20\r\n\r\n\
    127.0.0.1 localhost\n\
    PUT /v1/file?name=hosts&base=1 HTTP/1.1\r\nX-Custodian: site\r\nX-Key: abc\r\nContent-Length: 20\r\n\r\n\
    127.0.0.1 localhost\n\
    PUT /v1/file?name=hosts&base=1 HTTP/1.1\r\nX-Custodian: site\r\nX-Key: abc\r\nConnection: close\r\nContent-Length: 16\r\n\r\n\
    127.0.0.1 other\n";

/// Their replies.
const EDIT_REPLIES: &[u8] =
    b"HTTP/1.1 200 OK\r\ncontent-type: application/json\r\ncontent-length: 25\r\n\r\n\
    {\"already\":false,\"rev\":2}\
    HTTP/1.1 200 OK\r\ncontent-type: application/json\r\ncontent-length: 24\r\n\r\n\
    {\"already\":true,\"rev\":2}\
    HTTP/1.1 409 Conflict\r\ncontent-type: application/json\r\ncontent-length: 40\r\nconnection: close\r\n\r\n\
    {\"current\":2,\"error\":\"Stale\",\"number\":7}";

/// A question on the revisions.
pub const QUESTION: &[u8] = b"GET /v1/revisions?name=hosts HTTP/1.1\r\n\r\n";

/// Its reply before the edit, and afterwards.
pub const ONE_REVISION: &[u8] =
    b"HTTP/1.1 200 OK\r\ncontent-type: application/json\r\ncontent-length: 56\r\n\r\n\
    {\"name\":\"hosts\",\"revisions\":[{\"author\":\"site\",\"rev\":1}]}";

pub const TWO_REVISIONS: &[u8] =
    b"HTTP/1.1 200 OK\r\ncontent-type: application/json\r\ncontent-length: 82\r\n\r\n\
    {\"name\":\"hosts\",\"revisions\":[{\"author\":\"site\",\"rev\":1},{\"author\":\"site\",\"rev\":2}]}";

/// The head of an edit with a body that is too large.
const TOO_LARGE: &[u8] =
    b"PUT /v1/file?name=hosts&base=1 HTTP/1.1\r\nX-Custodian: site\r\nX-Key: abc\r\n\
    Content-Length: 65537\r\n\r\n";

/// Its reply.
const BODY_TOO_LARGE: &[u8] =
    b"HTTP/1.1 413 Payload Too Large\r\ncontent-type: application/json\r\ncontent-length: 37\r\n\
    connection: close\r\n\r\n\
    {\"error\":\"BodyTooLarge\",\"number\":104}";

/// A head that is cut.
const CUT_HEAD: &[u8] = b"GET /v2 HT";

/// Its reply.
const BAD_HEAD: &[u8] =
    b"HTTP/1.1 400 Bad Request\r\ncontent-type: application/json\r\ncontent-length: 32\r\n\
    connection: close\r\n\r\n\
    {\"error\":\"BadHead\",\"number\":101}";

/// The head of an edit whose body is cut, and its reply.
const CUT_BODY: &[u8] =
    b"PUT /v1/file?name=hosts&base=1 HTTP/1.1\r\nX-Custodian: site\r\nX-Key: abc\r\nContent-Length: 20\r\n\r\n\
    127.0";

const BODY_CUT: &[u8] =
    b"HTTP/1.1 400 Bad Request\r\ncontent-type: application/json\r\ncontent-length: 32\r\n\
    connection: close\r\n\r\n\
    {\"error\":\"BodyCut\",\"number\":105}";

/// An edit with a wrong key, twice, and one by a caller who is not listed. A refusal does not close.
const WRONG_KEYS: &[u8] =
    b"PUT /v1/file?name=hosts&base=1 HTTP/1.1\r\nX-Custodian: site\r\nX-Key: abd\r\nContent-Length: 20\r\n\r\n\
    127.0.0.1 localhost\n\
    PUT /v1/file?name=hosts&base=1 HTTP/1.1\r\nX-Custodian: site\r\nX-Key: abe\r\nContent-Length: 20\r\n\r\n\
    127.0.0.1 localhost\n\
    PUT /v1/file?name=hosts&base=1 HTTP/1.1\r\nX-Custodian: eve\r\nX-Key: abc\r\nContent-Length: 20\r\n\r\n\
    127.0.0.1 localhost\n";

/// Their replies.
const WRONG_KEY_REPLIES: &[u8] =
    b"HTTP/1.1 403 Forbidden\r\ncontent-type: application/json\r\ncontent-length: 29\r\n\r\n\
    {\"error\":\"BadKey\",\"number\":2}\
    HTTP/1.1 403 Forbidden\r\ncontent-type: application/json\r\ncontent-length: 29\r\n\r\n\
    {\"error\":\"BadKey\",\"number\":2}\
    HTTP/1.1 403 Forbidden\r\ncontent-type: application/json\r\ncontent-length: 36\r\n\r\n\
    {\"error\":\"UnknownCaller\",\"number\":1}";

/// One edit with a wrong key, and its reply.
pub const WRONG_KEY: &[u8] =
    b"PUT /v1/file?name=hosts&base=1 HTTP/1.1\r\nX-Custodian: site\r\nX-Key: abd\r\nContent-Length: 20\r\n\r\n\
    127.0.0.1 localhost\n";

pub const BAD_KEY: &[u8] =
    b"HTTP/1.1 403 Forbidden\r\ncontent-type: application/json\r\ncontent-length: 29\r\n\r\n\
    {\"error\":\"BadKey\",\"number\":2}";

/// The head of an edit with a wrong key and a body that is as long as a body may be.
const LONG_WRONG_KEY: &[u8] =
    b"PUT /v1/file?name=hosts&base=1 HTTP/1.1\r\nX-Custodian: site\r\nX-Key: abd\r\nContent-Length: 65536\r\n\r\n";

/// The replies to it, and to what stands behind its body, which has no head.
const BAD_KEY_AND_HEAD: &[u8] =
    b"HTTP/1.1 403 Forbidden\r\ncontent-type: application/json\r\ncontent-length: 29\r\n\r\n\
    {\"error\":\"BadKey\",\"number\":2}\
    HTTP/1.1 400 Bad Request\r\ncontent-type: application/json\r\ncontent-length: 32\r\n\
    connection: close\r\n\r\n\
    {\"error\":\"BadHead\",\"number\":101}";

/// Peers that connect one after another, how many connections are served then, with a limit of so many milliseconds, and what is
/// reported and what the desk holds afterwards.
#[derive(Clone, Copy)]
pub struct Trial {
    pub name: &'static str,
    peers: &'static [Peer],
    connections: u32,
    limit: u64,
    reports: &'static str,
    holds: &'static str,
}

/// A peer that puts three edits, of which the last closes.
const CLOSED_BY_DESK: Peer = Peer {
    sends: EDITS,
    filler: 0,
    then: Then::Waits,
    receives: Receives::Whole(EDIT_REPLIES),
};

/// One that puts them, and writes no more.
const EDITOR: Peer = Peer {
    sends: EDITS,
    filler: 0,
    then: Then::EndsWriting,
    receives: Receives::Whole(EDIT_REPLIES),
};

/// One that puts an edit.
const ONE_EDIT: Peer = Peer {
    sends: EDIT,
    filler: 0,
    then: Then::EndsWriting,
    receives: Receives::Whole(STORED),
};

/// One that asks for the revisions before the edit, and one that asks afterwards.
const ASKS_FIRST: Peer = Peer {
    sends: QUESTION,
    filler: 0,
    then: Then::EndsWriting,
    receives: Receives::Whole(ONE_REVISION),
};

const ASKS_LATER: Peer = Peer {
    sends: QUESTION,
    filler: 0,
    then: Then::EndsWriting,
    receives: Receives::Whole(TWO_REVISIONS),
};

/// One that puts an edit and is not served.
const NOT_SERVED: Peer = Peer {
    sends: EDIT,
    filler: 0,
    then: Then::EndsWriting,
    receives: Receives::Nothing,
};

/// One that closes before it has asked, and one that closes before it is answered.
const ASKS_NOTHING: Peer = Peer {
    sends: b"",
    filler: 0,
    then: Then::Closes,
    receives: Receives::Nothing,
};

const READS_NOTHING: Peer = Peer {
    sends: EDIT,
    filler: 0,
    then: Then::Closes,
    receives: Receives::Nothing,
};

/// One whose body is too large. It writes less than half of it.
const LARGE: Peer = Peer {
    sends: TOO_LARGE,
    filler: 30_000,
    then: Then::EndsWriting,
    receives: Receives::Whole(BODY_TOO_LARGE),
};

/// One that ends in a head, one that ends in a body, and one that waits in a head.
const ENDS_IN_HEAD: Peer = Peer {
    sends: CUT_HEAD,
    filler: 0,
    then: Then::EndsWriting,
    receives: Receives::Whole(BAD_HEAD),
};

const ENDS_IN_BODY: Peer = Peer {
    sends: CUT_BODY,
    filler: 0,
    then: Then::EndsWriting,
    receives: Receives::Whole(BODY_CUT),
};

const WAITS_IN_HEAD: Peer = Peer {
    sends: CUT_HEAD,
    filler: 0,
    then: Then::Waits,
    receives: Receives::Whole(b""),
};

/// One that asks, and then keeps its connection open without a byte, and one that never sends any.
const STAYS: Peer = Peer {
    sends: QUESTION,
    filler: 0,
    then: Then::Waits,
    receives: Receives::Whole(ONE_REVISION),
};

const SAYS_NOTHING: Peer = Peer {
    sends: b"",
    filler: 0,
    then: Then::Waits,
    receives: Receives::Whole(b""),
};

/// One with three edits that are refused, and one with a single one.
const TRIES_KEYS: Peer = Peer {
    sends: WRONG_KEYS,
    filler: 0,
    then: Then::EndsWriting,
    receives: Receives::Whole(WRONG_KEY_REPLIES),
};

const TRIES_A_KEY: Peer = Peer {
    sends: WRONG_KEY,
    filler: 0,
    then: Then::EndsWriting,
    receives: Receives::Whole(BAD_KEY),
};

/// One that writes more than is kept of what a peer sends: such an edit, and behind it what has no head.
const FILLS_THE_ROOM: Peer = Peer {
    sends: LONG_WRONG_KEY,
    filler: 80_000,
    then: Then::EndsWriting,
    receives: Receives::Whole(BAD_KEY_AND_HEAD),
};

/// How many milliseconds a message may take, mostly.
const LIMIT: u64 = 30_000;

/// How many a message, its reply and idleness may take where a peer is too slow.
const SHORT_LIMIT: u64 = 200;

/// The shortest limit, and the longest.
const SHORTEST_LIMIT: u64 = 1;

const LONGEST_LIMIT: u64 = u64::MAX;

pub const TRIALS: [Trial; 12] = [
    Trial {
        name: "three edits, of which the last closes",
        peers: &[CLOSED_BY_DESK],
        connections: 1,
        limit: LIMIT,
        reports: "",
        holds: EDITED,
    },
    Trial {
        name: "a peer that closes at once, and one behind it",
        peers: &[ASKS_NOTHING, EDITOR],
        connections: 2,
        limit: LIMIT,
        reports: "",
        holds: EDITED,
    },
    Trial {
        name: "a peer that closes once it has asked, and one behind it",
        peers: &[READS_NOTHING, ASKS_LATER],
        connections: 2,
        limit: LIMIT,
        reports: "",
        holds: EDITED,
    },
    Trial {
        name: "two peers, and a third that is not served",
        peers: &[ONE_EDIT, ASKS_LATER, NOT_SERVED],
        connections: 2,
        limit: LIMIT,
        reports: "",
        holds: EDITED,
    },
    Trial {
        name: "a body that is too large and is not read, and a question behind it",
        peers: &[LARGE, ASKS_FIRST],
        connections: 2,
        limit: LIMIT,
        reports: "",
        holds: AS_MADE,
    },
    Trial {
        name: "a head and a body that are cut",
        peers: &[ENDS_IN_HEAD, ENDS_IN_BODY],
        connections: 2,
        limit: LIMIT,
        reports: "",
        holds: AS_MADE,
    },
    Trial {
        name: "a peer that waits too long, and one behind it",
        peers: &[WAITS_IN_HEAD, EDITOR],
        connections: 2,
        limit: SHORT_LIMIT,
        reports: "",
        holds: EDITED,
    },
    Trial {
        name: "a peer that stays after its reply, and one behind it",
        peers: &[STAYS, EDITOR],
        connections: 2,
        limit: SHORT_LIMIT,
        reports: "",
        holds: EDITED,
    },
    Trial {
        name: "a peer that says nothing, one that stays, and one behind them",
        peers: &[SAYS_NOTHING, STAYS, EDITOR],
        connections: 3,
        limit: SHORT_LIMIT,
        reports: "",
        holds: EDITED,
    },
    Trial {
        name: "two peers that stay, and a third that is not served",
        peers: &[STAYS, STAYS, NOT_SERVED],
        connections: 2,
        limit: SHORT_LIMIT,
        reports: "",
        holds: AS_MADE,
    },
    Trial {
        name: "edits with wrong keys, a question, and one such edit more",
        peers: &[TRIES_KEYS, ASKS_FIRST, TRIES_A_KEY],
        connections: 3,
        limit: LIMIT,
        reports: "exportdesk: 3 edits refused\nexportdesk: 1 edit refused\n",
        holds: AS_MADE,
    },
    Trial {
        name: "no connection",
        peers: &[NOT_SERVED],
        connections: 0,
        limit: LIMIT,
        reports: "",
        holds: AS_MADE,
    },
];

/// More of them: one value cannot have so many bytes.
pub const MORE_TRIALS: [Trial; 4] = [
    Trial {
        name: "two peers with a wrong key each",
        peers: &[TRIES_A_KEY, TRIES_A_KEY],
        connections: 2,
        limit: LIMIT,
        reports: "exportdesk: 1 edit refused\nexportdesk: 1 edit refused\n",
        holds: AS_MADE,
    },
    Trial {
        name: "a peer that fills the room with an edit that is refused, and one behind it",
        peers: &[FILLS_THE_ROOM, EDITOR],
        connections: 2,
        limit: LIMIT,
        reports: "exportdesk: 1 edit refused\n",
        holds: EDITED,
    },
    Trial {
        name: "the shortest limit, and messages that came before it",
        peers: &[ONE_EDIT, ASKS_LATER],
        connections: 2,
        limit: SHORTEST_LIMIT,
        reports: "",
        holds: EDITED,
    },
    Trial {
        name: "the longest limit",
        peers: &[CLOSED_BY_DESK, ASKS_LATER],
        connections: 2,
        limit: LONGEST_LIMIT,
        reports: "",
        holds: EDITED,
    },
];

/// Serves the peers of a trial from a new desk, at a port that is free. Returns what is wrong.
pub fn try_one(rt: &HostRuntime, trial: &Trial) -> io::Result<String> {
    let mut wrong = String::new(rt.alloc());
    let site = site(rt.alloc())?;
    try_desk::<MemStore, Index>(rt, trial, &site, &mut wrong)?;
    Ok(wrong)
}

/// Makes a desk of the site, and serves the peers of a trial from it. Adds what is wrong.
fn try_desk<S: Fresh, V: PolicyView + Drop>(
    rt: &HostRuntime,
    trial: &Trial,
    site: &Site,
    wrong: &mut String,
) -> io::Result<()> {
    let made: Result<Desk<S, V>, _> = Desk::create(rt.alloc(), S::open(rt.alloc())?, site);
    match made {
        Ok(mut desk) => try_peers(rt, trial, &mut desk, wrong),
        Err(_) => Ok(wrong.push_str("no desk is made")?),
    }
}

/// Serves the peers of a trial. Adds what is wrong. The listener is closed before they read.
fn try_peers<S: Alter + Drop, V: PolicyView + Drop>(
    rt: &HostRuntime,
    trial: &Trial,
    desk: &mut Desk<S, V>,
    wrong: &mut String,
) -> io::Result<()> {
    let mut streams = served(rt, trial, desk, wrong)?;
    for (peer, stream) in trial.peers.iter().zip(streams.iter_mut()) {
        if let Some(stream) = stream {
            check_peer(rt.alloc(), peer, stream, wrong)?;
        }
    }
    let found = tell(rt.alloc(), desk)?;
    let found = found.as_str();
    if found != trial.holds {
        write!(wrong, "the desk holds {found:?}\n")?;
    }
    Ok(())
}

/// Has the peers of a trial connect and write, and serves so many connections. Returns the connections that the peers keep, and
/// adds what is wrong with what is reported.
fn served<S: Alter + Drop, V: PolicyView + Drop>(
    rt: &HostRuntime,
    trial: &Trial,
    desk: &mut Desk<S, V>,
    wrong: &mut String,
) -> io::Result<Vec<Option<TcpStream>>> {
    let listener = TcpListener::bind(rt, SocketAddr::from((Ipv4Addr::LOCALHOST, 0)))?;
    let streams = connected(rt, listener.local_addr()?, trial.peers)?;
    let mut err = Vec::new(rt.alloc());
    serve_on(rt, desk, listener, trial.connections, trial.limit, &mut err)?;
    check_reports(trial, err.as_slice(), wrong)?;
    Ok(streams)
}

/// Compares what is reported in a trial with what is wanted. Adds what differs.
fn check_reports(trial: &Trial, err: &[u8], wrong: &mut String) -> Result<(), AllocError> {
    if err == trial.reports.as_bytes() {
        return Ok(());
    }
    let text = str::from_utf8(err).unwrap_or("bytes that are not UTF-8");
    write!(wrong, "standard error gets {text:?}\n")
}

/// Connects these peers, one after another, and has each write.
fn connected(
    rt: &HostRuntime,
    address: SocketAddr,
    peers: &[Peer],
) -> io::Result<Vec<Option<TcpStream>>> {
    let mut streams = Vec::new(rt.alloc());
    for peer in peers {
        streams.push(connect(rt, address, peer)?)?;
    }
    Ok(streams)
}
