//! Trials of several connections, turn by turn and without a limit of time: what one peer does, or does not do, while another is
//! answered.

use crate::desks::{has_text, site};
use crate::trials::{BAD_KEY, EDIT, ONE_REVISION, QUESTION, STORED, TWO_REVISIONS, WRONG_KEY};
use cli_database_files::names::Names;
use cli_serve::Serving;
use desk_cases_store::Fresh;
use desk_index::Index;
use desk_policy::PolicyView;
use desk_store::Desk;
use desk_text::Text;
use mio::net::TcpListener;
use sqlite::{Alter, MemStore};
use std::io::{ErrorKind, Read, Write};
use std::net::{Ipv4Addr, SocketAddr, TcpStream};
use std::{fs, io};

/// The most turns that something may take, and how many milliseconds one waits at most.
const TURNS: u32 = 2000;

const WAIT_MILLIS: u64 = 5;

/// The most connections that are open at once.
const MOST: usize = 256;

/// How many questions with a large reply are asked at once: together more than the system takes for a peer that does not read.
const MANY: usize = 250;

/// A question with a large reply.
const LARGE_QUESTION: &[u8] = b"GET /v1/file?name=netgroup HTTP/1.1\r\n\r\n";

/// What is tried.
#[derive(Clone, Copy)]
enum Turns {
    HoldsItsLastByte,
    OthersWait,
    OneMessageATurn,
    DoesNotRead,
    Resets,
    MakesRoom,
    HoldsNoMore,
    InPieces,
    LosesFiles(Lost),
}

/// How a database loses its files, what a peer sends then, and what it receives: nothing if the service ends.
#[derive(Clone, Copy)]
struct Lost {
    is_log_replaced: bool,
    sends: &'static [u8],
    receives: &'static [u8],
}

/// The trials, each with its name.
const TRIALS: [(&str, Turns); 11] = [
    (
        "a peer that holds its last byte back until another has its reply",
        Turns::HoldsItsLastByte,
    ),
    ("one connection, beside one that waits", Turns::OthersWait),
    (
        "one message a turn from a peer that asks on, and a peer behind it",
        Turns::OneMessageATurn,
    ),
    (
        "replies that a peer does not read, another that is answered, and then the replies whole",
        Turns::DoesNotRead,
    ),
    (
        "a peer that resets its connection in the middle of a reply, and another",
        Turns::Resets,
    ),
    (
        "as many silent peers as can be open, and one that asks",
        Turns::MakesRoom,
    ),
    (
        "no message is answered while too many replies wait, and all are afterwards",
        Turns::HoldsNoMore,
    ),
    (
        "edits in pieces of many lengths, with questions of another between the pieces",
        Turns::InPieces,
    ),
    (
        "a question once a database was removed",
        Turns::LosesFiles(Lost {
            is_log_replaced: false,
            sends: QUESTION,
            receives: TWO_REVISIONS,
        }),
    ),
    (
        "an edit with a wrong key once a database was removed",
        Turns::LosesFiles(Lost {
            is_log_replaced: false,
            sends: WRONG_KEY,
            receives: BAD_KEY,
        }),
    ),
    (
        "an edit once a log was replaced",
        Turns::LosesFiles(Lost {
            is_log_replaced: true,
            sends: EDIT,
            receives: b"",
        }),
    ),
];

/// The most bytes of replies that wait for a message to be answered, where a trial has few.
const FEW: usize = 1000;

/// After so many turns the system takes no more for a peer that does not read.
const SETTLED: u32 = 200;

/// The lengths of the pieces in which an edit comes.
const PIECES: [usize; 8] = [1, 2, 3, 4095, 4096, 4097, 8191, 8192];

/// Between how many pieces of an edit another asks.
const MOST_ASKED: usize = 50;

/// The names of a database and its log, which a trial removes.
const DB: &str = "turns.db";

const LOG: &str = "turns.db-wal";

/// A file that takes the place of the log.
const DB_BESIDE: &str = "turns.other";

/// A service of a new desk, at a port that is free.
#[derive(Drop)]
struct House<'a, S: Alter + Drop, V: PolicyView + Drop> {
    rt: &'a HostRuntime,
    desk: Desk<S, V>,
    serving: Serving,
    address: SocketAddr,
    reports: Vec<u8>,
}

impl<'a, S: Fresh, V: PolicyView + Drop> House<'a, S, V> {
    /// Opens a service of so many connections.
    fn open(rt: &'a HostRuntime, connections: u32) -> io::Result<Option<House<'a, S, V>>> {
        let mut site = site(rt.alloc())?;
        site.files.tables.netgroup = large_text(rt)?;
        let made: Result<Desk<S, V>, _> = Desk::create(rt.alloc(), S::open(rt.alloc())?, &site);
        let Ok(desk) = made else {
            return Ok(None);
        };
        let listener = TcpListener::bind(rt, SocketAddr::from((Ipv4Addr::LOCALHOST, 0)))?;
        let address = listener.local_addr()?;
        let serving = Serving::new(rt, listener, connections, 0, None)?;
        Ok(Some(House {
            rt,
            desk,
            serving,
            address,
            reports: Vec::new(rt.alloc()),
        }))
    }

    /// Connects a peer.
    fn connect(&self) -> io::Result<TcpStream> {
        let stream = TcpStream::connect(self.rt, self.address)?;
        stream.set_nonblocking(true)?;
        Ok(stream)
    }

    /// Connects a peer, and has it send.
    fn connect_with(&self, bytes: &[u8]) -> io::Result<TcpStream> {
        let mut stream = self.connect()?;
        stream.write_all(bytes)?;
        Ok(stream)
    }

    /// Takes a turn, which waits so long at most.
    fn turn(&mut self, longest: u64) {
        self.serving
            .turn(self.rt, &mut self.desk, Some(longest), &mut self.reports);
    }

    /// Takes turns until a peer has received so many bytes, or its connection has ended. Returns what it received, and whether its
    /// connection has ended.
    fn receive(&mut self, stream: &mut TcpStream, count: usize) -> io::Result<(Vec<u8>, bool)> {
        let mut found = Vec::new(self.rt.alloc());
        for _ in 0..TURNS {
            let has_ended = take(stream, &mut found)?;
            if has_ended || found.len() >= count {
                return Ok((found, has_ended));
            }
            self.turn(WAIT_MILLIS);
        }
        Ok((found, false))
    }

    /// Tells whether a peer receives these bytes next, and its connection goes on.
    fn receives(&mut self, stream: &mut TcpStream, wanted: &[u8]) -> io::Result<bool> {
        let (found, has_ended) = self.receive(stream, wanted.len())?;
        Ok(found.as_slice() == wanted && !has_ended)
    }
}

/// Returns a text whose reply is large: 600 lines of comment.
fn large_text(rt: &HostRuntime) -> io::Result<Text> {
    let mut text = String::new(rt.alloc());
    for number in 0..600u32 {
        write!(text, "# line {number:>90}\n")?;
    }
    Ok(Text::from_string(text))
}

/// Reads what a peer has received by now. Tells whether its connection has ended.
fn take(stream: &mut TcpStream, found: &mut Vec<u8>) -> io::Result<bool> {
    let mut piece = [0u8; 65536];
    for _ in 0..TURNS {
        match stream.read(&mut piece) {
            Ok(0) => return Ok(true),
            Ok(count) => found.extend_from_slice(&piece[..count])?,
            Err(error) => return Ok(error.kind() != ErrorKind::WouldBlock),
        }
    }
    Ok(false)
}

/// Returns how many trials there are.
pub fn count() -> usize {
    TRIALS.len()
}

/// Returns the name of a trial, and what is wrong with it, if anything is.
pub fn try_turns(rt: &HostRuntime, index: usize) -> io::Result<(&'static str, &'static str)> {
    let Some((name, turns)) = TRIALS.get(index) else {
        return Ok(("", "no trial"));
    };
    let connections = match turns {
        Turns::OthersWait => 1,
        _ => 1000,
    };
    let wrong = match House::<MemStore, Index>::open(rt, connections)? {
        Some(mut house) => try_one(*turns, &mut house)?,
        None => "no desk is made",
    };
    Ok((*name, wrong))
}

/// Returns what is wrong with a trial.
fn try_one<S: Fresh, V: PolicyView + Drop>(
    turns: Turns,
    house: &mut House<'_, S, V>,
) -> io::Result<&'static str> {
    match turns {
        Turns::HoldsItsLastByte => holds_its_last_byte(house),
        Turns::OthersWait => others_wait(house),
        Turns::OneMessageATurn => one_message_a_turn(house),
        Turns::DoesNotRead => does_not_read(house),
        Turns::Resets => resets(house),
        Turns::MakesRoom => makes_room(house),
        Turns::HoldsNoMore => holds_no_more(house),
        Turns::InPieces => in_pieces(house),
        Turns::LosesFiles(lost) => loses_files(house, lost),
    }
}

fn loses_files<S: Fresh, V: PolicyView + Drop>(
    house: &mut House<'_, S, V>,
    lost: Lost,
) -> io::Result<&'static str> {
    fs::write(house.rt, DB, b"db".as_slice())?;
    let mut names = Names::of(house.rt, DB)?;
    fs::write(house.rt, LOG, b"log".as_slice())?;
    names.note_log(house.rt);
    house.serving.watch(names);
    let mut first = house.connect_with(EDIT)?;
    if !house.receives(&mut first, STORED)? {
        return Ok("it has no reply while the files are there");
    }
    drop(first);
    if lost.is_log_replaced {
        fs::write(house.rt, DB_BESIDE, b"log".as_slice())?;
        fs::rename(house.rt, DB_BESIDE, LOG)?;
    } else {
        fs::remove_file(house.rt, DB)?;
    }
    let mut second = house.connect_with(lost.sends)?;
    let (found, has_ended) = house.receive(&mut second, lost.receives.len().max(1))?;
    let _ = fs::remove_file(house.rt, DB);
    fs::remove_file(house.rt, LOG)?;
    let ends = lost.receives.is_empty();
    if found.as_slice() != lost.receives || has_ended != ends {
        return Ok("it has another reply");
    }
    if house.serving.has_lost() != ends || house.serving.is_over() != ends {
        return Ok("the service goes on, or ends");
    }
    Ok("")
}

fn holds_no_more<S: Fresh, V: PolicyView + Drop>(
    house: &mut House<'_, S, V>,
) -> io::Result<&'static str> {
    house.serving.hold_at_most(FEW);
    let reply = large_reply(house)?;
    let mut slow = house.connect()?;
    for _ in 0..MANY {
        slow.write_all(LARGE_QUESTION)?;
    }
    for _ in 0..SETTLED {
        house.turn(WAIT_MILLIS);
    }
    let mut other = house.connect_with(QUESTION)?;
    for _ in 0..5 {
        house.turn(WAIT_MILLIS);
    }
    let mut found = Vec::new(house.rt.alloc());
    if take(&mut other, &mut found)? || !found.is_empty() {
        return Ok("the other is answered while a reply waits");
    }
    let (found, has_ended) = house.receive(&mut slow, MANY.saturating_mul(reply.len()))?;
    if has_ended || !is_repeated(found.as_slice(), reply.as_slice()) {
        return Ok("its replies are not whole");
    }
    if !house.receives(&mut other, ONE_REVISION)? {
        return Ok("the other is not answered afterwards");
    }
    Ok("")
}

fn in_pieces<S: Fresh, V: PolicyView + Drop>(
    house: &mut House<'_, S, V>,
) -> io::Result<&'static str> {
    let mut other = house.connect()?;
    let mut rev = 1u32;
    for length in PIECES {
        let body = body_of(house.rt, rev)?;
        let wrong = put_in_pieces(house, &mut other, rev, body.as_str(), length)?;
        if !wrong.is_empty() {
            return Ok(wrong);
        }
        rev = rev.saturating_add(1);
        let alloc = house.rt.alloc();
        if !has_text(alloc, &mut house.desk, "netgroup", rev, body.as_str()) {
            return Ok("what is stored is not what was put");
        }
    }
    Ok("")
}

/// Puts an edit of this revision in pieces of this length. Between the pieces another peer asks. Returns what is wrong.
fn put_in_pieces<S: Fresh, V: PolicyView + Drop>(
    house: &mut House<'_, S, V>,
    other: &mut TcpStream,
    base: u32,
    body: &str,
    length: usize,
) -> io::Result<&'static str> {
    let edit = edit_of(house.rt, base, body)?;
    let mut stream = house.connect()?;
    stream.set_nodelay(true)?;
    let mut rest = edit.as_bytes();
    for count in 0..edit.len() {
        if rest.is_empty() {
            break;
        }
        let (piece, behind) = rest.split_at(length.min(rest.len()));
        stream.write_all(piece)?;
        rest = behind;
        if count >= MOST_ASKED {
            house.turn(WAIT_MILLIS);
            continue;
        }
        other.write_all(QUESTION)?;
        if !house.receives(other, ONE_REVISION)? {
            return Ok("another is not answered between the pieces");
        }
    }
    let wanted = reply_of(house.rt, base)?;
    if !house.receives(&mut stream, wanted.as_bytes())? {
        return Ok("the edit is not stored");
    }
    Ok("")
}

/// Returns a text of 9,000 bytes: 90 lines of comment, which are others for each number.
fn body_of(rt: &HostRuntime, number: u32) -> io::Result<String> {
    let mut text = String::new(rt.alloc());
    for line in 0..90u32 {
        let is = number.saturating_mul(1000).saturating_add(line);
        write!(text, "# line {is:>92}\n")?;
    }
    Ok(text)
}

/// Returns an edit that has a text follow this revision.
fn edit_of(rt: &HostRuntime, base: u32, body: &str) -> io::Result<String> {
    let mut text = String::new(rt.alloc());
    let length = body.len();
    write!(
        text,
        "PUT /v1/file?name=netgroup&base={base} HTTP/1.1\r\nX-Custodian: site\r\nX-Key: abc\r\nContent-Length: {length}\r\n\r\n{body}"
    )?;
    Ok(text)
}

/// Returns the reply that the edit is stored which follows this revision. The number of its own has one digit.
fn reply_of(rt: &HostRuntime, base: u32) -> io::Result<String> {
    let mut text = String::new(rt.alloc());
    let rev = base.saturating_add(1);
    write!(
        text,
        "HTTP/1.1 200 OK\r\ncontent-type: application/json\r\ncontent-length: 25\r\n\r\n{{\"already\":false,\"rev\":{rev}}}"
    )?;
    Ok(text)
}

fn holds_its_last_byte<S: Fresh, V: PolicyView + Drop>(
    house: &mut House<'_, S, V>,
) -> io::Result<&'static str> {
    let (last, front) = match QUESTION.split_last() {
        Some((last, front)) => (*last, front),
        None => return Ok("no question"),
    };
    let mut first = house.connect_with(front)?;
    house.turn(WAIT_MILLIS);
    let mut second = house.connect_with(QUESTION)?;
    if !house.receives(&mut second, ONE_REVISION)? {
        return Ok("the other has no reply");
    }
    first.write_all(&[last])?;
    if !house.receives(&mut first, ONE_REVISION)? {
        return Ok("it has no reply");
    }
    Ok("")
}

fn others_wait<S: Fresh, V: PolicyView + Drop>(
    house: &mut House<'_, S, V>,
) -> io::Result<&'static str> {
    let mut first = house.connect()?;
    let mut second = house.connect_with(EDIT)?;
    for _ in 0..5 {
        house.turn(WAIT_MILLIS);
    }
    first.write_all(QUESTION)?;
    if !house.receives(&mut first, ONE_REVISION)? {
        return Ok("it has no reply");
    }
    drop(first);
    for _ in 0..TURNS {
        if house.serving.is_over() {
            break;
        }
        house.turn(WAIT_MILLIS);
    }
    let mut found = Vec::new(house.rt.alloc());
    let _ = take(&mut second, &mut found)?;
    match (house.serving.is_over(), found.is_empty()) {
        (true, true) => Ok(""),
        (false, _) => Ok("the service goes on"),
        (true, false) => Ok("the other is answered"),
    }
}

fn one_message_a_turn<S: Fresh, V: PolicyView + Drop>(
    house: &mut House<'_, S, V>,
) -> io::Result<&'static str> {
    let mut first = house.connect_with(QUESTION)?;
    if !house.receives(&mut first, ONE_REVISION)? {
        return Ok("it has no reply");
    }
    for _ in 0..3 {
        first.write_all(QUESTION)?;
    }
    let mut second = house.connect_with(QUESTION)?;
    house.turn(WAIT_MILLIS);
    let mut found = Vec::new(house.rt.alloc());
    let _ = take(&mut second, &mut found)?;
    if found.as_slice() != ONE_REVISION {
        return Ok("the other is not answered in this turn");
    }
    let mut found = Vec::new(house.rt.alloc());
    let _ = take(&mut first, &mut found)?;
    if found.as_slice() != ONE_REVISION {
        return Ok("it has not one reply in this turn");
    }
    for _ in 0..2 {
        if !house.receives(&mut first, ONE_REVISION)? {
            return Ok("it has not all replies");
        }
    }
    Ok("")
}

fn does_not_read<S: Fresh, V: PolicyView + Drop>(
    house: &mut House<'_, S, V>,
) -> io::Result<&'static str> {
    let reply = large_reply(house)?;
    let mut slow = house.connect()?;
    for _ in 0..MANY {
        slow.write_all(LARGE_QUESTION)?;
    }
    for _ in 0..5 {
        house.turn(WAIT_MILLIS);
    }
    let mut other = house.connect_with(EDIT)?;
    if !house.receives(&mut other, STORED)? {
        return Ok("the other is not answered");
    }
    let (found, has_ended) = house.receive(&mut slow, MANY.saturating_mul(reply.len()))?;
    if has_ended || !is_repeated(found.as_slice(), reply.as_slice()) {
        return Ok("its replies are not whole");
    }
    Ok("")
}

/// Returns a large reply.
fn large_reply<S: Fresh, V: PolicyView + Drop>(house: &mut House<'_, S, V>) -> io::Result<Vec<u8>> {
    let mut one = house.connect_with(LARGE_QUESTION)?;
    for _ in 0..5 {
        house.turn(WAIT_MILLIS);
    }
    let mut reply = Vec::new(house.rt.alloc());
    let _ = take(&mut one, &mut reply)?;
    Ok(reply)
}

/// Tells whether a reply is large, and bytes begin with it, as often as it is asked for.
fn is_repeated(found: &[u8], reply: &[u8]) -> bool {
    if reply.len() < 50_000 {
        return false;
    }
    let mut rest = found;
    for _ in 0..MANY {
        match rest.split_at_checked(reply.len()) {
            Some((front, behind)) if front == reply => rest = behind,
            _ => return false,
        }
    }
    true
}

fn resets<S: Fresh, V: PolicyView + Drop>(house: &mut House<'_, S, V>) -> io::Result<&'static str> {
    let mut slow = house.connect()?;
    for _ in 0..MANY {
        slow.write_all(LARGE_QUESTION)?;
    }
    for _ in 0..5 {
        house.turn(WAIT_MILLIS);
    }
    // A socket that is closed with unread bytes resets its connection.
    drop(slow);
    let mut other = house.connect_with(EDIT)?;
    if !house.receives(&mut other, STORED)? {
        return Ok("the other is not answered");
    }
    Ok("")
}

fn makes_room<S: Fresh, V: PolicyView + Drop>(
    house: &mut House<'_, S, V>,
) -> io::Result<&'static str> {
    let mut silent = Vec::new(house.rt.alloc());
    for _ in 0..MOST {
        silent.push(house.connect()?)?;
    }
    for _ in 0..8 {
        house.turn(WAIT_MILLIS);
    }
    let mut one = house.connect_with(QUESTION)?;
    if !house.receives(&mut one, ONE_REVISION)? {
        return Ok("the one that asks is not answered");
    }
    let mut ended = 0usize;
    let mut first = false;
    for (index, stream) in silent.iter_mut().enumerate() {
        let mut found = Vec::new(house.rt.alloc());
        if take(stream, &mut found)? {
            ended = ended.saturating_add(1);
            first = first || index == 0;
        }
    }
    if ended != 1 || !first {
        return Ok("another than the first of the silent ones makes room");
    }
    Ok("")
}
