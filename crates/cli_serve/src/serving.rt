//! All connections, beside one another.

ghost use Rattle.std.specs.Prelude.{ℕ, List};
ghost use Rattle.desk_store.specs.Desk.{HasGoodDisk, StandsAt};
ghost use Rattle.desk_http_messages.specs.Stream.{Message};
ghost use Rattle.desk_http.specs.Answering.{Serves};

use crate::clock::Clock;
use crate::limits::{earlier, has_come, makes_room_before, time_until};
use crate::notes::Notes;
use crate::peer::{Peer, Terms};
use crate::readiness::{LISTENER, Readiness};
use crate::socket::Socket;
use cli_database_files::names::{Names, have_files};
use desk_http::runs_follow;
use desk_http_messages::buffer::CAPACITY;
use desk_http_requests::Routes;
use desk_policy::PolicyView;
use desk_store::Desk;
use mio::event::Event;
use mio::net::{TcpListener, TcpStream};
use sqlite::Alter;
use std::io;
use std::io::{ErrorKind, Write};
use std::os::fd::RawFd;

/// The most connections that are open at once, if the system has so many descriptors. One more is open while another makes room for it.
const MOST_PEERS: usize = 256;

/// The most connections that are accepted in a turn.
const MOST_ACCEPTS: u32 = 64;

/// The most bytes of replies that may wait for a message to be answered: 64 MiB.
const MOST_HELD: usize = 64 << 20;

/// How long no connection is accepted once the system could not give one, in milliseconds.
const PAUSE_MILLIS: u64 = 10;

/// The number by which the system says that the process has no more descriptors. (EMFILE)
const NO_DESCRIPTORS: i32 = 24;

/// The service of all connections.
#[derive(Drop)]
pub struct Serving {
    listener: TcpListener,
    readiness: Readiness,
    routes: Routes,
    clock: Clock,
    /// When the clock was read last.
    moment: u64,
    notes: Notes,
    /// What is served, in the order in which it was accepted.
    peers: Vec<Peer>,
    /// The most of them.
    most: usize,
    /// The most bytes of replies that may wait for a message to be answered.
    most_held: usize,
    /// How many more are accepted.
    left: u32,
    /// The number of the last that was accepted.
    number: usize,
    /// The number of the peer from which on messages are answered in the next turn.
    first: usize,
    /// Whether one may wait to be accepted.
    can_accept: bool,
    /// None is accepted before this moment.
    resumes: u64,
    /// How many edits of connections that made room were refused for who sent them, and that is to be said.
    unsaid: u64,
    /// The limit of time in milliseconds; 0 for none.
    limit: u64,
    /// The room that reads go by.
    room: Vec<u8>,
    /// The names of the files of the database, if it has files.
    names: Option<Names>,
    /// Whether a reply that says that an edit is kept was not sent, since the files lost their names.
    has_lost: bool,
}

impl Serving {
    /// Begins a service that accepts so many connections. The limit of time of a message, of its reply and of idleness is so many
    /// milliseconds, or none if that is 0. What is reported goes to this descriptor, if it is one. No more memory is taken from then on,
    /// beside that of the connections and their replies.
    pub fn new(
        rt: &HostRuntime,
        listener: TcpListener,
        connections: u32,
        limit: u64,
        reports: Option<RawFd>,
    ) -> io::Result<Serving> {
        let mut listener = listener;
        let readiness = Readiness::new(rt, &mut listener, MOST_PEERS + 1)?;
        let routes = Routes::new(rt.alloc())?;
        let clock = Clock::new(rt)?;
        let room = vec![in rt.alloc(); 0; CAPACITY]?;
        let peers = Vec::with_capacity(rt.alloc(), MOST_PEERS)?;
        let notes = Notes::new(rt, reports);
        Ok(Serving {
            listener,
            readiness,
            routes,
            clock,
            moment: 0,
            notes,
            peers,
            most: MOST_PEERS,
            most_held: MOST_HELD,
            left: connections,
            number: LISTENER,
            first: LISTENER,
            can_accept: true,
            resumes: 0,
            unsaid: 0,
            limit,
            room,
            names: None,
            has_lost: false,
        })
    }

    /// Has no message answered while more bytes of replies wait than this, in the place of 64 MiB.
    pub fn hold_at_most(&mut self, most: usize) {
        self.most_held = most;
    }

    /// Watches these names: a reply that says that an edit is kept is sent only if they lead to the files of the database after that; else the
    /// service is over.
    pub fn watch(&mut self, names: Names) {
        self.names = Some(names);
    }

    /// Tells whether a reply that says that an edit is kept was not sent, since the files of the database lost their names.
    pub fn has_lost(&self) -> bool {
        self.has_lost
    }

    /// Tells whether the names that are watched lead to the files of the database. Without any, they do.
    pub fn has_files(&self, rt: &HostRuntime) -> bool {
        have_files(rt, &self.names)
    }

    /// Tells whether all connections were accepted and have ended, or an edit was lost with the names of the files of the database.
    pub fn is_over(&self) -> bool {
        self.has_lost || (self.left == 0 && self.peers.is_empty())
    }

    /// Serves until all connections were accepted and have ended, or an edit was lost with the names of the files of the database.
    pub fn run<S: Alter + Drop, V: PolicyView + Drop, E: Write>(
        &mut self,
        rt: &HostRuntime,
        desk: &mut Desk<S, V>,
        err: &mut E,
    )
        // Whatever the peers did, the desk is one after a run over some messages.
        ensures run { (messages : List Message) × (texts : List (List ℕ)) × Serves (HasGoodDisk S.Store) (StandsAt S.Store) desk.old messages texts desk.new }
    {
        runs_follow::<S, V>();
        for _ in 0..u64::MAX {
            if self.is_over() {
                return;
            }
            self.turn(rt, desk, None, err);
        }
    }

    /// Takes one turn: waits until something can be done, so many milliseconds at most, or as long as it takes if none is given; accepts
    /// what waits; and does for each connection, in the order in which they were accepted, what can be done without waiting. If edits
    /// were refused for who sent them, `err` gets a line once their connection has ended.
    pub fn turn<S: Alter + Drop, V: PolicyView + Drop, E: Write>(
        &mut self,
        rt: &HostRuntime,
        desk: &mut Desk<S, V>,
        longest: Option<u64>,
        err: &mut E,
    )
        ensures run { (messages : List Message) × (texts : List (List ℕ)) × Serves (HasGoodDisk S.Store) (StandsAt S.Store) desk.old messages texts desk.new }
    {
        let asked = self.wait(rt, longest);
        self.accept(rt);
        self.reach_all(rt, desk, asked);
        self.let_go(err);
    }

    /// Returns what moment it is.
    fn now(&mut self, rt: &HostRuntime) -> u64 {
        self.moment = self.clock.now(rt, self.moment);
        self.moment
    }

    /// Waits until something can be done, and notes what is ready. Returns when that was asked.
    fn wait(&mut self, rt: &HostRuntime, longest: Option<u64>) -> u64 {
        let now = self.now(rt);
        let until = time_until(self.next_moment(now), now);
        let longest = match (longest, until) {
            (Some(longest), Some(until)) => Some(longest.min(until)),
            (None, until) => until,
            (longest, None) => longest,
        };
        if self.readiness.wait(longest).is_err() {
            return now;
        }
        let asked = self.now(rt);
        for event in self.readiness.found().iter() {
            let number = event.token().0;
            if number == LISTENER {
                self.can_accept = true;
            } else {
                note(&mut self.peers, number, event);
            }
        }
        asked
    }

    /// Returns the next moment at which something is to be done, if nothing comes before: this one, if something can be done now.
    fn next_moment(&self, now: u64) -> Option<u128> {
        let mut next = None;
        if self.left > 0 && self.can_accept && self.has_room() {
            next = Some(u128::from(self.resumes.max(now)));
        }
        let answers = self.held() <= self.most_held;
        for peer in self.peers.as_slice() {
            if peer.is_ready(answers) {
                return Some(u128::from(now));
            }
            next = earlier(next, peer.end(self.limit));
        }
        next
    }

    /// Returns how many bytes are kept of replies that wait to be sent.
    fn held(&self) -> usize {
        let mut sum = 0usize;
        for peer in self.peers.as_slice() {
            sum = sum.saturating_add(peer.held());
        }
        sum
    }

    /// Tells whether one more connection can be opened, or one that is open makes room.
    fn has_room(&self) -> bool {
        self.peers.len() < self.most || first_to_go(self.peers.as_slice()).is_some()
    }

    /// Accepts the connections that wait, up to a bound.
    fn accept(&mut self, rt: &HostRuntime) {
        let now = self.now(rt);
        if now < self.resumes {
            return;
        }
        for _ in 0..MOST_ACCEPTS {
            if self.left == 0 || !self.can_accept || !self.has_room() {
                return;
            }
            match self.listener.accept() {
                Ok((stream, _)) => {
                    self.left = self.left.saturating_sub(1);
                    self.admit(rt, stream, now);
                }
                Err(error) => {
                    if self.is_refused(&error, now) {
                        return;
                    }
                }
            }
        }
    }

    /// Notes that no connection was accepted, and why. Tells whether no other is accepted now: none waits, or the system cannot give one. It
    /// counts as one that was, but not if one that is open can make room for it: it waits then, if there is one.
    fn is_refused(&mut self, error: &io::Error, now: u64) -> bool {
        match error.kind() {
            ErrorKind::WouldBlock => {
                self.can_accept = false;
                return true;
            }
            ErrorKind::ConnectionAborted | ErrorKind::Interrupted => {
                self.left = self.left.saturating_sub(1);
                return false;
            }
            _ => {}
        }
        self.resumes = now.saturating_add(PAUSE_MILLIS);
        if error.raw_os_error() == Some(NO_DESCRIPTORS) && !self.peers.is_empty() {
            self.most = self.peers.len().saturating_sub(1).max(1);
            self.make_room();
        } else {
            self.left = self.left.saturating_sub(1);
        }
        true
    }

    /// Opens a connection that was accepted, once there is room. Without memory it is closed.
    fn admit(&mut self, rt: &HostRuntime, stream: TcpStream, now: u64) {
        if self.peers.len() >= self.most {
            self.make_room();
        }
        self.number = self.number.saturating_add(1);
        let mut socket = Socket::new(stream);
        if self.readiness.add(&mut socket, self.number).is_err() {
            return;
        }
        if let Ok(peer) = Peer::new(rt.alloc(), socket, self.number, now) {
            let _ = self.peers.push(peer);
        }
    }

    /// Closes the connection that makes room.
    fn make_room(&mut self) {
        if let Some(index) = first_to_go(self.peers.as_slice()) {
            self.close(index);
        }
    }

    /// Does for each connection what can be done without waiting. Where so many replies wait that a message is not answered, the next turn
    /// answers from there on.
    fn reach_all<S: Alter + Drop, V: PolicyView + Drop>(
        &mut self,
        rt: &HostRuntime,
        desk: &mut Desk<S, V>,
        asked: u64,
    )
        ensures run { (messages : List Message) × (texts : List (List ℕ)) × Serves (HasGoodDisk S.Store) (StandsAt S.Store) desk.old messages texts desk.new }
    {
        runs_follow::<S, V>();
        let mut held = self.held();
        let from = self.first;
        let most = self.most_held;
        let mut first = LISTENER;
        for peer in self.peers.iter_mut() {
            let terms = Terms {
                rt,
                routes: &self.routes,
                clock: &self.clock,
                asked,
                limit: self.limit,
                answers: held <= most && peer.number() >= from,
                names: &self.names,
            };
            let before = peer.held();
            peer.reach(desk, &terms, self.room.as_mut_slice());
            held = held.saturating_sub(before).saturating_add(peer.held());
            first = first_put_off(first, from, held > most, peer);
        }
        self.first = first;
    }

    /// Says what is to be said of the connections that have ended, in their order, and closes them.
    fn let_go<E: Write>(&mut self, err: &mut E) {
        for peer in self.peers.iter_mut() {
            self.has_lost = self.has_lost || peer.has_lost();
            let refused = peer.take_refused();
            if refused > 0 {
                self.notes.say(refused, err);
            }
        }
        self.notes.say(self.unsaid, err);
        self.unsaid = 0;
        for index in (0..self.peers.len()).rev() {
            if is_over(self.peers.as_slice(), index) {
                self.close(index);
            }
        }
    }

    /// Closes the connection at this index.
    fn close(&mut self, index: usize) {
        if index < self.peers.len() {
            let mut peer = self.peers.remove(index);
            self.unsaid = self.unsaid.saturating_add(peer.let_go());
        }
    }
}

/// Returns the number of the first peer from this one on that is not answered if too many bytes wait; if none was found before.
fn first_put_off(first: usize, from: usize, is_full: bool, peer: &Peer) -> usize {
    if first == LISTENER && is_full && peer.number() >= from && peer.is_due() {
        peer.number()
    } else {
        first
    }
}

/// Tells whether the peer at this index is to be let go.
fn is_over(peers: &[Peer], index: usize) -> bool {
    match peers.get(index) {
        Some(peer) => peer.is_over(),
        None => false,
    }
}

/// Notes that the socket of the peer of this number was reported.
fn note(peers: &mut [Peer], number: usize, event: &Event) {
    let index = peers.partition_point(|peer| peer.number() < number);
    if let Some(peer) = peers.get_mut(index) {
        if peer.number() == number {
            peer.note(event);
        }
    }
}

/// Returns which connection makes room: of those that were read once, the one that has done the longest what it does.
fn first_to_go(peers: &[Peer]) -> Option<usize> {
    let mut first = None;
    let mut found = None;
    for (index, peer) in peers.iter().enumerate() {
        if let Some(since) = peer.begun() {
            if makes_room_before(since, first) {
                first = Some(since);
                found = Some(index);
            }
        }
    }
    found
}

/// Accepts and serves so many connections, beside one another, until the last of them has ended. An accept that fails counts as one, unless
/// there are no more descriptors and a connection that is open makes room. The limit is as `Serving::new` has it. It fails if the service
/// cannot begin.
pub fn serve_on<S: Alter + Drop, V: PolicyView + Drop, E: Write>(
    rt: &HostRuntime,
    desk: &mut Desk<S, V>,
    listener: TcpListener,
    connections: u32,
    limit: u64,
    err: &mut E,
) -> io::Result<()>
    ensures run { (messages : List Message) × (texts : List (List ℕ)) × Serves (HasGoodDisk S.Store) (StandsAt S.Store) desk.old messages texts desk.new }
{
    match Serving::new(rt, listener, connections, limit, None) {
        Ok(mut serving) => {
            serving.run(rt, desk, err);
            Ok(())
        }
        Err(error) => Err(error),
    }
}
