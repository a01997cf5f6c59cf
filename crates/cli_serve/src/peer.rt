//! A peer beside others: its session, what it does and since when, and what is known of its socket.

ghost use Rattle.std.specs.Prelude.{ℕ, List};
ghost use Rattle.desk_store.specs.Desk.{HasGoodDisk, StandsAt};
ghost use Rattle.desk_http_messages.specs.Stream.{Message};
ghost use Rattle.desk_http.specs.Answering.{Serves};

use crate::clock::Clock;
use crate::kept_edits::is_kept;
use crate::limits::{Phase, begun, end_of, has_come, with_bytes};
use crate::refusals::is_refusal;
use crate::socket::Socket;
use cli_database_files::names::{Names, have_files};
use desk_http::runs_follow;
use desk_http_messages::buffer::CAPACITY;
use desk_http_requests::Routes;
use desk_http_sessions::{Received, Sent, Session};
use desk_policy::PolicyView;
use desk_store::Desk;
use mio::event::Event;
use sqlite::Alter;
use std::alloc::{AllocError, Global};

/// From how many bytes on nothing more is read behind the end of a connection: 1 MiB.
const UNREAD_BYTES: usize = 1 << 20;

/// How a peer is served in a turn.
#[derive(Clone, Copy)]
pub struct Terms<'a> {
    pub rt: &'a HostRuntime,
    pub routes: &'a Routes,
    pub clock: &'a Clock,
    /// When it was last asked which sockets are ready: what came behind that is not known yet, so no limit is over by it.
    pub asked: u64,
    /// The limit of time of a message, of its reply and of idleness, in milliseconds; 0 for none.
    pub limit: u64,
    /// Whether messages are answered.
    pub answers: bool,
    /// The names of the files of the database, if it has files.
    pub names: &'a Option<Names>,
}

impl Terms<'_> {
    /// Returns what moment it is.
    fn now(&self) -> u64 {
        self.clock.now(self.rt, self.asked)
    }
}

/// What is left to be done for a peer in a turn: how many messages are answered, and how many reads are made.
#[derive(Clone, Copy)]
struct Left {
    answers: usize,
    reads: usize,
}

/// A peer that is served.
#[derive(Drop)]
pub struct Peer {
    session: Session<Socket>,
    /// Its number, by which its socket is reported. Later peers have higher ones.
    number: usize,
    phase: Phase,
    /// Whether it was read once.
    is_reached: bool,
    /// Whether a read brought bytes.
    has_sent: bool,
    /// Whether bytes may be there.
    can_read: bool,
    /// Whether bytes may be taken.
    can_write: bool,
    /// Whether the peer sends no more than what is there.
    has_sent_all: bool,
    /// How many edits were refused for who sent them, and that was not told yet.
    refused: u64,
    /// Whether the end of what the peer sends was read.
    is_read_out: bool,
    /// How many bytes were read behind the end.
    unread: usize,
    /// Whether it is to be let go.
    is_over: bool,
    /// Whether it is let go without a reply that says that an edit is kept, since the files of the database lost their names.
    has_lost: bool,
}

impl Peer {
    /// Begins the service of a peer that was accepted now.
    pub fn new(alloc: Global, socket: Socket, number: usize, now: u64) -> Result<Peer, AllocError> {
        let session = Session::new(alloc, socket)?;
        Ok(Peer {
            session,
            number,
            phase: Phase::Idle(now),
            is_reached: false,
            has_sent: false,
            can_read: true,
            can_write: true,
            has_sent_all: false,
            refused: 0,
            is_read_out: false,
            unread: 0,
            is_over: false,
            has_lost: false,
        })
    }

    /// Returns its number.
    pub fn number(&self) -> usize {
        self.number
    }

    /// Tells whether it is to be let go.
    pub fn is_over(&self) -> bool {
        self.is_over
    }

    /// Tells whether it is let go without a reply that says that an edit is kept, since the files of the database lost their names.
    pub fn has_lost(&self) -> bool {
        self.has_lost
    }

    /// Returns how many bytes are kept of replies that wait to be sent.
    pub fn held(&self) -> usize {
        self.session.held()
    }

    /// Returns how many bytes wait to be sent.
    fn unsent(&self) -> usize {
        self.session.unsent().len()
    }

    /// Returns how many edits were refused for who sent them, once its stream has ended or it is let go; and then 0.
    pub fn take_refused(&mut self) -> u64 {
        if !self.is_over && !self.session.has_ended() {
            return 0;
        }
        let refused = self.refused;
        self.refused = 0;
        refused
    }

    /// Lets it go. Returns how many edits were refused for who sent them, and that was not told.
    pub fn let_go(&mut self) -> u64 {
        self.is_over = true;
        self.take_refused()
    }

    /// Returns since when it does what it does, if it was read once: before that it makes no room.
    pub fn begun(&self) -> Option<u64> {
        if self.is_reached {
            Some(begun(self.phase))
        } else {
            None
        }
    }

    /// Returns when it has to end, if it does nothing else before. It does not while a message that came may be answered.
    pub fn end(&self, limit: u64) -> Option<u128> {
        if self.is_due() {
            None
        } else {
            end_of(limit, self.phase)
        }
    }

    /// Tells whether something can be done for it now.
    pub fn is_ready(&self, answers: bool) -> bool {
        if !self.is_reached {
            true
        } else if self.unsent() > 0 {
            self.can_write
        } else if self.session.has_ended() || self.session.is_waiting() {
            self.can_read
        } else {
            answers
        }
    }

    /// Tells whether a message may be at the front of the bytes that came, and nothing waits to be sent.
    pub fn is_due(&self) -> bool {
        self.unsent() == 0 && !self.session.has_ended() && !self.session.is_waiting()
    }

    /// Notes that its socket was reported.
    pub fn note(&mut self, event: &Event) {
        self.can_read = true;
        self.can_write = true;
        if event.is_read_closed() {
            self.has_sent_all = true;
        }
    }

    /// Does what can be done for it without waiting, and lets it go if it has to end. Of the first read that brings bytes all messages are
    /// answered, and from then on one.
    pub fn reach<S: Alter + Drop, V: PolicyView + Drop>(
        &mut self,
        desk: &mut Desk<S, V>,
        terms: &Terms<'_>,
        room: &mut [u8],
    )
        ensures run { (messages : List Message) × (texts : List (List ℕ)) × Serves (HasGoodDisk S.Store) (StandsAt S.Store) desk.old messages texts desk.new }
    {
        let mut left = Left {
            answers: if self.has_sent { 1 } else { CAPACITY },
            reads: 1,
        };
        self.is_reached = true;
        self.send(terms);
        self.serve(desk, terms, room, &mut left);
        if matches!(self.phase, Phase::Ended(_)) {
            self.read_on(room);
        }
        if has_come(self.end(terms.limit), terms.asked) {
            self.is_over = true;
        }
    }

    /// Does what is left to be done, in turn, as long as the peer takes the replies.
    fn serve<S: Alter + Drop, V: PolicyView + Drop>(
        &mut self,
        desk: &mut Desk<S, V>,
        terms: &Terms<'_>,
        room: &mut [u8],
        left: &mut Left,
    )
        ensures run { (messages : List Message) × (texts : List (List ℕ)) × Serves (HasGoodDisk S.Store) (StandsAt S.Store) desk.old messages texts desk.new }
    {
        runs_follow::<S, V>();
        for _ in 0..CAPACITY {
            if !self.act(desk, terms, room, left) {
                return;
            }
        }
    }

    /// Answers the message at the front of the bytes that came; if none is there whole, reads. Tells whether something was done.
    fn act<S: Alter + Drop, V: PolicyView + Drop>(
        &mut self,
        desk: &mut Desk<S, V>,
        terms: &Terms<'_>,
        room: &mut [u8],
        left: &mut Left,
    ) -> bool
        ensures run { (messages : List Message) × (texts : List (List ℕ)) × Serves (HasGoodDisk S.Store) (StandsAt S.Store) desk.old messages texts desk.new }
    {
        if self.answer(desk, terms, left) {
            return true;
        }
        self.receive(terms, room, left)
    }

    /// Answers the message at the front of the bytes that came, if one is there whole, and sends the reply, as far as the peer takes it.
    /// Tells whether one was answered.
    fn answer<S: Alter + Drop, V: PolicyView + Drop>(
        &mut self,
        desk: &mut Desk<S, V>,
        terms: &Terms<'_>,
        left: &mut Left,
    ) -> bool
        ensures run { (messages : List Message) × (texts : List (List ℕ)) × Serves (HasGoodDisk S.Store) (StandsAt S.Store) desk.old messages texts desk.new }
    {
        if !self.session.unsent().is_empty()
            || self.session.has_ended()
            || self.is_put_off(terms, left)
        {
            return false;
        }
        let is_answered = self.session.answer(terms.rt.alloc(), terms.routes, desk);
        if is_answered {
            left.answers = left.answers.saturating_sub(1);
            if is_kept(self.session.unsent()) && !have_files(terms.rt, terms.names) {
                self.lose();
            } else {
                self.reply(terms);
            }
        }
        is_answered
    }

    /// Lets it go without its reply, which says that an edit is kept: it may be in files that lost their names.
    fn lose(&mut self) {
        self.is_over = true;
        self.has_lost = true;
    }

    /// Tells whether what came is not answered now. If nothing came, it is only found that bytes are waited for.
    fn is_put_off(&self, terms: &Terms<'_>, left: &Left) -> bool {
        self.session.has_bytes() && (left.answers == 0 || !terms.answers)
    }

    /// Begins to send a reply.
    fn reply(&mut self, terms: &Terms<'_>) {
        if is_refusal(self.session.unsent()) {
            self.refused = self.refused.saturating_add(1);
        }
        self.phase = Phase::Reply(terms.now());
        self.send(terms);
    }

    /// Reads once what has come, if the bytes that came wait for more. Tells whether bytes came.
    fn receive(&mut self, terms: &Terms<'_>, room: &mut [u8], left: &mut Left) -> bool {
        if left.reads == 0
            || !self.can_read
            || room.is_empty()
            || !self.session.unsent().is_empty()
            || !self.session.is_waiting()
        {
            return false;
        }
        left.reads = 0;
        match self.session.receive(room) {
            Received::Bytes(is_full) => {
                self.has_sent = true;
                self.can_read = is_full || self.has_sent_all;
                self.phase = with_bytes(self.phase, terms.now());
                return true;
            }
            Received::Nothing => self.can_read = false,
            Received::Ended(is_read_out) => {
                self.is_read_out = is_read_out;
                self.end_stream(terms);
            }
            Received::Failed => self.is_over = true,
        }
        false
    }

    /// Notes that the stream has ended. The reply to its fault is sent, if it has one.
    fn end_stream(&mut self, terms: &Terms<'_>) {
        if self.unsent() > 0 {
            self.reply(terms);
        } else {
            self.rest(terms);
        }
    }

    /// Sends once what waits.
    fn send(&mut self, terms: &Terms<'_>) {
        if !self.can_write || self.unsent() == 0 {
            return;
        }
        match self.session.send() {
            Sent::All => self.rest(terms),
            Sent::Part => {}
            Sent::Nothing => self.can_write = false,
            Sent::Failed => self.is_over = true,
        }
    }

    /// Notes that nothing waits to be sent any more. If the stream has ended, the peer is told so; but one of which all was read is let
    /// go at once.
    fn rest(&mut self, terms: &Terms<'_>) {
        let now = terms.now();
        if self.session.has_ended() {
            self.phase = Phase::Ended(now);
            if self.is_read_out || !self.session.wire().end_sending() {
                self.is_over = true;
            }
        } else if self.session.has_bytes() {
            self.phase = Phase::Message(now);
        } else {
            self.phase = Phase::Idle(now);
        }
    }

    /// Reads on behind the end, until the peer ends too, up to a bound. A socket that is closed with unread bytes resets its connection,
    /// and the peer may lose the last reply. (RFC 9112, section 9.6)
    fn read_on(&mut self, room: &mut [u8]) {
        if !self.can_read || self.is_over {
            return;
        }
        match self.session.wire().drop_bytes(room) {
            Ok(Some(0)) | Err(_) => self.is_over = true,
            Ok(Some(count)) => {
                self.unread = self.unread.saturating_add(count);
                self.is_over = self.unread >= UNREAD_BYTES;
            }
            Ok(None) => self.can_read = false,
        }
    }
}
