//! A session: the service of one peer, in calls that do not wait.

ghost use Rattle.std.specs.Prelude.{◌≡◌, ◌≢◌, ◌<◌, ◌≤◌, ℕ, ◌+◌, IfOk, List, [], ◌∷◌, drop, false, is_some, length, nat_lt, not, true};
ghost use Rattle.desk_store.specs.Desk.{HasGoodDisk, StandsAt};
ghost use Rattle.desk_http_messages.specs.Replies.{joined, last_texts};
ghost use Rattle.desk_http_messages.specs.Stream.{Message};
ghost use Rattle.desk_http.specs.Answering.{Serves};
ghost use Rattle.desk_http.specs.Connection.{AtDesk, Event, fresh, has_ended, is_waiting, state_after};
ghost use Rattle.desk_http_sessions.specs.Session.{AreReads, Exchanges, IsReceived, IsSent};
ghost use Rattle.desk_http_sessions.specs.PrivateSession.{IsWithin, TakesIn, step_texts, unsent_of};

use crate::given_bytes::{Given, Over};
use crate::wire::Wire;
use desk_http::{Connection, ReplyText, Step};
use desk_http_messages::End;
use desk_http_messages::buffer::CAPACITY;
use desk_http_requests::Routes;
use desk_policy::PolicyView;
use desk_store::Desk;
use sqlite::Alter;
use std::alloc::{AllocError, Global};
use std::marker::Model;

/// What a read came to.
#[derive(Clone, Copy)]
pub enum Received {
    /// Nothing has come.
    Nothing,
    /// Bytes came, and whether they filled the room, so that more may be there.
    Bytes(bool),
    /// The stream has ended, and whether it did at the end of the input. A reply to its fault may wait.
    Ended(bool),
    /// The read failed.
    Failed,
}

/// What a write came to.
#[derive(Clone, Copy)]
pub enum Sent {
    /// The reply is sent whole.
    All,
    /// A part of it is.
    Part,
    /// The peer takes nothing now.
    Nothing,
    /// The write failed.
    Failed,
}

/// A peer that is served.
#[derive(Drop)]
pub struct Session<W> {
    connection: Connection,
    /// The reply that is being sent, and how many of its bytes were.
    reply: Option<ReplyText>,
    sent: usize,
    wire: W,
}

impl<W> Model for Session<W> {
    ghost use Rattle.desk_http_sessions.specs.Session.{Kept};
    ghost use Rattle.desk_http_sessions.specs.PrivateSession.{IsWithin, unsent_of};

    ghost Value = { Kept W };

    ghost view = { λ s. record { place = s.connection; unsent = unsent_of s.reply s.sent; wire = s.wire } };

    ghost invariant = { λ s. IsWithin s.reply s.sent };
}

/// Lends the bytes of a reply behind the first ones.
fn unsent_of(reply: &Option<ReplyText>, sent: usize) -> &[u8]
    requires { IsWithin reply.now sent }
    ensures { result.now ≡ unsent_of reply.now sent }
{
    match reply {
        None => &[],
        Some(text) => {
            let bytes = text.as_bytes();
            &bytes[sent..]
        }
    }
}

/// Returns how many bytes of a reply were sent once so many more are.
fn sent_with(reply: &Option<ReplyText>, sent: usize, count: usize) -> usize
    requires within { IsWithin reply.now sent }
    requires count { count ≤ length (unsent_of reply.now sent) }
    ensures { result ≡ sent + count }
{
    match reply {
        None => sent,
        Some(text) => {
            let bytes = text.as_bytes();
            bytes.len() - bytes[sent..][count..].len()
        }
    }
}

/// Returns the reply with which a step ends, if it has one.
fn reply_in(step: Step) -> Option<ReplyText>
    ensures texts { unsent_of result 0 ≡ joined (step_texts step) }
    ensures some { is_some result ≡ not (is_waiting (state_after step)) }
{
    match step {
        Step::Reply(text, _) => Some(text),
        Step::Fault(fault) => Some(ReplyText::to_fault(fault)),
        Step::Waits(_) => None,
    }
}

/// Returns the reply with which a stream ends that has ended so, if it has one.
fn last_reply(end: End) -> Option<ReplyText>
    ensures { unsent_of result 0 ≡ joined (last_texts end) }
{
    match end {
        End::Bad(fault) => Some(ReplyText::to_fault(fault)),
        _ => None,
    }
}

/// Gives bytes to a connection that waits for them; none for the end.
fn take_in(connection: &mut Connection, bytes: &[u8]) -> Option<End>
    requires { is_waiting connection.old.state ≡ true }
    ensures { TakesIn connection.old bytes.now result connection.new }
{
    if bytes.is_empty() {
        let mut over = Over::new();
        return connection.read_from(&mut over);
    }
    let mut given = Given::new(bytes);
    connection.read_from(&mut given)
}

impl<W: Wire + Drop> Session<W> {
    /// Begins the service of a peer. It takes no memory from then on, beside that of its replies.
    pub fn new(alloc: Global, wire: W) -> Result<Session<W>, AllocError>
        ensures { IfOk result (λ session. session ≡ record { place = fresh; unsent = []; wire = wire }) }
    {
        let connection = Connection::new(alloc)?;
        Ok(Session {
            connection,
            reply: None,
            sent: 0,
            wire,
        })
    }

    /// Lends the wire.
    pub fn wire(&self) -> &W
        ensures { result.now ≡ self.now.wire }
    {
        &self.wire
    }

    /// Lends the bytes that wait to be sent. They are of one reply.
    pub fn unsent(&self) -> &[u8]
        ensures { result.now ≡ self.now.unsent }
    {
        unsent_of(&self.reply, self.sent)
    }

    /// Returns how many bytes the reply has that is being sent. It is kept whole until all of it is sent.
    pub fn held(&self) -> usize
        ensures { length self.now.unsent ≤ result }
    {
        match &self.reply {
            None => 0,
            Some(text) => text.as_bytes().len(),
        }
    }

    /// Tells whether the stream has ended: once nothing waits to be sent, the session has.
    pub fn has_ended(&self) -> bool
        ensures { result ≡ has_ended self.now.place.state }
    {
        self.connection.has_ended()
    }

    /// Tells whether the bytes that came wait for more.
    pub fn is_waiting(&self) -> bool
        ensures { result ≡ is_waiting self.now.place.state }
    {
        self.connection.is_waiting()
    }

    /// Tells whether bytes came that are not answered.
    pub fn has_bytes(&self) -> bool
        ensures { result ≡ nat_lt 0 (length self.now.place.waiting) }
    {
        self.connection.room() < CAPACITY
    }

    /// Answers the message at the front of the bytes that came, or the fault there. Tells whether a reply waits now; else the bytes wait
    /// for more.
    pub fn answer<S: Alter + Drop, V: PolicyView + Drop>(
        &mut self,
        alloc: Global,
        routes: &Routes,
        desk: &mut Desk<S, V>,
    ) -> bool
        requires goes_on { has_ended self.old.place.state ≡ false }
        requires taken { self.old.unsent ≡ [] }
        ensures exchanges { (e : Event) × Exchanges W.left W.held self.old (e ∷ []) self.new × AtDesk (HasGoodDisk S.Store) (StandsAt S.Store) desk.old e desk.new }
        ensures wire { self.new.wire ≡ self.old.wire }
        ensures waits { result ≡ not (is_waiting self.new.place.state) }
        ensures run { (messages : List Message) × (texts : List (List ℕ)) × Serves (HasGoodDisk S.Store) (StandsAt S.Store) desk.old messages texts desk.new }
    {
        let step = self.connection.step(alloc, routes, desk);
        self.reply = reply_in(step);
        self.sent = 0;
        self.reply.is_some()
    }

    /// Reads once what has come, for a connection whose bytes wait for more, by way of this room.
    pub fn receive(&mut self, room: &mut [u8]) -> Received
        requires waits { is_waiting self.old.place.state ≡ true }
        requires taken { self.old.unsent ≡ [] }
        requires room { 0 < length room.old }
        ensures exchanges { (events : List Event) × Exchanges W.left W.held self.old events self.new × AreReads events }
        ensures came_to { IsReceived self.old.place result self.new.place }
    {
        let most = self.connection.room().min(room.len());
        let room = &mut room[..most];
        match self.wire.receive(room) {
            Ok(Some(count)) => match take_in(&mut self.connection, &room[..count]) {
                None => Received::Bytes(count == most),
                Some(end) => {
                    self.reply = last_reply(end);
                    self.sent = 0;
                    Received::Ended(count == 0)
                }
            },
            Ok(None) => Received::Nothing,
            Err(_) => Received::Failed,
        }
    }

    /// Sends once what waits, as far as the peer takes it.
    pub fn send(&mut self) -> Sent
        ensures exchanges { Exchanges W.left W.held self.old [] self.new }
        ensures place { self.new.place ≡ self.old.place }
        ensures came_to { IsSent self.old.unsent result self.new.unsent }
    {
        match self.wire.send(unsent_of(&self.reply, self.sent)) {
            Ok(Some(count)) => self.go_on(count),
            Ok(None) => Sent::Nothing,
            Err(_) => Sent::Failed,
        }
    }

    /// Notes that so many bytes were sent.
    fn go_on(&mut self, count: usize) -> Sent
        requires { count ≤ length self.old.unsent }
        ensures unsent { self.new.unsent ≡ drop count self.old.unsent }
        ensures place { self.new.place ≡ self.old.place }
        ensures wire { self.new.wire ≡ self.old.wire }
        ensures came_to { IsSent self.old.unsent result self.new.unsent }
    {
        self.sent = sent_with(&self.reply, self.sent, count);
        if !self.unsent().is_empty() {
            return Sent::Part;
        }
        self.reply = None;
        self.sent = 0;
        Sent::All
    }
}
