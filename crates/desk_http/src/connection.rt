//! A connection, step by step. Who serves several may take their steps in any order.

ghost use Rattle.std.specs.Prelude.{◌≡◌, ℕ, ◌+◌, ◌-◌, ◌<◌, ◌≤◌, ◌^◌, List, IfOk, true, false, length};
ghost use Rattle.std.specs.Io.KnownBytes.{Consumes};
ghost use Rattle.desk_store.specs.Desk.{HasGoodDisk, StandsAt};
ghost use Rattle.desk_http_messages.specs.Front.{IsWaiting};
ghost use Rattle.desk_http_messages.specs.Stream.{Message};
ghost use Rattle.desk_http.specs.Answering.{Serves};
ghost use Rattle.desk_http.specs.declared.connection.State.TheVariants.{Waits};
ghost use Rattle.desk_http.specs.Connection.{EndsRead, IsKnown, ReadMoves, StepMoves, end_in, fresh, has_ended, is_waiting, state_after};
ghost use Rattle.desk_http.specs.Stepping.{is_reply};

use crate::stepping::{Step, take_step};
use desk_http_messages::buffer::CAPACITY;
use desk_http_messages::{Buffer, End, Outcome, Pending, Source, read_on};
use desk_http_requests::Routes;
use desk_policy::PolicyView;
use desk_store::Desk;
use sqlite::Alter;
use std::alloc::{AllocError, Global};
use std::marker::Model;

/// The most reads of one connection.
pub const MAX_READS: u32 = 1_000_000;

/// What is known of the bytes of a connection that were not consumed.
#[derive(Clone, Copy)]
pub enum State {
    /// A message may be at their front.
    Due,
    /// None is, and they wait so.
    Waits(Pending),
    /// The stream has ended so.
    Ended(End),
}

/// A connection: the bytes that came and were not consumed, and what is known of them.
#[derive(Drop)]
pub struct Connection {
    buffer: Buffer,
    state: State,
    /// How many reads were made.
    reads: u32,
}

impl Model for Connection {
    ghost use Rattle.std.specs.Prelude.{◌≤◌};
    ghost use Rattle.desk_http.specs.Connection.{IsKnown, Place};

    ghost Value = { Place };

    ghost view = { λ c. record { waiting = c.buffer; state = c.state; reads = c.reads } };

    ghost invariant = { λ c. IsKnown c.state c.buffer × (c.reads ≤ 1000000) };
}

/// Returns what is known after a step.
fn state_after(step: &Step) -> State
    ensures { result ≡ state_after step.now }
{
    match step {
        Step::Reply(_, true) => State::Ended(End::Closed),
        Step::Reply(_, false) => State::Due,
        Step::Fault(fault) => State::Ended(End::Bad(*fault)),
        Step::Waits(pending) => State::Waits(*pending),
    }
}

/// Returns how a stream in this state has ended, if it has.
fn end_in(state: State) -> Option<End>
    ensures { result ≡ end_in state }
{
    match state {
        State::Due | State::Waits(_) => None,
        State::Ended(end) => Some(end),
    }
}

/// Reads once behind bytes that wait so, after so many reads. Returns how many were made then, and what is known then.
fn read_once<R: Source>(
    reads: u32,
    buffer: &mut Buffer,
    reader: &mut R,
    pending: Pending,
) -> (u32, State)
    requires waits { IsWaiting buffer.old pending }
    requires good { R.has_failed reader.old ≡ false }
    requires reads { R.reads reader.old + 1 < 2 ^ 64 }
    requires few { reads ≤ 1000000 }
    ensures read { (bytes : List ℕ) × Consumes (R.left reader.old) (R.left reader.new) bytes
        × ReadMoves (record { waiting = buffer.old; state = Waits pending; reads = reads }) bytes (end_in result.1)
        (record { waiting = buffer.new; state = result.1; reads = result.0 }) }
    ensures known { IsKnown result.1 buffer.new }
    ensures fits { length buffer.new ≤ 73728 }
    ensures counted { R.reads reader.new + reads ≡ R.reads reader.old + result.0 }
    ensures few { result.0 ≤ 1000000 }
    ensures ends { EndsRead (end_in result.1) result.0 (R.has_failed reader.new) (R.left reader.new) }
{
    if reads == MAX_READS {
        return (reads, State::Ended(End::ReadFault));
    }
    let (made, outcome) = read_on(buffer, reader, pending, 1);
    match outcome {
        Outcome::More => (reads + made, State::Due),
        Outcome::Bound => (reads + made, State::Waits(pending)),
        Outcome::AtEnd => (reads + made, State::Ended(pending.end())),
        Outcome::Failed => (reads + made, State::Ended(End::ReadFault)),
    }
}

impl Connection {
    /// Makes a connection of which nothing was read. It takes no memory from then on, beside that of its replies.
    pub fn new(alloc: Global) -> Result<Connection, AllocError>
        ensures { IfOk result (λ connection. connection ≡ fresh) }
    {
        let buffer = Buffer::new(alloc)?;
        Ok(Connection {
            buffer,
            state: State::Due,
            reads: 0,
        })
    }

    /// Tells whether the stream has ended, so that there are no more steps and reads.
    pub fn has_ended(&self) -> bool
        ensures { result ≡ has_ended self.now.state }
    {
        matches!(self.state, State::Ended(_))
    }

    /// Tells whether the bytes wait for more, so that a read is next; else a step is, unless the stream has ended.
    pub fn is_waiting(&self) -> bool
        ensures { result ≡ is_waiting self.now.state }
    {
        matches!(self.state, State::Waits(_))
    }

    /// Returns how many bytes a read may bring: none only if there is no need of it.
    pub fn room(&self) -> usize
        ensures value { result ≡ 73728 - length self.now.waiting }
        ensures some { is_waiting self.now.state ≡ true → 0 < result }
    {
        CAPACITY - self.buffer.waiting().len()
    }

    /// Takes one step: answers the message at the front; or tells the fault there, with the reply to which the stream ends; or tells
    /// what the bytes wait for.
    pub fn step<S: Alter + Drop, V: PolicyView + Drop>(
        &mut self,
        alloc: Global,
        routes: &Routes,
        desk: &mut Desk<S, V>,
    ) -> Step
        requires goes_on { has_ended self.old.state ≡ false }
        ensures moves { StepMoves (HasGoodDisk S.Store) (StandsAt S.Store) self.old desk.old result self.new desk.new }
        ensures state { self.new.state ≡ state_after result }
        ensures shorter { is_reply result ≡ true → length self.new.waiting < length self.old.waiting }
        // The desk is one after a run over some messages.
        ensures run { (messages : List Message) × (texts : List (List ℕ)) × Serves (HasGoodDisk S.Store) (StandsAt S.Store) desk.old messages texts desk.new }
    {
        if let State::Waits(pending) = self.state {
            return Step::Waits(pending);
        }
        let step = take_step(alloc, routes, &mut self.buffer, desk);
        self.state = state_after(&step);
        step
    }

    /// Reads once behind the bytes that wait, and returns how the stream has ended, if it has: at the end of the input, or since the
    /// read failed, or would be one too many. If it has ended by a fault, that is still to be replied.
    pub fn read_from<R: Source>(&mut self, reader: &mut R) -> Option<End>
        requires waits { is_waiting self.old.state ≡ true }
        requires good { R.has_failed reader.old ≡ false }
        requires reads { R.reads reader.old + 1 < 2 ^ 64 }
        ensures read { (bytes : List ℕ) × Consumes (R.left reader.old) (R.left reader.new) bytes × ReadMoves self.old bytes result self.new }
        ensures fits { length self.new.waiting ≤ 73728 }
        ensures counted { R.reads reader.new + self.old.reads ≡ R.reads reader.old + self.new.reads }
        ensures few { self.new.reads ≤ 1000000 }
        ensures ends { EndsRead result self.new.reads (R.has_failed reader.new) (R.left reader.new) }
    {
        let State::Waits(pending) = self.state else {
            return None;
        };
        let (reads, state) = read_once(self.reads, &mut self.buffer, reader, pending);
        self.reads = reads;
        self.state = state;
        end_in(state)
    }
}
