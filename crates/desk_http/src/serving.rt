//! The service of one connection over a reader and a writer.

ghost use Rattle.std.specs.Prelude.{◌≡◌, ◌⊎◌, ◌↔◌, ℕ, ◌+◌, ◌<◌, ◌≤◌, ◌^◌, List, IfErr, IfOk, OnErr, OnOk, true, false, length, take};
ghost use Rattle.std.specs.Io.KnownBytes.{Appends};
ghost use Rattle.desk_store.specs.Desk.{HasGoodDisk, StandsAt};
ghost use Rattle.desk_http_messages.specs.Stream.{Message};
ghost use Rattle.desk_http.specs.Answering.{Serves};
ghost use Rattle.desk_http.specs.Connection.{IsReadEnd, fresh};
ghost use Rattle.desk_http.specs.Serving.{SessionOf};
ghost use Rattle.desk_http.specs.Stepping.{text_bytes};
ghost use Rattle.desk_http.specs.PrivateServing.{EndsBy, Refuses};

use crate::connection::Connection;
use crate::stepping::{ReplyText, Step};
use desk_http_messages::{End, Served, Sink, Source, StreamFault, fault_text, write_whole};
use desk_http_requests::Routes;
use desk_policy::PolicyView;
use desk_store::Desk;
use sqlite::Alter;
use std::alloc::Global;

/// Answers the requests of one connection, in order, until it ends. If there is no memory for its one buffer or its routes,
/// nothing is read. Each reply is written as one text, in as many calls as the writer needs.
pub fn serve<S: Alter + Drop, V: PolicyView + Drop, R: Source, W: Sink>(
    alloc: Global,
    desk: &mut Desk<S, V>,
    reader: &mut R,
    writer: &mut W,
) -> Served
    requires reader_good { R.has_failed reader.old ≡ false }
    requires writer_good { W.has_failed writer.old ≡ false }
    requires few_reads { R.reads reader.old ≤ 2 ^ 63 }

    // What was read and written, by what the desk became; if it ended by a fault of the reader or the writer, up to there.
    ensures session { SessionOf (HasGoodDisk S.Store) (StandsAt S.Store) result.end desk.old desk.new
        (R.left reader.old) (R.left reader.new) (W.held writer.old) (W.held writer.new) result.replies result.written }

    // However it ended, the desk is one after a run over some messages.
    ensures run { (messages : List Message) × (texts : List (List ℕ)) × Serves (HasGoodDisk S.Store) (StandsAt S.Store) desk.old messages texts desk.new }

    // There is a bound on reads. Without memory nothing is read; a read fault comes only of a read that failed or of that bound, and
    // a write fault only of a write that failed.
    ensures reads { R.reads reader.new ≤ R.reads reader.old + 1000000 }
    ensures memory { result.end ≡ End.Memory → R.reads reader.new ≡ R.reads reader.old }
    ensures read_fault { result.end ≡ End.ReadFault
        → (R.has_failed reader.new ≡ true) ⊎ (R.reads reader.new ≡ R.reads reader.old + 1000000) }
    ensures read_failed { R.has_failed reader.new ≡ true → result.end ≡ End.ReadFault }
    ensures write_fault { (result.end ≡ End.WriteFault) ↔ (W.has_failed writer.new ≡ true) }
{
    let Ok(routes) = Routes::new(alloc) else {
        return ended(0, 0, End::Memory);
    };
    let Ok(mut connection) = Connection::new(alloc) else {
        return ended(0, 0, End::Memory);
    };
    serve_stream(alloc, &routes, &mut connection, desk, reader, writer)
}

/// Answers the requests of one connection, of which nothing was read yet: step by step, with a read whenever its bytes wait.
fn serve_stream<S: Alter + Drop, V: PolicyView + Drop, R: Source, W: Sink>(
    alloc: Global,
    routes: &Routes,
    connection: &mut Connection,
    desk: &mut Desk<S, V>,
    reader: &mut R,
    writer: &mut W,
) -> Served
    requires fresh { connection.old ≡ fresh }
    requires reader_good { R.has_failed reader.old ≡ false }
    requires writer_good { W.has_failed writer.old ≡ false }
    requires few_reads { R.reads reader.old ≤ 2 ^ 63 }
    ensures session { SessionOf (HasGoodDisk S.Store) (StandsAt S.Store) result.end desk.old desk.new
        (R.left reader.old) (R.left reader.new) (W.held writer.old) (W.held writer.new) result.replies result.written }
    ensures reads { R.reads reader.new ≤ R.reads reader.old + 1000000 }
    ensures memory { result.end ≡ End.Memory → ⊥ }
    ensures read_fault { result.end ≡ End.ReadFault
        → (R.has_failed reader.new ≡ true) ⊎ (R.reads reader.new ≡ R.reads reader.old + 1000000) }
    ensures read_failed { R.has_failed reader.new ≡ true → result.end ≡ End.ReadFault }
    ensures write_fault { (result.end ≡ End.WriteFault) ↔ (W.has_failed writer.new ≡ true) }
{
    let mut replies = 0u64;
    let mut written = 0u128;
    loop {
        match connection.step(alloc, routes, desk) {
            Step::Reply(text, ends) => {
                let told = write_reply(writer, &text);
                drop(text);
                match told {
                    Ok(count) => {
                        replies += 1;
                        written += count as u128;
                    }
                    Err(part) => return ended(replies, written + part as u128, End::WriteFault),
                }
                if ends {
                    return ended(replies, written, End::Closed);
                }
            }
            Step::Fault(fault) => return refuse(writer, fault, replies, written),
            Step::Waits(_) => match connection.read_from(reader) {
                None => {}
                Some(end) => return end_input(writer, end, replies, written),
            },
        }
    }
}

/// Tells what a connection came to.
fn ended(replies: u64, written: u128, end: End) -> Served
    ensures { result ≡ record { replies = replies; written = written; end = end } }
{
    Served {
        replies,
        written,
        end,
    }
}

/// Writes a reply: how long it is, or how much of it was written.
fn write_reply<W: Sink>(writer: &mut W, text: &ReplyText) -> Result<usize, usize>
    requires good { W.has_failed writer.old ≡ false }
    ensures ok { IfOk result (λ n. Appends (W.held writer.old) (W.held writer.new) (text_bytes text.now) × (n ≡ length (text_bytes text.now))) }
    ensures still_good { OnOk result (W.has_failed writer.new ≡ false) }
    ensures cut { IfErr result (λ n. Appends (W.held writer.old) (W.held writer.new) (take n (text_bytes text.now)) × (n < length (text_bytes text.now))) }
    ensures failed { OnErr result (W.has_failed writer.new ≡ true) }
{
    let bytes = text.as_bytes();
    match write_whole(writer, bytes) {
        Ok(()) => Ok(bytes.len()),
        Err(part) => Err(part),
    }
}

/// Ends a connection that a read has ended so: with the reply to a fault, if that is one.
fn end_input<W: Sink>(writer: &mut W, end: End, replies: u64, written: u128) -> Served
    requires by_read { IsReadEnd end }
    requires good { W.has_failed writer.old ≡ false }
    requires few { replies + 1 < 2 ^ 64 }
    requires short { written + 1024 < 2 ^ 128 }
    ensures ends { EndsBy end (W.held writer.old) (W.held writer.new) replies written result }
    ensures read { (result.end ≡ End.ReadFault) ↔ (end ≡ End.ReadFault) }
    ensures memory { result.end ≡ End.Memory → ⊥ }
    ensures write_fault { (result.end ≡ End.WriteFault) ↔ (W.has_failed writer.new ≡ true) }
{
    match end {
        End::Bad(fault) => refuse(writer, fault, replies, written),
        end => ended(replies, written, end),
    }
}

/// Writes the reply to a fault, with which the stream ends.
fn refuse<W: Sink>(writer: &mut W, fault: StreamFault, replies: u64, written: u128) -> Served
    requires good { W.has_failed writer.old ≡ false }
    requires few { replies + 1 < 2 ^ 64 }
    requires short { written + 1024 < 2 ^ 128 }
    ensures refuses { Refuses fault (W.held writer.old) (W.held writer.new) replies written result }
    ensures good_if { result.end ≡ End.Bad fault → W.has_failed writer.new ≡ false }
    ensures failed_if { result.end ≡ End.WriteFault → W.has_failed writer.new ≡ true }
{
    let text = fault_text(fault);
    match write_whole(writer, text) {
        Ok(()) => ended(replies + 1, written + text.len() as u128, End::Bad(fault)),
        Err(part) => ended(replies, written + part as u128, End::WriteFault),
    }
}
