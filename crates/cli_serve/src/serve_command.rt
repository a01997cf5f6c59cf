//! The command `serve`: a desk over HTTP on the loopback address.
//!
//! It ends in two steps: what it prints is known once its port is bound, and nothing is accepted before that is printed.

ghost use Rattle.std.specs.Prelude.{◌≡◌, IfErr, IfOk, MatchResult, None, Some};
ghost use Rattle.std.specs.Option.{option_map};
ghost use Rattle.std.specs.String.{string_bytes};
ghost use Rattle.cli_words.specs.Words.{rows_in};
ghost use Rattle.cli_serve.specs.PrivateServe.{Starts};
ghost use Rattle.cli_serve.specs.ServeCommand.{IsBadLimit, IsUnbound, ReadsAsked, RefusesServe, StartsServe, limit_number, listening_line};

use crate::loopback::loopback;
use crate::serving::Serving;
use clap::ArgMatches;
use cli_database_files::named::Named;
use cli_database_files::names::Names;
use cli_desk::desks::{OpenedDesk, open_for_edits};
use cli_output::failure::Failure;
use cli_output::printed::Printed;
use cli_words::values::{read_count, read_port};
use cli_words::words::{given, required};
use mio::net::TcpListener;
use sqlite::{FileFrom, FileStore, Wary};
use std::alloc::{AllocError, Global};
use std::io;
use std::io::{ErrorKind, Write};
use std::os::fd::RawFd;

/// How long a message, its reply, and the time between two may take, in seconds, if the words do not say it.
const DEFAULT_SECONDS: u32 = 5;

/// The descriptor of standard error.
const STANDARD_ERROR: RawFd = 2;

/// What `serve` is asked.
#[derive(Clone, Copy)]
pub struct Asked<'a> {
    pub db: &'a str,
    /// The TCP port of 127.0.0.1.
    pub port: u16,
    /// How many connections are served.
    pub connections: u32,
    /// How long a message, its reply, and the time between two may take, in seconds; 0 for no limit.
    pub seconds: u32,
}

/// A service that can run, with what is printed of it before it does.
#[derive(Drop)]
pub struct Started {
    pub printed: Printed,
    pub service: Service,
}

/// A service whose desk is open and whose port is bound. Nothing is accepted yet.
#[derive(Drop)]
pub struct Service {
    opened: OpenedDesk<FileStore<Named<FileFrom<Wary>>>>,
    serving: Serving,
    /// How many connections are served.
    pub connections: u32,
    /// How long a message, its reply, and the time between two may take, in seconds; 0 for no limit.
    pub seconds: u32,
}

impl Service {
    /// Serves its connections, beside one another. What is to be reported meanwhile goes to `err`, which is standard error. Tells whether it
    /// served them all: it ends if an edit was made in files that were moved, removed or replaced.
    pub fn run<E: Write>(&mut self, rt: &HostRuntime, err: &mut E) -> bool {
        self.serving.run(rt, &mut self.opened.desk, err);
        if !self.serving.has_lost() {
            return true;
        }
        let _ = err.write_all(
            b"exportdesk: DB or its log (DB-wal) was moved, removed or replaced: it is served no longer\n",
        );
        false
    }

    /// Ends, and closes the desk. What stands at the name of its log once the files lost theirs is not its own.
    pub fn close(self, rt: &HostRuntime) {
        let Service {
            opened,
            serving,
            connections: _,
            seconds: _,
        } = self;
        if serving.has_files(rt) {
            opened.close(rt);
        } else {
            drop(opened);
        }
        drop(serving);
    }
}

/// Answers `serve DB --port N --connections M [--timeout SECONDS]`: with the service that is to run once its line is printed, or
/// with what is printed in its place. The numbers are parsed from left to right, then the database is opened, and then the port is
/// bound.
pub fn run_serve(
    rt: &HostRuntime,
    words: &ArgMatches<'_>,
) -> Result<Started, Result<Printed, Failure>>
    ensures started { IfOk result (StartsServe (rows_in words.now)) }
    ensures refused { IfErr result (RefusesServe (rows_in words.now)) }
{
    match read_asked(rt.alloc(), words) {
        Ok(asked) => start(rt, asked),
        Err(failure) => Err(Err(failure)),
    }
}

/// Parses the words, the numbers from left to right.
fn read_asked<'a>(alloc: Global, words: &ArgMatches<'a>) -> Result<Asked<'a>, Failure>
    ensures { ReadsAsked (rows_in words.now) result }
{
    let db = required(words, "DB")?;
    let port_word = required(words, "port")?;
    let connections_word = required(words, "connections")?;
    let port = read_port(alloc, port_word)?;
    let connections = read_count(alloc, "--connections", connections_word)?;
    let seconds = read_limit(alloc, given(words, "timeout"))?;
    Ok(Asked {
        db,
        port,
        connections,
        seconds,
    })
}

/// Parses the time limit, if it is given.
fn read_limit(alloc: Global, word: Option<&str>) -> Result<u32, Failure>
    ensures { let given = option_map (λ word. word.now) word.entry in
        MatchResult result (λ number. limit_number given ≡ Some number) (λ failure. (limit_number given ≡ None) × IsBadLimit given failure) }
{
    match word {
        Some(word) => read_count(alloc, "--timeout", word),
        None => Ok(DEFAULT_SECONDS),
    }
}

/// Opens the database and binds the port. What allocates comes before the log is made.
fn start(rt: &HostRuntime, asked: Asked<'_>) -> Result<Started, Result<Printed, Failure>>
    ensures { Starts asked.entry result }
{
    let Ok(line) = listening_line(rt.alloc(), asked.port) else {
        return Err(Err(Failure::Memory));
    };
    let Ok(names) = Names::of(rt, asked.db) else {
        return Err(Err(Failure::Memory));
    };
    match open_for_edits(rt, asked.db, Wary) {
        Ok(opened) => listen(rt, opened, asked, line, names),
        Err(answer) => Err(answer),
    }
}

/// Writes the line that says where the service is.
fn listening_line(alloc: Global, port: u16) -> Result<String, AllocError>
    ensures { IfOk result (λ text. string_bytes text ≡ listening_line port) }
{
    format!(in alloc; "listening 127.0.0.1:{port}\n")
}

/// Binds the port for a desk.
fn listen(
    rt: &HostRuntime,
    opened: OpenedDesk<FileStore<Named<FileFrom<Wary>>>>,
    asked: Asked<'_>,
    line: String,
    names: Names,
) -> Result<Started, Result<Printed, Failure>>
    requires { string_bytes line ≡ listening_line asked.port }
    ensures { Starts asked.entry result }
{
    match serving(rt, asked, names) {
        Ok(serving) => Ok(Started {
            printed: Printed {
                status: 0,
                text: line,
                note: String::new(rt.alloc()),
            },
            service: Service {
                opened,
                serving,
                connections: asked.connections,
                seconds: asked.seconds,
            },
        }),
        Err(error) => {
            opened.close(rt);
            Err(Err(unbound(asked.port, error)))
        }
    }
}

/// Binds the port, and makes ready to serve.
fn serving(rt: &HostRuntime, asked: Asked<'_>, names: Names) -> io::Result<Serving> {
    let listener = TcpListener::bind(rt, loopback(asked.port))?;
    let limit = u64::from(asked.seconds) * 1000;
    let mut serving = Serving::new(rt, listener, asked.connections, limit, Some(STANDARD_ERROR))?;
    let mut names = names;
    names.note_log(rt);
    serving.watch(names);
    Ok(serving)
}

/// Returns the failure to bind a port.
fn unbound(port: u16, error: io::Error) -> Failure
    ensures { IsUnbound port result }
{
    match error.kind() {
        ErrorKind::OutOfMemory => Failure::Memory,
        _ => Failure::Unbound(port, error),
    }
}
