//! Commands that run while something is held: `reading DB COMMAND` while a question reads a database, `editing DB COMMAND`
//! while an edit has it open, and `bound PORT COMMAND` while a socket has a port of 127.0.0.1. The command is one of
//! `exportdesk` without an input of its own.
//!
//! One program can hold a database against itself: the locks are those of an open file, and not of a process.

use crate::terminal;
use desk_cases_texts::answers::Asked;
use os::RangeLock;
use sqlite::Connection;
use std::fs;
use std::net::{Ipv4Addr, TcpListener};
use std::os::fd::AsRawFd;

/// Runs a command while something is held. Tells whether it is such a command, and this can be held.
pub fn run(rt: &HostRuntime, shown: &mut String, line: &str) -> Asked {
    let (how, rest) = line.split_once(' ').unwrap_or((line, ""));
    let (held, command) = rest.split_once(' ').unwrap_or((rest, ""));
    match how {
        "reading" => run_reading(rt, shown, held, command),
        "editing" => run_editing(rt, shown, held, command),
        "bound" => run_bound(rt, shown, held, command),
        _ => Ok(false),
    }
}

/// Runs a command while a database has the lock that a question takes.
fn run_reading(rt: &HostRuntime, shown: &mut String, db: &str, command: &str) -> Asked {
    let Ok(file) = fs::open(rt, db) else {
        return Ok(false);
    };
    if os::try_lock_range(file.as_raw_fd(), RangeLock::Shared, 1 << 30, 512) != 0 {
        return Ok(false);
    }
    let asked = terminal::run(rt, shown, command, "");
    drop(file);
    asked
}

/// Runs a command while a connection has a database open, as an edit does.
fn run_editing(rt: &HostRuntime, shown: &mut String, db: &str, command: &str) -> Asked {
    let Ok(conn) = Connection::open(rt, db) else {
        return Ok(false);
    };
    let asked = terminal::run(rt, shown, command, "");
    drop(conn);
    asked
}

/// Runs a command while a socket has a port of the loopback address.
fn run_bound(rt: &HostRuntime, shown: &mut String, port: &str, command: &str) -> Asked {
    let Ok(port) = port.parse::<u16>() else {
        return Ok(false);
    };
    let Ok(listener) = TcpListener::bind(rt, (Ipv4Addr::LOCALHOST, port)) else {
        return Ok(false);
    };
    let asked = terminal::run(rt, shown, command, "");
    drop(listener);
    asked
}
