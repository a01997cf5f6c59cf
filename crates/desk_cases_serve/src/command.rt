//! The command itself: a peer connects once its line is printed, and is served; then one does whose edit was stored before, while the log of
//! the database has lost its name; and then one whose edit is new, while that is so.

use crate::peers::{Peer, Receives, Then, check_peer, connect};
use crate::trials::STORED;
use std::io::{ErrorKind, Write};
use std::net::{Ipv4Addr, SocketAddr, TcpListener, TcpStream};
use std::{fs, io, str};

/// An edit of the hosts of the sample site.
const EDIT_HOSTS: &[u8] =
    b"PUT /v1/file?name=hosts&base=1 HTTP/1.1\r\nX-Custodian: site\r\nX-Key: abc\r\nContent-Length: 95\r\n\r\n\
    131.104.48.17 grumpy.example grumpy\n131.104.48.20 sneezy\n131.104.48.21 doc\n131.104.48.22 dopey\n";

/// An edit of the networks of the sample site.
const EDIT_NETWORKS: &[u8] =
    b"PUT /v1/file?name=networks&base=1 HTTP/1.1\r\nX-Custodian: site\r\nX-Key: abc\r\nContent-Length: 47\r\n\r\n\
    cis-net 131.104.48\ncis-mask 255.255.255\n# held\n";

/// The reply to an edit that is not stored.
const NOT_STORED: &[u8] =
    b"HTTP/1.1 503 Service Unavailable\r\ncontent-type: application/json\r\ncontent-length: 30\r\n\r\n\
    {\"error\":\"Store\",\"number\":201}";

/// A run of the command: its peer, whether the log has lost its name by then, the status, and what is reported.
#[derive(Clone, Copy)]
struct Run {
    peer: Peer,
    is_log_lost: bool,
    status: u8,
    reports: &'static str,
}

/// The runs, one after another on one database. The first connection ends by the limit of time alone, since nobody else waits.
const RUNS: [Run; 3] = [
    Run {
        peer: Peer {
            sends: EDIT_HOSTS,
            filler: 0,
            then: Then::Waits,
            receives: Receives::Whole(STORED),
        },
        is_log_lost: false,
        status: 0,
        reports: "",
    },
    Run {
        peer: Peer {
            sends: EDIT_HOSTS,
            filler: 0,
            then: Then::Waits,
            receives: Receives::Whole(b""),
        },
        is_log_lost: true,
        status: 4,
        reports: "exportdesk: DB or its log (DB-wal) was moved, removed or replaced: it is served no longer\n",
    },
    Run {
        peer: Peer {
            sends: EDIT_NETWORKS,
            filler: 0,
            then: Then::Waits,
            receives: Receives::Whole(NOT_STORED),
        },
        is_log_lost: true,
        status: 0,
        reports: "",
    },
];

/// What is stored after the runs.
const NETWORKS: &str = "rev 1 site\n";

/// The standard output of a service: a peer connects once a line was printed and flushed.
#[derive(Drop)]
struct Output<'a> {
    rt: &'a HostRuntime,
    port: u16,
    run: Run,
    text: Vec<u8>,
    peer: Option<TcpStream>,
    /// Whether the port is refused at another address of this machine.
    is_refused_elsewhere: bool,
}

impl Output<'_> {
    /// Has the peer connect, once the port is known to be bound, and tries another address of the machine. (Linux answers there if
    /// all addresses are bound.)
    fn connect(&mut self) -> io::Result<()> {
        if self.run.is_log_lost {
            fs::rename(self.rt, "asked.db-wal", "asked.log")?;
        }
        self.peer = connect(self.rt, address(1, self.port), &self.run.peer)?;
        self.is_refused_elsewhere = match TcpStream::connect(self.rt, address(2, self.port)) {
            Ok(_) => false,
            Err(error) => error.kind() == ErrorKind::ConnectionRefused,
        };
        Ok(())
    }
}

impl Write for Output<'_> {
    fn write(&mut self, buf: &[u8]) -> io::Result<usize> {
        self.text.extend_from_slice(buf)?;
        Ok(buf.len())
    }

    fn flush(&mut self) -> io::Result<()> {
        self.connect()
    }
}

/// Returns a port of 127.0.0.N.
fn address(last: u8, port: u16) -> SocketAddr {
    SocketAddr::from((Ipv4Addr::new(127, 0, 0, last), port))
}

/// Returns a port that is free.
fn free_port(rt: &HostRuntime) -> io::Result<u16> {
    let listener = TcpListener::bind(rt, address(1, 0))?;
    Ok(listener.local_addr()?.port())
}

/// Runs `serve` on a new database of the sample site, each time for one connection, with a limit of a second. Returns what is wrong.
pub fn try_command(rt: &HostRuntime) -> io::Result<String> {
    let mut wrong = String::new(rt.alloc());
    let mut made = Vec::new(rt.alloc());
    let mut said = Vec::new(rt.alloc());
    let mut input: &[u8] = b"";
    let init = ["init", "asked.db", "site"];
    if cli::run(rt, init.as_slice(), &mut input, &mut made, &mut said) != 0 {
        wrong.push_str("no database is made\n")?;
    }
    for run in RUNS {
        try_run(rt, run, &mut wrong)?;
        if run.is_log_lost {
            fs::rename(rt, "asked.log", "asked.db-wal")?;
        }
    }
    let mut stored = Vec::new(rt.alloc());
    let log = ["log", "asked.db", "networks"];
    if cli::run(rt, log.as_slice(), &mut input, &mut stored, &mut said) != 0
        || stored.as_slice() != NETWORKS.as_bytes()
    {
        wrong.push_str("an edit is stored whose reply says that it is not\n")?;
    }
    Ok(wrong)
}

/// Runs it once. Adds what is wrong.
fn try_run(rt: &HostRuntime, run: Run, wrong: &mut String) -> io::Result<()> {
    let port = free_port(rt)?;
    let mut out = Output {
        rt,
        port,
        run,
        text: Vec::new(rt.alloc()),
        peer: None,
        is_refused_elsewhere: false,
    };
    let mut err = Vec::new(rt.alloc());
    let mut input: &[u8] = b"";
    let number = format!(in rt.alloc(); "{port}")?;
    let words = [
        "serve",
        "asked.db",
        "--connections",
        "1",
        "--port",
        number.as_str(),
        "--timeout",
        "1",
    ];
    let status = cli::run(rt, words.as_slice(), &mut input, &mut out, &mut err);
    if status != run.status {
        write!(wrong, "it ends with status {status}\n")?;
    }
    if err.as_slice() != run.reports.as_bytes() {
        let text = str::from_utf8(err.as_slice()).unwrap_or("bytes that are not UTF-8");
        write!(wrong, "standard error gets {text:?}\n")?;
    }
    check_output(rt, &mut out, wrong)
}

/// Compares what is printed, and what the peer receives, with what is wanted. Adds what differs.
fn check_output(rt: &HostRuntime, out: &mut Output<'_>, wrong: &mut String) -> io::Result<()> {
    let port = out.port;
    let line = format!(in rt.alloc(); "listening 127.0.0.1:{port}\n")?;
    if out.text.as_slice() != line.as_bytes() {
        wrong.push_str("its line is another\n")?;
    }
    if !out.is_refused_elsewhere {
        wrong.push_str("127.0.0.2 is not refused\n")?;
    }
    let run = out.run;
    match &mut out.peer {
        Some(peer) => Ok(check_peer(rt.alloc(), &run.peer, peer, wrong)?),
        None => Ok(wrong.push_str("no peer connects\n")?),
    }
}
