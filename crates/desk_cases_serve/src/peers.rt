//! Peers on loopback: what they write before they are served, and what they are to receive.

use std::alloc::{AllocError, Global};
use std::io::{Read, Write};
use std::net::{Shutdown, SocketAddr, TcpStream};
use std::time::Duration;
use std::{io, str};

/// How many seconds a peer waits for what it is to receive.
const PATIENCE: u64 = 20;

/// What a peer does once it has written.
#[derive(Clone, Copy)]
pub enum Then {
    /// It reads until its connection ends.
    Waits,
    /// It ends what it writes, and reads until its connection ends.
    EndsWriting,
    /// It closes its connection, and reads nothing.
    Closes,
}

/// What a peer receives.
#[derive(Clone, Copy)]
pub enum Receives {
    /// These bytes, and then the end.
    Whole(&'static [u8]),
    /// Nothing: its connection is reset when the listener is closed.
    Nothing,
}

/// A peer: it writes these bytes, so many bytes `y` behind them, and then does this.
#[derive(Clone, Copy)]
pub struct Peer {
    pub sends: &'static [u8],
    pub filler: usize,
    pub then: Then,
    pub receives: Receives,
}

/// Connects a peer, and has it write. Returns its connection, if it keeps it.
pub fn connect(
    rt: &HostRuntime,
    address: SocketAddr,
    peer: &Peer,
) -> io::Result<Option<TcpStream>> {
    let mut stream = TcpStream::connect(rt, address)?;
    stream.write_all(peer.sends)?;
    write_filler(&mut stream, peer.filler)?;
    stream.set_read_timeout(Some(Duration::from_secs(PATIENCE)))?;
    match peer.then {
        Then::Waits => Ok(Some(stream)),
        Then::EndsWriting => {
            stream.shutdown(Shutdown::Write)?;
            Ok(Some(stream))
        }
        Then::Closes => Ok(None),
    }
}

/// Writes so many bytes `y`.
fn write_filler(stream: &mut TcpStream, count: usize) -> io::Result<()> {
    for _ in 0..count / 100 {
        stream.write_all(&[b'y'; 100])?;
    }
    Ok(())
}

/// Compares what a peer receives with what is wanted. Adds what differs.
pub fn check_peer(
    alloc: Global,
    peer: &Peer,
    stream: &mut TcpStream,
    wrong: &mut String,
) -> Result<(), AllocError> {
    let mut found = Vec::new(alloc);
    let is_ended = stream.read_to_end(&mut found).is_ok();
    let is_right = match peer.receives {
        Receives::Whole(bytes) => is_ended && found.as_slice() == bytes,
        Receives::Nothing => !is_ended && found.is_empty(),
    };
    if is_right {
        return Ok(());
    }
    let text = str::from_utf8(found.as_slice()).unwrap_or("bytes that are not UTF-8");
    write!(wrong, "a peer receives {text:?}\n")?;
    if !is_ended {
        wrong.push_str("its connection does not end\n")?;
    }
    Ok(())
}
