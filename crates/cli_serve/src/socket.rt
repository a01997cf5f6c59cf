//! A socket as the wire of a session. What the system gives is told by no clause.

ghost use Rattle.std.specs.Prelude.{◌≡◌, IfOk, None};

use desk_http_messages::transport::Failed;
use desk_http_sessions::Wire;
use mio::net::TcpStream;
use mio::{Interest, Registry, Token};
use std::io;
use std::io::{ErrorKind, Read, Write};
use std::net::Shutdown;

/// A connection that was accepted, of which no call waits.
#[derive(Drop)]
pub struct Socket {
    stream: TcpStream,
}

impl Socket {
    /// Takes a connection. A reply is sent at once. (tcp(7), TCP_NODELAY)
    pub fn new(stream: TcpStream) -> Socket {
        let _ = stream.set_nodelay(true);
        Socket { stream }
    }

    /// Has it reported under a token once bytes have come, or it takes some again.
    pub fn register(&mut self, registry: &Registry, token: Token) -> io::Result<()> {
        registry.register(
            &mut self.stream,
            token,
            Interest::READABLE | Interest::WRITABLE,
        )
    }

    /// Ends what is sent to the peer. Tells whether that could be done.
    pub fn end_sending(&self) -> bool {
        self.stream.shutdown(Shutdown::Write).is_ok()
    }

    /// Reads bytes that nobody wants, by way of this room. Returns how many came, or nothing if none are there yet.
    pub fn drop_bytes(&self, room: &mut [u8]) -> Result<Option<usize>, Failed> {
        let mut stream = &self.stream;
        match stream.read(room) {
            Ok(count) => Ok(Some(count)),
            Err(error) => if_waits(error.kind()),
        }
    }
}

impl Wire for Socket {
    ghost left = { λ s. None };

    ghost held = { λ s. None };

    fn receive(&mut self, buf: &mut [u8]) -> Result<Option<usize>, Failed> {
        match self.stream.read(buf) {
            Ok(count) => Ok(Some(count)),
            Err(error) => if_waits(error.kind()),
        }
    }

    fn send(&mut self, buf: &[u8]) -> Result<Option<usize>, Failed> {
        match self.stream.write(buf) {
            Ok(0) => Err(Failed),
            Ok(count) => Ok(Some(count)),
            Err(error) => if_waits(error.kind()),
        }
    }
}

/// Returns none for a call that would wait, or was interrupted, and its failure otherwise.
fn if_waits(kind: ErrorKind) -> Result<Option<usize>, Failed>
    ensures { IfOk result (λ found. found ≡ None) }
{
    match kind {
        ErrorKind::WouldBlock | ErrorKind::Interrupted => Ok(None),
        _ => Err(Failed),
    }
}
