//! Which sockets are ready. (epoll(7), edge-triggered)

use crate::socket::Socket;
use mio::net::TcpListener;
use mio::{Events, Interest, Poll, Token};
use std::io;
use std::time::Duration;

/// What is reported of the listener. Peers have their numbers, from 1 on.
pub const LISTENER: usize = 0;

/// Sockets that are watched.
#[derive(Drop)]
pub struct Readiness {
    poll: Poll,
    events: Events,
}

impl Readiness {
    /// Watches a listener, and has room for so many events at once.
    pub fn new(rt: &HostRuntime, listener: &mut TcpListener, most: usize) -> io::Result<Readiness> {
        let poll = Poll::new(rt)?;
        let registry = poll.registry();
        registry.register(listener, Token(LISTENER), Interest::READABLE)?;
        let events = Events::with_capacity(rt.alloc(), most)?;
        Ok(Readiness { poll, events })
    }

    /// Watches a socket, which has this number.
    pub fn add(&self, socket: &mut Socket, number: usize) -> io::Result<()> {
        socket.register(self.poll.registry(), Token(number))
    }

    /// Waits until a socket is ready, so many milliseconds at most; without a limit if none is given. It may end early.
    pub fn wait(&mut self, longest: Option<u64>) -> io::Result<()> {
        let longest = longest.map(Duration::from_millis);
        self.poll.poll(&mut self.events, longest)
    }

    /// Lends what the last wait found.
    pub fn found(&self) -> &Events {
        &self.events
    }
}
