//! What is said on standard error while the service runs. It never waits: what cannot be written now is counted, and said later.

use crate::refusals::report_refused;
use mio::unix::SourceFd;
use mio::{Events, Interest, Poll, Token};
use std::io;
use std::io::Write;
use std::os::fd::RawFd;
use std::time::Duration;

/// The one descriptor that is watched.
const OUTPUT: Token = Token(0);

/// What is to be said.
#[derive(Drop)]
pub struct Notes {
    /// How many edits were refused for who sent them, and that was not said yet.
    refused: u64,
    /// Whether the last write failed. No other is tried before more is to be said.
    has_failed: bool,
    /// What tells whether a write would wait.
    watch: Option<Watch>,
}

/// A descriptor that is watched for whether a write would wait.
#[derive(Drop)]
struct Watch {
    descriptor: RawFd,
    poll: Poll,
    events: Events,
}

impl Notes {
    /// Has nothing to say. What is said goes to this descriptor, if it is one: a file takes a write at once.
    pub fn new(rt: &HostRuntime, descriptor: Option<RawFd>) -> Notes {
        let watch = match descriptor {
            Some(descriptor) => Watch::new(rt, descriptor).ok(),
            None => None,
        };
        Notes {
            refused: 0,
            has_failed: false,
            watch,
        }
    }

    /// Counts edits of a connection that has ended that were refused for who sent them, and says so if that does not wait.
    pub fn say<E: Write>(&mut self, refused: u64, err: &mut E) {
        self.refused = self.refused.saturating_add(refused);
        self.has_failed = self.has_failed && refused == 0;
        if self.refused == 0 || self.has_failed || !self.takes_now() {
            return;
        }
        match report_refused(self.refused, err) {
            Ok(()) => self.refused = 0,
            Err(_) => self.has_failed = true,
        }
    }

    /// Tells whether a write does not wait, as far as the system tells.
    fn takes_now(&mut self) -> bool {
        match &mut self.watch {
            Some(watch) => watch.takes_now().unwrap_or(true),
            None => true,
        }
    }
}

impl Watch {
    /// Watches a descriptor. It fails for a file, of which no write waits.
    fn new(rt: &HostRuntime, descriptor: RawFd) -> io::Result<Watch> {
        let poll = Poll::new(rt)?;
        poll.registry()
            .register(&mut SourceFd(&descriptor), OUTPUT, Interest::WRITABLE)?;
        let events = Events::with_capacity(rt.alloc(), 1)?;
        Ok(Watch {
            descriptor,
            poll,
            events,
        })
    }

    /// Tells whether a write does not wait: a pipe is reported if it has room for a page.
    fn takes_now(&mut self) -> io::Result<bool> {
        self.poll.registry().reregister(
            &mut SourceFd(&self.descriptor),
            OUTPUT,
            Interest::WRITABLE,
        )?;
        self.poll.poll(&mut self.events, Some(Duration::ZERO))?;
        Ok(self.events.iter().next().is_some())
    }
}
