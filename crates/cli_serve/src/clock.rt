//! What moment it is.

use std::io;
use std::time::Instant;

/// A clock, which tells how many milliseconds after its start it is.
#[derive(Drop)]
pub struct Clock {
    start: Instant,
}

impl Clock {
    /// Starts a clock.
    pub fn new(rt: &HostRuntime) -> io::Result<Clock> {
        Ok(Clock {
            start: Instant::now(rt)?,
        })
    }

    /// Returns what moment it is; this one, which was before, if the system does not tell the time.
    pub fn now(&self, rt: &HostRuntime, before: u64) -> u64 {
        match self.start.elapsed(rt) {
            Ok(passed) => passed.as_millis().min(u128::from(u64::MAX)) as u64,
            Err(_) => before,
        }
    }
}
