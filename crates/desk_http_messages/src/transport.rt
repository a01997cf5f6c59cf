//! Readers and writers, as a connection sees them.
ghost use Rattle.std.specs.Prelude.{◌≡◌, ◌||◌, ◌&&◌, ◌==◌, ℕ, ◌+◌, ◌-◌, ◌^◌, ◌<◌, ◌≤◌, List, Bool, true, false, length, IfOk, OnErr, Option, None, Result, Some, is_err, nat_lt, not, ⊤};
ghost use Rattle.std.specs.Io.KnownBytes.{ReadConsumes, WriteAppends};
ghost use Rattle.desk_http_messages.specs.Transport.{took_none};

use std::io;

/// A read or a write failed.
#[derive(Clone, Copy, PartialEq, Eq)]
pub struct Failed;

/// Where requests come from.
pub trait Source {
    ghost use Rattle.desk_http_messages.specs.declared.transport.Failed.{Failed};

    // Whether a read has failed.
    ghost has_failed: { Self → Bool };
    // How many reads were made.
    ghost reads: { Self → ℕ };
    // The bytes that reads will give, if they are told.
    ghost left: { Self → Option (List ℕ) };
    // What more is told of a read into so much room.
    ghost read_gives: { Self → ℕ → Result ℕ Failed → Self → Type 0 } = { λ _ _ _ _. ⊤ };

    /// Reads some bytes. A read of none into a buffer with room means that none is left.
    fn read(&mut self, buf: &mut [u8]) -> Result<usize, Failed>
        requires { reads self.old + 1 < 2 ^ 64 }
        ensures count { IfOk result (λ n. n ≤ length buf.new) }
        ensures counted { reads self.new ≡ reads self.old + 1 }
        ensures failed { has_failed self.new ≡ (has_failed self.old || is_err result) }
        ensures bytes { ReadConsumes (left self.old) (left self.new) result buf.new }
        ensures gives { read_gives self.old (length buf.old) result self.new };
}

/// Where replies go.
pub trait Sink {
    ghost use Rattle.desk_http_messages.specs.declared.transport.Failed.{Failed};

    // Whether a write has failed, or has taken no byte of some.
    ghost has_failed: { Self → Bool };
    // The bytes written so far, if they are told.
    ghost held: { Self → Option (List ℕ) };
    // What more is told of a write of these bytes.
    ghost write_gives: { Self → List ℕ → Result ℕ Failed → Self → Type 0 } = { λ _ _ _ _. ⊤ };

    /// Writes some of the bytes.
    fn write(&mut self, buf: &[u8]) -> Result<usize, Failed>
        ensures count { IfOk result (λ n. n ≤ length buf.now) }
        ensures failed { has_failed self.new ≡ (has_failed self.old || took_none buf.now result) }
        ensures bytes { WriteAppends (held self.old) (held self.new) result buf.now }
        ensures gives { write_gives self.old buf.now result self.new };
}

/// Any reader or writer of std. It tells the bytes that the inner one tells: of a socket none.
#[derive(Drop)]
pub struct Of<T> {
    inner: T,
    failed: bool,
    reads: u64,
}

impl<T> Of<T> {
    /// Makes a source or a sink of a reader or a writer. A call that is interrupted has failed.
    pub fn new(inner: T) -> Self
        ensures { result ≡ record { inner = inner; failed = false; reads = 0 } }
    {
        Of {
            inner,
            failed: false,
            reads: 0,
        }
    }
}

impl<T: io::Read> Source for Of<T> {
    ghost has_failed = { λ s. s.failed };

    ghost reads = { λ s. s.reads };

    ghost left = { λ s. T.remaining s.inner };

    fn read(&mut self, buf: &mut [u8]) -> Result<usize, Failed> {
        self.reads += 1;
        match self.inner.read(buf) {
            Ok(n) => Ok(n),
            Err(_) => {
                self.failed = true;
                Err(Failed)
            }
        }
    }
}

impl<T: io::Write> Sink for Of<T> {
    ghost has_failed = { λ s. s.failed };

    ghost held = { λ s. T.contents s.inner };

    fn write(&mut self, buf: &[u8]) -> Result<usize, Failed> {
        match self.inner.write(buf) {
            Ok(n) => {
                if n == 0 && !buf.is_empty() {
                    self.failed = true;
                }
                Ok(n)
            }
            Err(_) => {
                self.failed = true;
                Err(Failed)
            }
        }
    }
}
