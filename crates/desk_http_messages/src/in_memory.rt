//! A reader and writer over memory, which tells its bytes.
ghost use Rattle.std.specs.Prelude.{◌≡◌, ◌||◌, ◌&&◌, ℕ, ◌+◌, ◌-◌, ◌<◌, ◌≤◌, List, Bool, true, false, length, min, take, drop, vec_len, IfOk, OnErr, Option, None, Some, is_err, nat_lt};
ghost use Rattle.std.specs.Io.KnownBytes.{ReadConsumes, WriteAppends};

use crate::transport::{Failed, Sink, Source};

/// Bytes in memory, read or written at most `step` a call. The call `fails_at`, from 0, fails.
#[derive(Drop)]
pub struct Bytes {
    bytes: Vec<u8>,
    at: usize,
    step: usize,
    fails_at: Option<u64>,
    calls: u64,
    failed: bool,
    ghost in_range: { at ≤ vec_len bytes },
    ghost steps: { 0 < step },
}

/// Copies as much as there is, at most step.
fn copy_some(from: &[u8], to: &mut [u8], step: usize) -> usize
    requires { 0 < step }
    ensures count { result ≡ min step (min (length from.now) (length to.old)) }
    ensures copied { take result to.new ≡ take result from.now }
{
    let count = step.min(from.len()).min(to.len());
    to[..count].copy_from_slice(&from[..count]);
    count
}

impl Bytes {
    /// Makes a reader or writer of these bytes.
    pub fn new(bytes: Vec<u8>, step: usize, fails_at: Option<u64>) -> Self
        requires { 0 < step }
        ensures bytes { result.bytes.items ≡ bytes.items }
        ensures unread { result.at ≡ 0 }
        ensures unused { result.calls ≡ 0 }
        ensures good { result.failed ≡ false }
        ensures step { result.step ≡ step }
        ensures fails { result.fails_at ≡ fails_at }
    {
        Bytes {
            bytes,
            at: 0,
            step,
            fails_at,
            calls: 0,
            failed: false,
        }
    }

    /// Lends all the bytes.
    pub fn as_slice(&self) -> &[u8]
        ensures { result.now ≡ self.now.bytes.items }
    {
        &self.bytes
    }
}

impl Source for Bytes {
    ghost use Rattle.desk_http_messages.specs.InMemory.{ReadsBytes};

    ghost has_failed = { λ s. s.failed };

    ghost reads = { λ s. s.calls };

    ghost left = { λ s. Some (drop s.at s.bytes.items) };

    ghost read_gives = { ReadsBytes };

    fn read(&mut self, buf: &mut [u8]) -> Result<usize, Failed> {
        let call = self.calls;
        self.calls += 1;
        if self.fails_at == Some(call) {
            self.failed = true;
            return Err(Failed);
        }
        let count = copy_some(&self.bytes[self.at..], buf, self.step);
        self.at += count;
        Ok(count)
    }
}

impl Sink for Bytes {
    ghost use Rattle.desk_http_messages.specs.InMemory.{WritesBytes};

    ghost has_failed = { λ s. s.failed };

    ghost held = { λ s. Some s.bytes.items };

    ghost write_gives = { WritesBytes };

    fn write(&mut self, buf: &[u8]) -> Result<usize, Failed> {
        let call = self.calls;
        self.calls = call.saturating_add(1);
        if self.fails_at == Some(call) {
            self.failed = true;
            return Err(Failed);
        }
        let count = self.step.min(buf.len());
        match self.bytes.extend_from_slice(&buf[..count]) {
            Ok(()) => Ok(count),
            Err(_) => {
                self.failed = true;
                Err(Failed)
            }
        }
    }
}
