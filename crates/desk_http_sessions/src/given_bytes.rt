//! Bytes that came, as a source that is read once.

ghost use Rattle.std.specs.Prelude.{◌≡◌, ◌≢◌, ◌≤◌, [], ◌∷◌, ◌++◌, Some, false, length, take};

use desk_http_messages::transport::{Failed, Source};

/// Bytes that came, of which a read takes all. It fails if they do not fit, or if there are none: more may follow that are not here, so
/// that is no end.
#[derive(Drop)]
pub struct Given<'a> {
    bytes: &'a [u8],
    failed: bool,
    reads: u64,
    ghost whole: { failed ≡ false → reads ≢ 0 → bytes.now ≡ [] },
}

impl<'a> Given<'a> {
    /// Gives these bytes.
    pub fn new(bytes: &'a [u8]) -> Given<'a>
        ensures bytes { result.bytes ≡ bytes.entry }
        ensures good { result.failed ≡ false }
        ensures unread { result.reads ≡ 0 }
    {
        Given {
            bytes,
            failed: false,
            reads: 0,
        }
    }
}

impl Source for Given<'_> {
    ghost has_failed = { λ s. s.failed };

    ghost reads = { λ s. s.reads };

    // These bytes, and one that stands for what may follow.
    ghost left = { λ s. Some (s.bytes.now ++ 0 ∷ []) };

    fn read(&mut self, buf: &mut [u8]) -> Result<usize, Failed> {
        self.reads += 1;
        let count = self.bytes.len();
        if count == 0 || buf.len() < count {
            self.failed = true;
            return Err(Failed);
        }
        fill(self.bytes, buf);
        self.bytes = &[];
        Ok(count)
    }
}

/// The end of the input.
#[derive(Drop)]
pub struct Over {
    reads: u64,
}

impl Over {
    /// Gives no bytes.
    pub fn new() -> Over
        ensures { result.reads ≡ 0 }
    {
        Over { reads: 0 }
    }
}

impl Source for Over {
    ghost has_failed = { λ s. false };

    ghost reads = { λ s. s.reads };

    ghost left = { λ s. Some [] };

    fn read(&mut self, _buf: &mut [u8]) -> Result<usize, Failed> {
        self.reads += 1;
        Ok(0)
    }
}

/// Copies bytes to the front of a room.
fn fill(from: &[u8], to: &mut [u8])
    requires { length from.now ≤ length to.old }
    ensures room { length to.new ≡ length to.old }
    ensures copied { take (length from.now) to.new ≡ from.now }
{
    to[..from.len()].copy_from_slice(from);
}
