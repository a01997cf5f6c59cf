//! A reader of a stream that does not end.

ghost use Rattle.std.specs.Prelude.{◌≡◌, None, false};

use desk_http_messages::{Failed, Source};

/// Two pieces of a stream, at most so many bytes a read. After them the peer waits, and the next read fails.
#[derive(Drop)]
pub struct Pieces<'a> {
    first: &'a [u8],
    second: &'a [u8],
    most: usize,
    failed: bool,
    reads: u64,
}

impl<'a> Pieces<'a> {
    /// Makes a reader of which nothing is read.
    pub fn new(first: &'a [u8], second: &'a [u8], most: usize) -> Self
        ensures good { result.failed ≡ false }
        ensures unread { result.reads ≡ 0 }
    {
        Pieces {
            first,
            second,
            most,
            failed: false,
            reads: 0,
        }
    }
}

impl<'a> Source for Pieces<'a> {
    ghost has_failed = { λ s. s.failed };

    ghost reads = { λ s. s.reads };

    // They are not told.
    ghost left = { λ s. None };

    fn read(&mut self, buf: &mut [u8]) -> Result<usize, Failed> {
        self.reads += 1;
        if self.first.is_empty() {
            self.first = self.second;
            self.second = b"";
        }
        if self.first.is_empty() {
            self.failed = true;
            return Err(Failed);
        }
        let count = self.most.min(self.first.len()).min(buf.len());
        let (given, rest) = self.first.split_at(count);
        buf[..count].copy_from_slice(given);
        self.first = rest;
        Ok(count)
    }
}
