//! A disk that has no room for some of the writes.

ghost use Rattle.std.specs.Prelude.{◌≡◌, ◌+◌, true, is_err};
ghost use Rattle.sqlite_disk.specs.Disk.{CountsFault};
ghost use Rattle.sqlite_disk.specs.Refusal.{finds_no_room};
ghost use Rattle.sqlite_disk.specs.Tally.{both_counts};

use sqlite_disk::{Crash, Disk, Tally};
use std::io;
use std::io::ErrorKind;

/// A disk that passes so many writes on, refuses so many, and then has room again.
#[derive(Drop)]
pub struct Full<D: Disk> {
    inner: D,
    passes: u64,
    refuses: u64,
    refused: u64,
}

impl<D: Disk> Full<D> {
    pub fn new(inner: D, passes: u64, refuses: u64) -> Full<D>
        ensures { D.Disk.is_usable result.inner ≡ D.Disk.is_usable inner }
    {
        Full {
            inner,
            passes,
            refuses,
            refused: 0,
        }
    }

    pub fn inner(&self) -> &D {
        &self.inner
    }

    /// Tests whether a write was refused.
    pub fn has_refused(&self) -> bool {
        self.refused > 0
    }
}

/// Counts a write, and refuses it if there is no room.
fn find_room(passes: &mut u64, refuses: &mut u64, refused: &mut u64) -> io::Result<()>
    ensures faults { CountsFault result refused.old refused.new }
    ensures kind { finds_no_room result ≡ is_err result }
{
    if *passes > 0 {
        *passes -= 1;
        return Ok(());
    }
    if *refuses == 0 {
        return Ok(());
    }
    *refuses -= 1;
    *refused = refused.saturating_add(1);
    Err(io::Error::from(ErrorKind::StorageFull))
}

impl<D: Disk> Disk for Full<D> {
    ghost seen = { λ f. D.Disk.seen f.inner };

    ghost may_leave = { λ f. D.Disk.may_leave f.inner };

    ghost is_usable = { λ f. D.Disk.is_usable f.inner };

    ghost faults = { λ f. D.Disk.faults f.inner + f.refused };

    ghost tally_of = { λ f. both_counts (D.Disk.tally_of f.inner) (record { caught = 0; refused = f.refused }) };

    ghost is_rotten = { λ f. D.Disk.is_rotten f.inner };

    ghost is_clean = { λ f. D.Disk.is_clean f.inner };

    ghost key_of = { λ f. D.Disk.key_of f.inner };

    ghost is_fair = { λ f. D.Disk.is_fair f.inner };

    ghost fair_if_clean = { λ f. D.Disk.fair_if_clean f.inner };

    ghost seen_may_stay = { λ f. D.Disk.seen_may_stay f.inner };

    ghost is_mixing = { λ f. D.Disk.is_mixing f.inner };

    fn mixes(&self) -> bool {
        self.inner.mixes()
    }

    fn key(&self) -> u64 {
        self.inner.key()
    }

    fn tally(&self) -> Tally {
        self.inner.tally().plus(Tally {
            caught: 0,
            refused: self.refused,
        })
    }

    fn may_be_used(&self) -> bool {
        self.inner.may_be_used()
    }

    fn len(&mut self) -> io::Result<usize> {
        self.inner.len()
    }

    fn read_at(&mut self, at: usize, buf: &mut [u8]) -> io::Result<()> {
        self.inner.read_at(at, buf)
    }

    fn read_checked(&mut self, key: u64, want: u64, at: usize, buf: &mut [u8]) -> io::Result<()> {
        self.inner.read_checked(key, want, at, buf)
    }

    fn write_at(&mut self, at: usize, bytes: &[u8]) -> io::Result<()> {
        find_room(&mut self.passes, &mut self.refuses, &mut self.refused)?;
        self.inner.write_at(at, bytes)
    }

    fn set_len(&mut self, len: usize) -> io::Result<()> {
        find_room(&mut self.passes, &mut self.refuses, &mut self.refused)?;
        self.inner.set_len(len)
    }

    fn sync(&mut self) -> io::Result<()> {
        self.inner.sync()
    }
}

/// The machine comes back, with what the disk has.
impl<D: Crash> Crash for Full<D> {
    fn crash(&mut self) {
        self.inner.crash();
    }
}
