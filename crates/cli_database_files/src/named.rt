//! The files of a database that are written only while their names lead to them. A file that was moved, removed or replaced stays open, and
//! what is written to it is lost to everybody else: so such a write fails, and changes nothing.

ghost use Rattle.std.specs.Prelude.{◌≡◌, ◌+◌, false, IfOk, IsTrue};
ghost use Rattle.sqlite_disk.specs.Disk.{CountsFault};
ghost use Rattle.sqlite_disk.specs.Refusal.{finds_no_room};
ghost use Rattle.sqlite_wal.specs.Files.{image_at};
ghost use Rattle.sqlite.specs.Files.{file_state, image_of};
ghost use Rattle.sqlite.specs.Start.{FindsIn};
ghost use Rattle.sqlite.specs.State.{HasCleanDisk, Opens};

use crate::database_file::{BUSY, CANNOT_OPEN};
use crate::names::{Names, have_files};
use sqlite::{Connection, Error, ErrorCode, FileFrom, FileStore, Leftover, Options, Start};
use sqlite_disk::{Disk, Files, Tally};
use sqlite_std_file::OpenError;
use std::hash::{BuildHasher, RandomState};
use std::io;

const NO_MEMORY: Error = Error::SqliteFailure(ErrorCode::OutOfMemory);

/// A file of a database, with the names of its files.
#[derive(Drop)]
pub struct Named<D: Disk> {
    inner: D,
    rt: HostRuntime,
    /// The names that are looked at before each write. DB has none: only what stands in its log is written to it.
    names: Option<Names>,
    /// How many writes were refused.
    refused: u64,
}

impl<D: Disk> Named<D> {
    /// A file, with the names that are looked at before each write.
    fn new(rt: &HostRuntime, inner: D, names: Option<Names>) -> Named<D>
        ensures { result.inner ≡ inner }
    {
        Named {
            inner,
            rt: *rt,
            names,
            refused: 0,
        }
    }
}

/// A connection to files, where `S` stands for what they held.
pub type FilesFrom<S> = Connection<FileStore<Named<FileFrom<S>>>>;

/// What SQLite says if it does not open files, with those that it had opened.
pub type NotOpened<S> = (Error, Option<Leftover<Named<FileFrom<S>>>>);

/// Opens a connection to the database at a path of SQLite's. DB has to be there; a log that is missing is made. What is committed is written
/// only while both names lead to the files that were found there.
pub fn open_from<S: Start>(
    rt: &HostRuntime,
    path: &str,
    start: S,
) -> Result<FilesFrom<S>, NotOpened<S>>
    ensures settled { IfOk result (λ conn. (file_state conn).in_transaction ≡ false) }
    ensures opened { IfOk result (λ conn. HasCleanDisk (file_state conn) → Opens (file_state conn)) }
    ensures found { IfOk result (λ conn. HasCleanDisk (file_state conn) → FindsIn (image_at S.Start) (file_state conn)) }
{
    let files = match named_files(rt, path, start) {
        Ok(files) => files,
        Err(error) => return Err((error, None)),
    };
    let options = match options(rt) {
        Ok(options) => options,
        Err(error) => return Err((error, None)),
    };
    match Connection::open_files(rt.alloc(), files, options) {
        Ok(mut conn) => {
            conn.set_clock(rt);
            Ok(conn)
        }
        Err((error, left)) => Err((error, Some(left))),
    }
}

/// Returns how a database is opened: with a random seed, for its log.
fn options(rt: &HostRuntime) -> Result<Options, Error> {
    match RandomState::new(rt) {
        Ok(state) => Ok(Options::new(state.hash_one(&0u8))),
        Err(_) => Err(CANNOT_OPEN),
    }
}

/// Opens the files of a database, and notes what stands at their names.
fn named_files<S: Start>(
    rt: &HostRuntime,
    path: &str,
    start: S,
) -> Result<Files<Named<FileFrom<S>>>, Error>
    ensures log { IfOk result (λ files. IsTrue (⟦<Named<FileFrom<S>> as Disk>⟧.is_usable files.log)) }
    ensures db { IfOk result (λ files. IsTrue (⟦<Named<FileFrom<S>> as Disk>⟧.is_usable files.db)) }
    ensures held { IfOk result (λ files. image_of ⟦<Named<FileFrom<S>> as Disk>⟧ files ≡ image_at S.Start) }
{
    let Ok(mut names) = Names::of(rt, path) else {
        return Err(NO_MEMORY);
    };
    match sqlite_std_file::open(rt, path, start) {
        Ok(files) => {
            names.note_log(rt);
            Ok(Files {
                log: Named::new(rt, files.log, Some(names)),
                db: Named::new(rt, files.db, None),
            })
        }
        Err(error) => Err(open_error(error)),
    }
}

/// Returns what SQLite says of files that are not opened.
fn open_error(error: OpenError) -> Error {
    match error {
        OpenError::OutOfMemory => NO_MEMORY,
        OpenError::Busy => BUSY,
        OpenError::Io(error) if error.kind() == io::ErrorKind::OutOfMemory => NO_MEMORY,
        _ => CANNOT_OPEN,
    }
}

/// Fails, and counts that, if the names lead elsewhere.
fn look(rt: &HostRuntime, names: &Option<Names>, refused: &mut u64) -> io::Result<()>
    ensures faults { CountsFault result refused.old refused.new }
    ensures kind { finds_no_room result ≡ false }
{
    if have_files(rt, names) {
        return Ok(());
    }
    *refused = refused.saturating_add(1);
    Err(io::Error::other("the database was moved, removed or replaced"))
}

impl<D: Disk> Disk for Named<D> {
    ghost seen = { λ f. D.Disk.seen f.inner };

    ghost may_leave = { λ f. D.Disk.may_leave f.inner };

    ghost is_usable = { λ f. D.Disk.is_usable f.inner };

    ghost faults = { λ f. D.Disk.faults f.inner + f.refused };

    ghost tally_of = { λ f. D.Disk.tally_of f.inner };

    ghost is_rotten = { λ f. D.Disk.is_rotten f.inner };

    ghost key_of = { λ f. D.Disk.key_of f.inner };

    ghost is_frozen = { λ f. D.Disk.is_frozen f.inner };

    ghost is_clean = { λ f. D.Disk.is_clean f.inner };

    ghost is_fair = { λ f. D.Disk.is_fair f.inner };

    ghost fair_if_clean = { λ f. D.Disk.fair_if_clean f.inner };

    ghost seen_may_stay = { λ f. D.Disk.seen_may_stay f.inner };

    ghost is_mixing = { λ f. D.Disk.is_mixing f.inner };

    fn mixes(&self) -> bool {
        self.inner.mixes()
    }

    fn key(&self) -> u64 {
        self.inner.key()
    }

    fn tally(&self) -> Tally {
        self.inner.tally()
    }

    fn may_be_used(&self) -> bool {
        self.inner.may_be_used()
    }

    fn len(&mut self) -> io::Result<usize> {
        self.inner.len()
    }

    fn read_at(&mut self, at: usize, buf: &mut [u8]) -> io::Result<()> {
        self.inner.read_at(at, buf)
    }

    fn read_checked(&mut self, key: u64, want: u64, at: usize, buf: &mut [u8]) -> io::Result<()> {
        self.inner.read_checked(key, want, at, buf)
    }

    fn write_at(&mut self, at: usize, bytes: &[u8]) -> io::Result<()> {
        look(&self.rt, &self.names, &mut self.refused)?;
        self.inner.write_at(at, bytes)
    }

    fn set_len(&mut self, len: usize) -> io::Result<()> {
        look(&self.rt, &self.names, &mut self.refused)?;
        self.inner.set_len(len)
    }

    fn sync(&mut self) -> io::Result<()> {
        self.inner.sync()
    }
}
