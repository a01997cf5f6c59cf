//! A copy of a database in memory, which questions read: so they change nothing, and need no right to write.

ghost use Rattle.std.specs.Prelude.{◌≡◌, ℕ, codes, false, IfErr, IfOk, IfSome, List};
ghost use Rattle.sqlite.specs.Files.{file_state};
ghost use Rattle.cli_output.specs.Failure.{IsUnread};
ghost use Rattle.cli_database_files.specs.Copy.{IsUnopened, copy_unopened, is_out_of_memory};
ghost use Rattle.cli_database_files.specs.Copying.{IsCopyFrom};

use crate::copied_file::CopiedFile;
use crate::copying::{Copying, Source};
use crate::database_file::{BUSY, CANNOT_OPEN, is_plain, lock};
use crate::obstacles::is_settled;
use cli_output::failure::{Failure, ReadFailure};
use os::RangeLock;
use sqlite::{Connection, Error, ErrorCode, FileStore, Options};
use sqlite_disk::Files;
use std::alloc::Global;
use std::{fs, io};

/// How often a copy is begun while the log is written from its front on.
const MOST_TRIES: u32 = 100;

/// A connection to a copy of a database in memory.
pub type Copied = Connection<FileStore<CopiedFile>>;

/// Why a database is not opened.
#[derive(Drop)]
pub enum Unopened {
    /// A file cannot be read, or memory ran out.
    Unread(Failure),
    /// SQLite does not open it.
    Refused(Error),
}

/// Opens a connection to a copy of the database at a path.
pub fn open_copy(rt: &HostRuntime, path: &str) -> Result<Copied, Unopened>
    ensures settled { IfOk result (λ conn. (file_state conn).in_transaction ≡ false) }
    ensures unopened { IfErr result (IsUnopened path.now) }
{
    match copy_files(rt, path) {
        Ok(files) => open_copied(rt.alloc(), files),
        Err(error) => Err(error),
    }
}

/// Opens a connection to files in memory.
pub fn open_copied(alloc: Global, files: Files<CopiedFile>) -> Result<Copied, Unopened>
    ensures settled { IfOk result (λ conn. (file_state conn).in_transaction ≡ false) }
    ensures unopened { (path : List ℕ) → IfErr result (IsUnopened path) }
{
    // The seed is for a log that nobody reads again.
    match Connection::open_files(alloc, files, Options::new(0)) {
        Ok(conn) => Ok(conn),
        Err((error, left)) => {
            drop(left);
            Err(Unopened::of_copy(error))
        }
    }
}

impl Unopened {
    /// Returns why a copy in memory is not opened, by the error of SQLite: that memory ran out is a failure.
    pub fn of_copy(error: Error) -> Unopened
        ensures unopened { (path : List ℕ) → IsUnopened path result }
        ensures memory { result ≡ copy_unopened error }
    {
        if is_out_of_memory(error) {
            Unopened::Unread(Failure::Memory)
        } else {
            Unopened::Refused(error)
        }
    }
}

/// Tests whether an error of a copy in memory means that memory ran out. If the copy cannot grow, SQLite reports a failure of
/// the disk, and this disk can fail in no other way.
pub fn is_out_of_memory(error: Error) -> bool
    ensures { result ≡ is_out_of_memory error }
{
    match error {
        Error::SqliteFailure(ErrorCode::OutOfMemory) => true,
        Error::SqliteFailure(ErrorCode::SystemIoFailure) => true,
        _ => false,
    }
}

/// Copies the files of a database into memory: the database file, and its log if there is one.
fn copy_files(rt: &HostRuntime, path: &str) -> Result<Files<CopiedFile>, Unopened>
    ensures unopened { IfErr result (IsUnopened path.now) }
{
    match copy_locked(rt, path) {
        Ok(Ok(files)) => Ok(files),
        Ok(Err(error)) => Err(Unopened::Refused(error)),
        Err(error) => Err(Unopened::Unread(unread(rt.alloc(), path, error))),
    }
}

/// Returns the failure to read a database.
pub fn unread(alloc: Global, path: &str, error: io::Error) -> Failure
    ensures { IsUnread (codes "DB") path.now result }
{
    match ReadFailure::of_error(error) {
        Ok(failure) => Failure::of_file(alloc, "DB", path, failure),
        Err(failure) => failure,
    }
}

/// Copies the files: under the lock that SQLite's readers share or, if another has DB alone, beside it. If there is no log beside another,
/// or it is written from its front on meanwhile, it begins again, up to a bound.
fn copy_locked(rt: &HostRuntime, path: &str) -> io::Result<Result<Files<CopiedFile>, Error>> {
    for _ in 0..MOST_TRIES {
        match copy_once(rt, path) {
            Ok(Ok(Some(files))) => return Ok(Ok(files)),
            Ok(Ok(None)) => {}
            Ok(Err(error)) => return Ok(Err(error)),
            Err(error) => return Err(error),
        }
    }
    Ok(Err(BUSY))
}

/// Copies the files once. Gives none if there is no log beside another, if it was written from its front on meanwhile, or if other files took
/// their names.
fn copy_once(rt: &HostRuntime, path: &str) -> io::Result<Result<Option<Files<CopiedFile>>, Error>> {
    // As SQLite does, the log is looked for where a link leads.
    let real = fs::canonicalize(rt, path)?;
    if !is_plain(rt, real.as_str())? {
        return Ok(Err(CANNOT_OPEN));
    }
    let file = fs::open(rt, real.as_str())?;
    match lock(&file, RangeLock::Shared) {
        Ok(()) => copy_files_of(rt, real.as_str(), &file, false),
        Err(BUSY) => copy_files_of(rt, real.as_str(), &file, true),
        Err(error) => Ok(Err(error)),
    }
}

/// Copies the database file, which is open and locked, and its log.
pub fn copy_under_lock(
    rt: &HostRuntime,
    real: &str,
    file: &fs::File,
) -> io::Result<Result<Files<CopiedFile>, Error>> {
    match copy_files_of(rt, real, file, false) {
        Ok(Ok(Some(files))) => Ok(Ok(files)),
        Ok(Ok(None)) => Ok(Err(BUSY)),
        Ok(Err(error)) => Ok(Err(error)),
        Err(error) => Err(error),
    }
}

/// Copies the database file, which is open, and its log. Beside another that may write both, only a log with a header is copied.
fn copy_files_of(
    rt: &HostRuntime,
    real: &str,
    file: &fs::File,
    beside: bool,
) -> io::Result<Result<Option<Files<CopiedFile>>, Error>> {
    let journal = format!(in rt.alloc(); "{real}-journal")?;
    if !is_settled(rt, journal.as_str())? {
        return Ok(Err(CANNOT_OPEN));
    }
    let log_path = format!(in rt.alloc(); "{real}-wal")?;
    // An unreadable DB is reported as such; an unreadable log only as CannotOpen.
    let begun = match begin(rt, log_path.as_str()) {
        Ok(Some(begun)) => begun,
        Err(error) if error.kind() == io::ErrorKind::OutOfMemory => return Err(error),
        Ok(None) | Err(_) => return Ok(Err(CANNOT_OPEN)),
    };
    if beside && !begun.has_header() {
        return Ok(Ok(None));
    }
    let copied = copy_rest(rt, begun, file, real, log_path.as_str())?;
    Ok(Ok(copied))
}

/// Begins to copy a database whose log has this path, or has none. If something else has its name, it does not begin.
fn begin(rt: &HostRuntime, log_path: &str) -> io::Result<Option<Copying<fs::File>>> {
    match fs::symlink_metadata(rt, log_path) {
        Ok(found) if found.is_file() => {
            let log = fs::open(rt, log_path)?;
            Ok(Some(Copying::begin(rt.alloc(), Some(log))?))
        }
        Ok(_) => Ok(None),
        Err(error) if error.kind() == io::ErrorKind::NotFound => {
            Ok(Some(Copying::begin(rt.alloc(), None)?))
        }
        Err(error) => Err(error),
    }
}

/// Takes the steps that are left of a copy.
fn copy_rest<D: Source, L: Source + Drop>(
    rt: &HostRuntime,
    begun: Copying<L>,
    db: &D,
    db_path: &str,
    log_path: &str,
) -> io::Result<Option<Files<CopiedFile>>>
    ensures { IfOk result (λ copied. IfSome copied (IsCopyFrom D.Source.gives L.Source.gives db.now begun.log begun.before.items)) }
{
    let mut copying = begun;
    copying.read_db(db)?;
    copying.read_log()?;
    copying.read_log_again()?;
    copying.end(rt, db, db_path, log_path)
}
