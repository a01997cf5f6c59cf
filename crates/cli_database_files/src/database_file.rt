//! The file of a database: its path, and the locks of SQLite.

ghost use Rattle.std.specs.Prelude.{◌≡◌, IfOk};
ghost use Rattle.std.specs.String.{string_bytes};
ghost use Rattle.cli_database_files.specs.DatabaseFile.{IsLockedBySqlite, plain_path};

use os::RangeLock;
use sqlite::{Error, ErrorCode};
use std::alloc::{AllocError, Global};
use std::fs::OpenOptions;
use std::os::fd::AsRawFd;
use std::os::unix::fs::MetadataExt;
use std::{fs, io};

pub const CANNOT_OPEN: Error = Error::SqliteFailure(ErrorCode::CannotOpen);

/// Another has the database open alone.
pub const BUSY: Error = Error::SqliteFailure(ErrorCode::DatabaseBusy);

/// Returns a path that SQLite takes for one: to it `:memory:`, and what begins with `file:`, is something else.
pub fn plain_path(alloc: Global, db: &str) -> Result<String, AllocError>
    ensures { IfOk result (λ path. string_bytes path ≡ plain_path db.now) }
{
    if db.starts_with("/") {
        String::from_str(alloc, db)
    } else {
        format!(in alloc; "./{db}")
    }
}

/// Returns the path of a database without a link in it, beside which SQLite has its log; the path itself if nothing is there.
pub fn real_path(rt: &HostRuntime, db: &str) -> io::Result<String> {
    match fs::canonicalize(rt, db) {
        Ok(real) => Ok(String::from_str(rt.alloc(), real.as_str())?),
        Err(error) if error.kind() == io::ErrorKind::NotFound => {
            Ok(String::from_str(rt.alloc(), db)?)
        }
        Err(error) => Err(error),
    }
}

/// Tests whether a regular file with one name stands at a path. A second name would hide its log.
pub fn is_plain(rt: &HostRuntime, path: &str) -> io::Result<bool> {
    let found = fs::symlink_metadata(rt, path)?;
    Ok(found.is_file() && found.nlink() == 1)
}

/// Bytes of a file that are locked together. They need not exist.
#[derive(Clone, Copy)]
pub struct ByteRange {
    pub start: u64,
    pub len: u64,
}

/// Returns the bytes that SQLite locks: the pending one, the reserved one, and the 510 that readers share.
pub fn locked_by_sqlite() -> ByteRange
    ensures { IsLockedBySqlite result }
{
    ByteRange {
        start: 1 << 30,
        len: 512,
    }
}

/// Takes the locks of SQLite, shared as its readers do, or alone. They end when the file is closed.
pub fn lock(file: &fs::File, kind: RangeLock) -> Result<(), Error> {
    lock_bytes(file, kind, locked_by_sqlite())
}

/// Locks these bytes, which are those that SQLite locks.
fn lock_bytes(file: &fs::File, kind: RangeLock, bytes: ByteRange) -> Result<(), Error>
    requires { IsLockedBySqlite bytes }
{
    if os::try_lock_range(file.as_raw_fd(), kind, bytes.start, bytes.len) == 0 {
        return Ok(());
    }
    match io::Error::from_raw_os_error(os::errno()).kind() {
        io::ErrorKind::WouldBlock => Err(BUSY),
        _ => Err(Error::SqliteFailure(ErrorCode::SystemIoFailure)),
    }
}

/// Opens a database file alone: until it is closed, no other command opens the database. Returns `None` if another process has
/// it open, or if the path has come to lead to another file.
pub fn open_alone(rt: &HostRuntime, path: &str) -> io::Result<Option<fs::File>> {
    let real = real_path(rt, path)?;
    if !is_plain(rt, real.as_str())? {
        return Ok(None);
    }
    let file = OpenOptions::new()
        .read(true)
        .write(true)
        .open(rt, real.as_str())?;
    if lock(&file, RangeLock::Exclusive).is_err() {
        return Ok(None);
    }
    let (found, named) = (file.metadata()?, fs::symlink_metadata(rt, real.as_str())?);
    if found.dev() == named.dev() && found.ino() == named.ino() {
        Ok(Some(file))
    } else {
        Ok(None)
    }
}
