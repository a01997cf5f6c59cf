//! The log of a database, DB-wal: whether it has to be made, and its removal if it was made for nothing. The rules of removal
//! stand at the head of new_files.rt.

ghost use Rattle.std.specs.Prelude.{◌≡◌, false, IsTrue};
ghost use Rattle.cli_database_files.specs.LogFile.{HasNoPage, MayHavePage};

use crate::database_file::real_path;
use crate::kept::HEADER_LEN;
use std::alloc::AllocError;
use std::{fs, io};

/// Returns the path of the log of a database, if there is none yet. The database may have to be made too.
pub fn log_to_make(rt: &HostRuntime, db: &str) -> Result<Option<String>, AllocError> {
    match missing_log(rt, db) {
        Ok(log) => Ok(log),
        Err(error) if error.kind() == io::ErrorKind::OutOfMemory => Err(AllocError),
        Err(_) => Ok(None),
    }
}

/// Returns the same, or why the system does not say it.
fn missing_log(rt: &HostRuntime, db: &str) -> io::Result<Option<String>> {
    let real = real_path(rt, db)?;
    let log = format!(in rt.alloc(); "{real}-wal")?;
    match fs::symlink_metadata(rt, log.as_str()) {
        Err(error) if error.kind() == io::ErrorKind::NotFound => Ok(Some(log)),
        Err(error) => Err(error),
        Ok(_) => Ok(None),
    }
}

/// Removes a log that was made for nothing, while its database is locked. One with a page is kept: since `log_to_make` looked,
/// another process may have stored something there.
pub fn remove_log(rt: &HostRuntime, log: &Option<String>) {
    if let Some(path) = log
        && let Some(len) = log_len(rt, path.as_str())
        && has_no_page(len)
    {
        remove_short(rt, path.as_str(), len);
    }
}

/// Removes a log whose length is this one. A longer one may hold a commit, so it is never removed here.
fn remove_short(rt: &HostRuntime, path: &str, len: u64)
    requires { HasNoPage len }
{
    let _ = (len, fs::remove_file(rt, path));
}

/// Returns how many bytes a log has, 0 if it is missing; `None` if the system does not say it.
pub fn log_len(rt: &HostRuntime, log: &str) -> Option<u64> {
    match fs::symlink_metadata(rt, log) {
        Ok(found) => Some(found.len()),
        Err(error) if error.kind() == io::ErrorKind::NotFound => Some(0),
        Err(_) => None,
    }
}

/// How many bytes stand before each page of a log.
const FRAME_HEADER_LEN: u64 = 24;

/// Tests whether a log with this many bytes is too short for its header and that of a page. Such a log holds no commit.
pub fn has_no_page(len: u64) -> bool
    ensures short { IsTrue result → HasNoPage len }
    ensures other { result ≡ false → MayHavePage len }
{
    len < HEADER_LEN as u64 + FRAME_HEADER_LEN
}
