//! What stands in the way of the files of a database.

use crate::database_file::real_path;
use crate::log_file::{has_no_page, log_len};
use std::io::Read;
use std::os::unix::fs::MetadataExt;
use std::{fmt, fs, io};

/// What stands in the way of the files of a database.
#[derive(Clone, Copy)]
pub enum Obstacle {
    /// The database is a folder.
    Folder,
    /// The database is a device or the like.
    NoFile,
    /// The file of the database has a second name, which hides its log.
    SecondName,
    /// A rollback journal has to be played back, or something else has its name.
    Journal,
    /// What has the name of the log is not a file with one name.
    Log,
    /// There is a log, and no database: it was moved or removed without it. A new database would write over the log.
    LeftLog,
    /// There is a log, and the database is empty: something emptied it. A new database would write over the log.
    LogOfEmpty,
}

impl fmt::Display for Obstacle {
    fn fmt<W: fmt::Write>(&self, f: &mut fmt::Formatter<W>) -> fmt::Result {
        f.write_str(match self {
            Obstacle::Folder => "it is a folder",
            Obstacle::NoFile => "it is not a regular file",
            Obstacle::SecondName => {
                "the file has a second name (a hard link), and its log (DB-wal) stands beside one of them: keep that name, and remove the other"
            }
            Obstacle::Journal => {
                "beside it is a rollback journal (DB-journal), or something else with that name: open the database with sqlite3 once"
            }
            Obstacle::Log => {
                "beside it is something with the name of its log (DB-wal) that is not a regular file, or has a second name"
            }
            Obstacle::LeftLog => {
                "it is missing, but not its log (DB-wal): if DB was moved, move the log to it; if it was removed, remove the log too"
            }
            Obstacle::LogOfEmpty => {
                "it is empty, but not its log (DB-wal): if DB was emptied by mistake, keep the log, which may hold what was stored; else remove it"
            }
        })
    }
}

/// Returns what stands in the way of the files of a database, if something does. A missing file does not.
pub fn find_obstacle(rt: &HostRuntime, db: &str) -> io::Result<Option<Obstacle>> {
    let real = real_path(rt, db)?;
    if let Some(found) = obstacle_at(rt, real.as_str())? {
        return Ok(Some(found));
    }
    let journal = format!(in rt.alloc(); "{real}-journal")?;
    if !is_settled(rt, journal.as_str())? {
        return Ok(Some(Obstacle::Journal));
    }
    let log = format!(in rt.alloc(); "{real}-wal")?;
    match obstacle_at(rt, log.as_str())? {
        Some(_) => Ok(Some(Obstacle::Log)),
        None => Ok(None),
    }
}

/// Returns what stands in the way of making a database, if something does.
pub fn find_obstacle_to_make(rt: &HostRuntime, db: &str) -> io::Result<Option<Obstacle>> {
    match find_obstacle(rt, db)? {
        Some(found) => Ok(Some(found)),
        None => find_left_log(rt, db),
    }
}

/// Finds a log with a page that stands beside a database which is missing or empty. SQLite takes one byte for none.
fn find_left_log(rt: &HostRuntime, db: &str) -> io::Result<Option<Obstacle>> {
    let real = real_path(rt, db)?;
    let log = format!(in rt.alloc(); "{real}-wal")?;
    if let Some(len) = log_len(rt, log.as_str())
        && has_no_page(len)
    {
        return Ok(None);
    }
    match fs::symlink_metadata(rt, real.as_str()) {
        Ok(found) if found.len() > 1 => Ok(None),
        Ok(_) => Ok(Some(Obstacle::LogOfEmpty)),
        Err(error) if error.kind() == io::ErrorKind::NotFound => Ok(Some(Obstacle::LeftLog)),
        Err(error) => Err(error),
    }
}

/// Returns why what stands at a path is not a regular file with one name; `None` if it is one, or is missing.
fn obstacle_at(rt: &HostRuntime, path: &str) -> io::Result<Option<Obstacle>> {
    match fs::symlink_metadata(rt, path) {
        Ok(found) if found.is_dir() => Ok(Some(Obstacle::Folder)),
        Ok(found) if !found.is_file() => Ok(Some(Obstacle::NoFile)),
        Ok(found) if found.nlink() != 1 => Ok(Some(Obstacle::SecondName)),
        Ok(_) => Ok(None),
        Err(error) if error.kind() == io::ErrorKind::NotFound => Ok(None),
        Err(error) => Err(error),
    }
}

/// Tests whether a rollback journal has nothing that SQLite would have to play back: it is missing or empty, or begins
/// with a zero byte.
pub fn is_settled(rt: &HostRuntime, path: &str) -> io::Result<bool> {
    match fs::symlink_metadata(rt, path) {
        Ok(found) if found.is_file() => {
            let mut first = [0];
            let mut journal = fs::open(rt, path)?;
            Ok(journal.read(&mut first)? == 0 || first[0] == 0)
        }
        Ok(_) => Ok(false),
        Err(error) if error.kind() == io::ErrorKind::NotFound => Ok(true),
        Err(error) => Err(error),
    }
}
