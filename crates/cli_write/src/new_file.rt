//! A new file for a database. It is written under another name beside its own, and synced, before it takes that: so it is there whole.
//!
//! Nothing that is there is written over, nor becomes the log of the new database; and the new file does not become that of another one.

use crate::replacing::{fill, new_path, sync_folder};
use std::fs::OpenOptions;
use std::os::unix::fs::OpenOptionsExt;
use std::{fmt, fs, io};

/// What stands in the way of a new file for a database.
#[derive(Clone, Copy)]
pub(crate) enum Taken {
    /// Something has its name.
    File,
    /// Something has the name of its log.
    Log,
    /// Something has the name of its rollback journal.
    Journal,
    /// It would be the log or the journal of something that is there.
    BesideOther,
}

impl fmt::Display for Taken {
    fn fmt<W: fmt::Write>(&self, f: &mut fmt::Formatter<W>) -> fmt::Result {
        f.write_str(match self {
            Taken::File => "it is there already: copy makes a new file",
            Taken::Log => {
                "beside it is something with the name of its log (FILE-wal): take another name"
            }
            Taken::Journal => {
                "beside it is something with the name of its rollback journal (FILE-journal): take another name"
            }
            Taken::BesideOther => {
                "it has the name of the log or the journal of a file beside it: take another name"
            }
        })
    }
}

/// Makes a new file with these bytes, for its owner alone, or returns what stands in its way.
pub(crate) fn make_file(rt: &HostRuntime, path: &str, bytes: &[u8]) -> io::Result<Option<Taken>> {
    if let Some(taken) = find_taken(rt, path)? {
        return Ok(Some(taken));
    }
    let new = new_path(rt, path)?;
    write_new(rt, new.as_str(), bytes)?;
    take_path(rt, new.as_str(), path)?;
    Ok(None)
}

/// Returns what stands in the way of a new file for a database, if something does.
fn find_taken(rt: &HostRuntime, path: &str) -> io::Result<Option<Taken>> {
    if is_there(rt, path)? {
        return Ok(Some(Taken::File));
    }
    let log = format!(in rt.alloc(); "{path}-wal")?;
    if is_there(rt, log.as_str())? {
        return Ok(Some(Taken::Log));
    }
    let journal = format!(in rt.alloc(); "{path}-journal")?;
    if is_there(rt, journal.as_str())? {
        return Ok(Some(Taken::Journal));
    }
    find_other(rt, path)
}

/// Looks whether a path is that of the log or the journal of something that is there.
fn find_other(rt: &HostRuntime, path: &str) -> io::Result<Option<Taken>> {
    let Some((other, end)) = path.rsplit_once('-') else {
        return Ok(None);
    };
    if (end == "wal" || end == "journal" || end == "shm") && is_there(rt, other)? {
        return Ok(Some(Taken::BesideOther));
    }
    Ok(None)
}

/// Tests whether anything stands at a path, also a link that leads nowhere.
fn is_there(rt: &HostRuntime, path: &str) -> io::Result<bool> {
    match fs::symlink_metadata(rt, path) {
        Ok(_) => Ok(true),
        Err(error) if error.kind() == io::ErrorKind::NotFound => Ok(false),
        Err(error) => Err(error),
    }
}

/// Makes a new file with these bytes, which is synced; or removes it, if it cannot be finished.
fn write_new(rt: &HostRuntime, new: &str, bytes: &[u8]) -> io::Result<()> {
    let mut file = create_new(rt, new)?;
    match fill(&mut file, bytes, None) {
        Ok(()) => Ok(()),
        Err(error) => {
            let _ = fs::remove_file(rt, new);
            Err(error)
        }
    }
}

/// Makes a new file, for its owner alone, as `init` does.
fn create_new(rt: &HostRuntime, path: &str) -> io::Result<fs::File> {
    OpenOptions::new()
        .write(true)
        .create_new(true)
        .mode(0o600)
        .open(rt, path)
}

/// Gives a file the path, if nothing has it; or removes the file. An empty file holds the path until then, so that nothing which is made
/// there meanwhile is written over.
fn take_path(rt: &HostRuntime, new: &str, path: &str) -> io::Result<()> {
    match create_new(rt, path) {
        Ok(held) => {
            drop(held);
            take_held_path(rt, new, path)
        }
        Err(error) => {
            let _ = fs::remove_file(rt, new);
            Err(error)
        }
    }
}

/// Gives a file the path that an empty one holds; or removes both.
fn take_held_path(rt: &HostRuntime, new: &str, path: &str) -> io::Result<()> {
    match fs::rename(rt, new, path) {
        Ok(()) => {
            sync_folder(rt, path);
            Ok(())
        }
        Err(error) => {
            let _ = fs::remove_file(rt, new);
            let _ = fs::remove_file(rt, path);
            Err(error)
        }
    }
}
