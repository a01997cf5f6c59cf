//! The names of the two files of a database that is open: whether the same files still stand there. A file that is moved, removed or replaced
//! stays open, and what is written to it from then on is lost to everybody else.

use crate::database_file::real_path;
use std::alloc::AllocError;
use std::fs;
use std::io::ErrorKind;
use std::os::unix::fs::MetadataExt;

/// What tells a file of this machine from every other that is there meanwhile.
#[derive(Clone, Copy)]
struct Mark {
    dev: u64,
    ino: u64,
}

/// The names of the two files of a database, with what was found there.
#[derive(Drop)]
pub struct Names {
    db: String,
    log: String,
    db_mark: Option<Mark>,
    log_mark: Option<Mark>,
}

impl Names {
    /// Notes what stands at the name of a database. This comes before it is opened, and `note_log` after that: so another file that takes its
    /// place meanwhile is noticed. If the system does not say where the name leads, no file is ever the same.
    pub fn of(rt: &HostRuntime, db: &str) -> Result<Names, AllocError> {
        let db = match real_path(rt, db) {
            Ok(real) => real,
            Err(error) if error.kind() == ErrorKind::OutOfMemory => return Err(AllocError),
            Err(_) => String::from_str(rt.alloc(), db)?,
        };
        let log = format!(in rt.alloc(); "{db}-wal")?;
        let db_mark = mark_at(rt, db.as_str());
        Ok(Names {
            db,
            log,
            db_mark,
            log_mark: None,
        })
    }

    /// Notes what stands at the name of the log.
    pub fn note_log(&mut self, rt: &HostRuntime) {
        self.log_mark = mark_at(rt, self.log.as_str());
    }

    /// Tells whether the files that were noted stand there.
    fn are_same(&self, rt: &HostRuntime) -> bool {
        is_same(self.db_mark, mark_at(rt, self.db.as_str()))
            && is_same(self.log_mark, mark_at(rt, self.log.as_str()))
    }
}

/// Tells whether the files that were noted stand at these names, if there are any.
pub fn have_files(rt: &HostRuntime, names: &Option<Names>) -> bool {
    match names {
        Some(names) => names.are_same(rt),
        None => true,
    }
}

/// Returns what tells the file at a path from others, if the system says it.
fn mark_at(rt: &HostRuntime, path: &str) -> Option<Mark> {
    match fs::symlink_metadata(rt, path) {
        Ok(found) => Some(Mark {
            dev: found.dev(),
            ino: found.ino(),
        }),
        Err(_) => None,
    }
}

/// Tells whether both marks are there, and are those of one file.
fn is_same(one: Option<Mark>, other: Option<Mark>) -> bool {
    match (one, other) {
        (Some(one), Some(other)) => one.dev == other.dev && one.ino == other.ino,
        _ => false,
    }
}
