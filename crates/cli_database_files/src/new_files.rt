//! The files of a new database: they are made before it is opened, and removed if nothing is stored in them.
//!
//! Rules, which `put` keeps too for a log that it makes; whoever changes one changes the calls of the others:
//! 1. What allocates comes before the first file is made, so that running out of memory leaves no file behind.
//! 2. DB is made first, for its owner alone. SQLite makes the log when it opens DB, and locks DB then.
//! 3. Nothing is removed but by the command that found it missing, with DB locked, and with nothing stored in it: since the
//!    command looked, another process may have made the file, or stored something. DB goes only if it holds nothing; the log
//!    goes if DB holds nothing, or else if the log has no page.
//! 4. The log goes before DB: as long as DB stands it is locked, so no other process makes a database here, whose log it would be.
//! 5. Both go before the connection is closed, since the lock goes with it.

use crate::copy::{copy_under_lock, open_copied};
use crate::database_file::{open_alone, plain_path};
use crate::log_file::{log_to_make, remove_log};
use sqlite::{Alter, Connection};
use std::fs::OpenOptions;
use std::os::unix::fs::OpenOptionsExt;
use std::{fs, io};

/// The files that are made for a new database.
#[derive(Drop)]
pub struct NewFiles {
    /// The path of the database, as SQLite takes it.
    pub path: String,
    /// Whether the database file was made.
    made: bool,
    /// The path of the log, if it was not there before.
    log: Option<String>,
}

impl NewFiles {
    /// Makes the file of a database, if there is none.
    pub fn make(rt: &HostRuntime, db: &str) -> io::Result<NewFiles> {
        let path = plain_path(rt.alloc(), db)?;
        let log = log_to_make(rt, db)?;
        let made = make_file(rt, db)?;
        Ok(NewFiles { path, made, log })
    }

    /// Removes the files that were made for a database which SQLite does not open, if they hold nothing.
    pub fn remove_unopened(&self, rt: &HostRuntime) {
        let path = self.path.as_str();
        if let Ok(Some(file)) = open_alone(rt, path) {
            self.remove_refused(rt, self.made && holds_nothing(rt, path, &file));
            drop(file);
        }
    }

    /// Removes the files that were made for a site that is not stored, while the database is locked. A database that held
    /// something keeps its file, and its log unless that has no page.
    pub fn remove_refused(&self, rt: &HostRuntime, is_blank: bool) {
        if is_blank {
            self.remove(rt);
        } else {
            remove_log(rt, &self.log);
        }
    }

    /// Removes the files that were made for nothing.
    fn remove(&self, rt: &HostRuntime) {
        if let Some(log) = &self.log {
            let _ = fs::remove_file(rt, log.as_str());
        }
        if self.made {
            let _ = fs::remove_file(rt, self.path.as_str());
        }
    }
}

/// Makes the file of a database, for its owner alone, if there is none. Returns whether it was made.
fn make_file(rt: &HostRuntime, db: &str) -> io::Result<bool> {
    match OpenOptions::new()
        .read(true)
        .write(true)
        .create_new(true)
        .mode(0o600)
        .open(rt, db)
    {
        Ok(_) => Ok(true),
        Err(error) if error.kind() == io::ErrorKind::AlreadyExists => {
            OpenOptions::new().read(true).write(true).open(rt, db)?;
            Ok(false)
        }
        Err(error) => Err(error),
    }
}

/// Tests whether a database, whose file is open alone, holds nothing. One that cannot be copied and opened may hold something.
fn holds_nothing(rt: &HostRuntime, real: &str, file: &fs::File) -> bool {
    let Ok(Ok(files)) = copy_under_lock(rt, real, file) else {
        return false;
    };
    match open_copied(rt.alloc(), files) {
        Ok(conn) => is_blank(&conn),
        Err(_) => false,
    }
}

/// Tests whether a database has no tables and no views, nor tables that SQL here does not understand.
pub fn is_blank<S: Alter>(conn: &Connection<S>) -> bool {
    let schema = conn.schema();
    schema.tables.as_slice().is_empty() && schema.views.as_slice().is_empty()
}
