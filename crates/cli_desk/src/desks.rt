//! How the desk of a database is opened: on a copy in memory, for a question, and for edits, by `put` and `serve`.
//!
//! For edits, DB is opened by its path three times: for reading, for writing, and by SQLite. SQLite reports a DB that it may
//! not read, or not write, as CannotOpen alone, so the system is asked for each first, and then DB is closed at once. An empty
//! DB is refused before SQLite opens it, which would write a database into it.
//!
//! A log that was made for nothing is removed before the lock goes with the connection: after that, another process may write
//! it. So an [`OpenedDesk`] is opened once all that allocates is made and it is asked which log is to be made, and its `close`
//! removes that log before it drops the connection.

ghost use Rattle.std.specs.Prelude.{◌≡◌, false, IfErr, IfOk};
ghost use Rattle.sqlite_wal.specs.Files.{image_at};
ghost use Rattle.sqlite.specs.Files.{file_state, over_files};
ghost use Rattle.sqlite.specs.Held.{state};
ghost use Rattle.sqlite.specs.Start.{FindsIn};
ghost use Rattle.sqlite.specs.State.{HasCleanDisk, Opens};
ghost use Rattle.desk_core.specs.Edit.{asked};
ghost use Rattle.desk_store.specs.Open.{OpensAt};
ghost use Rattle.desk_service.specs.Edits.{PutsBy};
ghost use Rattle.desk_service.specs.declared.refused.Refused.TheVariants as refused;
ghost use Rattle.cli_database_files.specs.DatabaseFile.{plain_path};
ghost use Rattle.cli_desk.specs.Desks.{HasNoCopiedDesk, HasNoDesk, HasNoDeskOn, IsCopied, OpensDesk, OpensOn, PutsOver};
ghost use Rattle.cli_desk.specs.RefusalLines.{IsRefused};

use crate::View;
use crate::refusal_notes::{
    not_opened_at, not_writable, refused_by_copy, refused_by_desk, refused_by_schema,
};
use cli_database_files::copied_file::CopiedFile;
use cli_database_files::copy::{Copied, Unopened, open_copy, unread};
use cli_database_files::database_file::{CANNOT_OPEN, is_plain, plain_path};
use cli_database_files::log_file::{log_to_make, remove_log};
use cli_database_files::named::{FilesFrom, Named, NotOpened, open_from};
use cli_output::failure::Failure;
use cli_output::printed::Printed;
use desk_core::Edit;
use desk_service::{Replies, put};
use desk_store::{Desk, DeskError};
use sqlite::{Alter, Connection, Error, FileFrom, FileStore, Start};
use std::alloc::Global;
use std::fs::OpenOptions;
use std::{fs, io};

/// A desk on a copy of a database in memory.
pub type CopiedDesk = Desk<FileStore<CopiedFile>, View>;

/// Opens a desk on a copy of the database at a path; or prints why there is none. Of version 1, the copy alone is migrated.
pub fn open_copied_desk(rt: &HostRuntime, db: &str) -> Result<CopiedDesk, Result<Printed, Failure>>
    ensures opened { IfOk result (IsCopied over_files) }
    ensures refused { IfErr result (HasNoCopiedDesk db.now) }
{
    match open_copy(rt, db) {
        Ok(conn) => desk_on_copy(rt.alloc(), db, conn),
        Err(Unopened::Unread(failure)) => Err(Err(failure)),
        Err(Unopened::Refused(error)) => Err(not_opened_at(rt, db, error)),
    }
}

/// Opens a desk on the database of a connection to a copy; or prints why there is none. An error of the copy's disk is reported as out
/// of memory.
pub fn desk_on_copy(
    alloc: Global,
    db: &str,
    conn: Copied,
) -> Result<CopiedDesk, Result<Printed, Failure>>
    requires { (file_state conn).in_transaction ≡ false }
    ensures opened { IfOk result (OpensAt over_files (file_state conn).committed) }
    ensures refused { IfErr result (HasNoDeskOn (file_state conn).committed) }
{
    match Desk::open(alloc, conn) {
        Ok(desk) => Ok(desk),
        Err((error, left)) => {
            drop(left);
            Err(refused_by_copy(alloc, db, error))
        }
    }
}

/// Looks at the file of a database before SQLite opens it for edits. Prints why it is not opened, if that shows: it is not a regular
/// file with one name, it cannot be read or written, or it is empty.
fn check_file(rt: &HostRuntime, db: &str) -> Result<(), Result<Printed, Failure>>
    ensures { IfErr result (HasNoDesk db.now) }
{
    match leads_to_plain(rt, db) {
        Ok(true) => check_plain_file(rt, db),
        Ok(false) => Err(not_opened_at(rt, db, CANNOT_OPEN)),
        Err(error) => Err(Err(unread(rt.alloc(), db, error))),
    }
}

/// Tests whether a path leads to a regular file with one name. To open another, as a FIFO, may wait for ever.
fn leads_to_plain(rt: &HostRuntime, path: &str) -> io::Result<bool> {
    let real = fs::canonicalize(rt, path)?;
    is_plain(rt, real.as_str())
}

/// Looks at a regular file: whether it can be read and written, and is not empty.
fn check_plain_file(rt: &HostRuntime, db: &str) -> Result<(), Result<Printed, Failure>>
    ensures { IfErr result (HasNoDesk db.now) }
{
    match fs::open(rt, db) {
        Ok(file) => {
            drop(file);
            check_readable_file(rt, db)
        }
        Err(error) => Err(Err(unread(rt.alloc(), db, error))),
    }
}

/// Looks at a regular file that can be read: whether it can be written, and is not empty.
fn check_readable_file(rt: &HostRuntime, db: &str) -> Result<(), Result<Printed, Failure>>
    ensures { IfErr result (HasNoDesk db.now) }
{
    match is_empty_file(rt, db) {
        Ok(true) => Err(refused_by_schema(rt.alloc(), db)),
        Ok(false) => Ok(()),
        Err(error) => Err(not_writable(rt.alloc(), db, &error)),
    }
}

/// Tests whether a file that can be written is empty or has one byte. SQLite would take it for an empty database, and write
/// one into it.
fn is_empty_file(rt: &HostRuntime, path: &str) -> io::Result<bool> {
    let file = OpenOptions::new().read(true).write(true).open(rt, path)?;
    Ok(file.metadata()?.len() <= 1)
}

/// Opens a connection to the database that this word names, at the path that stands for the word to SQLite. It does nothing else.
fn open_named<S: Start>(
    rt: &HostRuntime,
    db: &str,
    path: &str,
    start: S,
) -> Result<FilesFrom<S>, NotOpened<S>>
    requires { path.now ≡ plain_path db.now }
    ensures settled { IfOk result (λ conn. (file_state conn).in_transaction ≡ false) }
    ensures opened { IfOk result (λ conn. HasCleanDisk (file_state conn) → Opens (file_state conn)) }
    ensures found { IfOk result (λ conn. HasCleanDisk (file_state conn) → FindsIn (image_at S.Start) (file_state conn)) }
{
    match open_from(rt, path, start) {
        Ok(conn) => Ok(conn),
        Err(left) => Err(left),
    }
}

/// Opens a connection to the database DB, at its path of SQLite's; else prints why it is not opened, and a log that was made for it
/// goes.
fn open_connection<S: Start>(
    rt: &HostRuntime,
    db: &str,
    path: &str,
    log: &Option<String>,
    start: S,
) -> Result<FilesFrom<S>, Result<Printed, Failure>>
    requires { path.now ≡ plain_path db.now }
    ensures settled { IfOk result (λ conn. (file_state conn).in_transaction ≡ false) }
    ensures opened { IfOk result (λ conn. HasCleanDisk (file_state conn) → Opens (file_state conn)) }
    ensures found { IfOk result (λ conn. HasCleanDisk (file_state conn) → FindsIn (image_at S.Start) (file_state conn)) }
    ensures refused { IfErr result (IsRefused refused.Store) }
{
    match open_named(rt, db, path, start) {
        Ok(conn) => Ok(conn),
        Err((error, left)) => {
            if left.is_some() {
                remove_log(rt, log);
            }
            drop(left);
            Err(not_opened_at(rt, db, error))
        }
    }
}

/// Opens a desk on the database DB, at its path of SQLite's; else prints why there is none.
fn open_desk<S: Start>(
    rt: &HostRuntime,
    db: &str,
    path: &str,
    log: &Option<String>,
    start: S,
) -> Result<Desk<FileStore<Named<FileFrom<S>>>, View>, Result<Printed, Failure>>
    requires { path.now ≡ plain_path db.now }
    ensures opened { IfOk result (OpensDesk over_files (image_at S.Start)) }
    ensures refused { IfErr result (HasNoDesk db.now) }
{
    match open_connection(rt, db, path, log, start) {
        Ok(conn) => desk_over(rt, db, log, conn),
        Err(answer) => Err(answer),
    }
}

/// Opens a desk on the database of a connection. If there is none, it prints why, and a log that was made for it goes.
fn desk_over<S: Alter + Drop>(
    rt: &HostRuntime,
    db: &str,
    log: &Option<String>,
    conn: Connection<S>,
) -> Result<Desk<S, View>, Result<Printed, Failure>>
    requires { (state S.Store conn).in_transaction ≡ false }
    ensures opened { IfOk result (OpensOn S.Store conn) }
    ensures refused { IfErr result (HasNoDesk db.now) }
{
    match Desk::open(rt.alloc(), conn) {
        Ok(desk) => Ok(desk),
        Err((error, conn)) => {
            remove_log(rt, log);
            drop(conn);
            Err(refused_by_desk(rt.alloc(), db, error))
        }
    }
}

/// A desk that is opened for edits, and the path of the log that is made for its database, if one is.
#[derive(Drop)]
pub struct OpenedDesk<S: Alter + Drop> {
    pub desk: Desk<S, View>,
    log: Option<String>,
}

/// Opens the desk of the database DB for edits; else prints why there is none. What allocates comes before its log is made.
pub fn open_for_edits<S: Start>(
    rt: &HostRuntime,
    db: &str,
    start: S,
) -> Result<OpenedDesk<FileStore<Named<FileFrom<S>>>>, Result<Printed, Failure>>
    ensures opened { IfOk result (λ opened. OpensDesk over_files (image_at S.Start) opened.desk) }
    ensures refused { IfErr result (HasNoDesk db.now) }
{
    match check_file(rt, db) {
        Ok(()) => open_checked(rt, db, start),
        Err(answer) => Err(answer),
    }
}

/// Opens the desk of a database whose file was looked at.
fn open_checked<S: Start>(
    rt: &HostRuntime,
    db: &str,
    start: S,
) -> Result<OpenedDesk<FileStore<Named<FileFrom<S>>>>, Result<Printed, Failure>>
    ensures opened { IfOk result (λ opened. OpensDesk over_files (image_at S.Start) opened.desk) }
    ensures refused { IfErr result (HasNoDesk db.now) }
{
    let Ok(path) = plain_path(rt.alloc(), db) else {
        return Err(Err(Failure::Memory));
    };
    let Ok(log) = log_to_make(rt, db) else {
        return Err(Err(Failure::Memory));
    };
    match open_desk(rt, db, path.as_str(), &log, start) {
        Ok(desk) => Ok(OpenedDesk { desk, log }),
        Err(answer) => Err(answer),
    }
}

impl<S: Alter + Drop> OpenedDesk<S> {
    /// Makes an edit, and returns the reply to it, or why the desk has none.
    pub fn put<T: Drop>(
        &mut self,
        alloc: Global,
        edit: &Edit<'_>,
        replies: Replies<T>,
    ) -> Result<T, DeskError>
        ensures edited { PutsBy S.Store self.old.desk self.new.desk (asked edit.now) replies result }
        ensures opened { PutsOver S.Store self.old.desk self.new.desk (asked edit.now) replies result }
    {
        put(alloc, &mut self.desk, edit, replies)
    }

    /// Ends. A log that was made for nothing goes before the lock goes with the desk: after that, another process may write it.
    pub fn close(self, rt: &HostRuntime) {
        remove_log(rt, &self.log);
        drop(self);
    }
}
