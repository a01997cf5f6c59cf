//! What a command on a database prints if it is refused, with the sentence that standard error says beside the fixed line.

ghost use Rattle.std.specs.Prelude.{◌≡◌};
ghost use Rattle.desk_service.specs.declared.refused.Refused.TheVariants as refused;
ghost use Rattle.cli_desk.specs.RefusalLines.{IsRefused};
ghost use Rattle.cli_desk.specs.RefusalNotes.{IsRefusedBy, IsWithoutKey, copy_error};

use crate::refusal_lines::refused;
use cli_database_files::copy::is_out_of_memory;
use cli_database_files::obstacles::{Obstacle, find_obstacle};
use cli_output::failure::Failure;
use cli_output::printed::Printed;
use desk_core::{Edit, Refusal};
use desk_service::Refused;
use desk_store::{DeskError, StoreFault, Task};
use sqlite::{Error, ErrorCode};
use std::alloc::{AllocError, Global};
use std::io;

/// Prints that SQLite does not open a database.
pub fn not_opened(alloc: Global, db: &str, error: Error) -> Result<Printed, Failure>
    ensures { IsRefused refused.Store result }
{
    let note = match error {
        Error::SqliteFailure(ErrorCode::OutOfMemory) => return Err(Failure::Memory),
        Error::SqliteFailure(ErrorCode::DatabaseBusy) => {
            format!(in alloc;
                "exportdesk: DB {db:?}: another process is using it: if that is exportdesk serve, ask over HTTP (docs/HTTP.md) or stop it, else try again\n"
            )?
        }
        Error::SqliteFailure(ErrorCode::NotADatabase) => {
            format!(in alloc; "exportdesk: DB {db:?}: it is not a database of SQLite\n")?
        }
        Error::SqliteFailure(ErrorCode::CannotOpen) => {
            format!(in alloc;
                "exportdesk: DB {db:?}: it, or its log (DB-wal), cannot be opened, or the log cannot be made: look who may write them and their folder\n"
            )?
        }
        _ => format!(in alloc; "exportdesk: DB {db:?}: it cannot be opened: {error}\n")?,
    };
    refused(alloc, Refused::Store, note)
}

/// Prints that SQLite does not open a database, by what stands in the way of its files, if that is known.
pub fn not_opened_at(rt: &HostRuntime, db: &str, error: Error) -> Result<Printed, Failure>
    ensures { IsRefused refused.Store result }
{
    match error {
        Error::SqliteFailure(ErrorCode::CannotOpen) => match find_obstacle(rt, db) {
            Ok(Some(obstacle)) => obstructed(rt.alloc(), db, obstacle),
            _ => not_opened(rt.alloc(), db, error),
        },
        _ => not_opened(rt.alloc(), db, error),
    }
}

/// Prints what stands in the way of a database's files.
pub fn obstructed(alloc: Global, db: &str, obstacle: Obstacle) -> Result<Printed, Failure>
    ensures { IsRefused refused.Store result }
{
    let note = format!(in alloc; "exportdesk: DB {db:?}: {obstacle}\n")?;
    refused(alloc, Refused::Store, note)
}

/// Prints that the system does not open a database for writing.
pub fn not_writable(alloc: Global, db: &str, error: &io::Error) -> Result<Printed, Failure>
    ensures { IsRefused refused.Store result }
{
    if error.kind() == io::ErrorKind::OutOfMemory {
        return Err(Failure::Memory);
    }
    let note = format!(in alloc; "exportdesk: DB {db:?}: it cannot be written: {error}\n")?;
    refused(alloc, Refused::Store, note)
}

/// Prints that a statement was refused.
pub fn refused_by_store(alloc: Global, db: &str, fault: StoreFault) -> Result<Printed, Failure>
    ensures { IsRefused refused.Store result }
{
    refused_by_desk(alloc, db, DeskError::Store(fault))
}

/// Prints that a database is not one of this project.
pub fn refused_by_schema(alloc: Global, db: &str) -> Result<Printed, Failure>
    ensures { IsRefused refused.Schema result }
{
    refused_by_desk(alloc, db, DeskError::Schema)
}

/// Prints that a new database has a table already.
pub fn refused_by_table(alloc: Global, db: &str) -> Result<Printed, Failure>
    ensures { IsRefused refused.Schema result }
{
    let note = format!(in alloc;
        "exportdesk: DB {db:?}: it has a table meta, file_rev, approval or proposal already, or one that refers to such a table (put changes a desk)\n"
    )?;
    refused(alloc, Refused::Schema, note)
}

/// Prints why a desk has no answer. Of a refused edit nothing is said.
pub fn refused_by_desk(alloc: Global, db: &str, error: DeskError) -> Result<Printed, Failure>
    ensures { IsRefusedBy error result }
{
    let note = match &error {
        DeskError::Refused(_) => String::new(alloc),
        DeskError::Store(fault) => store_note(alloc, db, *fault)?,
        DeskError::Schema => schema_note(alloc, db)?,
        DeskError::Memory => return Err(Failure::Memory),
    };
    refused(alloc, Refused::by(error), note)
}

/// Says that a statement was refused.
fn store_note(alloc: Global, db: &str, fault: StoreFault) -> Result<String, AllocError> {
    let task = task_text(fault.task);
    let error = fault.error;
    let advice = advice_text(fault.task);
    format!(in alloc; "exportdesk: DB {db:?}: {task}: {error}{advice}\n")
}

/// Says that a database is not one of this project.
fn schema_note(alloc: Global, db: &str) -> Result<String, AllocError> {
    format!(in alloc;
        "exportdesk: DB {db:?}: it is not a database of exportdesk, of version 1 or 2, or its log (DB-wal) is not beside it, or it was changed by hand\n"
    )
}

/// Prints why a desk over a copy in memory has no answer.
pub fn refused_by_copy(alloc: Global, db: &str, error: DeskError) -> Result<Printed, Failure>
    ensures { IsRefusedBy (copy_error error) result }
{
    refused_by_desk(alloc, db, copy_error(error))
}

/// Returns the error that one of a desk over a copy in memory means: a statement may be refused since memory ran out.
fn copy_error(error: DeskError) -> DeskError
    ensures { result ≡ copy_error error }
{
    match error {
        DeskError::Store(fault) if is_out_of_memory(fault.error) => DeskError::Memory,
        error => error,
    }
}

/// Says that the file of this path, which a word names, has more bytes than a revision may have.
pub fn too_large_note(alloc: Global, argument: &str, path: &str) -> Result<String, AllocError> {
    format!(in alloc; "exportdesk: {argument} {path:?}: it is over 65536 bytes\n")
}

/// Says what a statement was for.
fn task_text(task: Task) -> &'static str {
    match task {
        Task::AddEntry => "adding the revision or the proposal",
        Task::ReadRevisions => "reading the revisions",
        Task::FindTables => "looking for the tables",
        Task::ReadVersion => "reading the version",
        Task::MakeTables => "making the tables",
        Task::Migrate => "making it a database of version 2",
    }
}

/// Says what to do about a statement that was refused.
fn advice_text(task: Task) -> &'static str {
    match task {
        Task::AddEntry => {
            "; it may be stored all the same, as log and proposal tell, and the same put can be made again"
        }
        _ => "",
    }
}

/// An edit without its key. What writes a note is given this, so no note can repeat a key.
#[derive(Clone, Copy)]
pub struct KeylessEdit<'a> {
    pub file: &'a str,
    pub base: u32,
    pub caller: &'a str,
    pub text: &'a str,
}

impl<'a> KeylessEdit<'a> {
    /// Returns an edit without its key.
    pub fn of(edit: &Edit<'a>) -> KeylessEdit<'a>
        ensures { IsWithoutKey edit.now result }
    {
        KeylessEdit {
            file: edit.file,
            base: edit.base,
            caller: edit.caller,
            text: edit.text,
        }
    }
}

/// Says why an edit, whose text is that of the file of this path, is refused; of the fault of a site nothing.
pub fn refusal_note(
    alloc: Global,
    path: &str,
    edit: KeylessEdit<'_>,
    refusal: &Refusal,
) -> Result<String, AllocError> {
    let name = edit.file;
    let caller = edit.caller;
    match refusal {
        Refusal::UnknownCaller => {
            format!(in alloc;
                "exportdesk: --caller {caller:?}: the custodians file does not list it\n"
            )
        }
        Refusal::BadKey => format!(in alloc; "exportdesk: the key is not that of {caller:?}\n"),
        Refusal::UnknownFile => unknown_file_note(alloc, name),
        Refusal::NotCustodian => {
            format!(in alloc; "exportdesk: NAME {name:?}: {caller:?} does not keep it\n")
        }
        Refusal::TooLarge => too_large_note(alloc, "FILE", path),
        Refusal::Stale(newest) => stale_note(alloc, edit, *newest),
        Refusal::Full => {
            format!(in alloc;
                "exportdesk: NAME {name:?}: it has the last revision that there can be\n"
            )
        }
        Refusal::Fault(_) => Ok(String::new(alloc)),
    }
}

/// Says what the newest revision is, if an edit follows another one.
fn stale_note(alloc: Global, edit: KeylessEdit<'_>, newest: u32) -> Result<String, AllocError> {
    let name = edit.file;
    let base = edit.base;
    if newest == 0 {
        format!(in alloc; "exportdesk: --base {base}: {name:?} has no revision yet\n")
    } else {
        format!(in alloc;
            "exportdesk: --base {base}: the newest revision of {name:?} is {newest}: look what it changed (cat), and put on top of it\n"
        )
    }
}

/// Says that a desk has no file of this name.
pub fn unknown_file_note(alloc: Global, name: &str) -> Result<String, AllocError> {
    format!(in alloc;
        "exportdesk: NAME {name:?}: it is not custodians, filesystems, hosts, networks, passwd, group or netgroup, nor exports: and a listed mount point\n"
    )
}
