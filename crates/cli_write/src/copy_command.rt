//! The command `copy`: a copy of a database in one new file.

ghost use Rattle.std.specs.Prelude.{IfOk};
ghost use Rattle.desk_service.specs.declared.refused.Refused.TheVariants as refused;
ghost use Rattle.cli_output.specs.Printed.{Prints};
ghost use Rattle.cli_words.specs.Words.{rows_in};
ghost use Rattle.cli_desk.specs.RefusalLines.{IsRefused};
ghost use Rattle.cli_write.specs.CopyCommand.{AnswersCopy, CopiesDatabase, TellsCopied, copied_line};

use crate::checked_copy::{checked_copy, unopened};
use crate::new_file::{Taken, make_file};
use clap::ArgMatches;
use cli_database_files::copy::{Copied, open_copy};
use cli_desk::refusal_lines::refused;
use cli_output::failure::Failure;
use cli_output::printed::Printed;
use cli_words::words::required;
use desk_service::Refused;
use std::alloc::{AllocError, Global};
use std::io;

/// Answers `copy DB FILE`.
pub fn run_copy(rt: &HostRuntime, words: &ArgMatches<'_>) -> Result<Printed, Failure>
    ensures { AnswersCopy (rows_in words.now) result }
{
    let db = required(words, "DB")?;
    let file = required(words, "FILE")?;
    copy_database(rt, db, file)
}

/// Copies a database into a new file.
fn copy_database(rt: &HostRuntime, db: &str, file: &str) -> Result<Printed, Failure>
    ensures { CopiesDatabase db.now result }
{
    match open_copy(rt, db) {
        Ok(conn) => copy_connection(rt, db, file, conn),
        Err(error) => unopened(rt, db, error),
    }
}

/// Writes a copy of a database into a new file, if it is one of this project.
fn copy_connection(rt: &HostRuntime, db: &str, file: &str, conn: Copied) -> Result<Printed, Failure>
    ensures { CopiesDatabase db.now result }
{
    match checked_copy(rt, db, conn) {
        Ok(bytes) => write_copy(rt, file, bytes.as_slice()),
        Err(answer) => answer,
    }
}

/// Writes the bytes of a copy into a new file, and tells it.
fn write_copy(rt: &HostRuntime, file: &str, bytes: &[u8]) -> Result<Printed, Failure>
    ensures { TellsCopied result }
{
    // It takes memory, so it comes before the file.
    match tell_copied(rt.alloc()) {
        Ok(told) => make_told(rt, file, bytes, told),
        Err(_) => Err(Failure::Memory),
    }
}

/// Tells that a copy is made.
fn tell_copied(alloc: Global) -> Result<Printed, AllocError>
    ensures { IfOk result (Prints 0 copied_line) }
{
    let text = String::from_str(alloc, "copied\n")?;
    Ok(Printed {
        status: 0,
        text,
        note: String::new(alloc),
    })
}

/// Writes the bytes of a copy into a new file. If it is made, this is printed.
fn make_told(rt: &HostRuntime, file: &str, bytes: &[u8], told: Printed) -> Result<Printed, Failure>
    requires { Prints 0 copied_line told }
    ensures { TellsCopied result }
{
    match make_file(rt, file, bytes) {
        Ok(None) => Ok(told),
        Ok(Some(taken)) => refuse_taken(rt.alloc(), file, taken),
        Err(error) => not_writable(rt.alloc(), file, &error),
    }
}

/// Prints what stands in the way of the file of a copy.
fn refuse_taken(alloc: Global, file: &str, taken: Taken) -> Result<Printed, Failure>
    ensures { IsRefused refused.Store result }
{
    let note = format!(in alloc; "exportdesk: FILE {file:?}: {taken}\n")?;
    refused(alloc, Refused::Store, note)
}

/// Prints that the system does not make the file of a copy.
fn not_writable(alloc: Global, file: &str, error: &io::Error) -> Result<Printed, Failure>
    ensures { IsRefused refused.Store result }
{
    if error.kind() == io::ErrorKind::OutOfMemory {
        return Err(Failure::Memory);
    }
    let note = format!(in alloc; "exportdesk: FILE {file:?}: it cannot be written: {error}\n")?;
    refused(alloc, Refused::Store, note)
}
