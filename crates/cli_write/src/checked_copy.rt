//! A copy of a database in one file, which a desk was opened on.

ghost use Rattle.std.specs.Prelude.{◌≡◌, ℕ, false, IfErr, IfOk, List, OnOk};
ghost use Rattle.sqlite_trees.specs.Tree.{Trees};
ghost use Rattle.sqlite.specs.Effect.{Database};
ghost use Rattle.sqlite.specs.Files.{file_state};
ghost use Rattle.desk_store.specs.Open.{IsOurs};
ghost use Rattle.cli_database_files.specs.CopiedFile.{copied_bytes};
ghost use Rattle.cli_database_files.specs.Copy.{IsUnopened};
ghost use Rattle.cli_database_files.specs.OneFile.{HoldsAlone};
ghost use Rattle.cli_desk.specs.Desks.{HasNoCopiedDesk};
ghost use Rattle.cli_write.specs.CheckedCopy.{IsCheckedCopy, IsOursIn};

use cli_database_files::copied_file::CopiedFile;
use cli_database_files::copy::{Copied, Unopened};
use cli_database_files::one_file::{bytes_of, open_alone, take_log_in};
use cli_desk::desks::desk_on_copy;
use cli_desk::refusal_notes::not_opened_at;
use cli_output::failure::Failure;
use cli_output::printed::Printed;
use std::alloc::Global;

/// Makes one file of a copy, and gives its bytes, if a desk opens on them; or prints why there is none. A database of version 1 stays one.
pub(crate) fn checked_copy(
    rt: &HostRuntime,
    db: &str,
    conn: Copied,
) -> Result<Vec<u8>, Result<Printed, Failure>>
    ensures copy { IfOk result (λ bytes. IsCheckedCopy (file_state conn).committed.trees bytes.items) }
    ensures refused { IfErr result (HasNoCopiedDesk db.now) }
{
    match take_log_in(conn) {
        Ok(file) => checked_bytes(rt, db, file),
        Err(error) => Err(unopened(rt, db, error)),
    }
}

/// Gives the bytes of a database file, if a desk opens on it with no log beside it; or prints why there is none.
fn checked_bytes(
    rt: &HostRuntime,
    db: &str,
    file: CopiedFile,
) -> Result<Vec<u8>, Result<Printed, Failure>>
    ensures copy { IfOk result (λ bytes. (trees : Trees) → HoldsAlone (copied_bytes file) trees → IsCheckedCopy trees bytes.items) }
    ensures refused { IfErr result (HasNoCopiedDesk db.now) }
{
    match bytes_of(rt.alloc(), &file) {
        Ok(bytes) => if_checked(rt, db, file, bytes),
        Err(_) => Err(Err(Failure::Memory)),
    }
}

/// Gives these bytes of a database file, if a desk opens on it with no log beside it; or prints why there is none.
fn if_checked(
    rt: &HostRuntime,
    db: &str,
    file: CopiedFile,
    bytes: Vec<u8>,
) -> Result<Vec<u8>, Result<Printed, Failure>>
    requires { bytes.items ≡ copied_bytes file }
    ensures copy { IfOk result (λ given. (trees : Trees) → HoldsAlone (copied_bytes file) trees → IsCheckedCopy trees given.items) }
    ensures refused { IfErr result (HasNoCopiedDesk db.now) }
{
    match check_file(rt, db, file) {
        Ok(()) => Ok(bytes),
        Err(answer) => Err(answer),
    }
}

/// Opens a desk on a database file with no log beside it; or prints why there is none.
fn check_file(rt: &HostRuntime, db: &str, file: CopiedFile) -> Result<(), Result<Printed, Failure>>
    ensures ours { OnOk result ((trees : Trees) → HoldsAlone (copied_bytes file) trees → IsOursIn trees) }
    ensures refused { IfErr result (HasNoCopiedDesk db.now) }
{
    match open_alone(rt.alloc(), file) {
        Ok(conn) => check_connection(rt.alloc(), db, conn),
        Err(error) => Err(unopened(rt, db, error)),
    }
}

/// Opens a desk on the database of a connection to a copy; or prints why there is none.
fn check_connection(alloc: Global, db: &str, conn: Copied) -> Result<(), Result<Printed, Failure>>
    requires { (file_state conn).in_transaction ≡ false }
    ensures ours { OnOk result (IsOurs (file_state conn).committed) }
    ensures refused { IfErr result (HasNoCopiedDesk db.now) }
{
    match desk_on_copy(alloc, db, conn) {
        Ok(desk) => {
            drop(desk);
            Ok(())
        }
        Err(answer) => Err(answer),
    }
}

/// Prints why a database is not opened.
pub(crate) fn unopened(rt: &HostRuntime, db: &str, error: Unopened) -> Result<Printed, Failure>
    requires { IsUnopened db.now error }
    ensures { HasNoCopiedDesk db.now result }
{
    match error {
        Unopened::Unread(failure) => Err(failure),
        Unopened::Refused(error) => not_opened_at(rt, db, error),
    }
}
