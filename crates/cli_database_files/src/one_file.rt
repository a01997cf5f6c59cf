//! A copy of a database as one file, which needs no log beside it.

ghost use Rattle.std.specs.Prelude.{◌≡◌, ℕ, false, IfErr, IfOk, List};
ghost use Rattle.sqlite_trees.specs.Tree.{Trees};
ghost use Rattle.sqlite.specs.Files.{file_state};
ghost use Rattle.cli_database_files.specs.CopiedFile.{copied_bytes};
ghost use Rattle.cli_database_files.specs.Copy.{IsUnopened};
ghost use Rattle.cli_database_files.specs.OneFile.{HoldsAlone};

use crate::copied_file::CopiedFile;
use crate::copy::{Copied, Unopened};
use sqlite::{Connection, Options};
use sqlite_disk::Files;
use std::alloc::{AllocError, Global};

/// Takes the log of a copy into its database file, which is given back.
pub fn take_log_in(conn: Copied) -> Result<CopiedFile, Unopened>
    ensures alone { IfOk result (λ file. HoldsAlone (copied_bytes file) (file_state conn).committed.trees) }
    ensures unopened { (path : List ℕ) → IfErr result (IsUnopened path) }
{
    match conn.close_files() {
        Ok(files) => Ok(files.db),
        Err((error, store)) => {
            drop(store);
            Err(Unopened::of_copy(error))
        }
    }
}

/// Copies the bytes of a file in memory.
pub fn bytes_of(alloc: Global, file: &CopiedFile) -> Result<Vec<u8>, AllocError>
    ensures { IfOk result (λ bytes. bytes.items ≡ copied_bytes file.now) }
{
    let mut bytes = Vec::new(alloc);
    bytes.extend_from_slice(file.bytes())?;
    Ok(bytes)
}

/// Opens a connection to a database file with no log beside it.
pub fn open_alone(alloc: Global, file: CopiedFile) -> Result<Copied, Unopened>
    ensures settled { IfOk result (λ conn. (file_state conn).in_transaction ≡ false) }
    ensures found { IfOk result (λ conn. (trees : Trees) → HoldsAlone (copied_bytes file) trees → (file_state conn).committed.trees ≡ trees) }
    ensures unopened { (path : List ℕ) → IfErr result (IsUnopened path) }
{
    let files = Files {
        log: CopiedFile::new(alloc),
        db: file,
    };
    // The seed is for a log that nobody reads again.
    match Connection::open_files(alloc, files, Options::new(0)) {
        Ok(conn) => Ok(conn),
        Err((error, left)) => {
            drop(left);
            Err(Unopened::of_copy(error))
        }
    }
}
