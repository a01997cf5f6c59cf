//! Files that hold a database already.

ghost use Rattle.std.specs.Prelude.{◌≡◌, false};

use crate::desks::{Answers, files_of, opened, options};
use crate::sample::{EXPORTS, FILESYSTEMS, TABLES, site};
use crate::trials::file_of;
use desk_index::Index;
use desk_policy::PolicyView;
use desk_store::Desk;
use sqlite::{Alter, Connection, Error, FileStore, Files, params};
use sqlite_disk::Memory;
use std::alloc::{AllocError, Global};
use std::io;

/// The tables of version 1.
const VERSION_ONE: &str = "CREATE TABLE meta(version INTEGER NOT NULL) STRICT;\
    CREATE TABLE file_rev(file TEXT NOT NULL, rev INTEGER NOT NULL,\n  author TEXT NOT NULL, profile INTEGER NOT NULL, \
    body BLOB NOT NULL,\n  PRIMARY KEY(file, rev)) STRICT; INSERT INTO meta VALUES(1)";

/// The bytes of the two files of a database.
#[derive(Drop)]
pub struct Made {
    log: Vec<u8>,
    db: Vec<u8>,
}

impl Made {
    /// No bytes.
    pub fn empty(alloc: Global) -> Made {
        Made {
            log: Vec::new(alloc),
            db: Vec::new(alloc),
        }
    }

    /// Makes a desk of the sample site on files of which none fails. Returns what they hold then. If it is refused, that is wrong.
    pub fn of_site(alloc: Global, wrong: &mut String) -> Result<Made, AllocError> {
        let mut answers = Answers::new();
        match opened(alloc, empty_files(alloc), options(1000), &mut answers) {
            Ok(conn) => {
                let conn = created::<FileStore<Memory>, Index>(alloc, conn, wrong)?;
                Made::of_files(alloc, &files_of(conn))
            }
            Err(files) => Made::of_files(alloc, &files),
        }
    }

    /// Makes a database of version 1 of the sample site, in the same way.
    pub fn of_version_one(alloc: Global, wrong: &mut String) -> Result<Made, AllocError> {
        let mut answers = Answers::new();
        match opened(alloc, empty_files(alloc), options(1000), &mut answers) {
            Ok(conn) => {
                let conn = filled(alloc, conn, wrong)?;
                Made::of_files(alloc, &files_of(conn))
            }
            Err(files) => Made::of_files(alloc, &files),
        }
    }

    /// Returns what files hold.
    fn of_files(alloc: Global, files: &Files<Memory>) -> Result<Made, AllocError> {
        Ok(Made {
            log: Vec::from_slice(alloc, files.log.bytes())?,
            db: Vec::from_slice(alloc, files.db.bytes())?,
        })
    }

    /// Makes files that hold these bytes.
    pub fn files(&self, alloc: Global) -> io::Result<Files<Memory>> {
        Ok(Files {
            log: file_of(alloc, self.log.as_slice())?,
            db: file_of(alloc, self.db.as_slice())?,
        })
    }
}

fn empty_files(alloc: Global) -> Files<Memory> {
    Files {
        log: Memory::new(alloc),
        db: Memory::new(alloc),
    }
}

/// Makes a desk of the sample site. If it is refused, that is wrong.
fn created<S: Alter + Drop, V: PolicyView + Drop>(
    alloc: Global,
    conn: Connection<S>,
    wrong: &mut String,
) -> Result<Connection<S>, AllocError>
    requires { conn.in_transaction ≡ false }
{
    let made: Result<Desk<S, V>, _> = Desk::create(alloc, conn, &site(alloc, FILESYSTEMS)?);
    match made {
        Ok(desk) => Ok(desk.into_connection()),
        Err((_, conn)) => {
            wrong.push_str("no desk is made\n")?;
            Ok(conn)
        }
    }
}

/// Makes a database of version 1. If a statement is refused, that is wrong.
fn filled<S: Alter + Drop>(
    alloc: Global,
    mut conn: Connection<S>,
    wrong: &mut String,
) -> Result<Connection<S>, AllocError> {
    if fill(alloc, &mut conn)?.is_err() {
        wrong.push_str("no database of version 1 is made\n")?;
    }
    Ok(conn)
}

/// Makes the tables of version 1, with the files of the sample site. Returns what SQLite refuses.
fn fill<S: Alter + Drop>(
    alloc: Global,
    conn: &mut Connection<S>,
) -> Result<Result<(), Error>, AllocError> {
    if let Err(error) = conn.execute_batch(VERSION_ONE) {
        return Ok(Err(error));
    }
    if let Err(error) = insert(conn, "filesystems", FILESYSTEMS) {
        return Ok(Err(error));
    }
    for (name, text) in TABLES {
        if let Err(error) = insert(conn, name, text) {
            return Ok(Err(error));
        }
    }
    fill_exports(alloc, conn)
}

fn fill_exports<S: Alter + Drop>(
    alloc: Global,
    conn: &mut Connection<S>,
) -> Result<Result<(), Error>, AllocError> {
    for (mount, text) in EXPORTS {
        let name = format!(in alloc; "exports:{mount}")?;
        if let Err(error) = insert(conn, name.as_str(), text) {
            return Ok(Err(error));
        }
    }
    Ok(Ok(()))
}

/// Inserts the first revision of a file, which is read by profile 1.
fn insert<S: Alter + Drop>(conn: &mut Connection<S>, file: &str, text: &str) -> Result<(), Error> {
    let values = params![file, text.as_bytes()];
    conn.execute("INSERT INTO file_rev VALUES(?1, 1, 'site', 1, ?2)", values)?;
    Ok(())
}
