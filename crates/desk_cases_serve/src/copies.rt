//! A copy of a database that is written meanwhile: an edit comes before the copy or after one of its readings.

use cli_database_files::copy::{Copied, open_copied};
use cli_database_files::copying::Copying;
use sqlite::{Connection, Error, FileFrom, FileStore, Wary, params};
use std::{fs, io};

/// Who writes.
type Writer = Connection<FileStore<FileFrom<Wary>>>;

const FOLDER: &str = "copies";

const PATH: &str = "copies/a.db";

const LOG: &str = "copies/a.db-wal";

/// Before a copy, and after each of its four readings.
const PLACES: u32 = 5;

/// How many rows a large edit adds. Each takes four pages or more, so that the log is emptied before the next edit.
const MANY: i64 = 300;

/// Has an edit come at each place of a copy, and a large one with another behind it. Returns what is wrong.
pub fn try_copies(rt: &HostRuntime) -> io::Result<String> {
    let mut wrong = String::new(rt.alloc());
    for place in 0..PLACES {
        // What is stored before the log is read is seen.
        let wanted = if place < 3 { 2 } else { 1 };
        try_copy(rt, place, false, Some(wanted), &mut wrong)?;
        // A log that was emptied since the copy began is not taken.
        let wanted = if place == 0 { Some(MANY + 2) } else { None };
        try_copy(rt, place, true, wanted, &mut wrong)?;
    }
    Ok(wrong)
}

/// Has an edit come at a place of a copy of a new database, and compares how many rows the copy has. Adds what is wrong.
fn try_copy(
    rt: &HostRuntime,
    place: u32,
    is_large: bool,
    wanted: Option<i64>,
    wrong: &mut String,
) -> io::Result<()> {
    let mut conn = fresh(rt)?;
    let found = copy_beside(rt, &mut conn, place, is_large)?;
    if found != wanted {
        write!(wrong, "place {place}, {is_large}: {found:?}\n")?;
    }
    Ok(())
}

/// Makes a new database with a row.
fn fresh(rt: &HostRuntime) -> io::Result<Writer> {
    let _ = fs::remove_dir_all(rt, FOLDER);
    fs::create_dir(rt, FOLDER)?;
    let Ok(mut conn) = Connection::open_from(rt, PATH, false, Wary) else {
        return Err(io::Error::other("a database is not made"));
    };
    match conn.execute_batch("CREATE TABLE t (n INTEGER PRIMARY KEY, x BLOB NOT NULL) STRICT") {
        Ok(()) => add(rt, &mut conn, 1)?,
        Err(_) => return Err(io::Error::other("a table is not made")),
    }
    Ok(conn)
}

/// Adds rows, in one commit.
fn add(rt: &HostRuntime, conn: &mut Writer, count: i64) -> io::Result<()> {
    let blob = vec![in rt.alloc(); 7u8; 16000]?;
    match add_rows(conn, blob.as_slice(), count) {
        Ok(()) => Ok(()),
        Err(_) => Err(io::Error::other("rows are not stored")),
    }
}

fn add_rows(conn: &mut Writer, blob: &[u8], count: i64) -> Result<(), Error> {
    conn.execute_batch("BEGIN")?;
    for _ in 0..count {
        conn.execute("INSERT INTO t (x) VALUES (?1)", params![blob])?;
    }
    conn.execute_batch("COMMIT")
}

/// Writes if this is the place for it.
fn write_at(
    rt: &HostRuntime,
    conn: &mut Writer,
    place: u32,
    here: u32,
    is_large: bool,
) -> io::Result<()> {
    if place != here {
        return Ok(());
    }
    if is_large {
        add(rt, conn, MANY)?;
    }
    add(rt, conn, 1)
}

/// Copies a database, and has it written at a place. Returns how many rows the copy has, if there is one.
fn copy_beside(
    rt: &HostRuntime,
    conn: &mut Writer,
    place: u32,
    is_large: bool,
) -> io::Result<Option<i64>> {
    let db = fs::open(rt, PATH)?;
    write_at(rt, conn, place, 0, is_large)?;
    let mut copying = Copying::begin(rt.alloc(), Some(fs::open(rt, LOG)?))?;
    write_at(rt, conn, place, 1, is_large)?;
    copying.read_db(&db)?;
    write_at(rt, conn, place, 2, is_large)?;
    copying.read_log()?;
    write_at(rt, conn, place, 3, is_large)?;
    copying.read_log_again()?;
    write_at(rt, conn, place, 4, is_large)?;
    let Some(files) = copying.end(rt, &db, PATH, LOG)? else {
        return Ok(None);
    };
    let Ok(mut copied) = open_copied(rt.alloc(), files) else {
        return Err(io::Error::other("a copy is not opened"));
    };
    match rows_of(&mut copied) {
        Ok(count) => Ok(Some(count)),
        Err(_) => Err(io::Error::other("a copy is not read")),
    }
}

fn rows_of(conn: &mut Copied) -> Result<i64, Error> {
    conn.query_row("SELECT count(*) FROM t WHERE length(x) = 16000", &[])?
        .get(0)
}
