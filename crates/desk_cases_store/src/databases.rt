//! Questions on a database, in plain SQL. They are asked of its connection, so not while a desk is open on it.

use crate::stores::Fresh;
use desk_cases_texts::answers::{Asked, number, say, say_whether, split};
use desk_policy::PolicyView;
use desk_schema::{declares_approval, declares_file_rev, declares_meta, declares_proposal};
use desk_store::Desk;
use sqlite::{Alter, Connection, Error, ErrorCode, Row, params};
use sqlite_value::value::ValueRef;
use std::alloc::{AllocError, Global};
use std::str;

/// A database: the connection to it, or the desk that is open on it.
#[derive(Drop)]
pub struct Database<S: Alter + Drop, V: PolicyView + Drop> {
    pub conn: Option<Connection<S>>,
    pub desk: Option<Desk<S, V>>,
}

impl<S: Alter + Drop, V: PolicyView + Drop> Database<S, V> {
    /// No database.
    pub fn new() -> Database<S, V> {
        Database {
            conn: None,
            desk: None,
        }
    }
}

/// Answers a question on a database.
pub fn answer<S: Fresh, V: PolicyView + Drop>(
    alloc: Global,
    database: &mut Database<S, V>,
    out: &mut String,
    question: &str,
    text: &str,
) -> Asked {
    if question == "database" {
        return new(alloc, database, out);
    }
    match &mut database.conn {
        Some(conn) => of_connection(conn, out, question, text),
        None => Ok(false),
    }
}

/// `database`: `new`. Makes a database without tables, and forgets the one before.
fn new<S: Fresh, V: PolicyView + Drop>(
    alloc: Global,
    database: &mut Database<S, V>,
    out: &mut String,
) -> Asked {
    database.desk = None;
    database.conn = Some(S::open(alloc)?);
    say(out, "new")
}

/// Answers a question on the database of a connection.
fn of_connection<S: Alter + Drop>(
    conn: &mut Connection<S>,
    out: &mut String,
    question: &str,
    text: &str,
) -> Asked {
    match question {
        "sql" => sql(conn, out, text),
        "insert" => insert(conn, out, text),
        "insert_proposal" => insert_proposal(conn, out, text),
        "query" => query(conn, out, text),
        "declares" => declares(conn, out, text),
        "limit" => limit(conn, out, text),
        _ => Ok(false),
    }
}

/// `sql STATEMENTS`: `done`, or what SQLite says of the first that is refused.
fn sql<S: Alter + Drop>(conn: &mut Connection<S>, out: &mut String, text: &str) -> Asked {
    match conn.execute_batch(text) {
        Ok(()) => say(out, "done"),
        Err(error) => say_error(out, error),
    }
}

/// `insert FILE REV AUTHOR PROFILE TEXT`: `done`, or what SQLite says. Adds a row to `file_rev`.
fn insert<S: Alter + Drop>(conn: &mut Connection<S>, out: &mut String, text: &str) -> Asked {
    let (file, rest) = split(text);
    let (rev, rest) = split(rest);
    let (author, rest) = split(rest);
    let (profile, body) = split(rest);
    match (number(rev), number(profile)) {
        (Some(rev), Some(profile)) => insert_row(conn, out, file, rev, author, profile, body),
        _ => Ok(false),
    }
}

fn insert_row<S: Alter + Drop>(
    conn: &mut Connection<S>,
    out: &mut String,
    file: &str,
    rev: u32,
    author: &str,
    profile: u32,
    body: &str,
) -> Asked {
    let values = params![
        file,
        i64::from(rev),
        author,
        i64::from(profile),
        body.as_bytes()
    ];
    match conn.execute("INSERT INTO file_rev VALUES(?1, ?2, ?3, ?4, ?5)", values) {
        Ok(_) => say(out, "done"),
        Err(error) => say_error(out, error),
    }
}

/// `insert_proposal FILE BASE AUTHOR TEXT`: `done`, or what SQLite says. Adds a row to `proposal`.
fn insert_proposal<S: Alter + Drop>(
    conn: &mut Connection<S>,
    out: &mut String,
    text: &str,
) -> Asked {
    let (file, rest) = split(text);
    let (base, rest) = split(rest);
    let (author, body) = split(rest);
    match number(base) {
        Some(base) => insert_proposed(conn, out, file, base, author, body),
        None => Ok(false),
    }
}

fn insert_proposed<S: Alter + Drop>(
    conn: &mut Connection<S>,
    out: &mut String,
    file: &str,
    base: u32,
    author: &str,
    body: &str,
) -> Asked {
    let values = params![file, i64::from(base), author, body.as_bytes()];
    match conn.execute("INSERT INTO proposal VALUES(?1, ?2, ?3, ?4)", values) {
        Ok(_) => say(out, "done"),
        Err(error) => say_error(out, error),
    }
}

/// `query SELECT`: the rows that it gives, with `; ` between them, and blanks between the values of each; a blob is given
/// as a text. Or what SQLite says.
fn query<S: Alter + Drop>(conn: &mut Connection<S>, out: &mut String, text: &str) -> Asked {
    match conn.query_all(text, &[]) {
        Ok(rows) => say_rows(out, rows.as_slice()),
        Err(error) => say_error(out, error),
    }
}

fn say_rows(out: &mut String, rows: &[Row]) -> Asked {
    let mut is_good = true;
    for (place, row) in rows.iter().enumerate() {
        if place > 0 {
            out.push_str("; ")?;
        }
        is_good = is_good && add_row(out, row)?;
    }
    Ok(is_good)
}

/// Adds the values of a row. Tells whether each can be shown.
fn add_row(out: &mut String, row: &Row) -> Asked {
    let mut is_good = true;
    for place in 0..row.column_count() {
        if place > 0 {
            out.push(' ')?;
        }
        is_good = is_good && add_value(out, row, place)?;
    }
    Ok(is_good)
}

fn add_value(out: &mut String, row: &Row, place: usize) -> Asked {
    match row.get_ref(place) {
        Ok(ValueRef::Int(number)) => {
            write!(out, "{number}")?;
            Ok(true)
        }
        Ok(ValueRef::Text(bytes) | ValueRef::Blob(bytes)) => add_bytes(out, bytes),
        _ => Ok(false),
    }
}

fn add_bytes(out: &mut String, bytes: &[u8]) -> Asked {
    match str::from_utf8(bytes) {
        Ok(text) => say(out, text),
        Err(_) => Ok(false),
    }
}

/// `declares TABLE`: whether the schema declares `meta`, `file_rev`, `approval` or `proposal` as that of a desk, `yes` or `no`.
fn declares<S: Alter + Drop>(conn: &Connection<S>, out: &mut String, table: &str) -> Asked {
    match table {
        "meta" => say_whether(out, declares_meta(conn.schema())),
        "file_rev" => say_whether(out, declares_file_rev(conn.schema())),
        "approval" => say_whether(out, declares_approval(conn.schema())),
        "proposal" => say_whether(out, declares_proposal(conn.schema())),
        _ => Ok(false),
    }
}

/// `limit STEPS`: `set`. Each later statement may take so many steps. Without a number it may take any.
fn limit<S: Alter + Drop>(conn: &mut Connection<S>, out: &mut String, text: &str) -> Asked {
    if text.is_empty() {
        conn.set_step_limit(None);
        return say(out, "set");
    }
    match number(text) {
        Some(steps) => {
            conn.set_step_limit(Some(u64::from(steps)));
            say(out, "set")
        }
        None => Ok(false),
    }
}

/// Answers with what SQLite says.
fn say_error(out: &mut String, error: Error) -> Asked {
    match error {
        Error::SqliteFailure(ErrorCode::OutOfMemory) => Err(AllocError),
        _ => {
            write!(out, "{error}")?;
            Ok(true)
        }
    }
}
