//! A desk on files: making it, editing it, and what its tables hold. What opens and closes the files names their store; all else is
//! over any store and any view.

ghost use Rattle.std.specs.Prelude.{◌≡◌, false, IfErr, IfOk};
ghost use Rattle.sqlite.specs.Held.{state};

use crate::sample::names;
use crate::stories::{Start, Story};
use desk_core::{Edit, Head, Proposal};
use desk_index::Index;
use desk_policy::{PolicyView, Site};
use desk_store::{CreateError, Desk, DeskError, Done, Signature};
use desk_text::Text;
use sqlite::{Alter, Connection, Error, FileStore, Files, Options, Row};
use sqlite_disk::Disk;
use sqlite_value::value::ValueRef;
use std::alloc::{AllocError, Global};
use std::str;

/// What a desk answered to the steps of a run.
#[derive(Drop)]
pub struct Answers {
    /// How many steps were answered as done, before one that was not.
    pub done: usize,
    /// What SQLite said as it refused a statement for the first time, and for the last time.
    pub fault: Option<Error>,
    pub last_fault: Option<Error>,
    /// Whether an answer was neither the one that is right nor that of a refused statement.
    pub is_odd: bool,
}

impl Answers {
    pub fn new() -> Answers {
        Answers {
            done: 0,
            fault: None,
            last_fault: None,
            is_odd: false,
        }
    }

    /// Keeps what SQLite said as it refused a statement.
    fn refused(&mut self, error: Error) {
        if self.fault.is_none() {
            self.fault = Some(error);
        }
        self.last_fault = Some(error);
    }
}

/// Makes or opens a desk on the files, as the story has it, and puts its edits. What is refused is tried once more. Gives the
/// files back as they are then.
pub fn run<D: Disk + Drop>(
    alloc: Global,
    files: Files<D>,
    options: Options,
    story: &Story,
    site: &Site,
    answers: &mut Answers,
) -> Files<D> {
    match opened(alloc, files, options, answers) {
        Ok(conn) => files_of(edited::<FileStore<D>, Index>(alloc, conn, story, site, answers)),
        Err(files) => files,
    }
}

/// Returns options with small caches, and with this many pages that the log takes before they are copied into the database
/// file.
pub fn options(log_pages: usize) -> Options {
    Options {
        cache_pages: 50,
        spill_pages: 50,
        checkpoint_frames: log_pages,
        seed: 7,
    }
}

/// Opens files, at the second time if need be.
pub fn opened<D: Disk + Drop>(
    alloc: Global,
    files: Files<D>,
    options: Options,
    answers: &mut Answers,
) -> Result<Connection<FileStore<D>>, Files<D>>
    ensures { IfOk result (λ conn. conn.in_transaction ≡ false) }
{
    match open_once(alloc, files, options, answers) {
        Ok(conn) => Ok(conn),
        Err(files) => open_once(alloc, files, options, answers),
    }
}

/// Opens files, if they may be used. If they are not opened, they are given back.
fn open_once<D: Disk + Drop>(
    alloc: Global,
    files: Files<D>,
    options: Options,
    answers: &mut Answers,
) -> Result<Connection<FileStore<D>>, Files<D>>
    ensures { IfOk result (λ conn. conn.in_transaction ≡ false) }
{
    if !files.may_be_used() {
        return Err(files);
    }
    match Connection::open_files(alloc, files, options) {
        Ok(conn) => Ok(conn),
        Err((error, left)) => {
            answers.refused(error);
            Err(left.into_files())
        }
    }
}

/// Gives the files back, with no more in them.
pub fn files_of<D: Disk + Drop>(conn: Connection<FileStore<D>>) -> Files<D> {
    conn.into_store().close()
}

/// Makes or opens a desk, and puts the edits.
fn edited<S: Alter + Drop, V: PolicyView + Drop>(
    alloc: Global,
    conn: Connection<S>,
    story: &Story,
    site: &Site,
    answers: &mut Answers,
) -> Connection<S>
    requires { conn.in_transaction ≡ false }
{
    let started: Result<Desk<S, V>, _> = started(alloc, conn, story.start, site, answers);
    match started {
        Ok(mut desk) => {
            answers.done = put_all(alloc, &mut desk, story, answers).saturating_add(1);
            desk.into_connection()
        }
        Err(conn) => conn,
    }
}

/// Makes or opens a desk, at the second time if need be.
fn started<S: Alter + Drop, V: PolicyView + Drop>(
    alloc: Global,
    conn: Connection<S>,
    start: Start,
    site: &Site,
    answers: &mut Answers,
) -> Result<Desk<S, V>, Connection<S>>
    requires { conn.in_transaction ≡ false }
{
    match start_once(alloc, conn, start, site, answers) {
        Ok(desk) => Ok(desk),
        Err(conn) => start_once(alloc, conn, start, site, answers),
    }
}

/// Makes or opens a desk. If it is refused, the connection is given back.
fn start_once<S: Alter + Drop, V: PolicyView + Drop>(
    alloc: Global,
    conn: Connection<S>,
    start: Start,
    site: &Site,
    answers: &mut Answers,
) -> Result<Desk<S, V>, Connection<S>>
    requires { conn.in_transaction ≡ false }
    ensures { IfErr result (λ conn. conn.in_transaction ≡ false) }
{
    match start {
        Start::Creates => create_once(alloc, conn, site, answers),
        Start::Migrates => open_desk_once(alloc, conn, answers),
    }
}

/// Opens a desk. If it is refused, the connection is given back.
fn open_desk_once<S: Alter + Drop, V: PolicyView + Drop>(
    alloc: Global,
    conn: Connection<S>,
    answers: &mut Answers,
) -> Result<Desk<S, V>, Connection<S>>
    requires { conn.in_transaction ≡ false }
    ensures { IfErr result (λ conn. conn.in_transaction ≡ false) }
{
    match Desk::open(alloc, conn) {
        Ok(desk) => Ok(desk),
        Err((DeskError::Store(fault), conn)) => {
            answers.refused(fault.error);
            Err(conn)
        }
        Err((_, conn)) => {
            answers.is_odd = true;
            Err(conn)
        }
    }
}

/// Makes a desk. If it is refused, the connection is given back.
fn create_once<S: Alter + Drop, V: PolicyView + Drop>(
    alloc: Global,
    conn: Connection<S>,
    site: &Site,
    answers: &mut Answers,
) -> Result<Desk<S, V>, Connection<S>>
    requires { conn.in_transaction ≡ false }
    ensures { IfErr result (λ conn. conn.in_transaction ≡ false) }
{
    match Desk::create(alloc, conn, site) {
        Ok(desk) => Ok(desk),
        Err((CreateError::Store(fault), conn)) => {
            answers.refused(fault.error);
            Err(conn)
        }
        Err((_, conn)) => {
            answers.is_odd = true;
            Err(conn)
        }
    }
}

/// Puts the edits of a story, each at the second time if need be, until one is refused twice. Returns how many were answered as
/// done.
pub fn put_all<S: Alter + Drop, V: PolicyView + Drop>(
    alloc: Global,
    desk: &mut Desk<S, V>,
    story: &Story,
    answers: &mut Answers,
) -> usize {
    for (place, step) in story.edits.iter().enumerate() {
        if !put(alloc, desk, &step.edit, answers) && !put(alloc, desk, &step.edit, answers) {
            return place;
        }
    }
    story.edits.len()
}

/// Puts an edit, and tells whether it was answered as done. If not, the desk still stands at the revision before it.
fn put<S: Alter + Drop, V: PolicyView + Drop>(
    alloc: Global,
    desk: &mut Desk<S, V>,
    edit: &Edit<'_>,
    answers: &mut Answers,
) -> bool {
    let (is_done, rev) = match desk.edit(alloc, edit) {
        Ok(done) => (true, newest_after(edit, done)),
        Err(DeskError::Store(fault)) => {
            answers.refused(fault.error);
            (false, edit.base)
        }
        Err(_) => {
            answers.is_odd = true;
            (false, edit.base)
        }
    };
    if newest_number(desk, edit.file) != rev {
        answers.is_odd = true;
    }
    is_done
}

/// Returns the number of a file's newest revision after an edit that is answered so: a proposal is no revision.
fn newest_after(edit: &Edit<'_>, done: Done) -> u32 {
    if done.proposed { edit.base } else { done.rev }
}

/// Returns the number of a file's newest revision, by the desk.
fn newest_number<S: Alter + Drop, V: PolicyView + Drop>(desk: &Desk<S, V>, file: &str) -> u32 {
    match desk.newest(file) {
        Some(head) => head.rev,
        None => 0,
    }
}

/// Which tables are in files that were left, and what a desk on them holds: as it is opened, and once it is made, if it was not,
/// and the edits are put.
#[derive(Drop)]
pub struct Found {
    pub tables: String,
    pub first: String,
    pub last: String,
}

/// Opens files that were left, and tells which tables they have and what a desk on them holds, at first and at last.
pub fn look<D: Disk + Drop>(
    alloc: Global,
    files: Files<D>,
    story: &Story,
    site: &Site,
) -> Result<Found, AllocError> {
    let mut found = Found {
        tables: String::new(alloc),
        first: String::new(alloc),
        last: String::new(alloc),
    };
    let mut answers = Answers::new();
    match opened(alloc, files, options(1000), &mut answers) {
        Ok(conn) => go_on::<FileStore<D>, Index>(alloc, conn, story, site, &mut found)?,
        Err(_) => found.tables.push_str("no database")?,
    }
    Ok(found)
}

/// Tells the tables, and what a desk holds; goes on, and tells what it holds then.
fn go_on<S: Alter + Drop, V: PolicyView + Drop>(
    alloc: Global,
    mut conn: Connection<S>,
    story: &Story,
    site: &Site,
    found: &mut Found,
) -> Result<(), AllocError>
    requires { conn.in_transaction ≡ false }
{
    let told = tell_tables(&mut conn, &mut found.tables);
    if told.is_err() || !conn.is_autocommit() {
        drop(conn);
        return told;
    }
    match reopened::<S, V>(alloc, conn, story, site, &mut found.first) {
        Some(desk) => tell_last(alloc, desk, story, &mut found.last),
        None => Ok(()),
    }
}

/// Puts the edits, and tells what the desk holds then.
fn tell_last<S: Alter + Drop, V: PolicyView + Drop>(
    alloc: Global,
    mut desk: Desk<S, V>,
    story: &Story,
    last: &mut String,
) -> Result<(), AllocError> {
    let mut answers = Answers::new();
    put_all(alloc, &mut desk, story, &mut answers);
    tell(alloc, &mut desk, story, last)
}

/// Tells the version of a database and the names of its tables, `version 2 approval file_rev meta proposal`, or `no tables`.
fn tell_tables<S: Alter + Drop>(
    conn: &mut Connection<S>,
    out: &mut String,
) -> Result<(), AllocError> {
    match conn.query_all("SELECT version FROM meta", &[]) {
        Ok(rows) => tell_values(out, "version", rows.as_slice())?,
        Err(_) => return out.push_str("no tables"),
    }
    let names = "SELECT name FROM sqlite_schema WHERE type = 'table' ORDER BY name";
    match conn.query_all(names, &[]) {
        Ok(rows) => tell_values(out, "", rows.as_slice()),
        Err(_) => out.push_str(" of which the names are refused"),
    }
}

/// Tells the first value of each row, behind a blank.
fn tell_values(out: &mut String, said: &str, rows: &[Row]) -> Result<(), AllocError> {
    out.push_str(said)?;
    for row in rows {
        out.push(' ')?;
        match row.get_ref(0) {
            Ok(ValueRef::Int(number)) => write!(out, "{number}")?,
            Ok(ValueRef::Text(bytes)) => add_bytes(out, bytes)?,
            _ => out.push('?')?,
        }
    }
    Ok(())
}

fn add_bytes(out: &mut String, bytes: &[u8]) -> Result<(), AllocError> {
    match str::from_utf8(bytes) {
        Ok(text) => out.push_str(text),
        Err(_) => out.push('?'),
    }
}

/// Opens a desk and tells what it holds; makes it if there are no tables.
fn reopened<S: Alter + Drop, V: PolicyView + Drop>(
    alloc: Global,
    conn: Connection<S>,
    story: &Story,
    site: &Site,
    first: &mut String,
) -> Option<Desk<S, V>>
    requires { conn.in_transaction ≡ false }
{
    match Desk::open(alloc, conn) {
        Ok(mut desk) => {
            let _ = tell(alloc, &mut desk, story, first);
            Some(desk)
        }
        Err((DeskError::Schema, conn)) => {
            let mut answers = Answers::new();
            started(alloc, conn, story.start, site, &mut answers).ok()
        }
        Err(_) => None,
    }
}

/// Tells the revisions of each file of the site: its name, the number, the author, who approved it, the profile, and in the next
/// lines the text; and its proposal. Of a file that the story does not edit only the newest revision is told.
pub fn tell<S: Alter + Drop, V: PolicyView + Drop>(
    alloc: Global,
    desk: &mut Desk<S, V>,
    story: &Story,
    out: &mut String,
) -> Result<(), AllocError> {
    for name in names(alloc)?.as_slice() {
        let name = name.as_str();
        if story.edits_file(name) {
            tell_revisions(alloc, desk, name, out)?;
            tell_proposal(name, desk.proposal(name), out)?;
        } else {
            tell_newest(name, desk.newest(name), out)?;
        }
    }
    Ok(())
}

/// Tells the newest revision of a file.
fn tell_newest(name: &str, head: Option<&Head>, out: &mut String) -> Result<(), AllocError> {
    let Some(head) = head else {
        return out.push_str("no file");
    };
    let (rev, author) = (head.rev, head.author.as_str());
    let (profile, text) = (head.profile.number(), head.body.as_str());
    write!(out, "{name} {rev} {author} profile {profile}\n{text}")
}

/// Tells the proposal of a file, if it has one.
fn tell_proposal(
    name: &str,
    proposal: Option<&Proposal>,
    out: &mut String,
) -> Result<(), AllocError> {
    let Some(proposal) = proposal else {
        return Ok(());
    };
    let (base, author) = (proposal.base, proposal.author.as_str());
    let text = proposal.body.as_str();
    write!(out, "{name} proposed behind {base} by {author}\n{text}")
}

/// Tells all revisions of a file.
fn tell_revisions<S: Alter + Drop, V: PolicyView + Drop>(
    alloc: Global,
    desk: &mut Desk<S, V>,
    name: &str,
    out: &mut String,
) -> Result<(), AllocError> {
    let Ok(signatures) = desk.signatures(alloc, name) else {
        return out.push_str("a list was refused");
    };
    for signature in signatures.as_slice() {
        tell_signature(name, signature, out)?;
        tell_body(alloc, desk, name, signature.rev, out)?;
    }
    Ok(())
}

/// Tells the number of a revision, and who stands behind it.
fn tell_signature(name: &str, signature: &Signature, out: &mut String) -> Result<(), AllocError> {
    let (rev, author) = (signature.rev, signature.author.as_str());
    write!(out, "{name} {rev} {author}")?;
    tell_approver(&signature.approver, out)?;
    let profile = signature.profile.number();
    write!(out, " profile {profile}\n")
}

fn tell_approver(approver: &Option<Text>, out: &mut String) -> Result<(), AllocError> {
    match approver {
        Some(approver) => {
            let approver = approver.as_str();
            write!(out, " approved by {approver}")
        }
        None => Ok(()),
    }
}

/// Tells the text of a revision.
fn tell_body<S: Alter + Drop, V: PolicyView + Drop>(
    alloc: Global,
    desk: &mut Desk<S, V>,
    name: &str,
    rev: u32,
    out: &mut String,
) -> Result<(), AllocError> {
    match desk.revision(alloc, name, rev) {
        Ok(Some(revision)) => out.push_str(revision.body.as_str()),
        Ok(None) => out.push_str("no revision"),
        Err(_) => out.push_str("a look was refused"),
    }
}
