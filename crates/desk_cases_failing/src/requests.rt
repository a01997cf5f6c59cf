//! Requests over HTTP to a desk whose files fail, from some call on or once: what takes a statement is answered or refused, all else
//! is answered, and the connection goes on. Then what is left is opened again, and the same requests get their usual replies.

ghost use Rattle.std.specs.Prelude.{◌≡◌, false};

use crate::connections::check_served;
use crate::desks::{Answers, files_of, opened, options, tell};
use crate::made::Made;
use crate::stories::PLAIN;
use crate::trials::{File, MOST_PASSES, Trial, failing_files, have_failed, written_files};
use desk_http::serve;
use desk_http_messages::{Bytes, End, Served};
use desk_index::Index;
use desk_policy::PolicyView;
use desk_store::Desk;
use sqlite::{Alter, Connection, FileStore, Files};
use sqlite_disk::Memory;
use std::alloc::{AllocError, Global};
use std::io;

/// Three requests that take a statement: an edit, and questions on a first revision and on all revisions; and two that take none: a
/// question on the policy, and one on a newest text.
const REQUESTS: &[u8] =
    b"PUT /v1/file?name=hosts&base=1 HTTP/1.1\r\nX-Custodian: site\r\nX-Key: abc\r\nContent-Length: 20\r\n\r\n\
    127.0.0.1 localhost\n\
    GET /v1/file?name=hosts&rev=1 HTTP/1.1\r\n\r\n\
    GET /v1/revisions?name=hosts HTTP/1.1\r\n\r\n\
    GET /v1/mount?host=192.0.2.1&dir=/usr/local HTTP/1.1\r\n\r\n\
    GET /v1/file?name=hosts HTTP/1.1\r\n\r\n";

/// The reply to the edit if it is stored, and if it was stored before.
const STORED: &[u8] =
    b"HTTP/1.1 200 OK\r\ncontent-type: application/json\r\ncontent-length: 25\r\n\r\n\
    {\"already\":false,\"rev\":2}";

const STORED_BEFORE: &[u8] =
    b"HTTP/1.1 200 OK\r\ncontent-type: application/json\r\ncontent-length: 24\r\n\r\n\
    {\"already\":true,\"rev\":2}";

/// The replies to the other requests; to the last one before the edit is stored, and afterwards.
const FIRST: &[u8] =
    b"HTTP/1.1 200 OK\r\ncontent-type: application/json\r\ncontent-length: 128\r\n\r\n\
    {\"author\":\"site\",\"body\":\"131.104.48.17 grumpy.example grumpy\\n131.104.48.20 sneezy\\n131.104.48.21 doc\\n\",\
    \"name\":\"hosts\",\"rev\":1}";

const ONE_REVISION: &[u8] =
    b"HTTP/1.1 200 OK\r\ncontent-type: application/json\r\ncontent-length: 56\r\n\r\n\
    {\"name\":\"hosts\",\"revisions\":[{\"author\":\"site\",\"rev\":1}]}";

const TWO_REVISIONS: &[u8] =
    b"HTTP/1.1 200 OK\r\ncontent-type: application/json\r\ncontent-length: 82\r\n\r\n\
    {\"name\":\"hosts\",\"revisions\":[{\"author\":\"site\",\"rev\":1},{\"author\":\"site\",\"rev\":2}]}";

const MOUNT: &[u8] =
    b"HTTP/1.1 200 OK\r\ncontent-type: application/json\r\ncontent-length: 52\r\n\r\n\
    {\"fs\":\"/usr\",\"line\":3,\"reason\":3,\"verdict\":\"denied\"}";

const EDITED: &[u8] =
    b"HTTP/1.1 200 OK\r\ncontent-type: application/json\r\ncontent-length: 71\r\n\r\n\
    {\"author\":\"site\",\"body\":\"127.0.0.1 localhost\\n\",\"name\":\"hosts\",\"rev\":2}";

/// The reply to a request whose statement is refused.
const REFUSED: &[u8] =
    b"HTTP/1.1 503 Service Unavailable\r\ncontent-type: application/json\r\ncontent-length: 30\r\n\r\n\
    {\"error\":\"Store\",\"number\":201}";

/// Serves the requests again and again to a desk as it was made, with one more call or write before a file fails, until none
/// fails. Returns what is wrong.
pub fn try_all(alloc: Global, trial: &Trial) -> io::Result<String> {
    let mut wrong = String::new(alloc);
    let mut edits = String::new(alloc);
    let made = Made::of_site(alloc, &mut wrong)?;
    for passes in 0..MOST_PASSES {
        let has_failed = try_once(alloc, trial, passes, &made, &mut edits, &mut wrong)?;
        if !wrong.is_empty() {
            write!(wrong, "as {passes} calls or writes pass")?;
            return Ok(wrong);
        }
        if !has_failed {
            check_edits(edits.as_str(), &mut wrong)?;
            return Ok(wrong);
        }
    }
    wrong.push_str("no run without a failure")?;
    Ok(wrong)
}

/// Looks at what the edit came to, in turn: in the end it is stored, and before that it was refused. Adds what is wrong.
fn check_edits(edits: &str, wrong: &mut String) -> Result<(), AllocError> {
    if edits.starts_with("refused ") && edits.ends_with("stored ") {
        return Ok(());
    }
    write!(wrong, "the edits are {edits}")
}

/// Serves the requests to a desk on files of which so many calls or writes pass, and adds what the edit came to. If the files fail
/// before the desk is opened, nothing is served. Adds what is wrong. Tells whether a file failed.
fn try_once(
    alloc: Global,
    trial: &Trial,
    passes: u64,
    made: &Made,
    edits: &mut String,
    wrong: &mut String,
) -> io::Result<bool> {
    let mut answers = Answers::new();
    let files = failing_files(trial, made.files(alloc)?, passes);
    let mut answered = None;
    let mut files = match opened(alloc, files, trial.options(), &mut answers) {
        Ok(conn) => files_of(serve_over::<FileStore<File>, Index>(
            alloc,
            conn,
            &mut answered,
            wrong,
        )?),
        Err(files) => files,
    };
    if let Some(is_stored) = answered {
        edits.push_str(if is_stored { "stored " } else { "refused " })?;
        check_again(alloc, written_files(alloc, &files)?, is_stored, wrong)?;
    }
    Ok(have_failed(&mut files))
}

/// Opens a desk, if that is not refused, and serves the requests. Tells whether the edit is answered as stored, and adds what is
/// wrong. Gives the connection back.
fn serve_over<S: Alter + Drop, V: PolicyView + Drop>(
    alloc: Global,
    conn: Connection<S>,
    answered: &mut Option<bool>,
    wrong: &mut String,
) -> Result<Connection<S>, AllocError>
    requires { conn.in_transaction ≡ false }
{
    let opened: Result<Desk<S, V>, _> = Desk::open(alloc, conn);
    match opened {
        Ok(mut desk) => {
            let tried = serve_all(alloc, &mut desk, answered, wrong);
            let conn = desk.into_connection();
            match tried {
                Ok(()) => Ok(conn),
                Err(error) => Err(error),
            }
        }
        Err((_, conn)) => Ok(conn),
    }
}

/// Serves the requests, and tells whether the edit is answered as stored. Adds what is wrong.
fn serve_all<S: Alter + Drop, V: PolicyView + Drop>(
    alloc: Global,
    desk: &mut Desk<S, V>,
    answered: &mut Option<bool>,
    wrong: &mut String,
) -> Result<(), AllocError> {
    let written = served(alloc, desk, wrong)?;
    *answered = answered_in(written.as_slice(), wrong)?;
    Ok(())
}

/// Serves the requests on one connection. Returns what is written, and adds what is wrong: there are to be five replies.
fn served<S: Alter + Drop, V: PolicyView + Drop>(
    alloc: Global,
    desk: &mut Desk<S, V>,
    wrong: &mut String,
) -> Result<Vec<u8>, AllocError> {
    let mut reader = Bytes::new(REQUESTS.to_vec(alloc)?, 65_536, None);
    let mut writer = Bytes::new(Vec::new(alloc), 65_536, None);
    let found = serve(alloc, desk, &mut reader, &mut writer);
    let wanted = Served {
        replies: 5,
        written: writer.as_slice().len() as u128,
        end: End::Input,
    };
    check_served(found, wanted, wrong)?;
    writer.as_slice().to_vec(alloc)
}

/// Tells whether these replies have the edit as stored. If they are other ones than there may be, that is wrong.
fn answered_in(written: &[u8], wrong: &mut String) -> Result<Option<bool>, AllocError> {
    let (edit, rest) = match written.strip_prefix(STORED) {
        Some(rest) => (true, rest),
        None => (false, without(written, &[REFUSED])),
    };
    let newest = if edit { EDITED } else { FIRST };
    let rest = without(rest, &[REFUSED, FIRST]);
    let rest = if edit {
        without(rest, &[REFUSED, TWO_REVISIONS])
    } else {
        without(rest, &[REFUSED, ONE_REVISION, TWO_REVISIONS])
    };
    if without(without(rest, &[MOUNT]), &[newest]).is_empty() {
        return Ok(Some(edit));
    }
    wrong.push_str("other replies are written\n")?;
    Ok(None)
}

/// Returns what follows one of these replies; an answer that no reply is, if none of them is there.
fn without<'a>(written: &'a [u8], replies: &[&[u8]]) -> &'a [u8] {
    for reply in replies {
        if let Some(rest) = written.strip_prefix(*reply) {
            return rest;
        }
    }
    b"?"
}

/// Returns the replies if no statement is refused, that to the edit being this one.
fn replies(alloc: Global, edit: &[u8]) -> Result<Vec<u8>, AllocError> {
    let mut replies = edit.to_vec(alloc)?;
    for reply in [FIRST, TWO_REVISIONS, MOUNT, EDITED] {
        replies.extend_from_slice(reply)?;
    }
    Ok(replies)
}

/// Opens what was left, and serves the requests once more. Adds what is wrong.
fn check_again(
    alloc: Global,
    files: Files<Memory>,
    answered: bool,
    wrong: &mut String,
) -> Result<(), AllocError> {
    let mut answers = Answers::new();
    match opened(alloc, files, options(1000), &mut answers) {
        Ok(conn) => check_reopened::<FileStore<Memory>, Index>(alloc, conn, answered, wrong),
        Err(_) => wrong.push_str("no database is opened again\n"),
    }
}

/// Opens a desk on what was left, and checks it. Adds what is wrong.
fn check_reopened<S: Alter + Drop, V: PolicyView + Drop>(
    alloc: Global,
    conn: Connection<S>,
    answered: bool,
    wrong: &mut String,
) -> Result<(), AllocError>
    requires { conn.in_transaction ≡ false }
{
    let opened: Result<Desk<S, V>, _> = Desk::open(alloc, conn);
    match opened {
        Ok(mut desk) => check_opened(alloc, &mut desk, answered, wrong),
        Err(_) => wrong.push_str("no desk is opened again\n"),
    }
}

/// Looks whether the tables are as before, or have the revision of the edit: if it was answered as stored, they have it. Then serves
/// the requests, none of which is refused. Adds what is wrong.
fn check_opened<S: Alter + Drop, V: PolicyView + Drop>(
    alloc: Global,
    desk: &mut Desk<S, V>,
    answered: bool,
    wrong: &mut String,
) -> Result<(), AllocError> {
    let is_stored = holds(alloc, desk, 2)?;
    if !is_stored && (answered || !holds(alloc, desk, 1)?) {
        wrong.push_str("the tables are other ones\n")?;
    }
    let edit = if is_stored { STORED_BEFORE } else { STORED };
    let written = served(alloc, desk, wrong)?;
    if written.as_slice() != replies(alloc, edit)?.as_slice() {
        wrong.push_str("other replies are written once the files work\n")?;
    }
    if !holds(alloc, desk, 2)? {
        wrong.push_str("the tables are other ones at last\n")?;
    }
    Ok(())
}

/// Tests whether a desk holds the history of so many steps.
fn holds<S: Alter + Drop, V: PolicyView + Drop>(
    alloc: Global,
    desk: &mut Desk<S, V>,
    steps: usize,
) -> Result<bool, AllocError> {
    let mut found = String::new(alloc);
    tell(alloc, desk, &PLAIN, &mut found)?;
    let wanted = PLAIN.history_after(alloc, steps.saturating_sub(1))?;
    Ok(found.as_str() == wanted.as_str())
}
