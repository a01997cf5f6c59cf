//! Questions on a desk, which is open on the database.

use crate::databases::Database;
use crate::edits::{
    add_head, edit_of, in_force, keep_head, say_answer, say_approver, say_newest, say_profile,
    say_proposal,
};
use crate::stores::Fresh;
use crate::subject::Subject;
use crate::views::ByKeys;
use desk_cases_texts::answers::{Asked, number, say, split};
use desk_policy::PolicyView;
use desk_store::{CreateError, Desk, DeskError, Done, Revision, Signature, StoreFault, Task};
use desk_text::Text;
use sqlite::Alter;
use std::alloc::{AllocError, Global};

/// The files of each site, but for the exports files.
const SEVEN: [&str; 7] = [
    "custodians",
    "filesystems",
    "hosts",
    "networks",
    "passwd",
    "group",
    "netgroup",
];

/// Answers a question on a desk.
pub fn answer<S: Fresh, V: ByKeys>(
    alloc: Global,
    subject: &mut Subject<S, V>,
    out: &mut String,
    question: &str,
    text: &str,
) -> Asked {
    match question {
        "create" => create(alloc, &mut subject.database, out, &subject.site.texts),
        "open" => open(alloc, &mut subject.database, out),
        "close" => close(&mut subject.database, out),
        "keys_in_force" => keys_in_force(alloc, subject, out),
        _ => match &mut subject.database.desk {
            Some(desk) => of_desk(alloc, desk, out, question, text),
            None => Ok(false),
        },
    }
}

/// Answers a question on a desk that is open.
fn of_desk<S: Alter + Drop, V: PolicyView + Drop>(
    alloc: Global,
    desk: &mut Desk<S, V>,
    out: &mut String,
    question: &str,
    text: &str,
) -> Asked {
    match question {
        "edit" => edit(alloc, desk, out, text),
        "heads" => heads(alloc, desk, out),
        "newest" => say_newest(out, desk.newest(text)),
        "approver" => say_approver(out, desk.newest(text)),
        "profile_of" => say_profile(out, desk.newest(text)),
        "proposal" => say_proposal(out, desk.proposal(text)),
        "signatures" => signatures(alloc, desk, out, text),
        "revisions" => revisions(alloc, desk, out, text),
        "revision" => revision(alloc, desk, out, text),
        "signed" => signed(alloc, desk, out, text),
        "in_force" => in_force(alloc, desk.view(), out, text),
        _ => Ok(false),
    }
}

/// `create`: `made`, or the refusal. Makes the tables of a desk in the database, with the texts of the site, and opens the
/// desk.
fn create<S: Alter + Drop, V: PolicyView + Drop>(
    alloc: Global,
    database: &mut Database<S, V>,
    out: &mut String,
    texts: &desk_policy::Site,
) -> Asked {
    let Some(conn) = database.conn.take() else {
        return Ok(false);
    };
    if !conn.is_autocommit() {
        database.conn = Some(conn);
        return Ok(false);
    }
    match Desk::create(alloc, conn, texts) {
        Ok(desk) => keep_desk(database, desk, out, "made"),
        Err((error, conn)) => {
            database.conn = Some(conn);
            say_not_made(out, error)
        }
    }
}

/// `open`: `opened`, or the refusal.
fn open<S: Alter + Drop, V: PolicyView + Drop>(
    alloc: Global,
    database: &mut Database<S, V>,
    out: &mut String,
) -> Asked {
    let Some(conn) = database.conn.take() else {
        return Ok(false);
    };
    if !conn.is_autocommit() {
        database.conn = Some(conn);
        return Ok(false);
    }
    match Desk::open(alloc, conn) {
        Ok(desk) => keep_desk(database, desk, out, "opened"),
        Err((error, conn)) => {
            database.conn = Some(conn);
            say_refused(out, error)
        }
    }
}

fn keep_desk<S: Alter + Drop, V: PolicyView + Drop>(
    database: &mut Database<S, V>,
    desk: Desk<S, V>,
    out: &mut String,
    said: &str,
) -> Asked {
    database.desk = Some(desk);
    say(out, said)
}

/// `close`: `closed`. The connection can then be asked, and another desk opened on it.
fn close<S: Alter + Drop, V: PolicyView + Drop>(
    database: &mut Database<S, V>,
    out: &mut String,
) -> Asked {
    let Some(desk) = database.desk.take() else {
        return Ok(false);
    };
    database.conn = Some(desk.into_connection());
    say(out, "closed")
}

/// `edit FILE BASE CALLER KEY TEXT`: `stored 2`, and the edit is in force; `proposed 2`; `already 2`, or `already proposed 2`;
/// or the refusal.
fn edit<S: Alter + Drop, V: PolicyView + Drop>(
    alloc: Global,
    desk: &mut Desk<S, V>,
    out: &mut String,
    text: &str,
) -> Asked {
    let Some(edit) = edit_of(text) else {
        return Ok(false);
    };
    match desk.edit(alloc, &edit) {
        Ok(done) => say_done(out, done),
        Err(error) => say_refused(out, error),
    }
}

fn say_done(out: &mut String, done: Done) -> Asked {
    say_answer(out, done.rev, done.already, done.proposed)
}

/// `heads`: the newest revision of each file, its file, its number and its author, with `; ` between them: those of the seven
/// files, and those of the exports files of the file systems that are listed, by mount point.
fn heads<S: Alter + Drop, V: PolicyView + Drop>(
    alloc: Global,
    desk: &Desk<S, V>,
    out: &mut String,
) -> Asked {
    for file in SEVEN {
        add_newest(desk, out, file)?;
    }
    exports_heads(alloc, desk, out)
}

fn exports_heads<S: Alter + Drop, V: PolicyView + Drop>(
    alloc: Global,
    desk: &Desk<S, V>,
    out: &mut String,
) -> Asked {
    for mount in desk.view().policy().filesystems().as_slice() {
        let mount = mount.path.text();
        let file = format!(in alloc; "exports:{mount}")?;
        add_newest(desk, out, file.as_str())?;
    }
    Ok(true)
}

fn add_newest<S: Alter + Drop, V: PolicyView + Drop>(
    desk: &Desk<S, V>,
    out: &mut String,
    file: &str,
) -> Result<(), AllocError> {
    let Some(head) = desk.newest(file) else {
        return Ok(());
    };
    if !out.is_empty() {
        out.push_str("; ")?;
    }
    add_head(out, head)
}

/// `keys_in_force`: what `keys` answers, of the view of the desk and its newest texts.
fn keys_in_force<S: Fresh, V: ByKeys>(
    alloc: Global,
    subject: &mut Subject<S, V>,
    out: &mut String,
) -> Asked {
    let Some(desk) = &subject.database.desk else {
        return Ok(false);
    };
    let mut texts = desk_policy::Site::new(alloc);
    let asked = match keep_all(alloc, desk, &mut texts) {
        Ok(()) => desk
            .view()
            .compare_keys(alloc, &mut subject.keys, &texts, out),
        Err(error) => Err(error),
    };
    drop(texts);
    asked
}

/// Sets the newest text of each of the seven files, and of each exports file of the file systems that are listed.
fn keep_all<S: Alter + Drop, V: PolicyView + Drop>(
    alloc: Global,
    desk: &Desk<S, V>,
    texts: &mut desk_policy::Site,
) -> Result<(), AllocError> {
    for file in SEVEN {
        keep_newest(alloc, desk, texts, file)?;
    }
    for mount in desk.view().policy().filesystems().as_slice() {
        let mount = mount.path.text();
        let file = format!(in alloc; "exports:{mount}")?;
        keep_newest(alloc, desk, texts, file.as_str())?;
    }
    Ok(())
}

fn keep_newest<S: Alter + Drop, V: PolicyView + Drop>(
    alloc: Global,
    desk: &Desk<S, V>,
    texts: &mut desk_policy::Site,
    file: &str,
) -> Result<(), AllocError> {
    match desk.newest(file) {
        Some(head) => keep_head(alloc, texts, head),
        None => Ok(()),
    }
}

/// `revisions FILE`: the number and the author of each, with `; ` between them, or `none`.
fn revisions<S: Alter + Drop, V: PolicyView + Drop>(
    alloc: Global,
    desk: &mut Desk<S, V>,
    out: &mut String,
    file: &str,
) -> Asked {
    match desk.revisions(alloc, file) {
        Ok(revisions) => say_revisions(out, revisions.as_slice()),
        Err(error) => say_refused(out, error),
    }
}

fn say_revisions(out: &mut String, revisions: &[(u32, Text)]) -> Asked {
    for (place, revision) in revisions.iter().enumerate() {
        if place > 0 {
            out.push_str("; ")?;
        }
        let (number, author) = (revision.0, revision.1.as_str());
        write!(out, "{number} {author}")?;
    }
    Ok(true)
}

/// `signatures FILE`: the number and the author of each revision, ` approved by ` and its approver if it has one, and ` profile `
/// and the number of its profile, with `; ` between them, or `none`.
fn signatures<S: Alter + Drop, V: PolicyView + Drop>(
    alloc: Global,
    desk: &mut Desk<S, V>,
    out: &mut String,
    file: &str,
) -> Asked {
    match desk.signatures(alloc, file) {
        Ok(signatures) => say_signatures(out, signatures.as_slice()),
        Err(error) => say_refused(out, error),
    }
}

fn say_signatures(out: &mut String, signatures: &[Signature]) -> Asked {
    for (place, signature) in signatures.iter().enumerate() {
        if place > 0 {
            out.push_str("; ")?;
        }
        add_signature(out, signature)?;
    }
    Ok(true)
}

fn add_signature(out: &mut String, signature: &Signature) -> Result<(), AllocError> {
    let (number, author) = (signature.rev, signature.author.as_str());
    write!(out, "{number} {author}")?;
    add_approver(out, &signature.approver)?;
    let profile = signature.profile.number();
    write!(out, " profile {profile}")
}

fn add_approver(out: &mut String, approver: &Option<Text>) -> Result<(), AllocError> {
    match approver {
        Some(approver) => {
            let approver = approver.as_str();
            write!(out, " approved by {approver}")
        }
        None => Ok(()),
    }
}

/// `revision FILE REV`: its author and its text, or `none`.
fn revision<S: Alter + Drop, V: PolicyView + Drop>(
    alloc: Global,
    desk: &mut Desk<S, V>,
    out: &mut String,
    text: &str,
) -> Asked {
    let (file, rev) = split(text);
    let Some(rev) = number(rev) else {
        return Ok(false);
    };
    match desk.revision(alloc, file, rev) {
        Ok(found) => say_revision(out, &found),
        Err(error) => say_refused(out, error),
    }
}

fn say_revision(out: &mut String, found: &Option<Revision>) -> Asked {
    if let Some(revision) = found {
        let (author, body) = (revision.author.as_str(), revision.body.as_str());
        write!(out, "{author} {body}")?;
    }
    Ok(true)
}

/// `signed FILE REV`: the author of a revision, ` approved by ` and its approver if it has one, and ` profile ` and the number of
/// its profile, or `none`.
fn signed<S: Alter + Drop, V: PolicyView + Drop>(
    alloc: Global,
    desk: &mut Desk<S, V>,
    out: &mut String,
    text: &str,
) -> Asked {
    let (file, rev) = split(text);
    let Some(rev) = number(rev) else {
        return Ok(false);
    };
    match desk.revision(alloc, file, rev) {
        Ok(found) => say_signed(out, &found),
        Err(error) => say_refused(out, error),
    }
}

fn say_signed(out: &mut String, found: &Option<Revision>) -> Asked {
    if let Some(revision) = found {
        out.push_str(revision.author.as_str())?;
        add_approver(out, &revision.approver)?;
        let profile = revision.profile.number();
        write!(out, " profile {profile}")?;
    }
    Ok(true)
}

/// Answers why no database was made, as it is printed; behind `refused 201 Store` stands which statement was refused, and what
/// SQLite said.
fn say_not_made(out: &mut String, error: CreateError) -> Asked {
    match error {
        CreateError::Store(fault) => say_store(out, fault),
        CreateError::Schema => say(out, "refused 202 Schema"),
        CreateError::Memory => Err(AllocError),
        CreateError::Fault(fault) => {
            write!(out, "{fault}")?;
            Ok(true)
        }
        CreateError::TooLarge(file) => {
            let file = file.as_str();
            write!(out, "refused 5 TooLarge {file}")?;
            Ok(true)
        }
    }
}

/// Answers why an edit or a look is not answered, in the same way.
fn say_refused(out: &mut String, error: DeskError) -> Asked {
    match error {
        DeskError::Store(fault) => say_store(out, fault),
        DeskError::Schema => say(out, "refused 202 Schema"),
        DeskError::Memory => Err(AllocError),
        DeskError::Refused(refusal) => {
            write!(out, "{refusal}")?;
            Ok(true)
        }
    }
}

fn say_store(out: &mut String, fault: StoreFault) -> Asked {
    let (task, error) = (task_name(fault.task), fault.error);
    write!(out, "refused 201 Store {task}: {error}")?;
    Ok(true)
}

fn task_name(task: Task) -> &'static str {
    match task {
        Task::AddEntry => "AddEntry",
        Task::ReadRevisions => "ReadRevisions",
        Task::FindTables => "FindTables",
        Task::ReadVersion => "ReadVersion",
        Task::MakeTables => "MakeTables",
        Task::Migrate => "Migrate",
    }
}
