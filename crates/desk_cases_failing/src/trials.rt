//! Desks on files that fail: a desk is made or opened, and its files are edited, as a story has it, while a file stops, or has no
//! room, at each of its calls in turn. Whatever is left is opened again.

use crate::desks::{Answers, Found, look, options, run};
use crate::full::Full;
use crate::made::Made;
use crate::sample::site;
use crate::stories::{Start, Story};
use desk_policy::Site;
use sqlite::{Error, ErrorCode, Files, Options};
use sqlite_disk::{Crash, Disk, Fuse, Memory};
use std::alloc::{AllocError, Global};
use std::io;

pub type File = Fuse<Full<Memory>>;

/// How many calls or writes are let pass, at most, before a file fails.
pub const MOST_PASSES: u64 = 1000;

/// How a file fails, once so many calls or writes have passed.
#[derive(Clone, Copy)]
enum Failing {
    Never,
    /// It stops: each call fails.
    Stops,
    /// It is full: each write is refused.
    IsFull,
    /// One write is refused.
    RefusesOne,
}

/// How the two files fail, how many pages the log takes before they are copied into the database file, and the error that
/// is answered first.
#[derive(Clone, Copy)]
pub struct Trial {
    pub name: &'static str,
    log: Failing,
    db: Failing,
    log_pages: usize,
    code: ErrorCode,
}

pub const TRIALS: [Trial; 6] = [
    Trial {
        name: "a log that stops",
        log: Failing::Stops,
        db: Failing::Never,
        log_pages: 1000,
        code: ErrorCode::SystemIoFailure,
    },
    Trial {
        name: "a database file that stops",
        log: Failing::Never,
        db: Failing::Stops,
        log_pages: 1,
        code: ErrorCode::SystemIoFailure,
    },
    Trial {
        name: "a log without room",
        log: Failing::IsFull,
        db: Failing::Never,
        log_pages: 1000,
        code: ErrorCode::DiskFull,
    },
    Trial {
        name: "a database file without room",
        log: Failing::Never,
        db: Failing::IsFull,
        log_pages: 1,
        code: ErrorCode::DiskFull,
    },
    Trial {
        name: "a write of the log that is refused once",
        log: Failing::RefusesOne,
        db: Failing::Never,
        log_pages: 1000,
        code: ErrorCode::DiskFull,
    },
    Trial {
        name: "a write of the database file that is refused once",
        log: Failing::Never,
        db: Failing::RefusesOne,
        log_pages: 1,
        code: ErrorCode::DiskFull,
    },
];

impl Trial {
    /// Returns the options at which its desks are opened.
    pub fn options(&self) -> Options {
        options(self.log_pages)
    }

    /// Tests whether the files fail only once.
    fn refuses_one(&self) -> bool {
        matches!(self.log, Failing::RefusesOne) || matches!(self.db, Failing::RefusesOne)
    }

    /// Tests whether so many steps are answered as done, in turn, if the files fail later and later: with files that fail
    /// once, all from the first on, and else each number of steps, one after another.
    fn wants(&self, counts: &str, steps: usize) -> bool {
        if self.refuses_one() {
            counts.starts_with(digit(steps))
        } else {
            counts.len() == steps.saturating_add(1) && DIGITS.starts_with(counts)
        }
    }
}

/// Makes a file of a file in memory, which fails so.
fn failing_file(inner: Memory, failing: Failing, passes: u64) -> File {
    let (calls, writes, refuses) = match failing {
        Failing::Never => (u64::MAX, u64::MAX, 0),
        Failing::Stops => (passes, u64::MAX, 0),
        Failing::IsFull => (u64::MAX, passes, u64::MAX),
        Failing::RefusesOne => (u64::MAX, passes, 1),
    };
    Fuse::new(Full::new(inner, writes, refuses), calls)
}

/// Makes the two files of a trial, of which so many calls or writes pass.
pub fn failing_files(trial: &Trial, files: Files<Memory>, passes: u64) -> Files<File> {
    Files {
        log: failing_file(files.log, trial.log, passes),
        db: failing_file(files.db, trial.db, passes),
    }
}

/// Tests whether one of the files has stopped, or has refused a write.
pub fn have_failed(files: &mut Files<File>) -> bool {
    has_failed(&mut files.log) || has_failed(&mut files.db)
}

/// Tests whether a file has stopped, or has refused a write.
fn has_failed(file: &mut File) -> bool {
    !file.may_be_used() || file.inner().has_refused() || file.len().is_err()
}

/// What a file holds when the machine goes on: all that was written, or what was synced.
#[derive(Drop)]
struct Left {
    written: Vec<u8>,
    synced: Vec<u8>,
}

impl Left {
    /// Tests whether all that was written was synced.
    fn is_synced(&self) -> bool {
        self.written.as_slice() == self.synced.as_slice()
    }
}

/// Returns what a file holds when the machine goes on.
fn left_of(alloc: Global, mut file: File) -> Result<Left, AllocError> {
    let written = Vec::from_slice(alloc, file.inner().inner().bytes())?;
    file.crash();
    let synced = Vec::from_slice(alloc, file.inner().inner().bytes())?;
    Ok(Left { written, synced })
}

/// Returns files that hold all that was written to these.
pub fn written_files(alloc: Global, files: &Files<File>) -> io::Result<Files<Memory>> {
    Ok(Files {
        log: file_of(alloc, files.log.inner().inner().bytes())?,
        db: file_of(alloc, files.db.inner().inner().bytes())?,
    })
}

/// Makes a file that holds these bytes, all synced.
pub fn file_of(alloc: Global, bytes: &[u8]) -> io::Result<Memory> {
    let mut file = Memory::new(alloc);
    file.write_at(0, bytes)?;
    file.sync()?;
    Ok(file)
}

/// What is tried: a story, with the texts of its site and the files that it begins with.
#[derive(Drop)]
struct Subject<'a> {
    story: &'a Story,
    site: Site,
    made: Made,
}

/// Opens what is left, and looks whether it has the tables and a desk holds the history of the steps that were answered as done,
/// or of one step more; and whether it goes on. Adds what is wrong.
fn check_files(
    alloc: Global,
    subject: &Subject,
    done: usize,
    files: Files<Memory>,
    wrong: &mut String,
) -> Result<(), AllocError> {
    let story = subject.story;
    let found = look(alloc, files, story, &subject.site)?;
    if !holds_steps(alloc, story, &found, done)?
        && !holds_steps(alloc, story, &found, done.saturating_add(1))?
    {
        let (tables, first) = (found.tables.as_str(), found.first.as_str());
        write!(
            wrong,
            "after {done} steps there are {tables}, and a desk holds {first:?}\n"
        )?;
    }
    let last = found.last.as_str();
    if last != story.history_after(alloc, story.edits.len())?.as_str() {
        write!(wrong, "at last a desk holds {last:?}\n")?;
    }
    Ok(())
}

/// Tests whether what is left is what so many steps leave: a desk that is to be made yet holds nothing.
fn holds_steps(
    alloc: Global,
    story: &Story,
    found: &Found,
    steps: usize,
) -> Result<bool, AllocError> {
    if found.tables.as_str() != story.tables_after(steps) {
        return Ok(false);
    }
    if steps == 0 && story.start == Start::Creates {
        return Ok(found.first.is_empty());
    }
    let history = story.history_after(alloc, steps.saturating_sub(1))?;
    Ok(found.first.as_str() == history.as_str())
}

/// Looks at what is left: all that was written; and what was synced, if that is less. Adds what is wrong.
fn check_left(
    alloc: Global,
    subject: &Subject,
    done: usize,
    files: Files<File>,
    wrong: &mut String,
) -> io::Result<()> {
    let Files { log, db } = files;
    let log = left_of(alloc, log)?;
    let db = left_of(alloc, db)?;
    let written = Files {
        log: file_of(alloc, log.written.as_slice())?,
        db: file_of(alloc, db.written.as_slice())?,
    };
    check_files(alloc, subject, done, written, wrong)?;
    if log.is_synced() && db.is_synced() {
        return Ok(());
    }
    let synced = Files {
        log: file_of(alloc, log.synced.as_slice())?,
        db: file_of(alloc, db.synced.as_slice())?,
    };
    check_files(alloc, subject, done, synced, wrong)?;
    Ok(())
}

/// Looks at the answers of a run of so many steps: what is not done was refused, at first for the reason that is wanted; and if
/// the file fails no more, then because SQLite closed the database at the first refusal. Adds what is wrong.
fn check_answers(
    trial: &Trial,
    steps: usize,
    answers: &Answers,
    wrong: &mut String,
) -> Result<(), AllocError> {
    if answers.is_odd {
        wrong.push_str("an answer is neither right nor a refused statement\n")?;
    }
    if let Some(fault) = answers.fault
        && fault != Error::SqliteFailure(trial.code)
    {
        write!(wrong, "a statement is refused at first: {fault}\n")?;
    }
    if answers.done == steps {
        return Ok(());
    }
    let is_closed = answers.last_fault == Some(Error::SqliteFailure(ErrorCode::Closed));
    let fails_on = answers.last_fault == answers.fault && answers.fault.is_some();
    if !is_closed && (!fails_on || trial.refuses_one()) {
        wrong.push_str("a statement is refused at last for another reason\n")?;
    }
    Ok(())
}

/// Runs the steps of a story again and again, with one more call or write before a file fails, until none fails. Returns what is
/// wrong.
pub fn try_all(alloc: Global, trial: &Trial, story: &Story) -> io::Result<String> {
    let mut wrong = String::new(alloc);
    let mut counts = String::new(alloc);
    let subject = subject_of(alloc, story, &mut wrong)?;
    for passes in 0..MOST_PASSES {
        let has_failed = try_once(alloc, trial, passes, &subject, &mut counts, &mut wrong)?;
        if !wrong.is_empty() {
            write!(wrong, "as {passes} calls or writes pass")?;
            return Ok(wrong);
        }
        if !has_failed {
            check_counts(trial, story, counts.as_str(), &mut wrong)?;
            return Ok(wrong);
        }
    }
    wrong.push_str("no run without a failure")?;
    Ok(wrong)
}

/// Makes what is tried. Adds what is wrong.
fn subject_of<'a>(
    alloc: Global,
    story: &'a Story,
    wrong: &mut String,
) -> Result<Subject<'a>, AllocError> {
    let site = site(alloc, story.filesystems)?;
    let made = match story.start {
        Start::Creates => Made::empty(alloc),
        Start::Migrates => Made::of_version_one(alloc, wrong)?,
    };
    Ok(Subject { story, site, made })
}

/// Runs the steps on files of which so many calls or writes pass, and adds how many were answered as done, and what is
/// wrong. Tells whether a file failed.
fn try_once(
    alloc: Global,
    trial: &Trial,
    passes: u64,
    subject: &Subject,
    counts: &mut String,
    wrong: &mut String,
) -> io::Result<bool> {
    let mut answers = Answers::new();
    let story = subject.story;
    let files = failing_files(trial, subject.made.files(alloc)?, passes);
    let mut files = run(
        alloc,
        files,
        trial.options(),
        story,
        &subject.site,
        &mut answers,
    );
    let has_failed = have_failed(&mut files);
    check_answers(trial, story.edits.len().saturating_add(1), &answers, wrong)?;
    if !has_failed && answers.fault.is_some() {
        wrong.push_str("a statement is refused, and no file failed\n")?;
    }
    check_left(alloc, subject, answers.done, files, wrong)?;
    add_count(counts, answers.done)?;
    Ok(has_failed)
}

/// Looks at the numbers of steps that were answered as done, in turn. Adds what is wrong.
fn check_counts(
    trial: &Trial,
    story: &Story,
    counts: &str,
    wrong: &mut String,
) -> Result<(), AllocError> {
    if trial.wants(counts, story.edits.len().saturating_add(1)) {
        return Ok(());
    }
    write!(wrong, "the steps that were done are {counts}")
}

/// The numbers of steps that a story may have, one after another.
const DIGITS: &str = "0123456";

/// Returns a number of steps in one digit.
fn digit(steps: usize) -> &'static str {
    match steps {
        0 => "0",
        1 => "1",
        2 => "2",
        3 => "3",
        4 => "4",
        5 => "5",
        _ => "6",
    }
}

/// Adds a number of steps, unless it is the last one already.
pub fn add_count(counts: &mut String, done: usize) -> Result<(), AllocError> {
    let digit = digit(done);
    if counts.as_str().ends_with(digit) {
        return Ok(());
    }
    counts.push_str(digit)
}
