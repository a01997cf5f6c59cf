//! Trying cases.

use crate::cases::Case;
use crate::desks::{ask, is_as_made, make_desk, read_site};
use crate::report::Report;
use crate::ways::{Session, Way, end_text, serve_so};
use desk_cases_store::{ByKeys, Fresh, Subject};
use desk_index::Index;
use sqlite::MemStore;
use std::alloc::{AllocError, Global};
use std::str;

/// The longest stream that is cut after each of its bytes.
const SHORT: usize = 1024;

/// How many bytes at either end of a longer stream it is cut after.
const NEAR: usize = 128;

/// About how often a longer stream is cut in between.
const CUTS: usize = 6;

/// Tries the cases of a text at the site of these texts.
pub fn try_text(
    alloc: Global,
    report: &mut Report,
    site: &str,
    text: &str,
) -> Result<(), AllocError> {
    let mut subject: Subject<MemStore, Index> = Subject::new(alloc);
    try_at_site(alloc, report, &mut subject, site, text)
}

/// Makes the desk of a site, and tries the cases of a text at it.
fn try_at_site<S: Fresh, V: ByKeys>(
    alloc: Global,
    report: &mut Report,
    subject: &mut Subject<S, V>,
    site: &str,
    text: &str,
) -> Result<(), AllocError> {
    if !read_site(alloc, subject, site)? || !make_desk(alloc, subject)? {
        return report.add_difference(0, "the site", "cannot be made");
    }
    try_lines(alloc, report, subject, text)
}

fn try_lines<S: Fresh, V: ByKeys>(
    alloc: Global,
    report: &mut Report,
    subject: &mut Subject<S, V>,
    text: &str,
) -> Result<(), AllocError> {
    let mut case = None;
    for (index, line) in text.lines().enumerate() {
        if !line.is_empty() && !line.starts_with('#') {
            try_line(alloc, report, subject, &mut case, line, index)?;
        }
    }
    try_if_some(alloc, report, subject, &case)
}

/// Takes a line. If a case begins with it, the one before is tried.
fn try_line<S: Fresh, V: ByKeys>(
    alloc: Global,
    report: &mut Report,
    subject: &mut Subject<S, V>,
    case: &mut Option<Case>,
    line: &str,
    index: usize,
) -> Result<(), AllocError> {
    let number = index.saturating_add(1);
    if let Some(name) = line.strip_prefix("case ") {
        try_if_some(alloc, report, subject, case)?;
        *case = Some(Case::new(alloc, name, number)?);
        return Ok(());
    }
    match case {
        Some(case) => case.add_line(alloc, line),
        None => report.add_difference(number, line, "is of no case"),
    }
}

fn try_if_some<S: Fresh, V: ByKeys>(
    alloc: Global,
    report: &mut Report,
    subject: &mut Subject<S, V>,
    case: &Option<Case>,
) -> Result<(), AllocError> {
    match case {
        Some(case) => try_case(alloc, report, subject, case),
        None => Ok(()),
    }
}

/// Tries a case in each way, up to the first that differs.
fn try_case<S: Fresh, V: ByKeys>(
    alloc: Global,
    report: &mut Report,
    subject: &mut Subject<S, V>,
    case: &Case,
) -> Result<(), AllocError> {
    report.count();
    let wrong = wrong_of(alloc, subject, case)?;
    if wrong.is_empty() {
        return Ok(());
    }
    report.add_difference(case.line, case.name.as_str(), wrong.as_str())
}

/// Tells what is wrong with a case: nothing if the text is empty.
fn wrong_of<S: Fresh, V: ByKeys>(
    alloc: Global,
    subject: &mut Subject<S, V>,
    case: &Case,
) -> Result<String, AllocError> {
    let mut wrong = case.wrong.clone()?;
    if !wrong.is_empty() {
        return Ok(wrong);
    }
    try_way(alloc, subject, &mut wrong, case, Way::InOnePiece)?;
    try_way(alloc, subject, &mut wrong, case, Way::ByteByByte)?;
    try_cuts(alloc, subject, &mut wrong, case)?;
    Ok(wrong)
}

/// Tries a case in two pieces, cut in each place.
fn try_cuts<S: Fresh, V: ByKeys>(
    alloc: Global,
    subject: &mut Subject<S, V>,
    wrong: &mut String,
    case: &Case,
) -> Result<(), AllocError> {
    for count in 1..case.stream.len() {
        if is_cut(case, count) {
            try_way(alloc, subject, wrong, case, Way::CutAfter(count))?;
        }
    }
    Ok(())
}

/// Tests whether the stream of a case is cut after this byte. Where a longer stream is cut in between depends on the line of the
/// case, so that those of like cases differ.
fn is_cut(case: &Case, count: usize) -> bool {
    let length = case.stream.len();
    let each = length / CUTS + 1;
    length <= SHORT
        || count <= NEAR
        || length.saturating_sub(count) <= NEAR
        || count % each == case.line % each
}

/// Tries a case in this way, if nothing is wrong yet, and makes a new desk if this one may have changed.
fn try_way<S: Fresh, V: ByKeys>(
    alloc: Global,
    subject: &mut Subject<S, V>,
    wrong: &mut String,
    case: &Case,
    way: Way,
) -> Result<(), AllocError> {
    if !wrong.is_empty() {
        return Ok(());
    }
    let Some(desk) = &mut subject.database.desk else {
        return wrong.push_str("has no desk");
    };
    let session = serve_so(alloc, desk, case.stream.as_slice(), case.waits, way)?;
    compare(alloc, wrong, case, &session)?;
    compare_desk(alloc, subject, wrong, case)?;
    if !wrong.is_empty() {
        write!(wrong, "\n  {way}")?;
    }
    Ok(())
}

/// Tells how the replies and the end differ, if they do.
fn compare(
    alloc: Global,
    wrong: &mut String,
    case: &Case,
    session: &Session,
) -> Result<(), AllocError> {
    let end = end_text(alloc, session.served)?;
    if end.as_str() != case.end.as_str() {
        write!(wrong, "ends {end}; ")?;
    }
    if session.written.as_slice() != case.replies.as_slice() {
        let text = str::from_utf8(session.written.as_slice()).unwrap_or("bytes that are not UTF-8");
        write!(wrong, "replies {text:?}; ")?;
    }
    Ok(())
}

/// Tells how the desk differs, if it does. Leaves a desk at which each file stands at its first revision.
fn compare_desk<S: Fresh, V: ByKeys>(
    alloc: Global,
    subject: &mut Subject<S, V>,
    wrong: &mut String,
    case: &Case,
) -> Result<(), AllocError> {
    if !case.questions.is_empty() {
        let found = ask(alloc, subject, case.questions.as_slice())?;
        if found.as_str() != case.answers.as_str() {
            write!(wrong, "the desk answers {found:?}; ")?;
        }
    }
    if is_as_made(alloc, subject)? {
        return Ok(());
    }
    if case.questions.is_empty() {
        wrong.push_str("the desk has changed; ")?;
    }
    if !make_desk(alloc, subject)? {
        wrong.push_str("no desk can be made")?;
    }
    Ok(())
}
