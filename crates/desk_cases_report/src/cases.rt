//! Files of cases. A case is a line `QUESTION TEXT = ANSWER`; the text and the answer may have escapes (`escapes`). The
//! first ` = ` of a line counts. A question without a text is `QUESTION = ANSWER`. Empty lines and those that begin with `#` are
//! skipped. The questions on tables and policies are those of `desk_cases_texts`.

use crate::questions;
use crate::report::Report;
use crate::subject::Subject;
use desk_cases_texts::answers::split;
use desk_cases_texts::escapes;
use std::alloc::{AllocError, Global};
use std::str;

/// A case that is tried: the bytes of its text, those of the answer that it wants, and the answer that is found.
#[derive(Drop)]
struct Trial {
    text: Vec<u8>,
    wanted: Vec<u8>,
    found: String,
}

/// Tries the cases of a text, and returns what came of them. Those that set a text of the site set it for the cases below them.
pub fn report_of(alloc: Global, text: &str) -> Result<Report, AllocError> {
    let mut report = Report::new(alloc);
    try_lines(alloc, &mut report, text)?;
    Ok(report)
}

/// Tries the cases of a text, at first on a site without texts.
fn try_lines(alloc: Global, report: &mut Report, text: &str) -> Result<(), AllocError> {
    let mut subject = Subject::new(alloc);
    let mut trial = Trial {
        text: Vec::new(alloc),
        wanted: Vec::new(alloc),
        found: String::new(alloc),
    };
    try_cases(alloc, &mut subject, &mut trial, report, text)
}

/// Tries the cases of a text. The lines that are skipped are no cases.
fn try_cases(
    alloc: Global,
    subject: &mut Subject,
    trial: &mut Trial,
    report: &mut Report,
    text: &str,
) -> Result<(), AllocError> {
    for (index, line) in text.lines().enumerate() {
        if !line.is_empty() && !line.starts_with('#') {
            report.begin_case(index);
            try_case(alloc, subject, trial, report, line)?;
        }
    }
    Ok(())
}

/// Tries a case. Adds to the report if it cannot be asked, or has another answer.
fn try_case(
    alloc: Global,
    subject: &mut Subject,
    trial: &mut Trial,
    report: &mut Report,
    case: &str,
) -> Result<(), AllocError> {
    match ask(alloc, subject, trial, case)? {
        Some(difference) => report.add_difference(case, difference),
        None => compare(alloc, trial, report, case),
    }
}

/// Asks a case. Returns why it cannot be asked, if it cannot.
fn ask(
    alloc: Global,
    subject: &mut Subject,
    trial: &mut Trial,
    case: &str,
) -> Result<Option<&'static str>, AllocError> {
    let Some((asked, wanted)) = case.split_once(" = ") else {
        return Ok(Some("is not a case"));
    };
    let (question, text) = split(asked);
    trial.text.clear();
    trial.wanted.clear();
    trial.found.clear();
    if !escapes::push(alloc, &mut trial.text, text)?
        || !escapes::push(alloc, &mut trial.wanted, wanted)?
    {
        return Ok(Some("has a wrong escape"));
    }
    let Ok(text) = str::from_utf8(trial.text.as_slice()) else {
        return Ok(Some("has a wrong escape"));
    };
    if !questions::answer(alloc, subject, &mut trial.found, question, text)? {
        return Ok(Some("cannot be asked"));
    }
    Ok(None)
}

/// Compares the answer to a case with the one that it wants.
fn compare(
    alloc: Global,
    trial: &Trial,
    report: &mut Report,
    case: &str,
) -> Result<(), AllocError> {
    let found = trial.found.as_str();
    let found = if found.is_empty() { "none" } else { found };
    if found.as_bytes() == trial.wanted.as_slice() {
        return Ok(());
    }
    let found = format!(in alloc; "is answered {found:?}")?;
    report.add_difference(case, found.as_str())
}
