//! The desks at which cases are tried, each in memory.

use desk_cases_store::{ByKeys, Fresh, Subject};
use desk_cases_texts::answers::{Asked, split};
use desk_cases_texts::escapes;
use std::alloc::{AllocError, Global};
use std::str;

/// Keeps the texts of a site, each of a line `FILE TEXT`; the text may have escapes. Tells whether each line is one.
pub fn read_site<S: Fresh, V: ByKeys>(
    alloc: Global,
    subject: &mut Subject<S, V>,
    site: &str,
) -> Asked {
    let mut text = Vec::new(alloc);
    for line in site.lines() {
        text.clear();
        if !escapes::push(alloc, &mut text, line)? {
            return Ok(false);
        }
        let Ok(line) = str::from_utf8(text.as_slice()) else {
            return Ok(false);
        };
        if !is_answered(alloc, subject, "file", line, "kept")? {
            return Ok(false);
        }
    }
    Ok(true)
}

/// Opens a new desk, with the site as its first revisions. Tells whether it can be made.
pub fn make_desk<S: Fresh, V: ByKeys>(alloc: Global, subject: &mut Subject<S, V>) -> Asked {
    Ok(
        is_answered(alloc, subject, "database", "", "new")?
            && is_answered(alloc, subject, "create", "", "made")?,
    )
}

/// Tests whether a question has this answer.
fn is_answered<S: Fresh, V: ByKeys>(
    alloc: Global,
    subject: &mut Subject<S, V>,
    question: &str,
    text: &str,
    wanted: &str,
) -> Asked {
    let mut found = String::new(alloc);
    Ok(
        desk_cases_store::answer(alloc, subject, &mut found, question, text)?
            && found.as_str() == wanted,
    )
}

/// Asks the desk these questions. The answers have a line end behind each.
pub fn ask<S: Fresh, V: ByKeys>(
    alloc: Global,
    subject: &mut Subject<S, V>,
    questions: &[String],
) -> Result<String, AllocError> {
    let mut answers = String::new(alloc);
    for question in questions {
        let answer = answer_to(alloc, subject, question.as_str())?;
        answers.push_str(answer.as_str())?;
        answers.push('\n')?;
    }
    Ok(answers)
}

/// Asks the desk a question. Each has a text of its own: a list puts `; ` before an item if the text is not empty.
fn answer_to<S: Fresh, V: ByKeys>(
    alloc: Global,
    subject: &mut Subject<S, V>,
    question: &str,
) -> Result<String, AllocError> {
    let mut found = String::new(alloc);
    let (question, text) = split(question);
    if !desk_cases_store::answer(alloc, subject, &mut found, question, text)? {
        found.push_str("cannot be asked")?;
    }
    Ok(found)
}

/// Tests whether each file of the desk stands at its first revision.
pub fn is_as_made<S: Fresh, V: ByKeys>(alloc: Global, subject: &mut Subject<S, V>) -> Asked {
    let mut found = String::new(alloc);
    if !desk_cases_store::answer(alloc, subject, &mut found, "heads", "")? {
        return Ok(false);
    }
    Ok(
        !found.is_empty()
            && found
                .as_str()
                .split("; ")
                .all(|head| head.ends_with(" 1 site")),
    )
}
