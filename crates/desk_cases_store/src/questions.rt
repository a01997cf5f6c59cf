//! The questions. What each asks stands at the function that answers it.

use crate::stores::Fresh;
use crate::subject::Subject;
use crate::views::ByKeys;
use crate::{databases, desks, edits};
use desk_cases_texts::answers::Asked;
use std::alloc::Global;

/// Answers a question.
pub fn answer<S: Fresh, V: ByKeys>(
    alloc: Global,
    subject: &mut Subject<S, V>,
    out: &mut String,
    question: &str,
    text: &str,
) -> Asked {
    Ok(
        desk_cases_texts::answer(alloc, &mut subject.site, out, question, text)?
            || of_history(alloc, subject, out, question, text)?,
    )
}

/// Answers a question on the revisions of a site's files.
fn of_history<S: Fresh, V: ByKeys>(
    alloc: Global,
    subject: &mut Subject<S, V>,
    out: &mut String,
    question: &str,
    text: &str,
) -> Asked {
    Ok(
        databases::answer(alloc, &mut subject.database, out, question, text)?
            || desks::answer(alloc, subject, out, question, text)?
            || edits::answer(alloc, subject, out, question, text)?,
    )
}
