//! The form of a case. It begins with a line `case NAME`. Each line `> TEXT` adds bytes to the stream of requests, and each line
//! `< TEXT` adds bytes to the replies that it wants; the texts may have escapes (`escapes`). A line `= END, R replies, W bytes`
//! tells how the connection ends, how many replies were written whole, and how many bytes. A line `~` says that the peer waits: its
//! input does not end, and the read after the last byte fails. Each line `? QUESTION` is followed by a line `! ANSWER` and asks the
//! desk afterwards; where there is none, each file must stand at its first revision. Empty lines and those that begin with `#` are
//! skipped.

use desk_cases_texts::escapes;
use std::alloc::{AllocError, Global};

/// A case: its name and the number of its line, the bytes that come, whether the peer waits after them, the bytes that are to be
/// written, how the connection is to end, what the desk is asked afterwards, and what it is to answer.
#[derive(Drop)]
pub struct Case {
    pub name: String,
    pub line: usize,
    pub stream: Vec<u8>,
    pub waits: bool,
    pub replies: Vec<u8>,
    pub end: String,
    pub questions: Vec<String>,
    pub answers: String,
    /// A line that cannot be read, or the empty text.
    pub wrong: String,
}

impl Case {
    /// Makes a case without bytes, which begins on this line.
    pub fn new(alloc: Global, name: &str, line: usize) -> Result<Case, AllocError> {
        Ok(Case {
            name: String::from_str(alloc, name)?,
            line,
            stream: Vec::new(alloc),
            waits: false,
            replies: Vec::new(alloc),
            end: String::new(alloc),
            questions: Vec::new(alloc),
            answers: String::new(alloc),
            wrong: String::new(alloc),
        })
    }

    /// Adds what a line behind the first tells.
    pub fn add_line(&mut self, alloc: Global, line: &str) -> Result<(), AllocError> {
        let (mark, text) = line.split_once(' ').unwrap_or((line, ""));
        let is_good = match mark {
            ">" => escapes::push(alloc, &mut self.stream, text)?,
            "<" => escapes::push(alloc, &mut self.replies, text)?,
            "=" => add_once(&mut self.end, text)?,
            "~" => {
                self.waits = true;
                text.is_empty()
            }
            "?" => add_question(alloc, &mut self.questions, text)?,
            "!" => add_answer(&mut self.answers, text)?,
            _ => false,
        };
        if !is_good {
            write!(self.wrong, "cannot be read: {line}")?;
        }
        Ok(())
    }
}

/// Sets a text that is not set yet. Tells whether it was not.
fn add_once(held: &mut String, text: &str) -> Result<bool, AllocError> {
    let is_first = held.is_empty();
    held.push_str(text)?;
    Ok(is_first)
}

fn add_question(
    alloc: Global,
    questions: &mut Vec<String>,
    text: &str,
) -> Result<bool, AllocError> {
    questions.push(String::from_str(alloc, text)?)?;
    Ok(true)
}

/// Adds an answer, and a line end behind it.
fn add_answer(answers: &mut String, text: &str) -> Result<bool, AllocError> {
    answers.push_str(text)?;
    answers.push('\n')?;
    Ok(true)
}
