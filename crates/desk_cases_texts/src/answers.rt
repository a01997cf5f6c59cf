//! How questions are answered. A question adds its answer to `out`; one that adds nothing answers `none`.

use desk_text::Text;
use std::alloc::AllocError;
use std::fmt;

/// Whether a question is known, and can be asked of the text behind it. If not, the case differs whatever it wants, so that
/// no case can want that.
pub type Asked = Result<bool, AllocError>;

/// Answers with a text.
pub fn say(out: &mut String, text: &str) -> Asked {
    out.push_str(text)?;
    Ok(true)
}

/// Answers with what is found, if it is.
pub fn say_found<T: fmt::Display + Copy>(out: &mut String, found: Option<T>) -> Asked {
    if let Some(found) = found {
        write!(out, "{found}")?;
    }
    Ok(true)
}

/// Answers with a list, with a blank between its items.
pub fn say_each<T: fmt::Display>(out: &mut String, items: &[T]) -> Asked {
    for item in items {
        write!(out, "{item} ")?;
    }
    end_list(out)
}

/// Answers `yes` or `no`.
pub fn say_whether(out: &mut String, holds: bool) -> Asked {
    say(out, if holds { "yes" } else { "no" })
}

/// Adds texts, with a blank behind each.
pub fn add_texts(out: &mut String, texts: &[Text]) -> Result<(), AllocError> {
    for text in texts {
        out.push_str(text.as_str())?;
        out.push(' ')?;
    }
    Ok(())
}

/// Returns the number that a text writes, if it is one.
pub fn number(text: &str) -> Option<u32> {
    text.parse().ok()
}

/// Returns the two numbers that a text writes, if it does.
pub fn numbers(text: &str) -> Option<(u32, u32)> {
    let (first, second) = split(text);
    Some((number(first)?, number(second)?))
}

/// Splits a text at its first blank. Behind it is nothing if there is none.
pub fn split(text: &str) -> (&str, &str) {
    text.split_once(' ').unwrap_or((text, ""))
}

/// Ends a list, each item of which has a blank or a line end behind it.
pub fn end_list(out: &mut String) -> Asked {
    let _ = out.pop();
    Ok(true)
}
