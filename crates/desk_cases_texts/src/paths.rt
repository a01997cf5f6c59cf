//! Questions on paths.

use crate::answers::{Asked, say, say_whether, split};
use desk_text::{Path, PathFault, ReadError};
use std::alloc::{AllocError, Global};

/// Answers a question on paths.
pub fn answer(alloc: Global, out: &mut String, question: &str, text: &str) -> Asked {
    match question {
        "path" => path(out, Path::read(alloc, text)),
        "is_under" => is_under(alloc, out, text),
        _ => Ok(false),
    }
}

/// `path TEXT`: the path as it is printed, or the fault by its name: `fault TooLong`.
fn path(out: &mut String, read: Result<Path, ReadError<PathFault>>) -> Asked {
    match read {
        Ok(path) => say(out, path.text()),
        Err(ReadError::Fault(fault)) => {
            write!(out, "fault {fault:?}")?;
            Ok(true)
        }
        Err(ReadError::Memory) => Err(AllocError),
    }
}

/// `is_under PATH ABOVE`: whether the first path, which has no blank, is the other or lies below it, `yes` or `no`.
fn is_under(alloc: Global, out: &mut String, text: &str) -> Asked {
    let (path, above) = split(text);
    let (Ok(path), Ok(above)) = (Path::read(alloc, path), Path::read(alloc, above)) else {
        return Ok(false);
    };
    say_whether(out, path.is_under(&above))
}
