//! Commands as they are written at a terminal: `exportdesk`, and its words between blanks; a word with blanks is written
//! between single quotes. Behind the words ` < FILE` names the file that is standard input, and ` <<END` takes it from the
//! lines below. `printf 'TEXT' | ` before `exportdesk` gives a text as standard input. The words and that text may have
//! the escapes of cases (`escapes`).

use desk_cases_texts::answers::Asked;
use desk_cases_texts::escapes;
use std::alloc::{AllocError, Global};
use std::fs;

/// How a command ends that takes its standard input from the lines below.
pub const HERE: &str = " <<END";

/// The bytes of a command: its words with the blanks between them, and its standard input.
#[derive(Drop)]
struct Command {
    words: Vec<u8>,
    input: Vec<u8>,
}

/// Runs a command, and adds what it prints on standard output and on standard error, and its exit status, in the form of a
/// file of commands. The input is that of the lines below, without its last line end. Tells whether it is a command.
pub fn run(rt: &HostRuntime, shown: &mut String, line: &str, here: &str) -> Asked {
    let mut command = Command {
        words: Vec::new(rt.alloc()),
        input: Vec::new(rt.alloc()),
    };
    let is_good = read(rt, &mut command, line, here)?
        && run_line(
            rt,
            shown,
            command.words.as_slice(),
            command.input.as_slice(),
        )?;
    Ok(is_good)
}

/// Reads a command. Tells whether it is one.
fn read(rt: &HostRuntime, command: &mut Command, line: &str, here: &str) -> Asked {
    let Some(words) = words_part(line) else {
        return Ok(false);
    };
    Ok(
        escapes::push(rt.alloc(), &mut command.words, words)?
            && push_input(rt, &mut command.input, line, here)?,
    )
}

/// Returns the words of a command, behind the name of the program.
fn words_part(line: &str) -> Option<&str> {
    let line = match line.strip_prefix("printf '") {
        Some(piped) => {
            let (_, line) = piped.split_once("' | ")?;
            line
        }
        None => line,
    };
    let line = line.strip_suffix(HERE).unwrap_or(line);
    let (line, _) = line.split_once(" < ").unwrap_or((line, ""));
    line.strip_prefix("exportdesk")
}

/// Adds the standard input of a command. Tells whether it can be read.
fn push_input(rt: &HostRuntime, input: &mut Vec<u8>, line: &str, here: &str) -> Asked {
    if line.ends_with(HERE) {
        input.extend_from_slice(here.as_bytes())?;
        input.push(b'\n')?;
        return Ok(true);
    }
    if let Some(piped) = line.strip_prefix("printf '") {
        let (text, _) = piped.split_once("' | ").unwrap_or((piped, ""));
        return escapes::push(rt.alloc(), input, text);
    }
    match line.split_once(" < ") {
        Some((_, file)) => push_file(rt, input, file),
        None => Ok(true),
    }
}

/// Adds the bytes of a file. Tells whether it can be read.
fn push_file(rt: &HostRuntime, input: &mut Vec<u8>, file: &str) -> Asked {
    match fs::read(rt, file) {
        Ok(bytes) => {
            input.extend_from_slice(bytes.as_slice())?;
            Ok(true)
        }
        Err(_) => Ok(false),
    }
}

/// Runs the command of these words with the blanks between them.
fn run_line(rt: &HostRuntime, shown: &mut String, line: &[u8], input: &[u8]) -> Asked {
    let words = words_in(rt.alloc(), line)?;
    run_words(rt, shown, words.as_slice(), input)
}

/// Returns the words of a line: what stands between single quotes, and elsewhere between blanks.
fn words_in(alloc: Global, line: &[u8]) -> Result<Vec<&[u8]>, AllocError> {
    let mut words = Vec::new(alloc);
    let mut is_quoted = false;
    for piece in pieces(alloc, line, b'\'')?.as_slice() {
        if is_quoted {
            words.push(*piece)?;
        } else {
            push_words(&mut words, pieces(alloc, *piece, b' ')?.as_slice())?;
        }
        is_quoted = !is_quoted;
    }
    Ok(words)
}

/// Adds the pieces of a line that are not empty.
fn push_words<'a>(words: &mut Vec<&'a [u8]>, pieces: &[&'a [u8]]) -> Result<(), AllocError> {
    for word in pieces {
        if !word.is_empty() {
            words.push(*word)?;
        }
    }
    Ok(())
}

/// Returns what stands between the bytes of this kind.
fn pieces(alloc: Global, line: &[u8], at: u8) -> Result<Vec<&[u8]>, AllocError> {
    line.split(|byte| *byte == at).collect(alloc)
}

/// Runs the command of these words.
fn run_words(rt: &HostRuntime, shown: &mut String, words: &[&[u8]], input: &[u8]) -> Asked {
    let mut input = input;
    let mut out = Vec::new(rt.alloc());
    let mut err = Vec::new(rt.alloc());
    let status = cli::run(rt, words, &mut input, &mut out, &mut err);
    show(rt.alloc(), shown, out.as_slice(), err.as_slice(), status)
}

/// Adds what a command printed, and its status.
fn show(alloc: Global, shown: &mut String, out: &[u8], err: &[u8], status: u8) -> Asked {
    if !push_printed(alloc, shown, "", out)? || !push_printed(alloc, shown, "!", err)? {
        return Ok(false);
    }
    write!(shown, "[{status}]\n")?;
    Ok(true)
}

/// Adds what a command printed, with a mark before each line; a carriage return is `\r`. Tells whether it is UTF-8.
fn push_printed(alloc: Global, shown: &mut String, mark: &str, printed: &[u8]) -> Asked {
    match str::from_utf8(printed) {
        Ok(text) => push_lines(shown, mark, text.replace(alloc, "\r", "\\r")?.as_str()),
        Err(_) => Ok(false),
    }
}

/// Adds lines, with a mark before each. A last line without a line end is told apart.
fn push_lines(shown: &mut String, mark: &str, text: &str) -> Asked {
    if text.is_empty() {
        return Ok(true);
    }
    for line in text.strip_suffix('\n').unwrap_or(text).split('\n') {
        push_line(shown, mark, line)?;
    }
    if !text.ends_with('\n') {
        shown.push_str("\\ no line end\n")?;
    }
    Ok(true)
}

/// Adds a line, with a mark before it, and a blank between the two if neither is empty.
fn push_line(shown: &mut String, mark: &str, line: &str) -> Result<(), AllocError> {
    let blank = if mark.is_empty() || line.is_empty() {
        ""
    } else {
        " "
    };
    write!(shown, "{mark}{blank}{line}\n")
}
