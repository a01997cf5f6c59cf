//! The escapes of cases. `\n`, `\t`, `\r`, `\s`, `\0` and `\\` are a line feed, a tab, a carriage return, a blank, a zero
//! byte and a backslash, and `\xff` is the byte of two hexadecimal digits. `\[3 ab\]` is `ababab`, and in it `\#` is
//! the number of the repetition, from 0.

use crate::answers::{number, split};
use std::alloc::{AllocError, Global};

/// Adds the bytes for which a text with escapes stands. Tells whether each escape is known, and each repetition is one.
pub fn push(alloc: Global, out: &mut Vec<u8>, text: &str) -> Result<bool, AllocError> {
    for (place, piece) in text.split("\\[").enumerate() {
        let is_good = if place == 0 {
            push_plain(out, piece)?
        } else {
            push_repetition(alloc, out, piece)?
        };
        if !is_good {
            return Ok(false);
        }
    }
    Ok(true)
}

/// Adds what a repetition stands for, and the text behind it. Tells whether it is one.
fn push_repetition(alloc: Global, out: &mut Vec<u8>, text: &str) -> Result<bool, AllocError> {
    let Some((repetition, behind)) = text.split_once("\\]") else {
        return Ok(false);
    };
    let (count, piece) = split(repetition);
    match number(count) {
        Some(count) => { Ok(push_repeated(alloc, out, count, piece)? && push_plain(out, behind)?) }
        None => Ok(false),
    }
}

fn push_repeated(
    alloc: Global,
    out: &mut Vec<u8>,
    count: u32,
    piece: &str,
) -> Result<bool, AllocError> {
    if piece.contains("\\#") {
        push_numbered(alloc, out, count, piece)
    } else {
        push_times(alloc, out, count, piece)
    }
}

/// Adds a text so many times; all at once, since there may be millions.
fn push_times(
    alloc: Global,
    out: &mut Vec<u8>,
    count: u32,
    text: &str,
) -> Result<bool, AllocError> {
    let mut piece = Vec::new(alloc);
    let is_good = push_plain(&mut piece, text)?;
    let repeated = piece.as_slice().repeat(alloc, count as usize)?;
    drop(piece);
    out.extend_from_slice(repeated.as_slice())?;
    Ok(is_good)
}

/// Adds a text so many times, each time with the number of the repetition for `\#`.
fn push_numbered(
    alloc: Global,
    out: &mut Vec<u8>,
    count: u32,
    text: &str,
) -> Result<bool, AllocError> {
    let mut is_good = true;
    for number in 0..count {
        let number = number.to_string(alloc)?;
        let piece = text.replace(alloc, "\\#", number.as_str())?;
        is_good = is_good && push_plain(out, piece.as_str())?;
    }
    Ok(is_good)
}

/// Where in an escape a text is read.
#[derive(Clone, Copy)]
enum State {
    Plain,
    Backslash,
    FirstDigit,
    SecondDigit(u8),
    Bad,
}

/// Adds what a text without repetitions stands for. Tells whether each escape is known.
fn push_plain(out: &mut Vec<u8>, text: &str) -> Result<bool, AllocError> {
    let mut state = State::Plain;
    for byte in text.as_bytes() {
        let (next, found) = step(state, *byte);
        state = next;
        if let Some(byte) = found {
            out.push(byte)?;
        }
    }
    Ok(matches!(state, State::Plain))
}

/// Returns the next state, and the byte that is complete.
fn step(state: State, byte: u8) -> (State, Option<u8>) {
    match state {
        State::Plain if byte == b'\\' => (State::Backslash, None),
        State::Plain => (State::Plain, Some(byte)),
        State::Backslash if byte == b'x' => (State::FirstDigit, None),
        State::Backslash => match escaped(byte) {
            Some(byte) => (State::Plain, Some(byte)),
            None => (State::Bad, None),
        },
        State::FirstDigit => match digit(byte) {
            Some(digit) => (State::SecondDigit(digit), None),
            None => (State::Bad, None),
        },
        State::SecondDigit(first) => match digit(byte) {
            Some(second) => (State::Plain, Some(first << 4 | second)),
            None => (State::Bad, None),
        },
        State::Bad => (State::Bad, None),
    }
}

/// Returns the byte for which a byte behind a backslash stands.
fn escaped(byte: u8) -> Option<u8> {
    match byte {
        b'n' => Some(b'\n'),
        b't' => Some(b'\t'),
        b'r' => Some(b'\r'),
        b's' => Some(b' '),
        b'0' => Some(0),
        b'\\' => Some(b'\\'),
        _ => None,
    }
}

fn digit(byte: u8) -> Option<u8> {
    match byte {
        b'0'..=b'9' => Some(byte - b'0'),
        b'a'..=b'f' => Some(byte - b'a' + 10),
        _ => None,
    }
}
