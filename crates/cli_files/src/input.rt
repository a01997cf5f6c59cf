//! Bytes from outside, read as far as a limit reaches, and taken as a text or as a line: those of a file, or of standard input.

ghost use Rattle.std.specs.Prelude.{◌≡◌, ◌≤◌, ◌==◌, IfOk, IfSome, OnErr, length, take};
ghost use Rattle.std.specs.Io.BufRead.{strip_last, take_through};
ghost use Rattle.std.specs.Io.KnownBytes.{Consumes, Keeps};
ghost use Rattle.std.specs.List.{after_last};
ghost use Rattle.std.specs.Result.{result_map_both};
ghost use Rattle.std.specs.String.{string_bytes};
ghost use Rattle.cli_files.specs.Input as spec;
ghost use Rattle.cli_files.specs.Input.{GivesByte};

use cli_output::failure::TextFault;
use std::alloc::Global;
use std::io;
use std::io::{BufRead, ErrorKind, Read};

/// The most bytes of a file, and of the first line of standard input without its line end.
pub const LONGEST_INPUT: usize = 16_777_216;

/// Reads what a reader gives to its end, and stops behind the most bytes of a text. Room for this many bytes is made at once;
/// there may be more of them, or fewer.
pub fn read_bytes<R: Read + Drop>(alloc: Global, reader: R, room: usize) -> io::Result<Vec<u8>>
    ensures { IfSome (R.remaining reader) (λ given. IfOk result (λ bytes. bytes.items ≡ take 16777217 given)) }
{
    let mut bytes = Vec::with_capacity(alloc, room)?;
    let mut reader = reader.take(LONGEST_INPUT as u64 + 1);
    reader.read_to_end(&mut bytes)?;
    Ok(bytes)
}

/// Reads the first line that a reader gives, with its line end, and stops behind the most bytes of a text and CR LF. All that
/// follows is left to the reader.
#[tactic(auto, using(crate::proofs::KnownBytes::ended_line, crate::proofs::KnownBytes::unended_line, crate::proofs::KnownBytes::line_at_limit, crate::proofs::KnownBytes::pushed))]
pub fn read_line<I: BufRead>(alloc: Global, input: &mut I) -> io::Result<Vec<u8>>
    ensures line { IfSome (I.remaining input.old)
        (λ given. IfOk result (λ line. line.items ≡ take_through 10 (take 16777218 given))) }
    ensures rest { IfOk result (λ line. Consumes (I.remaining input.old) (I.remaining input.new) line.items) }
{
    let mut bytes = Vec::new(alloc);
    while bytes.len() < LONGEST_INPUT + 2 {
        let Some(byte) = read_byte(input)? else {
            return Ok(bytes);
        };
        bytes.push(byte)?;
        if byte == b'\n' {
            return Ok(bytes);
        }
    }
    Ok(bytes)
}

/// Reads one byte, if there is one. A read that is interrupted is made again.
#[tactic(auto, using(crate::proofs::KnownBytes::given_byte))]
fn read_byte<I: BufRead>(input: &mut I) -> io::Result<Option<u8>>
    ensures { IfOk result (GivesByte (I.remaining input.old) (I.remaining input.new)) }
{
    for _ in 0..usize::MAX {
        match try_byte(input) {
            Err(error) if error.kind() == ErrorKind::Interrupted => {}
            read => return read,
        }
    }
    Err(io::Error::from(ErrorKind::Interrupted))
}

/// Reads one byte, if there is one, from what the reader has read ahead.
fn try_byte<I: BufRead>(input: &mut I) -> io::Result<Option<u8>>
    ensures read { IfOk result (GivesByte (I.remaining input.old) (I.remaining input.new)) }
    ensures kept { OnErr result (Keeps (I.remaining input.old) (I.remaining input.new)) }
{
    let byte = match input.fill_buf() {
        Ok([]) => return Ok(None),
        Ok([byte, ..]) => *byte,
        Err(error) => return Err(error),
    };
    input.consume(1);
    Ok(Some(byte))
}

/// Takes the first line of these bytes, without its line end.
pub fn first_line(bytes: &[u8]) -> Result<&[u8], TextFault>
    ensures { result_map_both (λ line. line.now) (λ fault. fault) result ≡ spec.first_line bytes.now }
{
    let line = without_line_end(bytes);
    if line.len() > LONGEST_INPUT {
        return Err(TextFault::TooLong);
    }
    Ok(line)
}

/// Returns a line without its line end, LF or CR LF.
fn without_line_end(line: &[u8]) -> &[u8]
    ensures { result.now ≡ spec.without_line_end line.now }
{
    if line.last() == Some(&b'\n') {
        strip_last(strip_last(line, b'\n'), b'\r')
    } else {
        line
    }
}

/// Returns a line without its last byte, if it is this one.
fn strip_last(line: &[u8], byte: u8) -> &[u8]
    ensures { result.now ≡ strip_last byte line.now }
{
    match line.split_last() {
        Some((last, front)) if *last == byte => front,
        _ => line,
    }
}

/// Takes bytes as a text.
pub fn text_of(bytes: Vec<u8>) -> Result<String, TextFault>
    ensures { result_map_both string_bytes (λ fault. fault) result ≡ spec.text_of bytes.items }
{
    if bytes.len() > LONGEST_INPUT {
        return Err(TextFault::TooLong);
    }
    match String::from_utf8(bytes) {
        Ok(text) => Ok(text),
        Err(error) => {
            let front = &error.as_bytes()[..error.utf8_error().valid_up_to()];
            Err(not_utf8_behind(front))
        }
    }
}

/// Returns the fault of bytes that are UTF-8 just as far as this.
fn not_utf8_behind(front: &[u8]) -> TextFault
    requires { length front.now ≤ 16777216 }
    ensures { result ≡ spec.not_utf8_behind front.now }
{
    let line_ends = front.iter().filter(|byte| **byte == b'\n').count();
    let characters = last_line(front)
        .iter()
        .filter(|byte| begins_character(**byte))
        .count();
    TextFault::NotUtf8 {
        line: line_ends + 1,
        column: characters + 1,
    }
}

/// Returns the bytes behind the last line end.
fn last_line(front: &[u8]) -> &[u8]
    ensures { result.now ≡ after_last (λ b. b == 10) front.now }
{
    let mut start = front.len();
    while 0 < start && front[start - 1] != b'\n' {
        start -= 1;
    }
    &front[start..]
}

/// Tests whether a byte is the first of a character.
fn begins_character(byte: u8) -> bool
    ensures { result ≡ spec.begins_character byte }
{
    byte < 128 || 192 <= byte
}
