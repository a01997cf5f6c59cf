//! The words of a logical line, with quotes and escapes.
//!
//! A quote has to close in its own physical line, even if that line is continued: a forgotten quote is then found where it
//! stands, and does not swallow the lines behind it.

ghost use Rattle.std.specs.Prelude.{◌≡◌, ℕ, ◌+◌, ◌<◌, ◌≤◌, ◌^◌, ◌++◌, IsTrue, IfOk, OnOk, IfSome, IfNone, map, not, length, take, List, true, false, slice_index};
ghost use Rattle.std.specs.String.{string_bytes};
ghost use Rattle.desk_text.specs.Bytes.{is_blank};
ghost use Rattle.desk_text.specs.Word.{has_marks, is_special, read_words, word_value, words_at, has_open_quote, is_quote};
ghost use Rattle.desk_text.specs.Views.{line_of_part, word_of};
ghost use Rattle.desk_text.specs.Reading.{ReadsAs};
ghost use Rattle.desk_text.specs.PrivateWord.{IsAtomLen, IsWordLen, is_mark};

use crate::bytes::is_blank;
use crate::lines::Line;
pub use crate::raw_word::Word;
use crate::reading::ReadError;
use std::alloc::{AllocError, Global};
use thiserror::Error;

/// The fault of a line: a quote does not close in its physical line.
#[derive(Clone, Copy, Debug, PartialEq, Eq, Error)]
#[error("a quote does not close on its line")]
pub struct OpenQuote;

/// Room for the words of a usual line, so that the list of them does not have to grow.
const USUAL_WORDS: usize = 8;

/// Cuts a line into its words, in order. What separates them are spaces and tabs outside quotes and not behind a
/// backslash.
pub fn words<'a>(alloc: Global, line: &Line<'a>) -> Result<Vec<Word<'a>>, ReadError<OpenQuote>>
    ensures { ReadsAs (λ v. map word_of v.items) result (read_words line.now) }
{
    let mut words = Vec::with_capacity(alloc, USUAL_WORDS)?;
    words_into(&mut words, line)?;
    Ok(words)
}

/// Cuts a line into its words, as `words` does, in the room of a vector that had the words of another line.
pub fn words_into<'a>(
    words: &mut Vec<Word<'a>>,
    line: &Line<'a>,
) -> Result<(), ReadError<OpenQuote>>
    ensures { ReadsAs (λ _. map word_of words.new.items) result (read_words line.now) }
{
    words.clear();
    for part in line.parts() {
        if !push_words(words, part.start, part.text)? {
            return Err(ReadError::Fault(OpenQuote));
        }
    }
    Ok(())
}

/// Returns what a word stands for: its text without its quotes and escapes.
pub fn unquote(alloc: Global, word: &Word) -> Result<String, AllocError>
    ensures { IfOk result (λ s. string_bytes s ≡ word_value word.now.raw.now) }
{
    match word.plain() {
        Some(text) => String::from_str(alloc, text),
        None => without_marks(alloc, word.raw),
    }
}

/// Copies a raw word without its quotes and escapes.
fn without_marks(alloc: Global, raw: &str) -> Result<String, AllocError>
    ensures { IfOk result (λ s. string_bytes s ≡ word_value raw.now) }
{
    let mut value = String::with_capacity(alloc, raw.len())?;
    let mut quote = None;
    let mut escaped = false;
    for c in raw.chars() {
        if escaped {
            escaped = false;
            value.push(c)?;
        } else if c == '\\' {
            escaped = true;
        } else if !is_mark(quote, c) {
            value.push(c)?;
        } else if quote.is_some() {
            quote = None;
        } else {
            quote = Some(c);
        }
    }
    Ok(value)
}

/// Tests whether a character ends the quote that is open, or opens one.
fn is_mark(quote: Option<char>, c: char) -> bool
    ensures { result ≡ is_mark quote c }
{
    match quote {
        Some(open) => c == open,
        None => c == '"' || c == '\'',
    }
}

/// Adds the words of a text that stands at `start`, and returns whether each quote closes.
fn push_words<'a>(
    words: &mut Vec<Word<'a>>,
    start: usize,
    text: &'a str,
) -> Result<bool, AllocError>
    requires { start + length text.now < 2 ^ 64 }
    ensures closed { IfOk result (λ closed. has_open_quote text.now ≡ not closed) }
    ensures found { IfOk result (λ closed. IsTrue closed
        → map word_of words.new.items ≡ map word_of words.old.items ++ words_at start text.now) }
{
    let bytes = text.as_bytes();
    let mut at = 0;
    while at < bytes.len() {
        if is_blank(bytes[at]) {
            at += 1;
        } else {
            let Some(end) = word_end(&bytes[at..]) else {
                return Ok(false);
            };
            let raw = &text[at..at + end.len];
            words.push(Word {
                raw,
                start: start + at,
                dashed: bytes[at] == b'-',
                marked: end.marked,
            })?;
            at += end.len;
        }
    }
    Ok(true)
}

fn is_quote(b: u8) -> bool
    ensures { result ≡ is_quote b }
{
    b == b'"' || b == b'\''
}

/// Tests whether a byte is a quote or a backslash. Every other one that is not a blank stands for itself.
pub(crate) fn is_special(b: u8) -> bool
    ensures { result ≡ is_special b }
{
    is_quote(b) || b == b'\\'
}

/// Returns how long the quoted run is with which the text begins, if it ends.
fn quoted_len(text: &[u8]) -> Option<usize>
    requires some { 0 < length text.now }
    requires quote { IsTrue (is_quote (slice_index text.now 0)) }
    ensures len { IfSome result (IsAtomLen text.now) }
    ensures open { IfNone result (has_open_quote text.now ≡ true) }
{
    let quote = text[0];
    let mut n = 1;
    while n < text.len() {
        let b = text[n];
        if b == quote {
            return Some(n + 1);
        }
        n += if b == b'\\' { 2 } else { 1 };
    }
    None
}

/// Returns how long the atom is with which the text begins: an escaped character, or a quoted run.
pub(crate) fn atom_len(text: &[u8]) -> Option<usize>
    requires some { 0 < length text.now }
    requires special { IsTrue (is_special (slice_index text.now 0)) }
    ensures len { IfSome result (IsAtomLen text.now) }
    ensures open { IfNone result (has_open_quote text.now ≡ true) }
{
    if text[0] == b'\\' {
        Some(text.len().min(2))
    } else {
        quoted_len(text)
    }
}

/// How long a word is, and whether a quote or a backslash stands in it.
#[derive(Clone, Copy)]
struct WordEnd {
    len: usize,
    marked: bool,
}

/// Finds the end of the word with which the text begins.
fn word_end(text: &[u8]) -> Option<WordEnd>
    requires some { 0 < length text.now }
    requires word { is_blank (slice_index text.now 0) ≡ false }
    ensures len { IfSome result (λ end. IsWordLen text.now end.len) }
    ensures marks { IfSome result (λ end. has_marks (take end.len text.now) ≡ end.marked) }
    ensures open { IfNone result (has_open_quote text.now ≡ true) }
{
    let mut len = 0;
    let mut marked = false;
    while len < text.len() && !is_blank(text[len]) {
        if is_special(text[len]) {
            len += atom_len(&text[len..])?;
            marked = true;
        } else {
            len += 1;
        }
    }
    Some(WordEnd { len, marked })
}
