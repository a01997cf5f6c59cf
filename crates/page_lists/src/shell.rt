//! A text as a word of a command, for a shell.

ghost use Rattle.std.specs.Prelude.{◌≡◌, ◌++◌, IfOk, OnOk};
ghost use Rattle.std.specs.Char.{encode_utf8};
ghost use Rattle.std.specs.Str.{chars, encode_utf8_all};
ghost use Rattle.std.specs.String.{string_bytes};
ghost use Rattle.page_lists.specs.Shell as spec;

use std::alloc::{AllocError, Global};

/// Makes the word that a shell takes for this text: the text itself, or the text in quotation marks if it has other characters than
/// letters, digits and `_./-`, begins with a `-`, or is empty.
pub fn shell_word(alloc: Global, text: &str) -> Result<String, AllocError>
    ensures { IfOk result (λ word. string_bytes word ≡ spec.shell_word text.now) }
{
    if is_plain(text) {
        String::from_str(alloc, text)
    } else {
        quoted(alloc, text)
    }
}

/// Tests whether a text needs no quotation marks.
fn is_plain(text: &str) -> bool
    ensures { result ≡ spec.is_plain (chars text.now) }
{
    begins_plainly(text) && has_plain_characters(text)
}

/// Tests whether each character of a text means only itself to a shell.
fn has_plain_characters(text: &str) -> bool
    ensures { result ≡ spec.has_plain_characters (chars text.now) }
{
    text.chars().all(|c| is_plain_character(c))
}

/// Tests whether a text begins with another character than `-`.
fn begins_plainly(text: &str) -> bool
    ensures { result ≡ spec.begins_plainly (chars text.now) }
{
    if text.is_empty() {
        return false;
    }
    text.as_bytes()[0] != b'-'
}

/// Tests whether a character means only itself to a shell.
fn is_plain_character(c: char) -> bool
    ensures { result ≡ spec.is_plain_character c }
{
    c.is_ascii_alphanumeric() || c == '_' || c == '.' || c == '/' || c == '-'
}

/// Puts a text into quotation marks.
fn quoted(alloc: Global, text: &str) -> Result<String, AllocError>
    ensures { IfOk result (λ word. string_bytes word ≡ encode_utf8_all (spec.quoted (chars text.now))) }
{
    let mut word = String::new(alloc);
    word.push('\'')?;
    push_quoted(text, &mut word)?;
    word.push('\'')?;
    Ok(word)
}

/// Adds the characters of a text within quotation marks.
fn push_quoted(text: &str, word: &mut String) -> Result<(), AllocError>
    ensures { OnOk result (string_bytes word.new ≡ string_bytes word.old ++ encode_utf8_all (spec.all_in_quotes (chars text.now))) }
{
    for c in text.chars() {
        push_in_quotes(c, word)?;
    }
    Ok(())
}

/// Adds a character within quotation marks.
fn push_in_quotes(c: char, word: &mut String) -> Result<(), AllocError>
    ensures { OnOk result (string_bytes word.new ≡ string_bytes word.old ++ encode_utf8_all (spec.in_quotes c)) }
{
    if c == '\'' {
        word.push_str("'\\''")
    } else {
        word.push(c)
    }
}
