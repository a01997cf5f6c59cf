//! The words of a line of the hosts and networks files. (hosts(5), networks(5))

ghost use Rattle.std.specs.Prelude.{◌≡◌, ◌==◌, ◌++◌, IfOk, OnOk, map};
ghost use Rattle.std.specs.List.{before_first, list_any};
ghost use Rattle.desk_tables.specs.SpacedLines.{is_long_name, words_before_comment, words_of};
ghost use Rattle.desk_tables.specs.PrivateSpacedLines.{words_between_tabs};

use crate::faults::Slice;
use desk_text::{Sequence, Text, is_blank};
use std::alloc::{AllocError, Global};

/// Reads the words of a line up to its comment.
pub fn words_before_comment(alloc: Global, line: &str) -> Result<Vec<&str>, AllocError>
    ensures { IfOk result (λ v. map (λ x. x.now) v.items ≡ words_before_comment line.now) }
{
    words(alloc, before_comment(line))
}

/// Cuts the line before `#`.
fn before_comment(line: &str) -> &str
    ensures { result.now ≡ before_first (λ b. b == 35) line.now }
{
    match line.split_once('#') {
        Some((before, _)) => before,
        None => line,
    }
}

/// Reads the words between spaces and tabs.
fn words(alloc: Global, text: &str) -> Result<Vec<&str>, AllocError>
    ensures { IfOk result (λ v. map (λ x. x.now) v.items ≡ words_of text.now) }
{
    let mut words = Vec::new(alloc);
    for run in text.split(' ') {
        push_words(&mut words, run)?;
    }
    Ok(words)
}

/// Adds the words of a text without spaces.
fn push_words<'a>(words: &mut Vec<&'a str>, run: &'a str) -> Result<(), AllocError>
    ensures { OnOk result (map (λ x. x.now) words.new.items
        ≡ map (λ x. x.now) words.old.items ++ words_between_tabs run.now) }
{
    for word in run.split('\t') {
        if !word.is_empty() {
            words.push(word)?;
        }
    }
    Ok(())
}

/// Tests whether a name is over 255 bytes.
pub fn has_long_name(names: &[&str]) -> bool
    ensures { result ≡ list_any is_long_name (map (λ x. x.now) names.now) }
{
    any_is_long(names)
}

/// Tests whether a name is over 255 bytes. (Split off for its proof.)
fn any_is_long(names: &[&str]) -> bool
    ensures { result ≡ list_any (λ name. is_long_name name.now) names.now }
{
    names.iter().any(|name| is_long_name(name))
}

fn is_long_name(name: &str) -> bool
    ensures { result ≡ is_long_name name.now }
{
    name.len() > 255
}

/// Finds where the word at a place, from 0, begins and ends.
pub(crate) fn word_slice(line: &str, place: usize) -> Slice {
    nth_slice(before_comment(line), place, 1)
}

/// Finds where the first word of over 255 bytes begins and ends.
pub(crate) fn long_word_slice(line: &str) -> Slice {
    nth_slice(before_comment(line), 0, 256)
}

/// Finds where the word at a place, from 0, among those of at least so many bytes begins and ends. A text that has none
/// there has the last one.
fn nth_slice(text: &str, place: usize, least: usize) -> Slice {
    let bytes = text.as_bytes();
    let mut start = 0;
    let mut left = place;
    for (at, byte) in bytes.iter().enumerate() {
        if is_blank(*byte) {
            if at.saturating_sub(start) >= least {
                if left == 0 {
                    return Slice { start, end: at };
                }
                left -= 1;
            }
            start = at + 1;
        }
    }
    Slice {
        start,
        end: bytes.len(),
    }
}

/// Adds a copy of each name.
pub fn push_copies(
    alloc: Global,
    copies: &mut Sequence<Text>,
    names: &[&str],
) -> Result<(), AllocError>
    ensures { OnOk result (copies.new ≡ copies.old ++ map (λ x. x.now) names.now) }
{
    for name in names {
        copies.push(Text::copy(alloc, name)?)?;
    }
    Ok(())
}
