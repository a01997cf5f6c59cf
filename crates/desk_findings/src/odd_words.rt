//! The words of an exports text that mountd(8) may read otherwise, and the lines of NFSv4.

ghost use Rattle.std.specs.Prelude.{◌≡◌, ◌++◌, ◌&&◌, IfOk, Ok, OnOk, map};
ghost use Rattle.desk_text.specs.Lines.{IsReadable};
ghost use Rattle.desk_text.specs.Views.{word_of};
ghost use Rattle.desk_findings.specs.CheckOdd.{odd_at};
ghost use Rattle.desk_findings.specs.OddWords as spec;
ghost use Rattle.desk_findings.specs.OddWords.{has_backslash, odd_backslashes, odd_if, odd_words, odd_words_of};

use crate::check_odd::{Among, Odd};
use crate::finding::Matter;
use desk_remarks::Remark;
use desk_text::{Line, ReadError, Word, logical_lines, unquote, words_into};
use std::alloc::{AllocError, Global};

/// Adds the words of an exports text that have a backslash, line by line, and if opinions are asked for each line of NFSv4.
pub fn add_odd_words(
    alloc: Global,
    text: &str,
    opinions: bool,
    odds: &mut Vec<Odd<'_>>,
) -> Result<(), AllocError>
    requires { IsReadable text.now }
    ensures { OnOk result (map odd_at odds.new.items ≡ map odd_at odds.old.items ++ odd_words opinions text.now) }
{
    let lines = logical_lines(alloc, text)?;
    let mut words = Vec::new(alloc);
    for line in &lines {
        add_words_of(alloc, line, opinions, &mut words, odds)?;
    }
    drop(words);
    drop(lines);
    Ok(())
}

/// Adds those of a line, whose words are cut into the room of these.
fn add_words_of<'t>(
    alloc: Global,
    line: &Line<'t>,
    opinions: bool,
    words: &mut Vec<Word<'t>>,
    odds: &mut Vec<Odd<'_>>,
) -> Result<(), AllocError>
    ensures { OnOk result (map odd_at odds.new.items ≡ map odd_at odds.old.items ++ odd_words_of opinions line.now) }
{
    match ReadError::split(words_into(words, line))? {
        Ok(()) => add_words(alloc, line.number(), words.as_slice(), opinions, odds),
        Err(_) => Ok(()),
    }
}

/// Adds those of the line of this number, which has these words.
fn add_words(
    alloc: Global,
    number: u32,
    words: &[Word],
    opinions: bool,
    odds: &mut Vec<Odd<'_>>,
) -> Result<(), AllocError>
    ensures { OnOk result (map odd_at odds.new.items ≡ map odd_at odds.old.items ++ spec.odd_words_in opinions number (Ok (map word_of words.now))) }
{
    add_backslashes(number, words, odds)?;
    let is_v4 = is_v4_told(alloc, words, opinions)?;
    add_if(is_v4, number, Remark::V4Line, 0, odds)
}

/// Adds the words of the line of this number that have a backslash.
fn add_backslashes(number: u32, words: &[Word], odds: &mut Vec<Odd<'_>>) -> Result<(), AllocError>
    ensures { OnOk result (map odd_at odds.new.items ≡ map odd_at odds.old.items ++ odd_backslashes number (map word_of words.now)) }
{
    for (index, word) in words.iter().enumerate() {
        add_if(
            has_backslash(word.raw),
            number,
            Remark::Backslash,
            index,
            odds,
        )?;
    }
    Ok(())
}

/// Adds a remark on the line of this number, at the word of this index, if it is made.
fn add_if(
    made: bool,
    number: u32,
    remark: Remark,
    index: usize,
    odds: &mut Vec<Odd<'_>>,
) -> Result<(), AllocError>
    ensures { OnOk result (map odd_at odds.new.items ≡ map odd_at odds.old.items ++ odd_if made number remark index) }
{
    if made {
        odds.push(Odd {
            line: number,
            matter: Matter::Remark(remark, None),
            among: Among::Words,
            index,
            directory: None,
        })?;
    }
    Ok(())
}

/// Tests whether a backslash stands in a word as it is written.
fn has_backslash(raw: &str) -> bool
    ensures { result ≡ has_backslash raw.now }
{
    raw.as_bytes().contains(&b'\\')
}

/// Tests whether opinions are asked for, and the first word stands for `V4:`.
fn is_v4_told(alloc: Global, words: &[Word], opinions: bool) -> Result<bool, AllocError>
    ensures { IfOk result (λ told. told ≡ (opinions && spec.begins_v4 (map word_of words.now))) }
{
    if opinions {
        begins_v4(alloc, words)
    } else {
        Ok(false)
    }
}

/// Tests whether the first word stands for `V4:`.
fn begins_v4(alloc: Global, words: &[Word]) -> Result<bool, AllocError>
    ensures { IfOk result (λ begins. begins ≡ spec.begins_v4 (map word_of words.now)) }
{
    match words.first() {
        Some(word) => {
            let value = unquote(alloc, word)?;
            Ok(value.as_str() == "V4:")
        }
        None => Ok(false),
    }
}
