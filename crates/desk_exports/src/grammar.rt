//! The words of a line by what they are: directories, options with their values, and names. (exports(5))

ghost use Rattle.std.specs.Prelude.{◌≡◌, ◌≤◌, ◌++◌, ◌==◌, ◌||◌, ◌∷◌, [], IfOk, OnOk, drop, false, length, map, slice_index, if◌then◌else◌};
ghost use Rattle.std.specs.List.{list_any, prefix_len, slice_split};
ghost use Rattle.std.specs.Option.{option_copied};
ghost use Rattle.desk_text.specs.Path.{is_absolute, read_path};
ghost use Rattle.desk_text.specs.Views.{word_of};
ghost use Rattle.desk_text.specs.Word.{word_value};
ghost use Rattle.desk_exports.specs.Grammar as spec;
ghost use Rattle.desk_exports.specs.Options.{has_option};

use crate::few::Few;
use crate::names::Names;
use crate::options::{Keyword, Setting, has_option, wants_value};
use desk_text::{Path, PathFault, ReadError, Word, unquote};
use std::alloc::{AllocError, Global};
use std::borrow::CowStr;
use std::marker::Model;

/// The value of a word, in which quotes and escapes are resolved. A word that has none of them is borrowed.
#[derive(Drop)]
pub struct WordText<'a> {
    text: CowStr<'a>,
}

impl<'a> Model for WordText<'a> {
    ghost use Rattle.std.specs.Cow.{cow_str_bytes};
    ghost use Rattle.std.specs.Prelude.{List, ℕ};

    ghost Value = { List ℕ };

    ghost view = { λ value. cow_str_bytes value.text };
}

impl<'a> WordText<'a> {
    /// Reads the value of a raw word.
    pub fn read(alloc: Global, word: &Word<'a>) -> Result<WordText<'a>, AllocError>
        ensures { IfOk result (λ value. value ≡ word_value word.now.raw.now) }
    {
        let text = match word.plain() {
            Some(text) => CowStr::Borrowed(text),
            None => CowStr::Owned(unquote(alloc, word)?),
        };
        Ok(WordText { text })
    }

    /// Lends the value.
    pub fn as_str(&self) -> &str
        ensures { result.now ≡ self.now }
    {
        self.text.as_str()
    }
}

/// A word: whether its first raw character is `-`, whether that is `#`, and its value.
#[derive(Drop)]
pub struct GrammarWord<'a> {
    pub dashed: bool,
    pub begins_with_hash: bool,
    pub value: WordText<'a>,
}

impl<'a> GrammarWord<'a> {
    /// Reads a raw word.
    pub fn read(alloc: Global, word: &Word<'a>) -> Result<GrammarWord<'a>, AllocError>
        ensures { IfOk result (λ w. w ≡ spec.grammar_word (word_of word.now)) }
    {
        Ok(GrammarWord {
            dashed: word.dashed,
            begins_with_hash: begins_with_hash(word.raw),
            value: WordText::read(alloc, word)?,
        })
    }
}

fn begins_with_hash(raw: &str) -> bool
    ensures { result ≡ (slice_index raw.now 0 == 35) }
{
    let bytes = raw.as_bytes();
    !bytes.is_empty() && bytes[0] == b'#'
}

/// Reads raw words, in order.
pub fn grammar_words<'a>(
    alloc: Global,
    words: &[Word<'a>],
) -> Result<Vec<GrammarWord<'a>>, AllocError>
    ensures { IfOk result (λ v. v.items ≡ map spec.grammar_word (map word_of words.now)) }
{
    let mut read = Vec::with_capacity(alloc, words.len())?;
    grammar_words_into(alloc, &mut read, words)?;
    Ok(read)
}

/// Reads raw words, in order, in the room of a vector that had other words.
pub(crate) fn grammar_words_into<'a>(
    alloc: Global,
    read: &mut Vec<GrammarWord<'a>>,
    words: &[Word<'a>],
) -> Result<(), AllocError>
    ensures { OnOk result (read.new.items ≡ map spec.grammar_word (map word_of words.now)) }
{
    read.clear();
    for word in words {
        read.push(GrammarWord::read(alloc, word)?)?;
    }
    Ok(())
}

/// The words of a line by what they are.
#[derive(Drop)]
pub struct GrammarLine {
    /// Whether the first word is `V4:`, so that the line takes no part.
    pub is_v4: bool,
    /// Whether a word after the first begins with a raw `#`.
    pub has_stray_comment: bool,
    /// The leading words that begin with a slash, each with its path or that path's fault.
    pub directories: Few<Result<Path, PathFault>>,
    /// The options of the dashed words, with their values.
    pub settings: Few<Setting>,
    /// The words that are neither directories, dashed nor values.
    pub names: Names,
}

impl GrammarLine {
    /// Sorts words into directories, options and names.
    pub fn read(alloc: Global, words: &[GrammarWord]) -> Result<GrammarLine, AllocError>
        ensures { IfOk result (λ line. line ≡ spec.grammar_line words.now) }
    {
        let count = count_absolute(words);
        let directories = paths(alloc, &words[..count])?;
        let mut settings = Few::new();
        let mut names = Names::new();
        push_words(alloc, &mut settings, &mut names, &words[count..])?;
        Ok(GrammarLine {
            is_v4: is_v4(words),
            has_stray_comment: has_stray_comment(words),
            directories,
            settings,
            names,
        })
    }

    /// Lends the directories.
    pub(crate) fn directories(&self) -> &[Result<Path, PathFault>]
        ensures { result.now ≡ self.now.directories }
    {
        self.directories.as_slice()
    }

    /// Lends the options.
    pub(crate) fn settings(&self) -> &[Setting]
        ensures { result.now ≡ self.now.settings }
    {
        self.settings.as_slice()
    }

    /// Lends the names.
    pub(crate) fn names(&self) -> &Names
        ensures { result.now ≡ self.now.names }
    {
        &self.names
    }

    /// Tests whether an option is written.
    pub(crate) fn has(&self, keyword: Keyword) -> bool
        ensures { result ≡ has_option keyword self.now.settings }
    {
        has_option(self.settings(), keyword)
    }
}

/// Tests whether the first word is `V4:`.
fn is_v4(words: &[GrammarWord]) -> bool
    ensures { result ≡ spec.is_v4 words.now }
{
    match words.first() {
        Some(word) => word.value.as_str() == "V4:",
        None => false,
    }
}

pub(crate) fn count_absolute(words: &[GrammarWord]) -> usize
    ensures count { result ≡ prefix_len (λ w. is_absolute w.value) words.now }
    ensures fits { result ≤ length words.now }
{
    words
        .iter()
        .take_while(|word| is_absolute(word.value.as_str()))
        .count()
}

/// Tests whether a text begins with a slash.
pub(crate) fn is_absolute(text: &str) -> bool
    ensures { result ≡ is_absolute text.now }
{
    let bytes = text.as_bytes();
    !bytes.is_empty() && bytes[0] == b'/'
}

fn has_stray_comment(words: &[GrammarWord]) -> bool
    ensures { result ≡ list_any (λ w. w.begins_with_hash) (drop 1 words.now) }
{
    words.iter().skip(1).any(|word| word.begins_with_hash)
}

fn paths(alloc: Global, words: &[GrammarWord]) -> Result<Few<Result<Path, PathFault>>, AllocError>
    ensures { IfOk result (λ paths. paths ≡ map (λ w. read_path w.value) words.now) }
{
    let mut paths = Few::with_room(alloc, words.len())?;
    for word in words {
        paths.push(alloc, read_path(alloc, word.value.as_str())?)?;
    }
    Ok(paths)
}

/// Returns the path that a text writes, or its fault.
fn read_path(alloc: Global, text: &str) -> Result<Result<Path, PathFault>, AllocError>
    ensures { IfOk result (λ path. path ≡ read_path text.now) }
{
    ReadError::split(Path::read(alloc, text))
}

/// Adds the options and the names of words, the first of which is no option's value.
fn push_words(
    alloc: Global,
    settings: &mut Few<Setting>,
    names: &mut Names,
    words: &[GrammarWord],
) -> Result<(), AllocError>
    ensures settings { OnOk result (settings.new ≡ settings.old ++ spec.settings words.now) }
    ensures names { OnOk result (names.new ≡ names.old ++ spec.names false words.now) }
{
    let mut taken = false;
    for (index, word) in words.iter().enumerate() {
        taken = push_word(alloc, settings, names, word, taken, &words[index + 1..])?;
    }
    Ok(())
}

/// Adds the options of a word, behind which the others stand, or the name that it is unless it is taken as a value.
/// Returns whether it takes the next word, where that is not dashed, as a value.
fn push_word(
    alloc: Global,
    settings: &mut Few<Setting>,
    names: &mut Names,
    word: &GrammarWord,
    taken: bool,
    others: &[GrammarWord],
) -> Result<bool, AllocError>
    ensures settings { OnOk result (settings.new ≡ settings.old ++ spec.settings_at word.now others.now) }
    ensures names { OnOk result
        (names.new ≡ names.old ++ (if word.now.dashed || taken then [] else word.now.value ∷ [])) }
    ensures takes { IfOk result (λ takes. takes ≡ spec.takes_next word.now) }
{
    if word.dashed {
        let text = after_dash(word.value.as_str());
        return push_pieces(alloc, settings, offered(others), text);
    }
    if !taken {
        names.push(alloc, word.value.as_str())?;
    }
    Ok(false)
}

/// Returns the next word, if there is one and it is not dashed.
fn offered<'a>(words: &'a [GrammarWord<'_>]) -> Option<&'a str>
    ensures { option_copied result ≡ spec.offered words.now }
{
    match words {
        [word, ..] if !word.dashed => Some(word.value.as_str()),
        _ => None,
    }
}

/// Adds the option of each piece of a text; the last one alone is offered a value. Returns whether that one wants it.
fn push_pieces(
    alloc: Global,
    settings: &mut Few<Setting>,
    offer: Option<&str>,
    text: &str,
) -> Result<bool, AllocError>
    ensures settings { OnOk result
        (settings.new ≡ settings.old ++ spec.settings_of (option_copied offer.entry) (slice_split (λ b. b == 44) text.now)) }
    ensures wants { IfOk result (λ wants. wants ≡ spec.last_wants (slice_split (λ b. b == 44) text.now)) }
{
    let mut rest = text;
    while let Some((piece, behind)) = rest.split_once(',') {
        settings.push(alloc, Setting::read(alloc, None, piece)?)?;
        rest = behind;
    }
    let (last, wants) = Setting::read_offered(alloc, offer, rest)?;
    settings.push(alloc, last)?;
    Ok(wants)
}

/// Returns a text behind the dash that it begins with.
pub(crate) fn after_dash(text: &str) -> &str
    ensures { result.now ≡ spec.after_dash text.now }
{
    text.strip_prefix('-').unwrap_or(text)
}

/// Tests whether a word takes the next one, where that is not dashed, as a value.
pub(crate) fn takes_next(word: &GrammarWord) -> bool
    ensures { result ≡ spec.takes_next word.now }
{
    word.dashed && last_wants(after_dash(word.value.as_str()))
}

/// Tests whether the last piece of a text wants a value.
fn last_wants(text: &str) -> bool
    ensures { result ≡ spec.last_wants (slice_split (λ b. b == 44) text.now) }
{
    match text.rsplit_once(',') {
        Some((_, last)) => wants_value(last),
        None => wants_value(text),
    }
}
