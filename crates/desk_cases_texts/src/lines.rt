//! Questions on logical lines and their words.

ghost use Rattle.desk_text.specs.Lines.{IsReadable};

use crate::answers::{Asked, add_texts, end_list, say, say_found};
use desk_text::{
    Line, OpenQuote, ReadError, Sequence, Text, Word, logical_lines, split_at, unquote, words,
};
use std::alloc::{AllocError, Global};

/// Answers a question on lines and words.
pub fn answer(alloc: Global, out: &mut String, question: &str, text: &str) -> Asked
    requires { IsReadable text.now }
{
    match question {
        "lines" | "physical_lines" | "words" | "values" => of_lines(alloc, out, question, text),
        "split_at_commas" => split_at_commas(alloc, out, text),
        "sequence" => sequence(alloc, out, text),
        _ => Ok(false),
    }
}

/// Answers a question on each logical line of a text; or `fault OpenQuote`.
fn of_lines(alloc: Global, out: &mut String, question: &str, text: &str) -> Asked
    requires { IsReadable text.now }
{
    match of_each_line(alloc, out, question, logical_lines(alloc, text)?.as_slice()) {
        Ok(()) => end_list(out),
        Err(ReadError::Fault(OpenQuote)) => say(out, "fault OpenQuote"),
        Err(ReadError::Memory) => Err(AllocError),
    }
}

fn of_each_line(
    alloc: Global,
    out: &mut String,
    question: &str,
    lines: &[Line],
) -> Result<(), ReadError<OpenQuote>> {
    for line in lines {
        of_line(alloc, out, question, line)?;
    }
    Ok(())
}

fn of_line(
    alloc: Global,
    out: &mut String,
    question: &str,
    line: &Line,
) -> Result<(), ReadError<OpenQuote>> {
    match question {
        "lines" => add_number(out, line)?,
        "physical_lines" => add_parts(out, line)?,
        _ => of_words(alloc, out, question, words(alloc, line)?.as_slice())?,
    }
    Ok(())
}

fn of_words(
    alloc: Global,
    out: &mut String,
    question: &str,
    words: &[Word],
) -> Result<(), AllocError> {
    if question == "words" {
        add_words(out, words)
    } else {
        add_values(alloc, out, words)
    }
}

/// `lines TEXT`: the numbers of its logical lines.
fn add_number(out: &mut String, line: &Line) -> Result<(), AllocError> {
    let number = line.number();
    write!(out, "{number} ")
}

/// `physical_lines TEXT`: those of its logical lines, each its place in the text and what it has before its continuation,
/// in brackets.
fn add_parts(out: &mut String, line: &Line) -> Result<(), AllocError> {
    for part in line.parts() {
        let (start, text) = (part.start, part.text);
        write!(out, "{start}[{text}] ")?;
    }
    Ok(())
}

/// `words TEXT`: the words of its logical lines, each its place in the text, a dash if it is dashed, and the word as it is
/// written, in brackets.
fn add_words(out: &mut String, words: &[Word]) -> Result<(), AllocError> {
    for word in words {
        let (start, raw) = (word.start, word.raw);
        let dash = if word.dashed { "-" } else { "" };
        write!(out, "{start}{dash}[{raw}] ")?;
    }
    Ok(())
}

/// `values TEXT`: what the words of its logical lines stand for, each in brackets.
fn add_values(alloc: Global, out: &mut String, words: &[Word]) -> Result<(), AllocError> {
    for word in words {
        add_in_brackets(out, unquote(alloc, word)?.as_str())?;
    }
    Ok(())
}

fn add_in_brackets(out: &mut String, text: &str) -> Result<(), AllocError> {
    write!(out, "[{text}] ")
}

/// `split_at_commas TEXT`: the texts between its commas, each in brackets.
fn split_at_commas(alloc: Global, out: &mut String, text: &str) -> Asked {
    add_each_in_brackets(out, split_at(alloc, text, ',')?.as_slice())?;
    end_list(out)
}

fn add_each_in_brackets(out: &mut String, texts: &[&str]) -> Result<(), AllocError> {
    for text in texts {
        add_in_brackets(out, text)?;
    }
    Ok(())
}

/// `sequence WORD WORD ..`: the list of these words, and how many it has when it is given away.
fn sequence(alloc: Global, out: &mut String, text: &str) -> Asked {
    let texts = sequence_of(alloc, text)?;
    add_texts(out, texts.as_slice())?;
    say_found(out, Some(texts.into_vec().len()))
}

fn sequence_of(alloc: Global, text: &str) -> Result<Sequence<Text>, AllocError> {
    let mut texts = Sequence::new(alloc);
    for word in text.split_whitespace() {
        texts.push(Text::copy(alloc, word)?)?;
    }
    Ok(texts)
}
