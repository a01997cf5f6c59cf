//! The words of a line as texts: of the command line, or of the first line of standard input.

ghost use Rattle.std.specs.Prelude.{◌≡◌, ◌∷◌, IfOk, MatchResult, codes, map};
ghost use Rattle.cli_words.specs.LineWords as spec;
ghost use Rattle.cli_words.specs.LineWords.{IsBadWord};

use cli_output::failure::Failure;
use desk_text::is_blank;
use std::alloc::{AllocError, Global};
use std::convert::AsSlice;
use std::str;

/// Splits a line into its words, at blanks.
pub fn words_of(alloc: Global, line: &[u8]) -> Result<Vec<&[u8]>, AllocError>
    ensures { IfOk result (λ words. map (λ word. word.now) words.items ≡ spec.words_of line.now) }
{
    line.split(|byte| is_blank(*byte))
        .filter(|word| !word.is_empty())
        .collect(alloc)
}

/// Returns the texts of words behind the program's name, or the place of the first that is not UTF-8.
pub fn command_words<'a, S: AsSlice<u8>>(
    alloc: Global,
    words: &'a [S],
) -> Result<Vec<&'a str>, Failure>
    ensures { let given = map S.items words.now in
        MatchResult result (λ line. map (λ word. word.now) line.items ≡ codes "exportdesk" ∷ given) (IsBadWord given) }
{
    let mut line = Vec::new(alloc);
    line.push("exportdesk")?;
    for (index, word) in words.iter().enumerate() {
        match str::from_utf8(word.as_slice()) {
            Ok(text) => line.push(text)?,
            Err(_) => return Err(Failure::Word(index + 1)),
        }
    }
    Ok(line)
}
