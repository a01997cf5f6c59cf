//! The tokens of a netgroup line. (netgroup(5))

ghost use Rattle.std.specs.Prelude.{◌≡◌, ◌++◌, IfOk, OnOk};
ghost use Rattle.std.specs.List.{prefix_len};
ghost use Rattle.desk_netgroup.specs.Token as spec;
ghost use Rattle.desk_netgroup.specs.PrivateLine.{mark_tokens};

use desk_text::Text;
use std::alloc::{AllocError, Global};

/// A parenthesis, a comma, or a run of other characters without blanks.
#[derive(Drop)]
pub enum Token {
    Open,
    Close,
    Comma,
    Word(Text),
}

/// Cuts a text into its tokens.
pub fn tokens(alloc: Global, text: &str) -> Result<Vec<Token>, AllocError>
    ensures { IfOk result (λ v. v.items ≡ spec.tokens text.now) }
{
    let mut tokens = Vec::new(alloc);
    push_tokens(alloc, &mut tokens, text)?;
    Ok(tokens)
}

/// Adds the tokens of a text.
pub(crate) fn push_tokens(
    alloc: Global,
    tokens: &mut Vec<Token>,
    text: &str,
) -> Result<(), AllocError>
    ensures { OnOk result (tokens.new.items ≡ tokens.old.items ++ spec.tokens text.now) }
{
    let mut rest = text;
    while !rest.is_empty() {
        let len = word_len(rest);
        if len > 0 {
            let word = Text::copy(alloc, &rest[..len])?;
            tokens.push(Token::Word(word))?;
            rest = &rest[len..];
        } else {
            push_mark(tokens, rest.as_bytes()[0])?;
            rest = &rest[1..];
        }
    }
    Ok(())
}

/// Counts the bytes of the word that a text begins with.
pub(crate) fn word_len(text: &str) -> usize
    ensures { result ≡ prefix_len spec.is_of_word text.now }
{
    text.bytes().take_while(|c| is_of_word(*c)).count()
}

/// Adds a parenthesis or a comma; a blank is no token.
fn push_mark(tokens: &mut Vec<Token>, c: u8) -> Result<(), AllocError>
    ensures { OnOk result (tokens.new.items ≡ tokens.old.items ++ mark_tokens c) }
{
    match c {
        b'(' => tokens.push(Token::Open)?,
        b')' => tokens.push(Token::Close)?,
        b',' => tokens.push(Token::Comma)?,
        _ => {}
    }
    Ok(())
}

/// Tells whether a byte belongs to a word.
pub(crate) fn is_of_word(c: u8) -> bool
    ensures { result ≡ spec.is_of_word c }
{
    !(c == b' ' || c == b'\t' || c == b'(' || c == b')' || c == b',')
}
