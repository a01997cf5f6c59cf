//! Where the words of a netgroup line stand: the one at which it breaks its rule, or its members.

ghost use Rattle.std.specs.Prelude.{◌≡◌, ◌<◌, IfOk, List, OnOk, ℕ, length};
ghost use Rattle.std.specs.List.{All, IsAmong};
ghost use Rattle.std.specs.Str.{IsCharBoundary};
ghost use Rattle.desk_text.specs.Lines.{logical_lines};
ghost use Rattle.desk_text.specs.Place.{IsOfLine, LiesIn};
ghost use Rattle.desk_netgroup.specs.Slices.{IsOnLine};

use crate::faults::{GroupFault, GroupRule, PlacedFault};
use crate::line::LONGEST_WORD;
use crate::token::{is_of_word, word_len};
use desk_text::{Line, Place, is_blank};
use std::alloc::{AllocError, Global};

/// A token: where it begins in the whole text, in bytes, and how it is written.
#[derive(Clone, Copy)]
struct Slice<'a> {
    start: usize,
    text: &'a str,
}

/// What may stand next in a line: its name, a member, or a part of a triple.
#[derive(Clone, Copy)]
enum Expected {
    Name,
    Member,
    Host,
    FirstComma,
    User,
    SecondComma,
    Domain,
    Close,
}

/// Adds the place of the slice at fault to the fault of a line: the `(` that is not closed, the word, or the token where
/// the form ends.
pub fn with_place(alloc: Global, line: &Line, fault: GroupFault) -> Result<PlacedFault, AllocError>
    ensures fault { IfOk result (λ placed. placed.fault ≡ fault) }
    ensures lies { IfOk result (λ placed. (text : List ℕ) → IsAmong (logical_lines text) line.now → LiesIn text placed.place) }
    ensures own { IfOk result (λ placed. (text : List ℕ) → IsAmong (logical_lines text) line.now → IsOfLine line.now placed.place) }
{
    let tokens = line_tokens(alloc, line)?;
    let slice = slice_at_fault(tokens.as_slice(), fault.rule);
    drop(tokens);
    let place = place_of(line, slice);
    Ok(PlacedFault { fault, place })
}

/// Lists the places of the members of a line, in order. A line that breaks a rule has those before the token where its form
/// ends.
pub fn member_places(alloc: Global, line: &Line) -> Result<Vec<Place>, AllocError>
    ensures { IfOk result (λ places. All (IsOnLine line.now) places.items) }
{
    let tokens = line_tokens(alloc, line)?;
    let places = places_of_members(alloc, line, tokens.as_slice());
    drop(tokens);
    places
}

/// Lists the places of the members among the tokens of a line.
fn places_of_members(alloc: Global, line: &Line, tokens: &[Slice]) -> Result<Vec<Place>, AllocError>
    ensures { IfOk result (λ places. All (IsOnLine line.now) places.items) }
{
    let mut places = Vec::new(alloc);
    let mut expected = Expected::Name;
    for token in tokens {
        push_if_member(line, expected, token, &mut places)?;
        match after_token(expected, first_byte(token)) {
            Some(next) => expected = next,
            None => return Ok(places),
        }
    }
    Ok(places)
}

/// Adds the place of a token, if it is a member where this may stand.
fn push_if_member(
    line: &Line,
    expected: Expected,
    token: &Slice,
    places: &mut Vec<Place>,
) -> Result<(), AllocError>
    requires { All (IsOnLine line.now) places.old.items }
    ensures { OnOk result (All (IsOnLine line.now) places.new.items) }
{
    if is_member(expected, token) {
        places.push(place_of(line, Some(*token)))?;
    }
    Ok(())
}

/// Tests whether a token is a member, if this is what may stand there: a host that is `-` is none.
fn is_member(expected: Expected, token: &Slice) -> bool {
    let is_word = is_of_word(first_byte(token));
    match expected {
        Expected::Member => is_word,
        Expected::Host => is_word && token.text != "-",
        _ => false,
    }
}

/// Makes the place of a slice, or of the first physical line of a logical line if there is none.
fn place_of(line: &Line, slice: Option<Slice>) -> Place
    ensures { IsOnLine line.now result }
{
    match slice {
        Some(slice) => Place::in_line(
            line,
            slice.start,
            slice.start.saturating_add(slice.text.len()),
        ),
        None => Place::of_first_line(line),
    }
}

/// Finds the token that breaks a rule.
fn slice_at_fault<'a>(tokens: &[Slice<'a>], rule: GroupRule) -> Option<Slice<'a>> {
    match rule {
        GroupRule::BadTriple => long_word(tokens).or(form_end(tokens)),
        GroupRule::Unclosed => open_parenthesis(tokens),
        GroupRule::Duplicate => tokens.first().copied(),
        GroupRule::StrayComment => stray_comment(tokens),
    }
}

fn long_word<'a>(tokens: &[Slice<'a>]) -> Option<Slice<'a>> {
    tokens
        .iter()
        .copied()
        .find(|token| token.text.len() > LONGEST_WORD)
}

/// Finds the first word after the first that begins with `#`.
fn stray_comment<'a>(tokens: &[Slice<'a>]) -> Option<Slice<'a>> {
    tokens
        .iter()
        .copied()
        .filter(|token| is_of_word(first_byte(token)))
        .skip(1)
        .find(|token| first_byte(token) == b'#')
}

/// Finds the first `(` that has no `)` after it.
fn open_parenthesis<'a>(tokens: &[Slice<'a>]) -> Option<Slice<'a>> {
    let mut open = None;
    for token in tokens {
        if first_byte(token) == b')' {
            open = None;
        } else if first_byte(token) == b'(' && open.is_none() {
            open = Some(*token);
        }
    }
    open
}

/// Finds the token where the tokens of a line leave the form of a name and its members, or the last one.
fn form_end<'a>(tokens: &[Slice<'a>]) -> Option<Slice<'a>> {
    let mut expected = Expected::Name;
    for token in tokens {
        match after_token(expected, first_byte(token)) {
            Some(next) => expected = next,
            None => return Some(*token),
        }
    }
    tokens.last().copied()
}

/// Tells what may stand behind a token that begins with this byte. If the token itself may not stand, there is nothing.
fn after_token(expected: Expected, first: u8) -> Option<Expected> {
    let is_word = is_of_word(first);
    match expected {
        Expected::Name if is_word => Some(Expected::Member),
        Expected::Member if is_word || first == b',' => Some(Expected::Member),
        Expected::Member if first == b'(' => Some(Expected::Host),
        Expected::Host if is_word => Some(Expected::FirstComma),
        Expected::Host | Expected::FirstComma if first == b',' => Some(Expected::User),
        Expected::User if is_word => Some(Expected::SecondComma),
        Expected::User | Expected::SecondComma if first == b',' => Some(Expected::Domain),
        Expected::Domain if is_word => Some(Expected::Close),
        Expected::Domain | Expected::Close if first == b')' => Some(Expected::Member),
        _ => None,
    }
}

/// Lists the tokens of a line.
fn line_tokens<'a>(alloc: Global, line: &Line<'a>) -> Result<Vec<Slice<'a>>, AllocError> {
    let mut tokens = Vec::new(alloc);
    for part in line.parts() {
        push_tokens(&mut tokens, part.start, part.text)?;
    }
    Ok(tokens)
}

/// Adds the tokens of a text that stands at this place.
fn push_tokens<'a>(
    tokens: &mut Vec<Slice<'a>>,
    start: usize,
    text: &'a str,
) -> Result<(), AllocError> {
    let mut rest = text;
    while !rest.is_empty() {
        let len = token_len(rest);
        let at = start.saturating_add(text.len()).saturating_sub(rest.len());
        if !is_blank(rest.as_bytes()[0]) {
            tokens.push(Slice {
                start: at,
                text: &rest[..len],
            })?;
        }
        rest = &rest[len..];
    }
    Ok(())
}

/// Counts the bytes of the token, or of the blank, that a text begins with.
fn token_len(text: &str) -> usize
    requires some { 0 < length text.now }
    ensures boundary { IsCharBoundary text.now result }
    ensures some { 0 < result }
{
    let len = word_len(text);
    if len > 0 {
        return len;
    }
    1
}

/// Returns the byte that a token begins with.
fn first_byte(token: &Slice) -> u8 {
    token.text.as_bytes().first().copied().unwrap_or(0)
}
