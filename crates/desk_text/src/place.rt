//! Places of slices of a text, as a message tells them: by physical line and column.

ghost use Rattle.std.specs.Prelude.{◌≡◌, ◌↔◌, ◌<◌, ◌^◌, ℕ, ◌+◌, IfSome, IsTrue, List, Some, is_some, length, slice_get, take};
ghost use Rattle.std.specs.List.{IsAmong};
ghost use Rattle.std.specs.Str.{chars};
ghost use Rattle.desk_text.specs.Lines.{PhysicalLine, logical_lines};
ghost use Rattle.desk_text.specs.Place.{HasSlice, IsOfLine, IsPlaceOf, LiesIn, LiesWithin};
ghost use Rattle.desk_text.specs.PrivatePlace.{IsOnPart};
ghost use Rattle.desk_text.specs.Views.{line_of_part};
ghost use Rattle.desk_text.specs.Word.{has_open_quote, line_has_open_quote};

use crate::lines::{Line, Part};
use crate::word::{Word, atom_len, is_special};

/// A slice of a text: its physical line, from 1, and where it begins and ends within that line, in bytes.
#[derive(Clone, Copy)]
pub struct Place {
    pub line: u32,
    pub start: usize,
    pub end: usize,
}

impl Place {
    /// Makes the place of a whole line, which is lent without its line end.
    pub fn of_line(line: u32, text: &str) -> Place
        ensures exact { result ≡ record { line = line; start = 0; end = length text.now } }
        ensures whole { LiesWithin text.now result }
    {
        Place {
            line,
            start: 0,
            end: text.len(),
        }
    }

    /// Makes the place of the first physical line of a logical line, whole.
    pub fn of_first_line(line: &Line) -> Place
        ensures lies { (text : List ℕ) → IsAmong (logical_lines text) line.now → LiesIn text result }
        ensures own { (text : List ℕ) → IsAmong (logical_lines text) line.now → IsOfLine line.now result }
    {
        first_line(line)
    }

    /// Makes the place of the slice of a text that begins and ends at these bytes of the whole text. If no physical line
    /// of this logical line has that slice, the place is that of the first one, whole.
    pub fn in_line(line: &Line, start: usize, end: usize) -> Place
        ensures exact { (index : ℕ) (part : PhysicalLine) → slice_get line.now.parts index ≡ Some part
            → HasSlice part start end → IsPlaceOf line.now start end result }
        ensures lies { (text : List ℕ) → IsAmong (logical_lines text) line.now → LiesIn text result }
        ensures own { (text : List ℕ) → IsAmong (logical_lines text) line.now → IsOfLine line.now result }
    {
        match near_place(line, start, end) {
            Some(place) => place,
            None => first_place(line, start, end),
        }
    }

    /// Makes the place of a word of a logical line.
    pub fn of_word(line: &Line, word: &Word) -> Place
        ensures exact { word.now.start + length word.now.raw.now < 2 ^ 64 → (index : ℕ) (part : PhysicalLine)
            → slice_get line.now.parts index ≡ Some part → HasSlice part word.now.start (word.now.start + length word.now.raw.now)
            → IsPlaceOf line.now word.now.start (word.now.start + length word.now.raw.now) result }
        ensures lies { (text : List ℕ) → IsAmong (logical_lines text) line.now → LiesIn text result }
        ensures own { (text : List ℕ) → IsAmong (logical_lines text) line.now → IsOfLine line.now result }
    {
        Place::in_line(line, word.start, word.start.saturating_add(word.raw.len()))
    }

    /// Makes the place of the first quote of a line that does not close: it goes on to the end of its physical line.
    pub fn of_open_quote(line: &Line) -> Option<Place>
        ensures found { is_some result ≡ line_has_open_quote line.now }
        ensures lies { IfSome result (λ place. (text : List ℕ) → IsAmong (logical_lines text) line.now → LiesIn text place) }
        ensures own { IfSome result (λ place. (text : List ℕ) → IsAmong (logical_lines text) line.now → IsOfLine line.now place) }
    {
        for part in line.parts() {
            if let Some(place) = open_quote_on(line, part) {
                return Some(place);
            }
        }
        None
    }

    /// Returns the column of the slice, from 1, in its line, which is lent without its line end.
    pub fn column(self, line: &str) -> usize
        requires { LiesWithin line.now self }
        ensures { result ≡ 1 + length (chars (take self.start line.now)) }
    {
        count_characters(&line[..self.start]) + 1
    }
}

fn count_characters(text: &str) -> usize
    ensures count { result ≡ length (chars text.now) }
    ensures fits { result + 1 < 2 ^ 64 }
{
    text.chars().count()
}

/// Makes the place of a slice on the last physical line that does not begin behind it, if that one has it. It is found
/// without looking at the others.
fn near_place(line: &Line, start: usize, end: usize) -> Option<Place>
    ensures { IfSome result (IsPlaceOf line.now start end) }
{
    let parts = line.parts();
    let behind = parts.partition_point(|part| part.start <= start);
    let index = behind.checked_sub(1)?;
    let part = parts.get(index)?;
    if !has_slice(part, start, end) {
        return None;
    }
    let number = line.number() + index as u32;
    Some(Place {
        line: number,
        start: start - part.start,
        end: end - part.start,
    })
}

/// Makes the place of a slice on the first physical line that has it, or of the first one, whole.
fn first_place(line: &Line, start: usize, end: usize) -> Place
    ensures exact { (index : ℕ) (part : PhysicalLine) → slice_get line.now.parts index ≡ Some part
        → HasSlice part start end → IsPlaceOf line.now start end result }
    ensures lies { (text : List ℕ) → IsAmong (logical_lines text) line.now → LiesIn text result }
    ensures own { (text : List ℕ) → IsAmong (logical_lines text) line.now → IsOfLine line.now result }
{
    for (index, part) in line.parts().iter().enumerate() {
        if has_slice(part, start, end) {
            return Place {
                line: line.number() + index as u32,
                start: start - part.start,
                end: end - part.start,
            };
        }
    }
    first_line(line)
}

/// Tests whether a physical line has the slice of the text that begins and ends at these bytes.
fn has_slice(part: &Part, start: usize, end: usize) -> bool
    ensures { IsTrue result ↔ HasSlice (line_of_part part.now) start end }
{
    part.start <= start
        && start <= end
        && part.whole.is_char_boundary(start - part.start)
        && part.whole.is_char_boundary(end - part.start)
}

/// Makes the place of the first physical line of a logical line.
fn first_line(line: &Line) -> Place
    ensures { (text : List ℕ) → IsAmong (logical_lines text) line.now → IsOnPart line.now result }
{
    match line.parts().first() {
        Some(part) => Place::of_line(line.number(), part.whole),
        None => Place::of_line(line.number(), ""),
    }
}

/// Makes the place of the first quote that does not close on a physical line of a logical line.
fn open_quote_on(line: &Line, part: &Part) -> Option<Place>
    requires { part.now.start + length part.now.text.now < 2 ^ 64 }
    ensures found { is_some result ≡ has_open_quote part.now.text.now }
    ensures lies { IfSome result (λ place. (text : List ℕ) → IsAmong (logical_lines text) line.now → LiesIn text place) }
    ensures own { IfSome result (λ place. (text : List ℕ) → IsAmong (logical_lines text) line.now → IsOfLine line.now place) }
{
    let at = find_open_quote(part.text)?;
    let end = part.start + part.text.len();
    Some(Place::in_line(line, part.start + at, end))
}

/// Finds the first quote of a text that does not close.
fn find_open_quote(text: &str) -> Option<usize>
    ensures found { is_some result ≡ has_open_quote text.now }
    ensures within { IfSome result (λ at. at < length text.now) }
{
    let bytes = text.as_bytes();
    let mut at = 0;
    while at < bytes.len() {
        if is_special(bytes[at]) {
            let Some(len) = atom_len(&bytes[at..]) else {
                return Some(at);
            };
            at += len;
        } else {
            at += 1;
        }
    }
    None
}
