//! What is said of a line beside the text of a file.

ghost use Rattle.std.specs.Prelude.{◌≡◌, ◌==◌, ◌<◌, find, map};
ghost use Rattle.std.specs.List.{AllPairs};
ghost use Rattle.page_html.specs.Parts.{item_of};
ghost use Rattle.page_filesystem.specs.Gutter as spec;

use page_data::Class;
use page_findings::badge_part;
use page_html::Part;

/// What a logical line does.
#[derive(Clone, Copy)]
pub enum Said {
    /// It grants something on terms of this class to so many addresses, and may be written for everybody.
    Grants {
        class: Class,
        for_everybody: bool,
        count: u64,
    },
    /// It matches no address.
    MatchesNobody,
    /// It decides nothing for the addresses that it matches.
    NeverDecides,
}

/// What is told of a line that is read: what it does, and whether it stands out.
#[derive(Clone, Copy)]
pub struct Told {
    pub said: Said,
    pub stands_out: bool,
}

/// A logical line by the number of its first physical line, and what is told of it, unless it is of NFS version 4, and is not read.
#[derive(Clone, Copy)]
pub struct Note {
    pub line: u32,
    pub told: Option<Told>,
}

/// Finds the note on a line, by a binary search.
pub(crate) fn note_on(notes: &[Note], line: u32) -> Option<Note>
    ensures { AllPairs (λ note later. note.line < later.line) notes.now → result ≡ find (λ note. note.line == line) notes.now }
{
    let place = notes.partition_point(|note| note.line < line);
    match notes.get(place) {
        Some(note) if note.line == line => Some(*note),
        _ => None,
    }
}

/// Returns what is said of a line, if something is.
pub(crate) fn said_parts<'a>(note: Option<Note>) -> [Part<'a>; 3]
    ensures { map item_of result ≡ spec.said_items note }
{
    match note {
        None => [Part::Nothing, Part::Nothing, Part::Nothing],
        Some(note) => told_parts(note.told),
    }
}

/// Returns what is said of a logical line.
fn told_parts<'a>(told: Option<Told>) -> [Part<'a>; 3]
    ensures { map item_of result ≡ spec.told_items told }
{
    match told {
        None => [Part::Zero("not read"), Part::Nothing, Part::Nothing],
        Some(told) => does(told.said),
    }
}

/// Returns what a line does.
fn does<'a>(said: Said) -> [Part<'a>; 3]
    ensures { map item_of result ≡ spec.does said }
{
    match said {
        Said::Grants {
            class,
            for_everybody: true,
            ..
        } => [
            badge_part(class),
            Part::Words(" "),
            Part::Strong("everybody"),
        ],
        Said::Grants { class, .. } => [badge_part(class), Part::Nothing, Part::Nothing],
        Said::MatchesNobody => [Part::Strong("matches nobody"), Part::Nothing, Part::Nothing],
        Said::NeverDecides => [Part::Strong("never decides"), Part::Nothing, Part::Nothing],
    }
}

/// Returns what is told of a line, if it begins a logical line that is read.
pub(crate) fn told_of(note: Option<Note>) -> Option<Told>
    ensures { result ≡ spec.told_of note }
{
    match note {
        Some(note) => note.told,
        None => None,
    }
}

/// Returns to how many addresses a line grants something, if it does.
pub(crate) fn count_part<'a>(told: Option<Told>) -> Part<'a>
    ensures { item_of result ≡ spec.count_item told }
{
    match told {
        Some(
            Told {
                said: Said::Grants { count, .. },
                ..
            },
        ) => Part::Number(count),
        _ => Part::Nothing,
    }
}

/// Tests whether a line stands out.
pub(crate) fn stands_out(told: Option<Told>) -> bool
    ensures { result ≡ spec.stands_out told }
{
    match told {
        Some(told) => told.stands_out,
        None => false,
    }
}
