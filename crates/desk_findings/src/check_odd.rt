//! What `check` finds in texts without a fault: lines that contradict an earlier one, words that are odd, and what is said of lines.

ghost use Rattle.std.specs.Prelude.{◌≡◌, ℕ, ◌++◌, All, IfOk, IfSome, List, OnOk, Some, map, slice_get};
ghost use Rattle.std.specs.Option.{option_copied};
ghost use Rattle.std.specs.List.{AllZip, IsAmong};
ghost use Rattle.std.specs.List.Sorted.{IsNonDecreasingBy, IsPermutation};
ghost use Rattle.desk_text.specs.Lines.{AreNumberedUp, IsReadable, LogicalLine, logical_lines};
ghost use Rattle.desk_text.specs.Views.{word_of};
ghost use Rattle.desk_policy.specs.Policy.{AreAscending};
ghost use Rattle.desk_findings.specs.CheckFaults.{Adds};
ghost use Rattle.desk_findings.specs.CheckOdd.{AreContradictionsIn, IsOfWord, IsOn, IsSpot, TellInOrder, TellOdds, odd_at, odd_of_contradiction, odd_of_remark, odd_of_spot, odd_of_warning, odds_of, tell_spot};
ghost use Rattle.desk_findings.specs.PrivateCheckOdd.{AreOfWords, AreWordsIn};
ghost use Rattle.desk_findings.specs.Told.{told};
ghost use Rattle.desk_findings.specs.declared.check_odd.Among.TheVariants.{Words};

use crate::check_faults::{Front, Source, finding_behind, lines_of};
use crate::finding::{Finding, Matter};
use desk_exports::client_places;
use desk_netgroup::member_places;
use desk_policy::{Contradiction, Row, Warning, contradictions};
use desk_remarks::LineRemark;
use desk_text::{Line, Path, Place, ReadError, Sequence, Word, logical_lines, words};
use std::alloc::{AllocError, Global};

/// What an odd word of a line is counted among.
#[derive(Clone, Copy, PartialEq, Eq)]
pub enum Among {
    /// All words, as exports files and the text of the file systems have them.
    Words,
    /// The clients that an exports line writes: its names, or its network.
    Clients,
    /// The members of a netgroup line.
    Members,
}

/// What is odd about the line of this number, the word that it is told at (the one of this index, from 0), and the directory that it
/// is about, if it is about one.
#[derive(Clone, Copy)]
pub struct Odd<'r> {
    pub line: u32,
    pub matter: Matter,
    pub among: Among,
    pub index: usize,
    pub directory: Option<&'r Path>,
}

/// What is odd about the line of this number, at the place of the word that it is told at; none if the text has no such line.
#[derive(Clone, Copy)]
pub struct Spot<'r> {
    pub line: u32,
    pub place: Option<Place>,
    pub matter: Matter,
    pub among: Among,
    pub index: usize,
    pub directory: Option<&'r Path>,
}

/// Where the words of the line of this number stand that the last odd one is among.
#[derive(Drop)]
struct PlacedWords {
    line: u32,
    among: Among,
    places: Vec<Place>,
}

/// Adds these contradictions, warnings and remarks of a text, in the order of their lines. The warnings count their words among
/// these.
pub fn push_odds<'a>(
    alloc: Global,
    source: Source<'a>,
    among: Among,
    contradictions: &[Contradiction],
    warnings: &[Warning],
    remarks: &[LineRemark],
    found: &mut Sequence<Finding<'a>>,
) -> Result<(), AllocError>
    requires { IsReadable source.text.now }
    ensures { OnOk result (Adds (TellOdds among source.entry contradictions.now warnings.now remarks.now) found.old found.new) }
{
    let odds = odds_of(alloc, among, contradictions, warnings, remarks)?;
    push_in_order(alloc, source, odds, found)?;
    Ok(())
}

/// Adds what is odd about a text, in the order of its lines.
pub fn push_in_order<'a>(
    alloc: Global,
    source: Source<'a>,
    odds: Vec<Odd<'_>>,
    found: &mut Sequence<Finding<'a>>,
) -> Result<(), AllocError>
    requires { IsReadable source.text.now }
    ensures { OnOk result (Adds (TellInOrder source.entry (map odd_at odds.entry.items)) found.old found.new) }
{
    let odds = by_line(odds)?;
    let spots = spots_of(alloc, source.text, odds.as_slice())?;
    push_spots(alloc, source, spots.as_slice(), found)?;
    Ok(())
}

/// Lists the contradictions of each file system.
pub fn contradictions_in(
    alloc: Global,
    files: &[Sequence<Row>],
) -> Result<Sequence<Contradiction>, AllocError>
    requires { All AreAscending files.now }
    ensures { IfOk result (AreContradictionsIn files.now) }
{
    let mut found = Sequence::new(alloc);
    for rows in files {
        let more = contradictions(alloc, rows.as_slice())?;
        push_contradictions(more.as_slice(), &mut found)?;
    }
    Ok(found)
}

/// Adds contradictions.
fn push_contradictions(
    more: &[Contradiction],
    found: &mut Sequence<Contradiction>,
) -> Result<(), AllocError>
    ensures { OnOk result (found.new ≡ found.old ++ more.now) }
{
    for one in more {
        found.push(*one)?;
    }
    Ok(())
}

/// Lists what contradictions, warnings and remarks say. The warnings count their words among these.
pub fn odds_of<'r>(
    alloc: Global,
    among: Among,
    contradictions: &[Contradiction],
    warnings: &[Warning],
    remarks: &'r [LineRemark],
) -> Result<Vec<Odd<'r>>, AllocError>
    ensures { IfOk result (λ odds. map odd_at odds.items ≡ odds_of among contradictions.now warnings.now remarks.now) }
{
    let mut odds = odds_of_contradictions(alloc, contradictions)?;
    add_warnings(among, warnings, &mut odds)?;
    add_remarks(remarks, &mut odds)?;
    Ok(odds)
}

/// Adds what warnings say. They count their words among these.
fn add_warnings(
    among: Among,
    warnings: &[Warning],
    odds: &mut Vec<Odd<'_>>,
) -> Result<(), AllocError>
    ensures { OnOk result (map odd_at odds.new.items ≡ map odd_at odds.old.items ++ map (odd_of_warning among) warnings.now) }
{
    for warning in warnings {
        odds.push(Odd {
            line: warning.line,
            matter: Matter::Warning(warning.kind),
            among,
            index: warning.index,
            directory: None,
        })?;
    }
    Ok(())
}

/// Adds what remarks say, each at the first word of its line.
fn add_remarks<'r>(remarks: &'r [LineRemark], odds: &mut Vec<Odd<'r>>) -> Result<(), AllocError>
    ensures { OnOk result (map odd_at odds.new.items ≡ map odd_at odds.old.items ++ map odd_of_remark remarks.now) }
{
    for one in remarks {
        odds.push(Odd {
            line: one.line,
            matter: Matter::Remark(one.remark, one.example),
            among: Among::Words,
            index: 0,
            directory: one.directory.as_ref(),
        })?;
    }
    Ok(())
}

/// Lists what contradictions say, each at the first word of its line.
fn odds_of_contradictions<'r>(
    alloc: Global,
    contradictions: &[Contradiction],
) -> Result<Vec<Odd<'r>>, AllocError>
    ensures { IfOk result (λ odds. map odd_at odds.items ≡ map odd_of_contradiction contradictions.now) }
{
    let mut odds = Vec::new(alloc);
    for one in contradictions {
        odds.push(Odd {
            line: one.line,
            matter: Matter::Contradiction(one.other, one.address),
            among: Among::Words,
            index: 0,
            directory: None,
        })?;
    }
    Ok(odds)
}

/// Puts what is odd into the order of its lines.
fn by_line<'r>(mut odds: Vec<Odd<'r>>) -> Result<Vec<Odd<'r>>, AllocError>
    ensures same { IfOk result (λ sorted. IsPermutation odds.entry.items sorted.items) }
    ensures order { IfOk result (λ sorted. IsNonDecreasingBy (λ (odd : Odd). odd.line) sorted.items) }
{
    odds.sort_by_key(|odd| odd.line)?;
    Ok(odds)
}

/// Finds the place of each remark about a text, in the order of their lines.
fn spots_of<'r>(alloc: Global, text: &str, odds: &[Odd<'r>]) -> Result<Vec<Spot<'r>>, AllocError>
    requires { IsReadable text.now }
    ensures same { IfOk result (λ spots. map odd_of_spot spots.items ≡ map odd_at odds.now) }
    ensures places { IfOk result (λ spots. All (IsSpot text.now) spots.items) }
{
    let lines = logical_lines(alloc, text)?;
    let mut spots = Vec::new(alloc);
    let mut last = PlacedWords {
        line: 0,
        among: Among::Clients,
        places: Vec::new(alloc),
    };
    for odd in odds {
        spots.push(spot_of(alloc, lines.as_slice(), *odd, &mut last)?)?;
    }
    drop(last);
    drop(lines);
    Ok(spots)
}

/// Finds the place of what is odd in these lines.
fn spot_of<'r>(
    alloc: Global,
    lines: &[Line],
    odd: Odd<'r>,
    last: &mut PlacedWords,
) -> Result<Spot<'r>, AllocError>
    requires numbered { AreNumberedUp lines.now }
    requires last { AreWordsIn lines.now last.old }
    ensures same { IfOk result (λ spot. odd_of_spot spot ≡ odd_at odd.entry) }
    ensures place { IfOk result (λ spot. (text : List ℕ) → lines.now ≡ logical_lines text → IsSpot text spot) }
    ensures last { OnOk result (AreWordsIn lines.now last.new) }
{
    let Some(line) = line_numbered(lines, odd.line) else {
        return Ok(spot_at(odd, None));
    };
    place_words(alloc, line, odd.among, last)?;
    match last.places.get(odd.index) {
        Some(place) => Ok(spot_at(odd, Some(*place))),
        None => Ok(spot_at(odd, Some(Place::of_first_line(line)))),
    }
}

/// Finds where these words of a line stand, unless they were placed last.
fn place_words(
    alloc: Global,
    line: &Line,
    among: Among,
    last: &mut PlacedWords,
) -> Result<(), AllocError>
    ensures line { OnOk result (last.new.line ≡ line.now.number) }
    ensures among { OnOk result (last.new.among ≡ among) }
    ensures places { OnOk result ((lines : List LogicalLine) → AreNumberedUp lines → IsAmong lines line.now → AreWordsIn lines last.old → AreWordsIn lines last.new) }
{
    if last.line == line.number() && last.among == among {
        return Ok(());
    }
    let places = word_places(alloc, line, among)?;
    *last = PlacedWords {
        line: line.number(),
        among,
        places,
    };
    Ok(())
}

/// Finds the line of this number.
fn line_numbered<'a, 't>(lines: &'a [Line<'t>], number: u32) -> Option<&'a Line<'t>>
    requires { AreNumberedUp lines.now }
    ensures number { IfSome result (λ line. line.now.number ≡ number) }
    ensures member { IfSome result (λ line. IsAmong lines.now line.now) }
    ensures found { (line : LogicalLine) → IsAmong lines.now line → line.number ≡ number → option_copied result ≡ Some line }
{
    let at = lines.partition_point(|line| line.number() < number);
    line_at(lines, at, number)
}

/// Lends the line at a place of these, if it has this number.
fn line_at<'a, 't>(lines: &'a [Line<'t>], at: usize, number: u32) -> Option<&'a Line<'t>>
    ensures number { IfSome result (λ line. line.now.number ≡ number) }
    ensures member { IfSome result (λ line. IsAmong lines.now line.now) }
    ensures found { (line : LogicalLine) → slice_get lines.now at ≡ Some line → line.number ≡ number → option_copied result ≡ Some line }
{
    match lines.get(at) {
        Some(line) => {
            if line.number() == number {
                Some(line)
            } else {
                None
            }
        }
        None => None,
    }
}

/// Lists the places of these words of a line.
fn word_places(alloc: Global, line: &Line, among: Among) -> Result<Vec<Place>, AllocError>
    ensures on { IfOk result (λ places. (text : List ℕ) → IsAmong (logical_lines text) line.now → All (IsOn text line.now) places.items) }
    ensures words { IfOk result (λ places. AreOfWords line.now among places.items) }
{
    match among {
        Among::Words => all_places(alloc, line),
        Among::Clients => client_places(alloc, line),
        Among::Members => member_places(alloc, line),
    }
}

/// Lists the places of all words of a line. There are none if a quote does not close.
fn all_places(alloc: Global, line: &Line) -> Result<Vec<Place>, AllocError>
    ensures on { IfOk result (λ places. (text : List ℕ) → IsAmong (logical_lines text) line.now → All (IsOn text line.now) places.items) }
    ensures words { IfOk result (λ places. AreOfWords line.now Words places.items) }
{
    match ReadError::split(words(alloc, line))? {
        Ok(words) => {
            let places = places_of(alloc, line, words.as_slice());
            drop(words);
            places
        }
        Err(_) => Ok(Vec::new(alloc)),
    }
}

/// Lists the places of words of a line.
fn places_of(alloc: Global, line: &Line, words: &[Word]) -> Result<Vec<Place>, AllocError>
    ensures on { IfOk result (λ places. (text : List ℕ) → IsAmong (logical_lines text) line.now → All (IsOn text line.now) places.items) }
    ensures words { IfOk result (λ places. AllZip (λ word place. IsOfWord line.now place word) (map word_of words.now) places.items) }
{
    let mut places = Vec::new(alloc);
    for word in words {
        places.push(Place::of_word(line, word))?;
    }
    Ok(places)
}

/// Makes the spot of what is odd at this place.
fn spot_at<'r>(odd: Odd<'r>, place: Option<Place>) -> Spot<'r>
    ensures { result ≡ record { line = odd.entry.line; place = place; matter = odd.entry.matter; among = odd.entry.among; index = odd.entry.index; directory = odd.entry.directory } }
{
    Spot {
        line: odd.line,
        place,
        matter: odd.matter,
        among: odd.among,
        index: odd.index,
        directory: odd.directory,
    }
}

/// Adds the findings of these spots.
fn push_spots<'a>(
    alloc: Global,
    source: Source<'a>,
    spots: &[Spot<'_>],
    found: &mut Sequence<Finding<'a>>,
) -> Result<(), AllocError>
    ensures { OnOk result (map told found.new ≡ map told found.old ++ map (tell_spot source.entry) spots.now) }
{
    let lines = lines_of(alloc, source.text)?;
    let mut front = Front {
        line: 0,
        bytes: 0,
        characters: 0,
    };
    for spot in spots {
        let directory = copied(spot.directory)?;
        let finding = finding_behind(
            source,
            lines.as_slice(),
            spot.place,
            spot.matter,
            directory,
            &mut front,
        );
        found.push(finding)?;
    }
    Ok(())
}

/// Copies a path, if there is one.
fn copied(path: Option<&Path>) -> Result<Option<Path>, AllocError>
    ensures { IfOk result (λ copy. copy ≡ option_copied path.entry) }
{
    match path {
        Some(path) => Ok(Some(path.clone()?)),
        None => Ok(None),
    }
}
