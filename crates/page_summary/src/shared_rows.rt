//! The lines that stand out, in rows of those that are told alike.

ghost use Rattle.std.specs.Prelude.{◌≡◌, ◌++◌, [], ◌∷◌, IfOk, List, None, OnOk, Some, map, ℕ, if◌then◌else◌};
ghost use Rattle.std.specs.BTreeMap.{get_by_text};
ghost use Rattle.std.specs.List.{position_from};
ghost use Rattle.std.specs.Str.{bytes_eq};
ghost use Rattle.std.specs.String.{string_bytes};
ghost use Rattle.page_html.specs.Items.{Code};
ghost use Rattle.page_html.specs.Parts.{item_of};
ghost use Rattle.page_summary.specs.Findings.{row_value};
ghost use Rattle.page_summary.specs.PrivateSharedRows.{ArePlaced, is_told, with_line, with_line_at};
ghost use Rattle.page_summary.specs.SharedRows as spec;
ghost use Rattle.page_summary.specs.SharedRows.{AreSharedRows, told};

use crate::findings::FindingRow;
use desk_exports::{Clients, Names};
use desk_text::Sequence;
use page_findings::finding_parts;
use page_html::{Part, push_parts};
use std::alloc::{AllocError, Global};
use std::collections::BTreeMap;

/// Puts lines that stand out into rows of those that are told alike: in the order of the first line of each, and of their lines.
pub fn rows_of_findings<'a>(
    alloc: Global,
    lines: &[FindingRow<'a>],
) -> Result<Vec<Sequence<FindingRow<'a>>>, AllocError>
    ensures { IfOk result (λ rows. AreSharedRows lines.now rows.items) }
{
    let mut places = BTreeMap::new(alloc);
    let mut rows = Vec::new(alloc);
    for line in lines {
        let text = told_text(alloc, line)?;
        add_line(alloc, &mut places, &mut rows, text, line)?;
    }
    Ok(rows)
}

/// Adds a line to the row that is told by its text, or to a new one.
fn add_line<'a>(
    alloc: Global,
    places: &mut BTreeMap<String, usize>,
    rows: &mut Vec<Sequence<FindingRow<'a>>>,
    text: String,
    line: &FindingRow<'a>,
) -> Result<(), AllocError>
    requires placed { ArePlaced places.old rows.old.items }
    requires text { string_bytes text ≡ told line.now }
    ensures added { OnOk result (rows.new.items ≡ with_line line.now rows.old.items) }
    ensures placed { OnOk result (ArePlaced places.new rows.new.items) }
{
    match places.get(text.as_str()).copied() {
        Some(place) => push_at(rows, place, line),
        None => push_new(alloc, places, rows, text, line),
    }
}

/// Adds a line to the row at a place, if there is one.
fn push_at<'a>(
    rows: &mut Vec<Sequence<FindingRow<'a>>>,
    place: usize,
    line: &FindingRow<'a>,
) -> Result<(), AllocError>
    ensures { OnOk result (rows.new.items ≡ with_line_at place rows.old.items line.now) }
{
    if let Some(row) = rows.get_mut(place) {
        row.push(*line)?;
    }
    Ok(())
}

/// Adds a line in a row of its own, under a text by which no other is told.
fn push_new<'a>(
    alloc: Global,
    places: &mut BTreeMap<String, usize>,
    rows: &mut Vec<Sequence<FindingRow<'a>>>,
    text: String,
    line: &FindingRow<'a>,
) -> Result<(), AllocError>
    requires placed { ArePlaced places.old rows.old.items }
    requires text { string_bytes text ≡ told line.now }
    requires none { position_from (is_told (string_bytes text)) 0 rows.old.items ≡ None }
    ensures added { OnOk result (rows.new.items ≡ rows.old.items ++ (line.now ∷ []) ∷ []) }
    ensures placed { OnOk result (ArePlaced places.new rows.new.items) }
{
    let mut row = Sequence::new(alloc);
    row.push(*line)?;
    keep_place(places, text, rows.len())?;
    rows.push(row)?;
    Ok(())
}

/// Keeps the place of a row under its text.
fn keep_place(
    places: &mut BTreeMap<String, usize>,
    text: String,
    place: usize,
) -> Result<(), AllocError>
    ensures { OnOk result ((other : List ℕ) → get_by_text places.new other
        ≡ (if bytes_eq (string_bytes text) other then Some place else get_by_text places.old other)) }
{
    places.insert(text, place)?;
    Ok(())
}

/// Makes the text by which a line is told apart.
fn told_text(alloc: Global, line: &FindingRow<'_>) -> Result<String, AllocError>
    ensures { IfOk result (λ text. string_bytes text ≡ told line.now) }
{
    let parts = told_parts(alloc, line)?;
    let mut text = String::new(alloc);
    push_parts(alloc, parts.as_slice(), &mut text)?;
    Ok(text)
}

/// Gathers the parts of that text.
fn told_parts<'a>(alloc: Global, line: &FindingRow<'a>) -> Result<Vec<Part<'a>>, AllocError>
    ensures { IfOk result (λ parts. map item_of parts.items ≡ spec.told_of (row_value line.now) line.now.told.clients.now) }
{
    match line.told.clients {
        Clients::Hosts(names) => told_of_names(alloc, line, names),
        Clients::Net(_, _) | Clients::Net6(_) | Clients::World => place_of(alloc, line),
    }
}

/// Gathers those of a line for written names.
fn told_of_names<'a>(
    alloc: Global,
    line: &FindingRow<'a>,
    names: &'a Names,
) -> Result<Vec<Part<'a>>, AllocError>
    ensures { IfOk result (λ parts. map item_of parts.items ≡ spec.told_of_names (row_value line.now) names.now) }
{
    let mut parts = finding_parts(alloc, &line.told.finding)?;
    let grants = [
        Part::Break,
        Part::Terms(line.told.finding.terms),
        Part::Break,
        Part::Number(line.told.count),
        Part::Break,
    ];
    parts.extend_from_slice(&grants)?;
    push_names(names, &mut parts)?;
    Ok(parts)
}

/// Adds names.
fn push_names<'a>(names: &'a Names, parts: &mut Vec<Part<'a>>) -> Result<(), AllocError>
    ensures { OnOk result (map item_of parts.new.items ≡ map item_of parts.old.items ++ map Code names.now) }
{
    for index in 0..names.len() {
        parts.push(Part::Code(names.get(index)))?;
    }
    Ok(())
}

/// Gathers the part of any other line.
fn place_of<'a>(alloc: Global, line: &FindingRow<'a>) -> Result<Vec<Part<'a>>, AllocError>
    ensures { IfOk result (λ parts. map item_of parts.items ≡ spec.place_of (row_value line.now)) }
{
    let mut parts = Vec::new(alloc);
    parts.push(Part::LineLink(line.told.finding.fs, line.told.finding.line))?;
    Ok(parts)
}
