//! The cells of a row of lines that stand out.

ghost use Rattle.std.specs.Prelude.{◌≡◌, ◌++◌, ◌∷◌, IfOk, OnOk, length, map};
ghost use Rattle.std.specs.List.{flat_map};
ghost use Rattle.std.specs.String.{string_bytes};
ghost use Rattle.page_html.specs.Items.{Break, Own};
ghost use Rattle.page_html.specs.Parts.{item_of};
ghost use Rattle.page_html.specs.Tables.{frame_of, row_html};
ghost use Rattle.page_summary.specs.Findings as spec;
ghost use Rattle.page_summary.specs.Findings.{row_value};

use crate::findings::{FindingRow, SPACE};
use page_findings::{finding_parts, level_part};
use page_html::{Frame, Part, push_row};
use std::alloc::{AllocError, Global};

/// So many of the lines of a row are named.
const MOST_LINES: usize = 4;

/// Adds the row of lines that are told alike, if there are any.
pub(crate) fn push_lines(
    alloc: Global,
    frame: &Frame,
    lines: &[FindingRow<'_>],
    page: &mut String,
) -> Result<(), AllocError>
    requires { length frame.now.columns.now ≡ length spec.columns }
    ensures { OnOk result (string_bytes page.new ≡ string_bytes page.old ++ spec.lines_html (frame_of frame.now) lines.now) }
{
    match lines {
        [] => Ok(()),
        [first, ..] => push_first(alloc, frame, first, lines, page),
    }
}

/// Adds the row of lines, of which this is the first.
fn push_first(
    alloc: Global,
    frame: &Frame,
    first: &FindingRow<'_>,
    lines: &[FindingRow<'_>],
    page: &mut String,
) -> Result<(), AllocError>
    requires { length frame.now.columns.now ≡ length spec.columns }
    ensures { OnOk result (string_bytes page.new ≡ string_bytes page.old ++ row_html (frame_of frame.now) (spec.cells (row_value first.now) (map row_value lines.now))) }
{
    let places = places_parts(alloc, lines)?;
    let what = what_parts(alloc, first, lines.len())?;
    push_row(
        alloc,
        frame,
        &page_html::four_cells(
            &[level_part(first.told.finding.level())],
            places.as_slice(),
            what.as_slice(),
            &[Part::PartOf(first.told.count, SPACE)],
        ),
        page,
    )?;
    Ok(())
}

/// Gathers where the first of some lines stand, and how many more there are.
fn places_parts<'a>(alloc: Global, lines: &[FindingRow<'a>]) -> Result<Vec<Part<'a>>, AllocError>
    ensures { IfOk result (λ parts. map item_of parts.items ≡ spec.places (map row_value lines.now)) }
{
    let mut parts = Vec::new(alloc);
    let (named, others) = lines.split_at(MOST_LINES.min(lines.len()));
    push_places(named, &mut parts)?;
    parts.push(Part::AndMore(others.len() as u64))?;
    Ok(parts)
}

/// Adds where lines stand, with breaks between them.
fn push_places<'a>(lines: &[FindingRow<'a>], parts: &mut Vec<Part<'a>>) -> Result<(), AllocError>
    ensures { OnOk result (map item_of parts.new.items ≡ map item_of parts.old.items ++ spec.some_places (map row_value lines.now)) }
{
    match lines {
        [] => Ok(()),
        [first, others @ ..] => {
            push_place(first, parts)?;
            push_later_places(others, parts)
        }
    }
}

/// Adds where the lines behind the first stand.
fn push_later_places<'a>(
    lines: &[FindingRow<'a>],
    parts: &mut Vec<Part<'a>>,
) -> Result<(), AllocError>
    ensures { OnOk result (map item_of parts.new.items
        ≡ map item_of parts.old.items ++ flat_map (λ line. Own Break ∷ spec.place line) (map row_value lines.now)) }
{
    for line in lines {
        parts.push(Part::Break)?;
        push_place(line, parts)?;
    }
    Ok(())
}

/// Adds links to the file system of a line, and to the line.
fn push_place<'a>(line: &FindingRow<'a>, parts: &mut Vec<Part<'a>>) -> Result<(), AllocError>
    ensures { OnOk result (map item_of parts.new.items ≡ map item_of parts.old.items ++ spec.place (row_value line.now)) }
{
    let place = [
        Part::System(line.told.finding.fs, line.system),
        Part::Words(" "),
        Part::LineLink(line.told.finding.fs, line.told.finding.line),
    ];
    parts.extend_from_slice(&place)?;
    Ok(())
}

/// Gathers why so many lines stand out, and the first of them as written.
fn what_parts<'a>(
    alloc: Global,
    first: &FindingRow<'a>,
    count: usize,
) -> Result<Vec<Part<'a>>, AllocError>
    ensures { IfOk result (λ parts. map item_of parts.items ≡ spec.what (row_value first.now) count) }
{
    let mut parts = finding_parts(alloc, &first.told.finding)?;
    push_shared(count, &mut parts)?;
    parts.push(Part::Break)?;
    parts.push(Part::Line(first.text))?;
    Ok(parts)
}

/// Adds how many lines share a row, if more than one does.
fn push_shared<'a>(count: usize, parts: &mut Vec<Part<'a>>) -> Result<(), AllocError>
    ensures { OnOk result (map item_of parts.new.items ≡ map item_of parts.old.items ++ spec.shared count) }
{
    if count == 1 {
        Ok(())
    } else {
        push_count(count, parts)
    }
}

/// Adds how many lines share a row.
fn push_count<'a>(count: usize, parts: &mut Vec<Part<'a>>) -> Result<(), AllocError>
    ensures { OnOk result (map item_of parts.new.items ≡ map item_of parts.old.items ++ spec.shared_by count) }
{
    let shared = [
        Part::Break,
        Part::Number(count as u64),
        Part::Words(" lines for the same names, the first of them:"),
    ];
    parts.extend_from_slice(&shared)?;
    Ok(())
}
