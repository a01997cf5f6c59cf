//! To how many addresses each line grants something.

ghost use Rattle.std.specs.Prelude.{◌≡◌, ◌++◌, IfOk, OnOk, filter, map};
ghost use Rattle.desk_who.specs.Who.{range_value};
ghost use Rattle.desk_impact.specs.Sections.{section_value};
ghost use Rattle.page_data.specs.PrivateGrants as spec;
ghost use Rattle.page_data.specs.PrivateGrants.{AreByLine, counts_of, line_count, piece_of, piece_value, pieces_in, pieces_of};

use desk_impact::Section;
use desk_policy::{Row, Verdict};
use desk_text::Addr;
use desk_who::Range;
use std::alloc::{AllocError, Global};

/// A line, and to how many addresses it grants some directory.
#[derive(Clone, Copy)]
pub struct LineGrants {
    pub line: u32,
    pub count: u64,
}

/// A range of addresses to which a line grants a directory.
#[derive(Clone, Copy)]
pub(crate) struct Piece {
    pub line: u32,
    pub first: Addr,
    pub last: Addr,
}

/// Counts to how many addresses each of these lines grants something, given all verdicts at the places of their file system.
pub(crate) fn grants_of(
    alloc: Global,
    rows: &[Row],
    sections: &[Section<'_>],
) -> Result<Vec<LineGrants>, AllocError>
    ensures { IfOk result (λ found. map line_count found.items ≡ counts_of rows.now (pieces_of (map section_value sections.now))) }
{
    let mut pieces = pieces_of(alloc, sections)?;
    pieces.sort_by_key(|piece| piece.first.number())?;
    pieces.sort_by_key(|piece| piece.line)?;
    let mut found = Vec::with_capacity(alloc, rows.len())?;
    for row in rows {
        let line = row.entry.line;
        let count = covered(of_line(pieces.as_slice(), line));
        found.push(LineGrants { line, count })?;
    }
    Ok(found)
}

/// Gathers the ranges of addresses to which lines grant something, place by place.
fn pieces_of(alloc: Global, sections: &[Section<'_>]) -> Result<Vec<Piece>, AllocError>
    ensures { IfOk result (λ pieces. map piece_value pieces.items ≡ pieces_of (map section_value sections.now)) }
{
    let mut pieces = Vec::new(alloc);
    for section in sections {
        push_pieces(&mut pieces, section.ranges.as_slice())?;
    }
    Ok(pieces)
}

/// Adds those of a place.
fn push_pieces(pieces: &mut Vec<Piece>, ranges: &[Range<'_>]) -> Result<(), AllocError>
    ensures { OnOk result (map piece_value pieces.new.items ≡ map piece_value pieces.old.items ++ pieces_in (map range_value ranges.now)) }
{
    for range in ranges {
        push_piece(pieces, range)?;
    }
    Ok(())
}

/// Adds a range, if it is granted.
fn push_piece(pieces: &mut Vec<Piece>, range: &Range<'_>) -> Result<(), AllocError>
    ensures { OnOk result (map piece_value pieces.new.items ≡ map piece_value pieces.old.items ++ piece_of (range_value range.now)) }
{
    if let Verdict::Granted { line, .. } = range.value {
        pieces.push(Piece {
            line,
            first: range.first,
            last: range.last,
        })?;
    }
    Ok(())
}

/// Lends the pieces of a line, by two binary searches.
fn of_line(pieces: &[Piece], line: u32) -> &[Piece]
    requires { AreByLine (map piece_value pieces.now) }
    ensures { map piece_value result.now ≡ filter (spec.is_of_line line) (map piece_value pieces.now) }
{
    let end = pieces.partition_point(|piece| piece.line <= line);
    let below = &pieces[..end];
    let begin = below.partition_point(|piece| piece.line < line);
    &below[begin..]
}

/// Counts the addresses that pieces have together, which ascend by their first ones.
fn covered(pieces: &[Piece]) -> u64
    requires { spec.Ascend (map piece_value pieces.now) }
    ensures { result ≡ spec.covered (map piece_value pieces.now) }
{
    let mut count = 0u64;
    let mut behind = 0u64;
    for piece in pieces {
        let first = behind.max(u64::from(piece.first.number()));
        behind = behind.max(u64::from(piece.last.number()) + 1);
        count += behind.saturating_sub(first);
    }
    count
}
