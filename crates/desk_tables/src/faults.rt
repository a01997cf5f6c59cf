//! Every fault of a table: each faulty line with the first rule that it breaks, and the place of the slice at fault.

ghost use Rattle.std.specs.Prelude.{◌≡◌, IfOk, List, Option, Result, ℕ, map};
ghost use Rattle.std.specs.List.{All};
ghost use Rattle.desk_text.specs.Lines.{IsReadable};
ghost use Rattle.desk_text.specs.Place.{LiesWithin};
ghost use Rattle.desk_text.specs.Reading.{Reads};
ghost use Rattle.desk_tables.specs.Faults.{IsPlaced};
ghost use Rattle.desk_tables.specs.PrivateFaults.{HasSlice, broken_rule};
ghost use Rattle.desk_tables.specs.PrivateRows.{ReadsEachLine};
ghost use Rattle.desk_tables.specs.Rows.{text_faults};
ghost use Rattle.desk_tables.specs.declared.rules.TableRule.{TableRule};

use crate::rules::{TableFault, TableRule};
use desk_text::{LineFault, Place, ReadError, Sequence};
use std::alloc::{AllocError, Global};

/// A faulty line of a table with the first rule that it breaks, and the place of the slice at fault. A fault of the table
/// as a whole has line 0 and no place.
#[derive(Clone, Copy)]
pub struct PlacedFault {
    pub fault: TableFault,
    pub place: Option<Place>,
}

/// A slice of a line, by where it begins and ends, in bytes.
#[derive(Clone, Copy)]
pub(crate) struct Slice {
    pub start: usize,
    pub end: usize,
}

/// Finds the faults of a text of which each line is read by itself: all its faulty lines, in order, each with the first
/// rule that it breaks. `locate` finds the slice of a line that breaks a rule.
pub(crate) fn find_faults<
    Row: Drop,
    F: Fn(Global, &str) -> Result<Option<Row>, ReadError<TableRule>>,
    L: Fn(&str, TableRule) -> Slice,
>(alloc: Global, text: &str, read: F, locate: L) -> Result<Sequence<PlacedFault>, AllocError>
    requires callable { F.IsAlwaysCallable read }
    requires locates { L.IsAlwaysCallable locate }
    requires counted { IsReadable text.now }
    ensures faults { (answer : List ℕ → Result (Option Row) TableRule) → ReadsEachLine (F.post read) answer
        → IfOk result (λ found. map (λ one. one.fault) found ≡ text_faults answer text.now) }
    ensures placed { IfOk result (All (IsPlaced text.now)) }
{
    let mut found = Sequence::new(alloc);
    let mut number = 0;
    for line in text.lines() {
        number += 1;
        if let Some(rule) = broken_rule(read(alloc, line))? {
            found.push(PlacedFault {
                fault: LineFault { line: number, rule },
                place: Some(place_on(number, line, locate(line, rule))),
            })?;
        }
    }
    Ok(found)
}

/// Returns the rule that a line breaks, if it breaks one.
fn broken_rule<Row: Drop>(
    answer: Result<Option<Row>, ReadError<TableRule>>,
) -> Result<Option<TableRule>, AllocError>
    ensures { (spelled : Result (Option Row) TableRule) → Reads answer spelled
        → IfOk result (λ rule. rule ≡ broken_rule spelled) }
{
    match answer {
        Ok(row) => {
            drop(row);
            Ok(None)
        }
        Err(ReadError::Fault(rule)) => Ok(Some(rule)),
        Err(ReadError::Memory) => Err(AllocError),
    }
}

/// Makes the place of a slice of the line with this number. If the line has no such slice, it is that of the whole line.
fn place_on(number: u32, line: &str, slice: Slice) -> Place
    ensures line { result.line ≡ number }
    ensures exact { HasSlice line.now slice → result ≡ record { line = number; start = slice.start; end = slice.end } }
    ensures within { LiesWithin line.now result }
{
    if slice.start <= slice.end
        && line.is_char_boundary(slice.start)
        && line.is_char_boundary(slice.end)
    {
        Place {
            line: number,
            start: slice.start,
            end: slice.end,
        }
    } else {
        Place::of_line(number, line)
    }
}
