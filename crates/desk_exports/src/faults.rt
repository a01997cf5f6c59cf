//! Every fault of a text: each faulty line with the first rule that it breaks, and the place of the slice at fault.

ghost use Rattle.std.specs.Prelude.{◌≡◌, IfOk, IfSome, Ok, OnOk, map};
ghost use Rattle.std.specs.List.{All};
ghost use Rattle.std.specs.Option.{option_map};
ghost use Rattle.desk_text.specs.Lines.{IsReadable};
ghost use Rattle.desk_text.specs.Reading.{fault_of};
ghost use Rattle.desk_exports.specs.Faults.{IsPlaced};
ghost use Rattle.desk_exports.specs.Files as spec;
ghost use Rattle.desk_exports.specs.Places.{IsOnLine};
ghost use Rattle.desk_exports.specs.PrivateFaults.{AddsFault, IsFaultOn, words_fault};
ghost use Rattle.desk_exports.specs.Tables.{table_rows};

use crate::files::{Scope, home_of};
use crate::grammar::GrammarLine;
use crate::lines::{WordRoom, has_entry};
use crate::places::{place_at_fault, place_of_open_quote};
use crate::rules::Rule;
use crate::tables::Tables;
use desk_text::{Line, LineFault, Place, ReadError, Sequence, logical_lines};
use std::alloc::{AllocError, Global};

/// A faulty line with the first rule that it breaks, and the place of the slice at fault.
#[derive(Clone, Copy)]
pub struct PlacedFault {
    pub fault: LineFault<Rule>,
    pub place: Place,
}

/// Finds the faults of a text whose lines are read in this scope: all its faulty lines, in order, each with the first
/// rule that it breaks.
pub fn find_faults(
    alloc: Global,
    text: &str,
    tables: &Tables,
    scope: Scope,
) -> Result<Sequence<PlacedFault>, AllocError>
    requires { IsReadable text.now }
    ensures faults { IfOk result (λ found. map (λ one. one.fault) found ≡ spec.text_faults (table_rows tables.now) scope text.now) }
    ensures placed { IfOk result (All (IsPlaced text.now)) }
{
    let lines = logical_lines(alloc, text)?;
    let mut room = WordRoom::new(alloc);
    let mut found = Sequence::new(alloc);
    for line in &lines {
        push_fault(alloc, &mut room, line, tables, scope, &mut found)?;
    }
    Ok(found)
}

/// Adds the fault of a logical line, if it has one.
fn push_fault<'a>(
    alloc: Global,
    room: &mut WordRoom<'a>,
    line: &Line<'a>,
    tables: &Tables,
    scope: Scope,
    found: &mut Sequence<PlacedFault>,
) -> Result<(), AllocError>
    ensures { OnOk result
        (AddsFault found.old found.new line.now (spec.answered_line (spec.line_says (table_rows tables.now) scope) line.now)) }
{
    if let Some(fault) = line_fault(alloc, room, line, tables, scope)? {
        found.push(fault)?;
    }
    Ok(())
}

/// Finds the fault of a logical line, if it has one.
fn line_fault<'a>(
    alloc: Global,
    room: &mut WordRoom<'a>,
    line: &Line<'a>,
    tables: &Tables,
    scope: Scope,
) -> Result<Option<PlacedFault>, AllocError>
    ensures fault { IfOk result (λ found. option_map (λ one. one.fault) found
        ≡ fault_of (spec.answered_line (spec.line_says (table_rows tables.now) scope) line.now)) }
    ensures placed { IfOk result (λ found. IfSome found (IsFaultOn line.now)) }
{
    match ReadError::split(room.read_line(alloc, line))? {
        Ok(grammar) => {
            let found = words_fault(alloc, line, tables, scope, &grammar);
            drop(grammar);
            found
        }
        Err(_) => Ok(Some(make_fault(line, Rule::OpenQuote, place_of_open_quote(line)))),
    }
}

/// Finds the fault of a logical line whose quotes close, sorted into this.
fn words_fault(
    alloc: Global,
    line: &Line,
    tables: &Tables,
    scope: Scope,
    grammar: &GrammarLine,
) -> Result<Option<PlacedFault>, AllocError>
    ensures fault { IfOk result (λ found. option_map (λ one. one.fault) found
        ≡ words_fault (table_rows tables.now) scope line.now.number grammar.now) }
    ensures placed { IfOk result (λ found. IfSome found (IsFaultOn line.now)) }
{
    let own_fs = home_of(tables, scope, grammar);
    match has_entry(tables, own_fs, grammar) {
        Ok(_) => Ok(None),
        Err(rule) => {
            let place = place_at_fault(alloc, line, tables, own_fs, grammar, rule)?;
            Ok(Some(make_fault(line, rule, place)))
        }
    }
}

/// Makes the fault of a line that breaks this rule first.
fn make_fault(line: &Line, rule: Rule, place: Place) -> PlacedFault
    requires { IsOnLine line.now place }
    ensures fault { result.fault ≡ record { line = line.now.number; rule = rule } }
    ensures placed { IsFaultOn line.now result }
{
    PlacedFault {
        fault: LineFault {
            line: line.number(),
            rule,
        },
        place,
    }
}
