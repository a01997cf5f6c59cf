//! The faults of a text of expectations, as they are printed: the line of one, and what `check` would print of each.

ghost use Rattle.std.specs.Prelude.{◌≡◌, ◌++◌, IfOk, OnOk, map};
ghost use Rattle.std.specs.List.{All};
ghost use Rattle.std.specs.String.{string_bytes};
ghost use Rattle.desk_text.specs.Place.{LiesWithin};
ghost use Rattle.cli_expectations.specs.FaultPrints as spec;
ghost use Rattle.cli_expectations.specs.PrivateFaultPrints as private;
ghost use Rattle.cli_expectations.specs.PrivateFaultPrints.{LiesAmong};

use desk_check::{push_marked_line, push_shown, push_word};
use desk_expect::{PlacedFault, Rule};
use desk_findings::line_at;
use desk_text::{LineFault, Place};
use std::alloc::{AllocError, Global};

/// Writes what `check` would print of faults of a text of these lines.
pub(crate) fn findings_text(
    alloc: Global,
    path: &str,
    lines: &[&str],
    found: &[PlacedFault],
) -> Result<String, AllocError>
    requires { All (LiesAmong (map (λ line. line.now) lines.now)) found.now }
    ensures { IfOk result (λ note. string_bytes note ≡ private.findings_among path.now (map (λ line. line.now) lines.now) found.now) }
{
    let mut note = String::new(alloc);
    for placed in found {
        push_finding(path, line_at(lines, placed.place.line), *placed, &mut note)?;
    }
    Ok(note)
}

/// Writes the line of a fault.
pub(crate) fn fault_text(alloc: Global, fault: LineFault<Rule>) -> Result<String, AllocError>
    ensures { IfOk result (λ text. string_bytes text ≡ spec.fault_line fault) }
{
    let mut text = String::new(alloc);
    push_line_number(fault.line, &mut text)?;
    push_broken_rule(fault.rule, &mut text)?;
    Ok(text)
}

/// Adds the number of the faulty line.
fn push_line_number(line: u32, text: &mut String) -> Result<(), AllocError>
    ensures { OnOk result (string_bytes text.new ≡ string_bytes text.old ++ spec.line_text line) }
{
    write!(text, "fault expectations line {line}")
}

/// Adds the rule that it breaks.
fn push_broken_rule(rule: Rule, text: &mut String) -> Result<(), AllocError>
    ensures { OnOk result (string_bytes text.new ≡ string_bytes text.old ++ spec.broken_rule rule) }
{
    let number = rule.number();
    let name = rule.name();
    write!(text, " rule {number} {name}\n")
}

/// Adds what `check` would print of a fault: where it is and what the slice breaks, and the line with carets under the slice.
fn push_finding(
    path: &str,
    line: &str,
    placed: PlacedFault,
    text: &mut String,
) -> Result<(), AllocError>
    requires { LiesWithin line.now placed.place }
    ensures { OnOk result (string_bytes text.new ≡ string_bytes text.old ++ spec.finding_text path.now line.now placed) }
{
    push_position(path, line, placed.place, text)?;
    push_rule(placed.fault.rule, text)?;
    push_slice(line, placed.place, text)?;
    push_said(placed.fault.rule, text)?;
    text.push('\n')?;
    push_marked_line(line, placed.place, text)?;
    Ok(())
}

/// Adds where a fault is: its path, line and column.
fn push_position(path: &str, line: &str, place: Place, text: &mut String) -> Result<(), AllocError>
    requires { LiesWithin line.now place }
    ensures { OnOk result (string_bytes text.new ≡ string_bytes text.old ++ spec.position_text path.now line.now place) }
{
    let number = place.line;
    let column = place.column(line);
    push_shown(path, text)?;
    write!(text, ":{number}:{column}: ")
}

/// Adds which rule it breaks.
fn push_rule(rule: Rule, text: &mut String) -> Result<(), AllocError>
    ensures { OnOk result (string_bytes text.new ≡ string_bytes text.old ++ spec.rule_text rule) }
{
    let number = rule.number();
    let name = rule.name();
    write!(text, "fault {number} {name}: ")
}

/// Adds the slice at fault, in quotes.
pub(crate) fn push_slice(line: &str, place: Place, text: &mut String) -> Result<(), AllocError>
    requires { LiesWithin line.now place }
    ensures { OnOk result (string_bytes text.new ≡ string_bytes text.old ++ spec.slice_text line.now place) }
{
    text.push('"')?;
    push_word(&line[place.start..place.end], text)?;
    text.push('"')
}

/// Adds what is said of it.
pub(crate) fn push_said(rule: Rule, text: &mut String) -> Result<(), AllocError>
    ensures { OnOk result (string_bytes text.new ≡ string_bytes text.old ++ spec.said_text rule) }
{
    let sentence = rule.sentence();
    write!(text, " {sentence}")
}
