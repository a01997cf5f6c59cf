//! The faults of a text of expectations, as a log of SARIF.

ghost use Rattle.std.specs.Prelude.{◌≡◌, ◌++◌, IfOk, OnOk, map};
ghost use Rattle.std.specs.List.{All};
ghost use Rattle.std.specs.String.{string_bytes};
ghost use Rattle.serde_json.specs.View.{view};
ghost use Rattle.desk_text.specs.Place.{LiesWithin};
ghost use Rattle.cli_expectations.specs.FaultsLog as spec;
ghost use Rattle.cli_expectations.specs.PrivateFaultPrints as private;
ghost use Rattle.cli_expectations.specs.PrivateFaultPrints.{LiesAmong};

use crate::fault_prints::{push_said, push_slice};
use crate::log_rules::{LogRule, all_rule_values};
use desk_expect::PlacedFault;
use desk_findings::line_at;
use desk_sarif::{column_behind, log_text, message_value, place_value, slice_region};
use desk_text::Place;
use serde_json::{Value, json};
use std::alloc::{AllocError, Global};

/// Prints faults of a text of these lines, of the file of a path, as the results of one log. A result has `level` (`error`), one of
/// `locations` (the region of the slice at fault), `message` and `ruleId`. Columns count characters from 1.
pub(crate) fn faults_log(
    alloc: Global,
    path: &str,
    lines: &[&str],
    found: &[PlacedFault],
) -> Result<String, AllocError>
    requires { All (LiesAmong (map (λ line. line.now) lines.now)) found.now }
    ensures { IfOk result (λ text. string_bytes text ≡ private.log_among path.now (map (λ line. line.now) lines.now) found.now) }
{
    let rules = all_rule_values(alloc)?;
    let results = fault_results(alloc, path, lines, found)?;
    log_text(alloc, rules, results)
}

/// Makes the results.
fn fault_results(
    alloc: Global,
    path: &str,
    lines: &[&str],
    found: &[PlacedFault],
) -> Result<Vec<Value>, AllocError>
    requires { All (LiesAmong (map (λ line. line.now) lines.now)) found.now }
    ensures { IfOk result (λ values. map view values.items ≡ map (private.result_among path.now (map (λ line. line.now) lines.now)) found.now) }
{
    let mut values = Vec::new(alloc);
    for placed in found {
        let value = fault_result(alloc, path, line_at(lines, placed.place.line), *placed)?;
        values.push(value)?;
    }
    Ok(values)
}

/// Makes the result of a fault.
fn fault_result(
    alloc: Global,
    path: &str,
    line: &str,
    placed: PlacedFault,
) -> Result<Value, AllocError>
    requires { LiesWithin line.now placed.place }
    ensures { IfOk result (λ value. view value ≡ spec.fault_result path.now line.now placed) }
{
    let region = fault_region(alloc, line, placed.place)?;
    let place = place_value(alloc, path, region)?;
    let message = fault_message(alloc, line, placed)?;
    let id = LogRule::Fault(placed.fault.rule).id(alloc)?;
    json!(in alloc; {
        "level": "error",
        "locations": [{"physicalLocation": place}],
        "message": message,
        "ruleId": id,
    })
}

/// Makes the region of a slice of a line.
fn fault_region(alloc: Global, line: &str, place: Place) -> Result<Value, AllocError>
    requires { LiesWithin line.now place }
    ensures { IfOk result (λ value. view value ≡ spec.fault_region line.now place) }
{
    let start = place.column(line);
    let end = column_behind(start, &line[place.start..place.end])?;
    slice_region(alloc, place.line as usize, start, end)
}

/// Makes the message of a fault.
fn fault_message(alloc: Global, line: &str, placed: PlacedFault) -> Result<Value, AllocError>
    requires { LiesWithin line.now placed.place }
    ensures { IfOk result (λ value. view value ≡ spec.fault_message line.now placed) }
{
    let mut told = String::new(alloc);
    push_slice(line, placed.place, &mut told)?;
    push_said(placed.fault.rule, &mut told)?;
    message_value(alloc, told.as_str())
}
