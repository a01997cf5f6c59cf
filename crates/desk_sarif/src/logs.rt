//! A log of SARIF 2.1.0, the form that code hosts show beside a change, with its rules and its results; and their parts. The text is what
//! serde_json's definition of compact JSON says of the log. That a reader gives the same values back is only tested.

ghost use Rattle.std.specs.Prelude.{◌≡◌, ◌+◌, ◌++◌, IfOk, OnOk, false, length, map};
ghost use Rattle.std.specs.List.{flat_map};
ghost use Rattle.std.specs.Str.{chars};
ghost use Rattle.std.specs.String.{string_bytes};
ghost use Rattle.serde_json.specs.View.{items_of, view};
ghost use Rattle.serde_json.specs.Written.{compact_text, items_have_float};
ghost use Rattle.desk_sarif.specs.Logs as spec;

use crate::sarif_uri::uri_of;
use serde_json::{Value, json};
use std::alloc::{AllocError, Global};

/// Where a program that reads a log finds the form of one.
const SCHEMA: &str =
    "https://docs.oasis-open.org/sarif/sarif/v2.1.0/errata01/os/schemas/sarif-schema-2.1.0.json";

/// The version of this program, as `exportdesk --version` prints it.
const VERSION: &str = "1.1.0";

/// Prints a log that has these rules and results, in compact JSON and a line end. None of them has a float.
pub fn log_text(alloc: Global, rules: Vec<Value>, results: Vec<Value>) -> Result<String, AllocError>
    requires rules { items_have_float (items_of (map view rules.items)) ≡ false }
    requires results { items_have_float (items_of (map view results.items)) ≡ false }
    ensures { IfOk result (λ text. string_bytes text ≡ spec.log_text (map view rules.items) (map view results.items)) }
{
    let mut text = compact_log(alloc, rules, results)?;
    text.push('\n')?;
    Ok(text)
}

/// Writes a log.
fn compact_log(alloc: Global, rules: Vec<Value>, results: Vec<Value>) -> Result<String, AllocError>
    requires rules { items_have_float (items_of (map view rules.items)) ≡ false }
    requires results { items_have_float (items_of (map view results.items)) ≡ false }
    ensures { IfOk result (λ text. string_bytes text ≡ compact_text (spec.log_with (map view rules.items) (map view results.items))) }
{
    let value = log_value(alloc, rules, results)?;
    value.to_string(alloc)
}

/// Makes a log.
fn log_value(alloc: Global, rules: Vec<Value>, results: Vec<Value>) -> Result<Value, AllocError>
    ensures { IfOk result (λ value. view value ≡ spec.log_with (map view rules.items) (map view results.items)) }
{
    let run = run_value(alloc, rules, results)?;
    json!(in alloc; {"$schema": SCHEMA, "runs": [run], "version": "2.1.0"})
}

/// Makes the run of a log.
fn run_value(alloc: Global, rules: Vec<Value>, results: Vec<Value>) -> Result<Value, AllocError>
    ensures { IfOk result (λ value. view value ≡ spec.run_with (map view rules.items) (map view results.items)) }
{
    let driver = driver_value(alloc, rules)?;
    json!(in alloc; {
        "columnKind": "unicodeCodePoints",
        "results": results,
        "tool": {"driver": driver},
    })
}

/// Makes what a log says of the program.
fn driver_value(alloc: Global, rules: Vec<Value>) -> Result<Value, AllocError>
    ensures { IfOk result (λ value. view value ≡ spec.driver_with (map view rules.items)) }
{
    json!(in alloc; {"name": "exportdesk", "rules": rules, "version": VERSION})
}

/// Makes the region of a slice: its line, its column, and the column behind it, in characters from 1.
pub fn slice_region(
    alloc: Global,
    line: usize,
    start: usize,
    end: usize,
) -> Result<Value, AllocError>
    ensures { IfOk result (λ value. view value ≡ spec.slice_region line start end) }
{
    json!(in alloc; {"endColumn": end, "startColumn": start, "startLine": line})
}

/// Returns the column behind a slice that begins at this column. Only the slice is counted, so that the work stays linear when a long line
/// has many. (A line whose columns no number tells has no room in memory.)
pub fn column_behind(column: usize, slice: &str) -> Result<usize, AllocError>
    ensures { IfOk result (λ behind. behind ≡ column + length (chars slice.now)) }
{
    column
        .checked_add(count_characters(slice))
        .ok_or(AllocError)
}

/// Counts the characters of a text.
fn count_characters(text: &str) -> usize
    ensures { result ≡ length (chars text.now) }
{
    text.chars().count()
}

/// Makes a region of the file of a path.
pub fn place_value(alloc: Global, path: &str, region: Value) -> Result<Value, AllocError>
    ensures { IfOk result (λ value. view value ≡ spec.place_in path.now (view region)) }
{
    let uri = uri_of(alloc, path)?;
    json!(in alloc; {"artifactLocation": {"uri": uri}, "region": region})
}

/// Makes a line, as a whole, of the file of a path.
pub fn line_place(alloc: Global, path: &str, line: usize) -> Result<Value, AllocError>
    ensures { IfOk result (λ value. view value ≡ spec.line_place path.now line) }
{
    let region = json!(in alloc; {"startLine": line})?;
    place_value(alloc, path, region)
}

/// Makes the same with these words.
pub fn line_value(alloc: Global, path: &str, line: usize, words: &str) -> Result<Value, AllocError>
    ensures { IfOk result (λ value. view value ≡ spec.line_in words.now path.now line) }
{
    let place = line_place(alloc, path, line)?;
    json!(in alloc; {"message": {"text": words}, "physicalLocation": place})
}

/// Makes the message that says a text.
pub fn message_value(alloc: Global, text: &str) -> Result<Value, AllocError>
    ensures { IfOk result (λ value. view value ≡ spec.message_data text.now) }
{
    let mut message = String::new(alloc);
    push_in_message(text, &mut message)?;
    json!(in alloc; {"text": message})
}

/// Adds a text to a message, with each brace doubled: a single one would begin or end a placeholder.
fn push_in_message(text: &str, message: &mut String) -> Result<(), AllocError>
    ensures { OnOk result (string_bytes message.new ≡ string_bytes message.old ++ flat_map spec.in_message (chars text.now)) }
{
    for c in text.chars() {
        push_in_message_character(c, message)?;
    }
    Ok(())
}

/// Adds a character to a message.
fn push_in_message_character(c: char, message: &mut String) -> Result<(), AllocError>
    ensures { OnOk result (string_bytes message.new ≡ string_bytes message.old ++ spec.in_message c) }
{
    match c {
        '{' => message.push_str("{{"),
        '}' => message.push_str("}}"),
        _ => message.push(c),
    }
}
